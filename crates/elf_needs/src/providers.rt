//! Which object of a program a needed name leads to.

ghost use Rattle.std.specs.Prelude.{◌≡◌};
ghost use Rattle.elf_model.specs.NeededVersions.{index_of_provider};
ghost use Rattle.elf_needs.specs.Providers.{as_provider, is_needed, provider_of};

use crate::known_object::{ObjectList, is_text};

/// What the entries for a needed name lead to.
#[derive(Clone, Copy)]
pub(crate) enum LibraryProvider {
    /// No object, or there is no such entry.
    NoObject,
    /// The interpreter of the program, which is no object.
    Interpreter,
    /// The object of an index.
    Object(u16),
}

impl LibraryProvider {
    /// Returns the index of the object, if it is one.
    pub(crate) fn index(self) -> Option<u16>
        ensures { result ≡ index_of_provider (as_provider self) }
    {
        match self {
            LibraryProvider::Object(index) => Some(index),
            LibraryProvider::NoObject | LibraryProvider::Interpreter => None,
        }
    }
}

impl ObjectList {
    /// Returns what the DT_NEEDED entries for a name lead to, of any object.
    pub(crate) fn provider(&self, name: &[u8]) -> LibraryProvider
        ensures { as_provider result ≡ provider_of self.now name.now }
    {
        if self.is_needed(name) {
            if let Some(index) = self.called(name) {
                return LibraryProvider::Object(index);
            }
        }
        if self.is_interpreter_name(name) {
            return LibraryProvider::Interpreter;
        }
        LibraryProvider::NoObject
    }

    /// Returns `true` if a DT_NEEDED entry has a name, of any object.
    fn is_needed(&self, name: &[u8]) -> bool
        ensures { result ≡ is_needed self.now name.now }
    {
        for place in 0..self.links.needs() {
            let Some(need) = self.links.need(place) else {
                break;
            };
            if is_text(Some(self.links.text(need.name)), name) {
                return true;
            }
        }
        false
    }
}
