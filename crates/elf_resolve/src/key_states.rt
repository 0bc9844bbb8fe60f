//! What a link says of a key.
ghost use Rattle.std.specs.Prelude.{◌≡◌, [], get_or};
ghost use Rattle.elf_model.specs.LinkLines.{linker_defines};
ghost use Rattle.elf_resolve.specs.FoundStates.{found_word, has_offer_lines, is_fault_state, is_multiple_state};
ghost use Rattle.elf_resolve.specs.KeyFinds.{entry_held, state_found, state_undefined};
ghost use Rattle.elf_resolve.specs.KeyStates.{IsOwnState};
ghost use Rattle.elf_resolve.specs.LinkerNames.{output_of};
ghost use Rattle.elf_resolve.specs.Lines.{FitsColumn};

use crate::linker_names::{bounded_section, is_linker_name};
use crate::resolver::Resolver;
use elf_model::{KeyEntry, KeyState};

/// What a link says of a key.
#[derive(Clone, Copy, PartialEq, Eq)]
pub(crate) enum FoundState {
    /// An object defines it.
    Defined,
    /// An object has a weak definition of it.
    WeakDefined,
    /// It is a common.
    Common,
    /// A shared library defines it.
    Shared,
    /// Objects define it more than once.
    Multiple,
    /// It is not defined, and an archive or a library that comes too early has it.
    Order,
    /// It is not defined.
    Undefined,
    /// It is not defined, and only weakly referenced.
    Weak,
    /// The linker defines it.
    Linker,
    /// It is not defined, and only an argument or a dropped section asks for it.
    Unused,
}

impl FoundState {
    /// Returns the word for a state in a line.
    pub(crate) fn word(self) -> &'static str
        ensures word { result.now ≡ found_word self }
        ensures short { FitsColumn result.now }
    {
        match self {
            FoundState::Defined => "defined",
            FoundState::WeakDefined => "weakdef",
            FoundState::Common => "common",
            FoundState::Shared => "shared",
            FoundState::Multiple => "multiple",
            FoundState::Order => "order",
            FoundState::Undefined => "undef",
            FoundState::Weak => "weak",
            FoundState::Linker => "linker",
            FoundState::Unused => "unused",
        }
    }

    /// Returns `true` if it is a fault of the link.
    pub(crate) fn is_fault(self) -> bool
        ensures { result ≡ is_fault_state self }
    {
        matches!(
            self,
            FoundState::Multiple | FoundState::Order | FoundState::Undefined
        )
    }

    /// Returns `true` if objects define the key more than once.
    pub(crate) fn is_multiple(self) -> bool
        ensures { result ≡ is_multiple_state self }
    {
        matches!(self, FoundState::Multiple)
    }

    /// Returns `true` if lines follow of the archives and libraries that have the key.
    pub(crate) fn has_offers(self) -> bool
        ensures { result ≡ has_offer_lines self }
    {
        matches!(
            self,
            FoundState::Order | FoundState::Undefined | FoundState::Weak
        )
    }
}

impl Resolver<'_> {
    /// Returns the entry of a key at the end: an object's definition of a name defines its default
    /// version too, though a shared library defines that.
    pub(crate) fn settled(&self, key: u32) -> KeyEntry
        ensures { IsOwnState (entry_held self.now key).state → result ≡ entry_held self.now key }
    {
        let entry = self.link.keys.entry(key);
        if !matches!(entry.state, KeyState::Shared(_)) {
            return entry;
        }
        let Some(default) = self.room.tables.marks.get(key).default_key else {
            return entry;
        };
        let other = self.link.keys.entry(default);
        match other.state {
            KeyState::Defined | KeyState::WeakDefined => KeyEntry {
                state: other.state,
                row: other.row,
                ..entry
            },
            _ => entry,
        }
    }

    /// Returns what the link says of a key, by the entry that [`Resolver::settled`] returns.
    pub(crate) fn state_of(&self, key: u32, entry: &KeyEntry) -> FoundState
        ensures { result ≡ state_found self.now key entry.now }
    {
        match entry.state {
            KeyState::Shared(_) => FoundState::Shared,
            KeyState::Defined => {
                if self.further.first(key).is_some() {
                    return FoundState::Multiple;
                }
                FoundState::Defined
            }
            KeyState::WeakDefined => FoundState::WeakDefined,
            KeyState::Common(_) => FoundState::Common,
            KeyState::New | KeyState::Weak => self.undefined(key, entry, false),
            KeyState::Undefined => self.undefined(key, entry, true),
        }
    }

    /// Returns what the link says of a key that no file defines, and that is referenced, other than
    /// weakly, if it is asked for.
    fn undefined(&self, key: u32, entry: &KeyEntry, is_asked: bool) -> FoundState
        ensures { result ≡ state_undefined self.now key entry.now is_asked }
    {
        if self.is_of_linker(key) {
            return FoundState::Linker;
        }
        if !is_asked {
            return FoundState::Weak;
        }
        if entry.reference.is_none() && entry.weak_reference.is_none() {
            return FoundState::Unused;
        }
        if self.offers.first(key).is_some() || self.spare.first(key).is_some() {
            return FoundState::Order;
        }
        FoundState::Undefined
    }

    /// Returns `true` if the linker defines a key.
    fn is_of_linker(&self, key: u32) -> bool
        ensures { result ≡ linker_defines (output_of self.now.output) self.now.link.keys.keys
            (get_or self.now.link.keys.keys.names key []) }
    {
        let name = self.link.keys.name(key);
        if is_linker_name(name, self.output) {
            return true;
        }
        match bounded_section(name) {
            Some(section) => self.link.keys.entry_named(section).is_section,
            None => false,
        }
    }
}
