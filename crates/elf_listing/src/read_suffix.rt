//! The version after the name of a symbol.
ghost use Rattle.std.specs.Prelude.{◌≡◌, ◌==◌, ◌<◌, ◌≤◌, ◌+◌, not, length};
ghost use Rattle.elf_listing.specs.Suffixed.{FetchesSuffix, SuffixesWithin};
ghost use Rattle.elf_listing.specs.SuffixNames.{FetchesNamed, FetchesWord, FetchesInto};
ghost use Rattle.elf_table.specs.Tables.{StringsInBounds};

use crate::listing::Listing;
use crate::suffixes::VersionLookup;
use elf_note::{NameIndex, VersionNameRef};
use elf_record::{Cause, u16_at, version_number};
use elf_source::{Sink, Source};
use elf_table::{Fault, NameBuf, NameEnd, fill, refused};

/// The version after a name, as read.
#[derive(Clone, Copy)]
pub struct VersionSuffixEnd {
    /// Whether it is the default version of the name.
    pub is_default: bool,
    /// How the version's name ends.
    pub end: NameEnd,
}

impl<S: Source, W: Sink> Listing<'_, '_, '_, '_, S, W> {
    /// Reads into `version` the name of the version of the symbol at an index, which is defined or
    /// not; returns `None` for version indices 0 and 1. The name read before is kept.
    ///
    /// # Errors
    /// - `VersionCut` at the section of version indices if it has no entry for the symbol.
    /// - `VersionIndex` at the entry if no record names its index.
    /// - The fault of the name, at the record that holds it.
    /// - A read fault.
    pub(crate) fn read_suffix(
        &mut self,
        suffixes: &VersionLookup,
        index: u64,
        is_defined: bool,
        version: &mut NameBuf,
    ) -> Result<Option<VersionSuffixEnd>, Fault>
        requires { SuffixesWithin self.old.src.now.seen.size suffixes.now }
        ensures { FetchesSuffix self.old self.new version.new result suffixes.now index is_defined }
    {
        if index >= suffixes.words.len() {
            return refused(suffixes.at, Cause::VersionCut);
        }
        let at = suffixes.words.place(index);
        let word = self.read_word(at)?;
        let number = version_number(word);
        if number < 2 {
            return Ok(None);
        }
        let end = self.read_number(suffixes, number, at, version)?;
        let is_default = word == number && is_defined;
        Ok(Some(VersionSuffixEnd { is_default, end }))
    }

    /// Reads the entry at a file offset.
    fn read_word(&mut self, at: u64) -> Result<u16, Fault>
        requires { at + 2 ≤ self.old.src.now.seen.size }
        ensures { FetchesWord self.old self.new result at }
    {
        let mut bytes = [0; 2];
        fill(self.src, at, &mut bytes)?;
        Ok(u16_at(&bytes, 0))
    }

    /// Reads the name of a version index, whose entry is at a file offset.
    fn read_number(
        &mut self,
        suffixes: &VersionLookup,
        number: u16,
        at: u64,
        version: &mut NameBuf,
    ) -> Result<NameEnd, Fault>
        requires { SuffixesWithin self.old.src.now.seen.size suffixes.now }
        ensures { FetchesNamed self.old self.new version.new result suffixes.now number at }
    {
        match suffixes.numbered.names.name(number) {
            VersionNameRef::Nowhere => refused(at, Cause::VersionIndex),
            VersionNameRef::Defined(index) => self.read_into(
                NameIndex {
                    names: suffixes.numbered.defined,
                    off: u64::from(index),
                    at: suffixes.places[usize::from(number)],
                },
                version,
            ),
            VersionNameRef::Needed(index) => self.read_into(
                NameIndex {
                    names: suffixes.numbered.needed,
                    off: u64::from(index),
                    at: suffixes.places[usize::from(number)],
                },
                version,
            ),
        }
    }

    /// Reads the name at an index of a string table into a buffer.
    fn read_into(&mut self, index: NameIndex, name: &mut NameBuf) -> Result<NameEnd, Fault>
        requires { StringsInBounds self.old.src.now.seen.size index.names }
        ensures { FetchesInto self.old self.new name.new result index.names index.off index.at }
    {
        self.ahead.name(self.src, index, self.style.cap, name)
    }
}
