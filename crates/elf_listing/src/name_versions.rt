//! The versions after the names of symbols.
ghost use Rattle.std.specs.Prelude.{◌≡◌, ◌≤◌, ℕ, List, [], Option, None as NoLookup, Some as TheLookup, IfSome, length};
ghost use Rattle.elf_listing.specs.Suffixed.{FetchesVersionBy, SuffixesWithin};
ghost use Rattle.elf_listing.specs.declared.suffixes.VersionLookup.{VersionLookup as Lookup};

use crate::listing::Listing;
use crate::read_suffix::VersionSuffixEnd;
use crate::suffixes::VersionLookup;
use elf_source::{Sink, Source};
use elf_table::{Fault, NameBuf};

/// The versions after names, known at compile time if there are none: then nothing is read for
/// them, and no memory is taken.
pub trait NameVersions {
    /// The version lookup, if there is one.
    ghost lookup: { Self → Option Lookup };

    /// The bytes of the version that was read last.
    ghost name: { Self → List ℕ };

    /// Reads the version of the symbol at an index; returns `None` if it has none.
    ///
    /// # Errors
    /// As for `Listing::read_suffix`.
    fn read<S: Source, W: Sink>(
        &mut self,
        listing: &mut Listing<'_, '_, '_, '_, S, W>,
        index: u64,
        is_defined: bool,
    ) -> Result<Option<VersionSuffixEnd>, Fault>
        requires { IfSome (lookup self.old) (SuffixesWithin listing.old.src.now.seen.size) }
        ensures keeps { lookup self.new ≡ lookup self.old }
        ensures reads { let version = name self.new in FetchesVersionBy listing.old listing.new
            version result (lookup self.old) index is_defined };

    /// Returns the bytes of the version that was read last.
    fn bytes(&self) -> &[u8]
        ensures value { result.now ≡ name self.now }
        ensures fits { length result.now ≤ 4096 };
}

/// No versions.
#[derive(Clone, Copy)]
pub struct NoVersions;

/// The versions that a lookup finds.
#[derive(Drop)]
pub struct FoundVersions<'v> {
    /// The lookup of the versions.
    pub lookup: &'v VersionLookup,
    /// The version that was read last.
    pub name: NameBuf,
}

impl NameVersions for NoVersions {
    ghost lookup = { λ versions. NoLookup };

    ghost name = { λ versions. [] };

    fn read<S: Source, W: Sink>(
        &mut self,
        _listing: &mut Listing<'_, '_, '_, '_, S, W>,
        _index: u64,
        _is_defined: bool,
    ) -> Result<Option<VersionSuffixEnd>, Fault> {
        Ok(None)
    }

    fn bytes(&self) -> &[u8] {
        &[]
    }
}

impl<'v> NameVersions for FoundVersions<'v> {
    ghost lookup = { λ versions. TheLookup versions.lookup.now };

    ghost name = { λ versions. versions.name };

    fn read<S: Source, W: Sink>(
        &mut self,
        listing: &mut Listing<'_, '_, '_, '_, S, W>,
        index: u64,
        is_defined: bool,
    ) -> Result<Option<VersionSuffixEnd>, Fault> {
        listing.read_suffix(self.lookup, index, is_defined, &mut self.name)
    }

    fn bytes(&self) -> &[u8] {
        self.name.bytes()
    }
}
