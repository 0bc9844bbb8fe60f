//! The lookup of the versions after the names of symbols.
ghost use Rattle.elf_listing.specs.Suffixed.{FetchesSuffixes, IsUnfilled, lookup_found};

use crate::listing::Listing;
use crate::numbered::VersionStrings;
use elf_note::ALL_PLACES;
use elf_record::sizes::SYMBOL_VERSION_BYTES;
use elf_source::{Sink, Source};
use elf_table::{Fault, Table};

/// The lookup of the versions of the symbols of a table (Linux Standard Base Core, Symbol
/// Versioning).
#[derive(Drop)]
pub struct VersionLookup {
    /// The version indices, one entry per symbol.
    pub words: Table,
    /// The file offset of the section header of the version indices.
    pub at: u64,
    /// Where the names of the version indices are.
    pub numbered: VersionStrings,
    /// The file offset of the record that names each version index.
    pub places: [u64; ALL_PLACES],
}

impl VersionLookup {
    /// Creates a lookup to fill: it names no version index.
    #[inline(never)]
    pub(crate) fn new() -> VersionLookup
        ensures { IsUnfilled result }
    {
        VersionLookup {
            words: Table::new(0, 0, SYMBOL_VERSION_BYTES),
            at: 0,
            numbered: VersionStrings::new(),
            places: [0; ALL_PLACES],
        }
    }
}

impl<S: Source, W: Sink> Listing<'_, '_, '_, '_, S, W> {
    /// Finds the versions of the given number of symbols, in the table of a section, and returns
    /// whether there are any: not if there is no symbol, or if no section of version indices links
    /// to the table. It fills the lookup in place, which is too large to be returned.
    ///
    /// # Errors
    /// The first check that fails of the section of version indices; then of the first section of
    /// definitions, or an invalid definition, and the same for the needs. A read fault.
    pub(crate) fn suffixes(
        &mut self,
        lookup: &mut VersionLookup,
        table: u32,
        symbols: u64,
    ) -> Result<bool, Fault>
        requires { IsUnfilled lookup.old }
        ensures { let found = lookup_found result lookup.new in
            FetchesSuffixes self.old self.new found table symbols }
    {
        if symbols == 0 {
            return Ok(false);
        }
        let Some(section) = self.file.version_numbers_of(table) else {
            return Ok(false);
        };
        let found = self.file.symbol_versions(section)?;
        let (words, _) = found;
        lookup.words = words;
        lookup.at = self.file.place(section);
        self.numbered(&mut lookup.numbered, &mut lookup.places)?;
        Ok(true)
    }
}
