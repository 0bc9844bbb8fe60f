//! The versions of the symbols of sections.
ghost use Rattle.std.specs.Prelude.{◌≡◌, ◌<◌, length, min};
ghost use Rattle.elf_model.specs.VersionRows.{symbol_versions};
ghost use Rattle.elf_model.specs.declared.versions.VersionKind.TheVariants.{Need};
ghost use Rattle.elf_table.specs.Tables.{TableInBounds};
ghost use Rattle.elf_listing.specs.Numbered.{NumberedWithin};
ghost use Rattle.elf_listing.specs.Parts.{AreRecordsListed, of_sections};
ghost use Rattle.elf_listing.specs.SymbolVersions.{FetchesNumbers, IsUnnamed, ListsVersioned, NumbersTaken, TakesRecords, filled};

use crate::listed_kind::ListedKind;
use crate::listing::Listing;
use crate::name_versions::NoVersions;
use crate::numbered::{VersionIndices, VersionStrings};
use crate::table_rows::list_rows;
use crate::version_records::section_type;
use elf_note::{VersionCursor, VersionNames};
use elf_record::gnu_numbers::SHT_GNU_VERSYM;
use elf_record::sizes::SYMBOL_VERSION_BYTES;
use elf_record::{Cause, Parts, Refusal, VersionKind};
use elf_source::{Sink, Source};
use elf_table::{Fault, Names, RunFault, Table};

/// The versions of the symbols of sections, an `X` line each; finally the section's refusal if a
/// symbol has no entry (Linux Standard Base Core, Symbol Versioning). The rows of all definitions
/// and needs were shown without a fault.
pub struct SymbolVersions;

impl ListedKind for SymbolVersions {
    ghost listed = { λ gnu versions. of_sections symbol_versions };

    ghost ready = { AreRecordsListed };

    #[tactic(auto, unfolding(elf_model::specs::VersionRows::symbol_versions))]
    fn part(_gnu: bool, _versions: bool) -> Parts {
        Parts::VERSIONS
    }

    fn count<S: Source, W: Sink>(listing: &Listing<'_, '_, '_, '_, S, W>) -> u16 {
        listing.file.sections()
    }

    fn header<S: Source, W: Sink>(
        listing: &mut Listing<'_, '_, '_, '_, S, W>,
        index: u16,
    ) -> Result<(), RunFault> {
        let header = listing.file.section(index);
        if header.sh_type != SHT_GNU_VERSYM {
            return Ok(());
        }
        if header.sh_size == 0 {
            return Ok(());
        }
        let found = listing.file.symbol_versions(index)?;
        let (table, symbols) = found;
        let mut none = [];
        let mut numbered = VersionStrings::new();
        listing.numbered(&mut numbered, &mut none)?;
        listing.versioned(index, table, symbols, &numbered)
    }
}

impl<S: Source, W: Sink> Listing<'_, '_, '_, '_, S, W> {
    /// Shows the versions of the given number of symbols, and after them the section's refusal if a
    /// symbol has no entry.
    fn versioned(
        &mut self,
        section: u16,
        table: Table,
        symbols: u64,
        numbered: &VersionStrings,
    ) -> Result<(), RunFault>
        requires below { section < self.old.file.store.now.loaded }
        requires entry { table.entry ≡ 2 }
        requires rows { TableInBounds self.old.src.now.seen.size table }
        requires within { NumberedWithin self.old.src.now.seen.size numbered.now }
        ensures { ListsVersioned self.old self.new result section table symbols numbered.now }
    {
        let at = self.file.place(section);
        let rows = first_entries(&table, symbols);
        let indices = VersionIndices { section, numbered };
        list_rows(self, rows, &indices, &mut NoVersions)?;
        if table.len() < symbols {
            return Err(RunFault::Refused(Refusal {
                at,
                cause: Cause::VersionCut,
            }));
        }
        Ok(())
    }

    /// Finds the names of all version indices: by the first section of definitions, then by the
    /// first section of needs. For the first indices, as many as there are `places`, it keeps the
    /// offset of the record that gives the name. It fills `numbered` in place, which is too large
    /// to be returned.
    pub(crate) fn numbered(
        &mut self,
        numbered: &mut VersionStrings,
        places: &mut [u64],
    ) -> Result<(), Fault>
        requires { IsUnnamed numbered.old }
        ensures count { length places.new ≡ length places.old }
        ensures numbers { let found = filled result numbered.new in
            FetchesNumbers self.old self.new places.new found }
    {
        numbered.defined = self.take_first(&mut numbered.names, places, VersionKind::Definition)?;
        numbered.needed = self.take_first(&mut numbered.names, places, VersionKind::File)?;
        Ok(())
    }

    /// Adds the records of the first section that holds records of the given kind, and returns the
    /// string table of their names; an empty one if there is no record.
    fn take_first(
        &mut self,
        names: &mut VersionNames,
        places: &mut [u64],
        kind: VersionKind,
    ) -> Result<Names, Fault>
        requires kind { kind ≡ Need → ⊥ }
        ensures count { length places.new ≡ length places.old }
        ensures records { let before = NumbersTaken names.old places.old in
            let after = NumbersTaken names.new places.new in
            TakesRecords self.old self.new before after result kind }
    {
        let Some(section) = self.file.first(section_type(kind)) else {
            return Ok(Names::new(0, 0));
        };
        let header = self.file.section(section);
        if header.sh_size == 0 {
            return Ok(Names::new(0, 0));
        }
        let at = self.file.place(section);
        let table = self.file.bytes(header.sh_offset, header.sh_size, at)?;
        let strings = self.file.strings(section)?;
        let mut cursor = VersionCursor::new(self.src, kind, at, table)?;
        names.take_all(self.src, &mut cursor, places)?;
        Ok(strings)
    }
}

/// Returns the first entries of a table of symbol versions, as many as there are symbols.
fn first_entries(table: &Table, symbols: u64) -> Table
    requires { table.now.entry ≡ 2 }
    ensures { result ≡ record {
      at = table.now.at;
      count = min table.now.count symbols;
      entry = 2;
    } }
{
    let _ = table.entry();
    let count = table.len().min(symbols);
    Table::new(table.at(), count, SYMBOL_VERSION_BYTES)
}
