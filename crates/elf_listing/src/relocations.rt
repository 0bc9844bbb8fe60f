//! The relocation entries of sections.
ghost use Rattle.std.specs.Prelude.{◌≡◌, ◌<◌, true, ℕ, List, length, IfSome};
ghost use Rattle.elf_model.specs.Prelude.{relocation_size, relocation_type, slice};
ghost use Rattle.elf_record.specs.Rel.{IsAddend, IsRel};
ghost use Rattle.elf_table.specs.Tables.{SymbolTableInBounds};
ghost use Rattle.elf_listing.specs.Fetched.{FetchesLinked};
ghost use Rattle.elf_listing.specs.HeadersListed.{ListsHeader};
ghost use Rattle.elf_listing.specs.Parts.{entries_part, further_part, relocations_part};
ghost use Rattle.elf_listing.specs.RowLayouts.{relocation_layout};
ghost use Rattle.elf_listing.specs.Suffixed.{FetchesOfEntry, FetchesOfLinked, IsUnfilled, SuffixesWithin, lookup_found};
ghost use Rattle.elf_listing.specs.TablesFound.{AreEntriesOf, IsOfType};

use crate::listed_kind::ListedKind;
use crate::listing::Listing;
use crate::name_versions::{FoundVersions, NameVersions, NoVersions};
use crate::read_suffix::VersionSuffixEnd;
use crate::relative_relocations::list_relative;
use crate::row_cursor::RowCursor;
use crate::row_places::place_of_relocation;
use crate::row_selection::RowSelection;
use crate::suffixes::VersionLookup;
use crate::table_rows::{TableRows, list_rows};
use elf_format::{LinePrefix, Render, relocation_prefix};
use elf_note::NameIndex;
use elf_record::numbers::{SHT_REL, SHT_RELA};
use elf_record::{Parts, Rel, Rela};
use elf_source::{Sink, Source};
use elf_table::{
    Cursor, Fault, LinkedSymbol, LinkedSymbolTable, NameBuf, NameEnd, Row, RunFault, Table,
};

/// The relocation entries of a section, an `R` line each (gABI 4, Relocation).
#[derive(Clone, Copy)]
pub struct Relocations {
    /// The index of the section.
    pub section: u16,
    /// Whether the entries have addends.
    pub has_addends: bool,
    /// The symbols that they refer to, with their names.
    pub linked: LinkedSymbolTable,
}

/// The name of an entry's symbol, as read, and whether the symbol is defined.
#[derive(Clone, Copy)]
pub struct RelocationName {
    /// How the name ends.
    pub end: NameEnd,
    /// Whether the symbol is defined.
    pub is_defined: bool,
}

impl TableRows for Relocations {
    ghost layout = { relocation_layout };

    fn cursor(&self, table: Table) -> RowCursor {
        RowCursor::All(Cursor::new(table))
    }

    fn row<R: Render, C: RowSelection, V: NameVersions, S: Source, W: Sink>(
        &self,
        listing: &mut Listing<'_, '_, '_, '_, S, W>,
        front: &mut LinePrefix,
        versions: &mut V,
        row: &Row<'_>,
    ) -> Result<(), RunFault> {
        let naming = listing.naming();
        let (entry, addend) = decode_entry(row, self.has_addends);
        let symbol = entry.symbol();
        let read = listing.read_linked(self.linked, symbol, row.at)?;
        let suffix = read_version(listing, versions, symbol, read.is_defined)?;
        let place = place_of_relocation(listing.file_type(), row.at, self.has_addends, &entry);
        if !listing.is_row_shown::<C>(&place, read.end, suffix, versions.bytes()) {
            return Ok(());
        }
        relocation_prefix::<R>(front, self.section, &entry, addend, naming);
        listing.suffixed_line(front, read.end, suffix, versions.bytes())
    }
}

/// Reads the fields of a relocation entry, and its addend if entries have addends.
pub(crate) fn decode_entry(row: &Row<'_>, has_addends: bool) -> (Rel, Option<i64>)
    requires { length row.now.bytes.now ≡ relocation_size has_addends }
    ensures { (file : List ℕ) →
        row.now.bytes.now ≡ slice file row.now.at (relocation_size has_addends) →
        IsRel file row.now.at result.0 × IsAddend has_addends file row.now.at result.1 }
{
    if has_addends {
        let entry = Rela::decode(row.whole());
        let without = Rel {
            r_offset: entry.r_offset,
            r_info: entry.r_info,
        };
        return (without, Some(entry.r_addend));
    }
    (Rel::decode(row.whole()), None)
}

impl ListedKind for Relocations {
    ghost listed = { relocations_part };

    #[tactic(auto, using(crate::proofs::PartsLaws::relocations_bit))]
    fn part(_gnu: bool, _versions: bool) -> Parts {
        Parts::RELOCS
    }

    fn count<S: Source, W: Sink>(listing: &Listing<'_, '_, '_, '_, S, W>) -> u16 {
        listing.file.sections()
    }

    fn header<S: Source, W: Sink>(
        listing: &mut Listing<'_, '_, '_, '_, S, W>,
        index: u16,
    ) -> Result<(), RunFault> {
        if listing.file.section(index).sh_type == SHT_RELA {
            return list_entries(listing, index, true);
        }
        if !listing.style.gnu {
            return Ok(());
        }
        list_further(listing, index)
    }
}

/// Shows the relocations of a section that only GNU listings have: entries without addends, or
/// relative relocations.
fn list_further<S: Source, W: Sink>(
    listing: &mut Listing<'_, '_, '_, '_, S, W>,
    index: u16,
) -> Result<(), RunFault>
    requires { index < listing.old.file.store.now.loaded }
    ensures { let part = further_part listing.old.style.versions in
        ListsHeader part listing.old listing.new result index }
{
    if listing.file.section(index).sh_type == SHT_REL {
        return list_entries(listing, index, false);
    }
    list_relative(listing, index)
}

/// Shows the relocation entries of a section, whose type says whether they have addends.
fn list_entries<S: Source, W: Sink>(
    listing: &mut Listing<'_, '_, '_, '_, S, W>,
    index: u16,
    has_addends: bool,
) -> Result<(), RunFault>
    requires below { index < listing.old.file.store.now.loaded }
    requires kind { IsOfType listing.old.file index (relocation_type has_addends) }
    ensures { let part = entries_part has_addends listing.old.style.versions in
        ListsHeader part listing.old listing.new result index }
{
    let found = listing.file.entries(index, has_addends)?;
    let (table, linked) = found;
    let rows = Relocations {
        section: index,
        has_addends,
        linked,
    };
    if listing.style.versions {
        return list_with_versions(listing, table, &rows);
    }
    list_rows(listing, table, &rows, &mut NoVersions)
}

/// Shows the relocation entries of a section with the versions of their symbols, if a section of
/// version indices links to the symbols.
fn list_with_versions<S: Source, W: Sink>(
    listing: &mut Listing<'_, '_, '_, '_, S, W>,
    table: Table,
    rows: &Relocations,
) -> Result<(), RunFault>
    requires { AreEntriesOf listing.old.file table rows.now }
    ensures { let part = entries_part rows.now.has_addends true in
        ListsHeader part listing.old listing.new result rows.now.section }
{
    let link = listing.file.section(rows.section).sh_link;
    if table.is_empty() {
        return Ok(());
    }
    if listing.file.version_numbers_of(link).is_none() {
        return list_rows(listing, table, rows, &mut NoVersions);
    }
    list_versioned(listing, table, rows)
}

/// Shows the relocation entries of a section with the versions of their symbols, or the refusal of
/// the version lookup. The lookup is on the stack only for a section whose symbols have versions:
/// it is larger than most tables.
#[inline(never)]
fn list_versioned<S: Source, W: Sink>(
    listing: &mut Listing<'_, '_, '_, '_, S, W>,
    table: Table,
    rows: &Relocations,
) -> Result<(), RunFault>
    requires entries { AreEntriesOf listing.old.file table rows.now }
    requires filled { 0 < table.count }
    ensures { let part = entries_part rows.now.has_addends true in
        ListsHeader part listing.old listing.new result rows.now.section }
{
    let link = listing.file.section(rows.section).sh_link;
    let mut lookup = VersionLookup::new();
    if !listing.linked_suffixes(&mut lookup, link, &rows.linked)? {
        return list_rows(listing, table, rows, &mut NoVersions);
    }
    let mut versions = FoundVersions {
        lookup: &lookup,
        name: NameBuf::new(),
    };
    list_rows(listing, table, rows, &mut versions)
}

/// Reads the version of the symbol at an index; returns `None` for symbol 0.
fn read_version<V: NameVersions, S: Source, W: Sink>(
    listing: &mut Listing<'_, '_, '_, '_, S, W>,
    versions: &mut V,
    symbol: u32,
    is_defined: bool,
) -> Result<Option<VersionSuffixEnd>, Fault>
    requires { IfSome (V.lookup versions.old) (SuffixesWithin listing.old.src.now.seen.size) }
    ensures keeps { V.lookup versions.new ≡ V.lookup versions.old }
    ensures reads { let version = V.name versions.new in FetchesOfEntry listing.old listing.new
        version result (V.lookup versions.old) symbol is_defined }
{
    if symbol == 0 {
        return Ok(None);
    }
    versions.read(listing, u64::from(symbol), is_defined)
}

impl<S: Source, W: Sink> Listing<'_, '_, '_, '_, S, W> {
    /// Finds the versions of the symbols that entries refer to, and returns whether there are any.
    fn linked_suffixes(
        &mut self,
        lookup: &mut VersionLookup,
        table: u32,
        linked: &LinkedSymbolTable,
    ) -> Result<bool, Fault>
        requires { IsUnfilled lookup.old }
        ensures { let found = lookup_found result lookup.new in
            FetchesOfLinked self.old self.new found table linked.now }
    {
        match linked {
            None => Ok(false),
            Some((symbols, _)) => self.suffixes(lookup, table, symbols.len()),
        }
    }

    /// Reads the name of the symbol at an index, which is empty for symbol 0 (gABI 4, Symbol
    /// Table), and returns whether the symbol is defined. If there is no such symbol, the refusal
    /// is at `at`; if the name is refused, it is at the symbol.
    pub(crate) fn read_linked(
        &mut self,
        linked: LinkedSymbolTable,
        symbol: u32,
        at: u64,
    ) -> Result<RelocationName, Fault>
        requires { IfSome linked (SymbolTableInBounds self.old.src.now.seen.size) }
        ensures { FetchesLinked self.old self.new result linked symbol at }
    {
        let Some(found) = LinkedSymbol::find(linked, symbol, at)? else {
            self.name.clear();
            return Ok(RelocationName {
                end: NameEnd::Whole,
                is_defined: false,
            });
        };
        let entry = self.ahead.symbol(self.src, &found.table, found.index)?;
        let end = self.read_name(NameIndex {
            names: found.names,
            off: u64::from(entry.st_name),
            at: found.at(),
        })?;
        let is_defined = entry.st_shndx != 0;
        Ok(RelocationName { end, is_defined })
    }
}
