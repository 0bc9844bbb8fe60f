//! The relocations that dynamic entries locate.
ghost use Rattle.std.specs.Prelude.{◌≡◌, ◌*◌, ℕ, List, IfSome};
ghost use Rattle.elf_model.specs.Prelude.{relocation_size, segment_at, segment_relocations};
ghost use Rattle.elf_options.specs.Permitted.{style_of};
ghost use Rattle.elf_table.specs.Tables.{TableInBounds};
ghost use Rattle.elf_listing.specs.Located.{ListsLocatedBy, ListsEntries, ListsTable, ViewsEntries, located_layout};

use crate::dynamic_tables::SegmentEntries;
use crate::listing::Listing;
use crate::name_versions::{NameVersions, NoVersions};
use crate::relative_relocations::list_words;
use crate::relocations::decode_entry;
use crate::row_cursor::RowCursor;
use crate::row_places::place_of_relocation;
use crate::row_selection::RowSelection;
use crate::table_rows::{TableRows, list_rows};
use elf_format::{LinePrefix, Render, relocation_prefix};
use elf_hash::{located_symbols, located_table};
use elf_model::{RelocationForm, RelocationTable};
use elf_source::{Sink, Source};
use elf_table::{Cursor, LinkedSymbolTable, Row, RunFault, Table};

/// Relocation entries that dynamic entries locate, an `R` line each (gABI 4, Relocation).
#[derive(Clone, Copy)]
pub struct LocatedRelocations {
    /// The index of the segment of the dynamic entries.
    pub segment: u16,
    /// Whether the entries have addends.
    pub has_addends: bool,
    /// The symbols that they refer to, with their names.
    pub linked: LinkedSymbolTable,
}

impl TableRows for LocatedRelocations {
    ghost layout = { located_layout };

    fn cursor(&self, table: Table) -> RowCursor {
        RowCursor::All(Cursor::new(table))
    }

    fn row<R: Render, C: RowSelection, V: NameVersions, S: Source, W: Sink>(
        &self,
        listing: &mut Listing<'_, '_, '_, '_, S, W>,
        front: &mut LinePrefix,
        _versions: &mut V,
        row: &Row<'_>,
    ) -> Result<(), RunFault> {
        let naming = listing.naming();
        let (entry, addend) = decode_entry(row, self.has_addends);
        let read = listing.read_linked(self.linked, entry.symbol(), row.at)?;
        let place = place_of_relocation(listing.file_type(), row.at, self.has_addends, &entry);
        if !listing.is_row_shown::<C>(&place, read.end, None, &[]) {
            return Ok(());
        }
        relocation_prefix::<R>(front, self.segment, &entry, addend, naming);
        listing.named_line(front, read.end)
    }
}

/// Shows the relocations that dynamic entries locate, in the order in which a loader applies them.
pub(crate) fn list_relocations<S: Source, W: Sink>(
    listing: &mut Listing<'_, '_, '_, '_, S, W>,
    entries: &SegmentEntries<'_>,
) -> Result<(), RunFault>
    requires { ViewsEntries listing.old.file.loaded.size listing.old.src.now.seen.file entries.now }
    ensures { ListsLocatedBy listing.old listing.new result 4 (λ file.
        segment_relocations file (style_of listing.old.style) entries.now.segment
        (segment_at file entries.now.segment)) }
{
    list_table(listing, entries, RelocationTable::Relr)?;
    list_table(listing, entries, RelocationTable::Rel)?;
    list_table(listing, entries, RelocationTable::Rela)?;
    list_table(listing, entries, RelocationTable::Jmprel)
}

/// Shows the rows of a table, if dynamic entries locate it.
fn list_table<S: Source, W: Sink>(
    listing: &mut Listing<'_, '_, '_, '_, S, W>,
    entries: &SegmentEntries<'_>,
    table: RelocationTable,
) -> Result<(), RunFault>
    requires { ViewsEntries listing.old.file.loaded.size listing.old.src.now.seen.file entries.now }
    ensures { ListsTable listing.old listing.new result entries.now table }
{
    let Some(located) = located_table(&entries.view, &entries.found, table)? else {
        return Ok(());
    };
    match located.form {
        RelocationForm::Relative => list_words(listing, located.table, entries.segment),
        RelocationForm::WithoutAddends => list_entries(listing, entries, located.table, false),
        RelocationForm::WithAddends => list_entries(listing, entries, located.table, true),
    }
}

/// Shows the relocation entries of a table, which have addends or not.
fn list_entries<S: Source, W: Sink>(
    listing: &mut Listing<'_, '_, '_, '_, S, W>,
    entries: &SegmentEntries<'_>,
    table: Table,
    has_addends: bool,
) -> Result<(), RunFault>
    requires entries { ViewsEntries listing.old.file.loaded.size listing.old.src.now.seen.file
        entries.now }
    requires rows { table.entry ≡ relocation_size has_addends }
    requires within { TableInBounds listing.old.file.loaded.size table }
    ensures { ListsEntries listing.old listing.new result entries.now table has_addends }
{
    let linked = located_symbols(&entries.view, &entries.found)?;
    let rows = LocatedRelocations {
        segment: entries.segment,
        has_addends,
        linked,
    };
    list_rows(listing, table, &rows, &mut NoVersions)
}
