//! The symbols that dynamic entries locate.
ghost use Rattle.std.specs.Prelude.{◌≡◌, ℕ, List};
ghost use Rattle.elf_model.specs.Prelude.{LookupTables as IsScopeOf, hashed_symbol_rows, segment_at, segment_symbol_rows};
ghost use Rattle.elf_hash.specs.Prelude.{IsLookupTables, LookupTablesInBounds};
ghost use Rattle.elf_options.specs.Permitted.{style_of};
ghost use Rattle.elf_listing.specs.Located.{ListsHashed, ListsLocatedBy, ViewsEntries, hashed_layout};

use crate::dynamic_tables::SegmentEntries;
use crate::listing::Listing;
use crate::name_versions::{NameVersions, NoVersions};
use crate::row_cursor::RowCursor;
use crate::row_places::place_of_symbol;
use crate::row_selection::{RowSelection, SymbolClass};
use crate::table_rows::{TableRows, list_rows};
use elf_format::{LinePrefix, Render, symbol_prefix};
use elf_hash::{LookupTables, hash_entry, segment_lookup_tables};
use elf_note::NameIndex;
use elf_record::Sym;
use elf_record::sizes::SYMBOL_BYTES;
use elf_source::{Sink, Source};
use elf_table::{Cursor, Names, Row, RunFault, Table};

/// The symbols that a hash table covers, a `Y` line each (gABI 4, Symbol Table).
#[derive(Clone, Copy)]
pub struct HashedSymbols {
    /// The index of the segment of the dynamic entries.
    pub segment: u16,
    /// The string table of their names.
    pub names: Names,
}

impl TableRows for HashedSymbols {
    ghost layout = { hashed_layout };

    fn cursor(&self, table: Table) -> RowCursor {
        RowCursor::All(Cursor::new(table))
    }

    fn row<R: Render, C: RowSelection, V: NameVersions, S: Source, W: Sink>(
        &self,
        listing: &mut Listing<'_, '_, '_, '_, S, W>,
        front: &mut LinePrefix,
        _versions: &mut V,
        row: &Row<'_>,
    ) -> Result<(), RunFault> {
        let naming = listing.naming();
        let symbol = Sym::decode(row.whole());
        let off = u64::from(symbol.st_name);
        let end = listing.read_name(NameIndex {
            names: self.names,
            off,
            at: row.at,
        })?;
        let class = SymbolClass {
            place: place_of_symbol(row.at, &symbol),
            is_defined: symbol.st_shndx != 0,
            is_dynamic: true,
        };
        if !listing.is_symbol_row_shown::<C>(&class, end, None, &[]) {
            return Ok(());
        }
        symbol_prefix::<R>(front, self.segment, row.index, &symbol, naming);
        listing.named_line(front, end)
    }
}

/// Shows the symbols that the hash table of dynamic entries covers; none if no entry locates one.
pub(crate) fn list_symbols<S: Source, W: Sink>(
    listing: &mut Listing<'_, '_, '_, '_, S, W>,
    entries: &SegmentEntries<'_>,
) -> Result<(), RunFault>
    requires { ViewsEntries listing.old.file.loaded.size listing.old.src.now.seen.file entries.now }
    ensures { ListsLocatedBy listing.old listing.new result 2 (λ file.
        segment_symbol_rows file (style_of listing.old.style) entries.now.segment
        (segment_at file entries.now.segment)) }
{
    let Some((kind, row)) = hash_entry(&entries.found) else {
        return Ok(());
    };
    let found = &entries.found;
    let tables = segment_lookup_tables(&entries.view, entries.segment, found, kind, &row)?;
    list_counted(listing, &tables)
}

/// Shows as many symbols as a hash table covers.
fn list_counted<S: Source, W: Sink>(
    listing: &mut Listing<'_, '_, '_, '_, S, W>,
    tables: &LookupTables,
) -> Result<(), RunFault>
    requires { LookupTablesInBounds listing.old.file.loaded.size tables.now }
    ensures { ListsHashed listing.old listing.new result tables.now }
{
    let count = tables.symbol_count(listing.src)?;
    let rows = HashedSymbols {
        segment: tables.symbols.index,
        names: tables.symbols.names,
    };
    let table = Table::new(tables.symbols.table.at(), count, SYMBOL_BYTES);
    list_rows(listing, table, &rows, &mut NoVersions)
}
