//! The tables that say how a file is relocated, with their checks.
ghost use Rattle.std.specs.Prelude.{◌≡◌, ◌<◌, ◌≤◌, ℕ, List, IfErr, IfOk, IfSome};
ghost use Rattle.std.specs.Prelude.{◌==◌, not, option_map, unwrap_or};
ghost use Rattle.elf_model.specs.Checks.{first_refusal};
ghost use Rattle.elf_model.specs.DynamicRelocations.{form_size, table_mapped};
ghost use Rattle.elf_model.specs.ImageChecks.{addend_checks, image_symbol_checks, linkage_table};
ghost use Rattle.elf_model.specs.ImageChecks.{rela_table};
ghost use Rattle.elf_model.specs.LoaderScope.{checks_of_row, rest_checks, tagged_row};
ghost use Rattle.elf_model.specs.Numbers.{DT_SYMTAB};
ghost use Rattle.elf_model.specs.declared.causes.Cause.TheVariants.{Unsupported};
ghost use Rattle.elf_model.specs.declared.relocation_tables.RelocationForm.{RelocationForm};
ghost use Rattle.elf_model.specs.declared.relocation_tables.RelocationTable.{RelocationTable};
ghost use Rattle.elf_model.specs.declared.relocation_tables.RelocationTable.TheVariants.{Jmprel, Rel};
ghost use Rattle.elf_table.specs.Prelude.{HoldsProgramHeaders, IsOfCheck};
ghost use Rattle.elf_hash.specs.Entries.{dynamic_entry_at};
ghost use Rattle.elf_hash.specs.RelocationTables.{AreTableEntries, IsEntryOf};
ghost use Rattle.elf_image.specs.Located.{AreImageRows, AreImageTables, ChecksThen, HasOneForm};
ghost use Rattle.elf_image.specs.Located.{HasTables, IsMapped, MapsLocated, MapsTable};
ghost use Rattle.elf_image.specs.Located.{image_table_checks, kind_row_checks, plain_checks};
ghost use Rattle.elf_image.specs.Relocated.{AreEntrySymbols};
ghost use Rattle.elf_image.specs.Within.{IsTableWithin, TablesWithin};

use crate::dynamic_rows::ImageRows;
use elf_hash::{DynEntry, TableEntries};
use elf_record::Cause;
use elf_record::sizes::{RELOCATION_BYTES, RELR_BYTES, SYMBOL_BYTES};
use elf_table::{ExecutionView, Fault, Table, refused};

/// The value of DT_PLTREL for entries with addends, which is their tag.
const WITH_ADDENDS: u64 = 7;

/// A table of relocations: its rows, and its first address in the file.
#[derive(Clone, Copy)]
pub(crate) struct MappedTable {
    pub(crate) address: u64,
    pub(crate) rows: Table,
}

/// The tables that say how a file is relocated.
#[derive(Clone, Copy)]
pub(crate) struct ImageTables {
    /// Relative relocations, words of 8 bytes.
    pub(crate) compact: MappedTable,
    /// Entries with addends, 24 bytes each.
    pub(crate) addends: MappedTable,
    /// Those of calls.
    pub(crate) calls: MappedTable,
    /// The symbols that the entries refer to, if there are any.
    pub(crate) symbols: Option<Table>,
}

/// Returns the tables that the dynamic entries locate. No bytes are read.
///
/// # Errors
/// Returns the first check that fails: `Unsupported` at DT_REL for entries without addends, and at
/// DT_PLTREL for such calls; those of each table; those of [`ExecutionView::rest`] for the symbols.
pub(crate) fn image_tables(view: &ExecutionView<'_>, rows: &ImageRows) -> Result<ImageTables, Fault>
    ensures within { IfOk result (TablesWithin view.now.loaded.size) }
    ensures refusal { IfErr result IsOfCheck }
    ensures tables { (file : List ℕ) (at : ℕ) →
        HoldsProgramHeaders file view.now.loaded view.now.store.now →
        AreImageRows file at rows.now →
        ChecksThen (image_table_checks file at) (AreImageTables file at) result }
{
    if let Some(at) = unsupported_row(rows) {
        return refused(at, Cause::Unsupported);
    }
    let compact = checked_mapped_table(view, &rows.compact, RELR_BYTES, RELR_BYTES)?;
    let addends = checked_mapped_table(view, &rows.addends, RELOCATION_BYTES, RELOCATION_BYTES)?;
    let calls = checked_mapped_table(view, &rows.calls, RELOCATION_BYTES, WITH_ADDENDS)?;
    let symbols = entry_symbols(view, &addends, &calls, rows.symbols)?;
    Ok(ImageTables {
        compact,
        addends,
        calls,
        symbols,
    })
}

/// Returns the offset of the dynamic entry that locates entries without addends, if there are some.
fn unsupported_row(rows: &ImageRows) -> Option<u64>
    ensures { (file : List ℕ) (at : ℕ) → AreImageRows file at rows.now →
        first_refusal (addend_checks file at) ≡ option_map (λ row. record {
          at = row;
          cause = Unsupported;
        }) result }
{
    if let Some(at) = plain_row(&rows.plain) {
        return Some(at);
    }
    other_kind_row(&rows.calls)
}

/// Returns the offset of DT_REL, if there are entries without addends.
fn plain_row(rows: &TableEntries) -> Option<u64>
    ensures { (file : List ℕ) (at : ℕ) → AreTableEntries file at Rel rows.now →
        first_refusal (plain_checks file at) ≡ option_map (λ row. record {
          at = row;
          cause = Unsupported;
        }) result }
{
    let address = rows.address?;
    if value_or(rows.size, 1) == 0 {
        return None;
    }
    Some(address.at)
}

/// Returns the offset of DT_PLTREL, if the calls are entries without addends.
fn other_kind_row(rows: &TableEntries) -> Option<u64>
    ensures { (file : List ℕ) (at : ℕ) → AreTableEntries file at Jmprel rows.now →
        first_refusal (kind_row_checks file at) ≡ option_map (λ row. record {
          at = row;
          cause = Unsupported;
        }) result }
{
    let _ = rows.address?;
    let kind = rows.row?;
    if kind.value == WITH_ADDENDS {
        return None;
    }
    Some(kind.at)
}

/// Returns the value of an entry, or another one without it.
pub(crate) fn value_or(row: Option<DynEntry>, value: u64) -> u64
    ensures { result ≡ unwrap_or (option_map (λ row. row.value) row) value }
{
    match row {
        Some(row) => row.value,
        None => value,
    }
}

/// Returns a table with rows of `entry` bytes, whose size is `told` in its dynamic entry; no rows
/// without an address or with the size 0.
///
/// # Errors
/// Returns the first check that fails: `Unmapped` at the address's entry without a size; `EntrySize`
/// there without the entry of the rows, and at that entry if it has another value; those of
/// [`mapped_rows`].
fn checked_mapped_table(
    view: &ExecutionView<'_>,
    rows: &TableEntries,
    entry: u64,
    told: u64,
) -> Result<MappedTable, Fault>
    requires { (0 < entry) × (entry ≤ 4096) }
    ensures within { IfOk result (λ table.
        IsTableWithin entry view.now.loaded.size table.rows) }
    ensures refusal { IfErr result IsOfCheck }
    ensures maps { (file : List ℕ) (at : ℕ) (table : RelocationTable) (form : RelocationForm) →
        HoldsProgramHeaders file view.now.loaded view.now.store.now →
        AreTableEntries file at table rows.now → form_size form ≡ entry →
        HasOneForm table form told rows.now → MapsTable file at table entry result }
{
    let Some(address) = rows.address else {
        return Ok(empty_table(0, entry));
    };
    let Some(size) = rows.size else {
        return refused(address.at, Cause::Unmapped);
    };
    if size.value == 0 {
        return Ok(empty_table(address.value, entry));
    }
    let Some(row) = rows.row else {
        return refused(address.at, Cause::EntrySize);
    };
    if row.value != told {
        return refused(row.at, Cause::EntrySize);
    }
    mapped_rows(view, &address, &size, entry)
}

/// Returns the table whose address and size two entries have, with rows of `entry` bytes.
///
/// # Errors
/// Returns the first check that fails: `SizeNotWhole` at the size's entry; those of
/// [`ExecutionView::mapped`].
fn mapped_rows(
    view: &ExecutionView<'_>,
    address: &DynEntry,
    size: &DynEntry,
    entry: u64,
) -> Result<MappedTable, Fault>
    requires width { (0 < entry) × (entry ≤ 4096) }
    requires some { 0 < size.now.value }
    ensures within { IfOk result (λ table.
        IsTableWithin entry view.now.loaded.size table.rows) }
    ensures refusal { IfErr result IsOfCheck }
    ensures maps { (file : List ℕ) (form : RelocationForm) →
        HoldsProgramHeaders file view.now.loaded view.now.store.now →
        IsEntryOf file address.now → IsEntryOf file size.now → form_size form ≡ entry →
        MapsLocated (table_mapped file address.now.at size.now.at form) address.now.value entry
        result }
{
    if size.value % entry != 0 {
        return refused(size.at, Cause::SizeNotWhole);
    }
    let found = view.mapped(address.value, size.value, address.at)?;
    let count = size.value / entry;
    Ok(MappedTable {
        address: address.value,
        rows: Table::new(found.at(), count, entry),
    })
}

/// Returns a table without rows.
fn empty_table(address: u64, entry: u64) -> MappedTable
    requires { (0 < entry) × (entry ≤ 4096) }
    ensures { result.rows ≡ record { at = 0; count = 0; entry = entry } }
{
    MappedTable {
        address,
        rows: Table::new(0, 0, entry),
    }
}

/// Returns the symbols that two tables of entries refer to, by the dynamic entry that has their
/// address; none without entries.
///
/// # Errors
/// Those of [`checked_symbols`].
fn entry_symbols(
    view: &ExecutionView<'_>,
    addends: &MappedTable,
    calls: &MappedTable,
    row: Option<DynEntry>,
) -> Result<Option<Table>, Fault>
    ensures within { IfOk result (λ found.
        IfSome found (IsTableWithin 24 view.now.loaded.size)) }
    ensures refusal { IfErr result IsOfCheck }
    ensures symbols { (file : List ℕ) (at : ℕ) →
        HoldsProgramHeaders file view.now.loaded view.now.store.now →
        IsMapped (rela_table file at) 24 addends.now →
        IsMapped (linkage_table file at) 24 calls.now →
        row ≡ option_map (dynamic_entry_at file) (tagged_row file at DT_SYMTAB) →
        ChecksThen (image_symbol_checks file at) (λ found. HasTables file at →
        AreEntrySymbols file at found) result }
{
    if !has_rows(addends) && !has_rows(calls) {
        return Ok(None);
    }
    checked_symbols(view, row)
}

/// Returns `true` if a table has rows.
fn has_rows(table: &MappedTable) -> bool
    ensures { result ≡ not (table.now.rows.count == 0) }
{
    table.rows.len() != 0
}

/// Returns the symbols from an address to the end of its segment, if a dynamic entry has it.
///
/// # Errors
/// Those of [`ExecutionView::rest`].
fn checked_symbols(view: &ExecutionView<'_>, row: Option<DynEntry>) -> Result<Option<Table>, Fault>
    ensures within { IfOk result (λ found.
        IfSome found (IsTableWithin 24 view.now.loaded.size)) }
    ensures refusal { IfErr result IsOfCheck }
    ensures symbols { (file : List ℕ) (at : ℕ) →
        HoldsProgramHeaders file view.now.loaded view.now.store.now →
        row ≡ option_map (dynamic_entry_at file) (tagged_row file at DT_SYMTAB) →
        ChecksThen (checks_of_row (tagged_row file at DT_SYMTAB) (rest_checks file))
        (AreEntrySymbols file at) result }
{
    let Some(row) = row else {
        return Ok(None);
    };
    let rest = view.rest(row.value, row.at)?;
    Ok(Some(Table::new(rest.at(), rest.len() / SYMBOL_BYTES, SYMBOL_BYTES)))
}
