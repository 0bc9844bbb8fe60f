//! The tables of relocations, and the symbols, that dynamic entries locate.
ghost use Rattle.std.specs.Prelude.{◌≡◌, ℕ, List, IfSome};
ghost use Rattle.elf_model.specs.Prelude.{form_by, form_if, form_size, located_symbols, located_table, table_mapped};
ghost use Rattle.elf_table.specs.Prelude.{HoldsProgramHeaders, SymbolTableInBounds};
ghost use Rattle.elf_hash.specs.Entries.{AreTaggedEntries};
ghost use Rattle.elf_hash.specs.Headers.{FindsIn};
ghost use Rattle.elf_hash.specs.RelocationTables.{AreTableEntries, FindsSymbols, IsEntryOf, LocatedInBounds, located_by};

use crate::dyn_entry::{DynEntry, DynamicTags};
use crate::segment_symbols::{rows_in, symbol_entries};
use elf_model::{RelocationForm, RelocationTable};
use elf_record::Cause;
use elf_record::numbers::{DT_REL, DT_RELA};
use elf_record::sizes::{REL_BYTES, RELOCATION_BYTES, RELR_BYTES, SYMBOL_BYTES};
use elf_table::{ExecutionView, Fault, LinkedSymbolTable, Table, refused};

/// The entries that locate a table of relocations, each the first with its tag, if there is one.
#[derive(Clone, Copy)]
pub struct TableEntries {
    /// Its address.
    pub address: Option<DynEntry>,
    /// Its size in bytes.
    pub size: Option<DynEntry>,
    /// The size or the type of its rows.
    pub row: Option<DynEntry>,
}

/// A table of relocations in the file.
#[derive(Clone, Copy)]
pub struct TableLocation {
    /// What its rows are.
    pub form: RelocationForm,
    /// Its rows.
    pub table: Table,
}

/// Returns a table of relocations that the entries of a segment locate; `None` if no entry has its
/// address, or its size is 0. No bytes are read (gABI 5, Dynamic Section).
///
/// # Errors
/// Returns the first check that fails: `Unmapped` at the entry of the address if none has the size;
/// `EntrySize` at it if none has the size or the type of the rows, and at the entry of that if it is
/// another; `SizeNotWhole` at the entry of the size if that is not one of whole rows; those of
/// [`ExecutionView::mapped`] for the bytes, at the entry of the address.
pub fn located_table(
    view: &ExecutionView<'_>,
    found: &DynamicTags,
    table: RelocationTable,
) -> Result<Option<TableLocation>, Fault>
    ensures { FindsIn HoldsProgramHeaders view.now.loaded view.now.store.now result
        (λ size found. IfSome found (LocatedInBounds size)) (λ bytes.
        (at : ℕ) → AreTaggedEntries bytes at found.now →
        result ≡ located_by (located_table bytes at table)) }
{
    let entries = table_entries(found, table);
    let Some(address) = entries.address else {
        return Ok(None);
    };
    let Some(size) = entries.size else {
        return refused(address.at, Cause::Unmapped);
    };
    if size.value == 0 {
        return Ok(None);
    }
    let Some(row) = entries.row else {
        return refused(address.at, Cause::EntrySize);
    };
    let Some(form) = form_by(table, row.value) else {
        return refused(row.at, Cause::EntrySize);
    };
    mapped_table(view, &address, &size, form)
}

/// Returns the entries that locate a table.
fn table_entries(found: &DynamicTags, table: RelocationTable) -> TableEntries
    ensures { (bytes : List ℕ) (at : ℕ) → AreTaggedEntries bytes at found.now →
        AreTableEntries bytes at table result }
{
    match table {
        RelocationTable::Relr => TableEntries {
            address: found.relr,
            size: found.relrsz,
            row: found.relrent,
        },
        RelocationTable::Rel => TableEntries {
            address: found.rel,
            size: found.relsz,
            row: found.relent,
        },
        RelocationTable::Rela => TableEntries {
            address: found.rela,
            size: found.relasz,
            row: found.relaent,
        },
        RelocationTable::Jmprel => TableEntries {
            address: found.jmprel,
            size: found.pltrelsz,
            row: found.pltrel,
        },
    }
}

/// Returns the form of the rows of a table by the value of the entry of their size or type.
fn form_by(table: RelocationTable, value: u64) -> Option<RelocationForm>
    ensures { result ≡ form_by table value }
{
    match table {
        RelocationTable::Relr => form_if(value == RELR_BYTES, RelocationForm::Relative),
        RelocationTable::Rel => form_if(value == REL_BYTES, RelocationForm::WithoutAddends),
        RelocationTable::Rela => form_if(value == RELOCATION_BYTES, RelocationForm::WithAddends),
        RelocationTable::Jmprel => {
            if value == DT_RELA {
                return Some(RelocationForm::WithAddends);
            }
            form_if(value == DT_REL, RelocationForm::WithoutAddends)
        }
    }
}

/// Returns the form if a condition holds.
fn form_if(is: bool, form: RelocationForm) -> Option<RelocationForm>
    ensures { result ≡ form_if is form }
{
    if is { Some(form) } else { None }
}

/// Returns the size of a row in bytes.
fn row_bytes(form: RelocationForm) -> u64
    ensures { result ≡ form_size form }
{
    match form {
        RelocationForm::Relative => RELR_BYTES,
        RelocationForm::WithoutAddends => REL_BYTES,
        RelocationForm::WithAddends => RELOCATION_BYTES,
    }
}

/// Returns the table whose address and size two entries have.
///
/// # Errors
/// `SizeNotWhole` at the entry of the size; those of [`ExecutionView::mapped`] at that of the
/// address.
fn mapped_table(
    view: &ExecutionView<'_>,
    address: &DynEntry,
    size: &DynEntry,
    form: RelocationForm,
) -> Result<Option<TableLocation>, Fault>
    ensures { FindsIn HoldsProgramHeaders view.now.loaded view.now.store.now result
        (λ size found. IfSome found (LocatedInBounds size)) (λ bytes.
        IsEntryOf bytes address.now → IsEntryOf bytes size.now →
        result ≡ located_by (table_mapped bytes address.now.at size.now.at form)) }
{
    let row = row_bytes(form);
    if size.value % row != 0 {
        return refused(size.at, Cause::SizeNotWhole);
    }
    let names = view.mapped(address.value, size.value, address.at)?;
    let table = Table::new(names.at(), size.value / row, row);
    Ok(Some(TableLocation { form, table }))
}

/// Returns the symbols that the entries of a segment locate, all that are in the rest of their
/// segment, with their names; `None` without an entry of their address, or of the address or the
/// size of the names. No bytes are read (gABI 5, Dynamic Section).
///
/// # Errors
/// Returns the first check that fails: those of [`ExecutionView::rest`] for the symbols and of
/// [`ExecutionView::mapped`] for the names.
pub fn located_symbols(
    view: &ExecutionView<'_>,
    found: &DynamicTags,
) -> Result<LinkedSymbolTable, Fault>
    ensures { FindsIn HoldsProgramHeaders view.now.loaded view.now.store.now result
        (λ size linked. IfSome linked (SymbolTableInBounds size)) (λ bytes.
        (at : ℕ) → AreTaggedEntries bytes at found.now →
        FindsSymbols bytes (located_symbols bytes at) result) }
{
    let Some((symtab, strtab, strsz)) = symbol_entries(found) else {
        return Ok(None);
    };
    let rest = view.rest(symtab.value, symtab.at)?;
    let names = view.mapped(strtab.value, strsz.value, strtab.at)?;
    Ok(Some((rows_in(rest, SYMBOL_BYTES), names)))
}
