//! The ranges of relocation entries, in the order of a loader.
ghost use Rattle.std.specs.Prelude.{◌≡◌, ◌-◌, ◌≤◌, ◌==◌, ◌&&◌, true, ℕ, List, IfErr, IfOk, Some};
ghost use Rattle.elf_model.specs.ImageChecks.{linkage_checks, row_value};
ghost use Rattle.elf_model.specs.Numbers.{DT_RELACOUNT};
ghost use Rattle.elf_table.specs.Prelude.{IsOfCheck};
ghost use Rattle.elf_hash.specs.declared.dyn_entry.DynEntry.{DynEntry};
ghost use Rattle.elf_image.specs.Located.{AreImageRows, AreImageTables, ChecksThen, has_both, mapped_end};
ghost use Rattle.elf_image.specs.Relocated.{AreEntryRanges};
ghost use Rattle.elf_image.specs.Within.{RangesWithin, IsTableWithin, TablesWithin};

use crate::dynamic_rows::ImageRows;
use crate::tables::{ImageTables, MappedTable};
use elf_record::Cause;
use elf_record::sizes::RELOCATION_BYTES;
use elf_table::{Fault, Table, refused};

/// The entries with addends in two tables: one range, if they are consecutive in memory, or two. In
/// each range the entries of R_X86_64_IRELATIVE are applied after the others.
#[derive(Clone, Copy)]
pub(crate) struct EntryRanges {
    /// The first table.
    pub(crate) first: Table,
    /// The second one.
    pub(crate) second: Table,
    /// Whether they are one range.
    pub(crate) joined: bool,
    /// How many entries at the start of the first range are R_X86_64_RELATIVE.
    pub(crate) relative: u64,
}

/// Returns the ranges. Calls at the end of the other entries are a part of these; calls right after
/// them are one range with them.
///
/// # Errors
/// Returns `Unsupported` at DT_JMPREL if the calls end where the others end, and begin before them.
pub(crate) fn entry_ranges(tables: &ImageTables, rows: &ImageRows) -> Result<EntryRanges, Fault>
    requires widths { (tables.now.addends.rows.entry ≡ 24) × (tables.now.calls.rows.entry ≡ 24) }
    ensures within { (size : ℕ) → TablesWithin size tables.now → IfOk result (RangesWithin size) }
    ensures refusal { IfErr result IsOfCheck }
    ensures ranges { (file : List ℕ) (at : ℕ) → AreImageRows file at rows.now →
        AreImageTables file at tables.now →
        ChecksThen (linkage_checks file at) (AreEntryRanges file at) result }
{
    if end_alike(tables) {
        return cut_ranges(tables, rows);
    }
    Ok(EntryRanges {
        first: tables.addends.rows,
        second: tables.calls.rows,
        joined: are_consecutive(tables),
        relative: relative_count(rows),
    })
}

/// Returns `true` if there are calls and other entries.
fn has_both(tables: &ImageTables) -> bool
    ensures { result ≡ has_both tables.now }
{
    tables.addends.rows.len() != 0 && tables.calls.rows.len() != 0
}

/// Returns `true` if there are calls that end where the other entries end.
fn end_alike(tables: &ImageTables) -> bool
    ensures { result ≡ (has_both tables.now
        && (mapped_end tables.now.addends == mapped_end tables.now.calls)) }
{
    has_both(tables) && end_of(&tables.addends) == end_of(&tables.calls)
}

/// Returns `true` if there are calls that begin where the other entries end.
fn are_consecutive(tables: &ImageTables) -> bool
    ensures { result ≡ (has_both tables.now
        && (mapped_end tables.now.addends == tables.now.calls.address)) }
{
    has_both(tables) && end_of(&tables.addends) == u128::from(tables.calls.address)
}

/// Returns the ranges if the calls end where the other entries end.
///
/// # Errors
/// Returns `Unsupported` at DT_JMPREL if the calls begin before the other entries.
fn cut_ranges(tables: &ImageTables, rows: &ImageRows) -> Result<EntryRanges, Fault>
    requires widths { (tables.now.addends.rows.entry ≡ 24) × (tables.now.calls.rows.entry ≡ 24) }
    requires alike { (has_both tables.now
        && (mapped_end tables.now.addends == mapped_end tables.now.calls)) ≡ true }
    ensures within { (size : ℕ) → TablesWithin size tables.now → IfOk result (RangesWithin size) }
    ensures refusal { IfErr result IsOfCheck }
    ensures ranges { (file : List ℕ) (at : ℕ) → AreImageRows file at rows.now →
        AreImageTables file at tables.now →
        ChecksThen (linkage_checks file at) (AreEntryRanges file at) result }
{
    let count = tables.calls.rows.len();
    if count > tables.addends.rows.len() {
        return refused(calls_row(rows), Cause::Unsupported);
    }
    let first = front_of(&tables.addends.rows, count);
    Ok(EntryRanges {
        first,
        second: tables.calls.rows,
        joined: true,
        relative: relative_count(rows),
    })
}

/// Returns the value of DT_RELACOUNT, 0 without it.
fn relative_count(rows: &ImageRows) -> u64
    ensures { (file : List ℕ) (at : ℕ) → AreImageRows file at rows.now →
        result ≡ row_value file at DT_RELACOUNT }
{
    match rows.relative {
        Some(row) => row.value,
        None => 0,
    }
}

/// Returns the address at which a table of entries ends.
fn end_of(table: &MappedTable) -> u128
    ensures { result ≡ mapped_end table.now }
{
    u128::from(table.address) + u128::from(RELOCATION_BYTES) * u128::from(table.rows.len())
}

/// Returns the offset of DT_JMPREL.
fn calls_row(rows: &ImageRows) -> u64
    ensures { (entry : DynEntry) → rows.now.calls.address ≡ Some entry → result ≡ entry.at }
{
    match rows.calls.address {
        Some(row) => row.at,
        None => 0,
    }
}

/// Returns a table without its last rows, as many as `count`.
fn front_of(table: &Table, count: u64) -> Table
    requires entry { table.now.entry ≡ 24 }
    requires few { count ≤ table.now.count }
    ensures within { (size : ℕ) → IsTableWithin 24 size table.now → IsTableWithin 24 size result }
    ensures rows { result ≡ record {
      at = table.now.at;
      count = table.now.count - count;
      entry = 24;
    } }
{
    let _ = table.entry();
    Table::new(table.at(), table.len() - count, RELOCATION_BYTES)
}
