//! The location of a string table, by the dynamic entries.
ghost use Rattle.std.specs.Prelude.{◌≡◌, ℕ, List, Option, IfErr, IfOk};
ghost use Rattle.elf_model.specs.Prelude.{DT_STRSZ, DT_STRTAB, d_tag, d_un};
ghost use Rattle.elf_record.specs.Dyn.{IsDyn};
ghost use Rattle.elf_table.specs.Prelude.{CallDid, IsOfRead, TableInBounds, fault_of_result, size_of};
ghost use Rattle.elf_note.specs.DynCursors.{AreStrings, first_value, value_here};

use crate::dyn_cursor::{dynamic_rows, entry_in};
use elf_record::Dyn;
use elf_record::numbers::{DT_STRSZ, DT_STRTAB};
use elf_source::{Counted, Source};
use elf_table::{Fault, Table};

/// The location of the string table of dynamic entries in memory, by those entries (gABI 5, Dynamic
/// Section).
#[derive(Clone, Copy)]
pub struct DynamicStrings {
    /// Its virtual address, the value of the first DT_STRTAB, if there is one.
    pub address: Option<u64>,
    /// Its size in bytes, the value of the first DT_STRSZ, if there is one.
    pub size: Option<u64>,
}

/// Iterates over the dynamic entries of a table, whose rows have 16 bytes, up to and including the
/// first DT_NULL, and returns the location of their string table. It reads each byte of the table
/// at most once.
///
/// # Errors
/// Returns a fault of a read, or the refusal `Budget`, at an entry's offset.
pub fn dynamic_strings<S: Source>(
    table: Table,
    src: &mut Counted<S>,
) -> Result<DynamicStrings, Fault>
    requires rows { table.entry ≡ 16 }
    requires within { TableInBounds src.old.seen.size table }
    ensures did { CallDid src.old src.new (fault_of_result result) (size_of table)
        (λ file. IfOk result (AreStrings file table)) }
    ensures fault { IfErr result IsOfRead }
{
    let mut address: Option<u64> = None;
    let mut size: Option<u64> = None;
    let mut cursor = dynamic_rows(table);
    'entries: while cursor.advance(src)? {
        let entry = entry_in(&cursor.row());
        address = first_of(address, DT_STRTAB, &entry);
        size = first_of(size, DT_STRSZ, &entry);
    }
    Ok(DynamicStrings { address, size })
}

/// Returns a value found before, or that of an entry if it has the tag.
pub fn first_of(found: Option<u64>, tag: u64, entry: &Dyn) -> Option<u64>
    ensures { (file : List ℕ) (at : ℕ) → IsDyn file at entry.now →
        result ≡ first_value found (value_here file at tag) }
{
    if found.is_none() && entry.d_tag.cast_unsigned() == tag {
        return Some(entry.d_un);
    }
    found
}
