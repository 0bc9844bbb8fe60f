//! The values of dynamic entries that have no text of their own.
ghost use Rattle.std.specs.Prelude.{◌≡◌, IfErr, IfOk};
ghost use Rattle.elf_table.specs.Prelude.{CallDid, IsOfRead, TableInBounds, fault_of_result, size_of};
ghost use Rattle.elf_library.specs.Entries.{AreEntryValues};

use elf_note::{DynamicStrings, dynamic_rows, entry_in, first_of};
use elf_record::gnu_numbers::DT_FLAGS_1;
use elf_record::numbers::{DT_STRSZ, DT_STRTAB};
use elf_source::{Counted, Source};
use elf_table::{Fault, Table};

/// Where the strings of dynamic entries are, and DT_FLAGS_1.
#[derive(Clone, Copy)]
pub(crate) struct EntryValues {
    /// The address and the size of the strings.
    pub strings: DynamicStrings,
    /// The value of the first DT_FLAGS_1, a GNU extension, if there is one.
    pub flags_1: Option<u64>,
}

/// Iterates over the dynamic entries of a table, whose rows have 16 bytes, up to and including the
/// first DT_NULL, and returns those values. Each byte of the table is read at most once.
///
/// # Errors
/// Returns a fault of a read, or the refusal `Budget`, at an entry's offset.
pub(crate) fn entry_values<S: Source>(
    table: Table,
    src: &mut Counted<S>,
) -> Result<EntryValues, Fault>
    requires rows { table.entry ≡ 16 }
    requires within { TableInBounds src.old.seen.size table }
    ensures did { CallDid src.old src.new (fault_of_result result) (size_of table)
        (λ file. IfOk result (AreEntryValues file table)) }
    ensures fault { IfErr result IsOfRead }
{
    let mut address: Option<u64> = None;
    let mut size: Option<u64> = None;
    let mut flags_1: Option<u64> = None;
    let mut cursor = dynamic_rows(table);
    'entries: while cursor.advance(src)? {
        let entry = entry_in(&cursor.row());
        address = first_of(address, DT_STRTAB, &entry);
        size = first_of(size, DT_STRSZ, &entry);
        flags_1 = first_of(flags_1, DT_FLAGS_1, &entry);
    }
    let strings = DynamicStrings { address, size };
    Ok(EntryValues { strings, flags_1 })
}
