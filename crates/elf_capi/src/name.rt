//! The range of a name in a string table.
ghost use Rattle.elf_capi.specs.Names.{FindsName};

use elf_record::{Cause, Refusal};
use elf_table::{ByteRange, bytes_of, find_nul};

/// Returns the range of the name at an offset in a string table, without its NUL; the result is
/// never `None`. The string table is the part of `strings` that lies within the file (gABI 4,
/// String Table). The name at 0 of an empty table has no bytes, and is at 0.
///
/// # Errors
/// Returns `NameOutside` if the offset is not below the table's size, `NameUnended` if no NUL
/// follows. The fault's offset is the file offset at which the name would begin, at most 2^64 - 1.
pub fn find_name(file: &[u8], strings: ByteRange, offset: u64) -> Result<Option<ByteRange>, Refusal>
    ensures { FindsName file.now strings offset result }
{
    let table = bytes_of(file, strings);
    if table.is_empty() && offset == 0 {
        return Ok(Some(ByteRange { at: 0, len: 0 }));
    }
    let at = strings.at.saturating_add(offset);
    if offset >= table.len() as u64 {
        return Err(Refusal {
            at,
            cause: Cause::NameOutside,
        });
    }
    match find_nul(&table[offset as usize..]) {
        Some(len) => Ok(Some(ByteRange {
            at: strings.at + offset,
            len: len as u64,
        })),
        None => Err(Refusal {
            at,
            cause: Cause::NameUnended,
        }),
    }
}
