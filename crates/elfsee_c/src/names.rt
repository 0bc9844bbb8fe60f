//! The exports that locate names in string tables.
ghost use Rattle.std.specs.Prelude.{length};
ghost use Rattle.elf_capi.specs.Names.{FindsName};
ghost use Rattle.elf_capi.specs.Prelude.{OpensNames, ReturnsOpened, ReturnsRead};

use elf_capi::{
    CallEnd, CallerLimits, checked_limits, find_name, names_in, report_opened, report_row,
};
use elf_table::ByteRange;

/// Finds where the name at an offset in a string table lies, without its NUL. The string table is
/// the bytes of `strings`, as far as they lie within the file (gABI 4, String Table). The name at 0
/// of an empty table has no bytes, and is at 0.
///
/// Returns 0 if there is a name, and 1 if there is none, with the cause in `end`: `NameOutside` if
/// the offset is not below the table's size, `NameUnended` if no NUL follows it. The offset in
/// `end` is where the name was to begin, at most 2^64 - 1.
#[unsafe(no_mangle)]
pub extern "C" fn elfsee_name(
    file: &[u8],
    strings: &ByteRange,
    offset: u64,
    name: &mut ByteRange,
    end: &mut CallEnd,
) -> u32
    ensures { ReturnsRead (FindsName file.now strings.now offset) result name.old name.new end.new }
{
    report_row(find_name(file, *strings, offset), name, end)
}

/// Locates the string table of the section names. The number of headers is limited by the limits,
/// and by the room, at 64 bytes each; no byte of the room is read (gABI 4, ELF Header).
///
/// Returns 0 if there is one, 2 if there is none, 1 if a check fails that a listing makes until the
/// section headers are loaded, with the first that does in `end`, and 4 for limits out of range or
/// room of less than 64 bytes.
#[unsafe(no_mangle)]
pub extern "C" fn elfsee_section_names(
    file: &[u8],
    limits: &CallerLimits,
    room: &[u8],
    strings: &mut ByteRange,
    end: &mut CallEnd,
) -> u32
    ensures { ReturnsOpened (OpensNames file.now limits.now (length room.now))
        result strings.old strings.new end.new }
{
    report_opened(
        checked_limits(limits, room.len()).map(|limits| names_in(file, &limits)),
        strings,
        end,
    )
}
