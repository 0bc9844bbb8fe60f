//! The exports that use the program headers of a file in memory, and no section headers.
ghost use Rattle.elf_capi.specs.MappedBytes.{ReadsMapped};
ghost use Rattle.elf_capi.specs.Prelude.{ReadsSegmentDynamic, ReturnsRead};

use elf_capi::{CallEnd, RowPosition, find_mapped, report_row, segment_dynamic};
use elf_table::ByteRange;

/// Checks the dynamic entries of a segment, and sets `rows` before the first: up to and including
/// the first DT_NULL, without a string table (gABI 5, Dynamic Section).
///
/// Returns 0 if the checks pass, 2 if the file has no such segment or its type is not DYNAMIC, and
/// 1 if a check fails that a listing makes before it reads the headers, with the maximum number of
/// headers allowed, or one of the segment's; the first that fails is in `end`.
#[unsafe(no_mangle)]
pub extern "C" fn elfsee_segment_dynamic(
    file: &[u8],
    segment: u16,
    rows: &mut RowPosition,
    end: &mut CallEnd,
) -> u32
    ensures { ReturnsRead (ReadsSegmentDynamic file.now segment) result rows.old rows.new end.new }
{
    report_row(segment_dynamic(file, segment), rows, end)
}

/// Finds the file offset of the `size` bytes at an address: by the first LOAD program header whose
/// file image contains all of them (gABI 5, Program Loading).
///
/// Returns 0 if they lie in the file, 2 if no program header contains them, and 1 if a check fails
/// that a listing makes before it reads the headers, with the maximum number of headers allowed, or
/// if by that program header they extend past the end of the file; the first that fails is in
/// `end`.
#[unsafe(no_mangle)]
pub extern "C" fn elfsee_mapped(
    file: &[u8],
    address: u64,
    size: u64,
    range: &mut ByteRange,
    end: &mut CallEnd,
) -> u32
    ensures { ReturnsRead (ReadsMapped file.now address size) result range.old range.new end.new }
{
    report_row(find_mapped(file, address, size), range, end)
}
