//! The export that locates a section's bytes in a file in memory.
ghost use Rattle.elf_capi.specs.SectionBytes.{ReadsSectionBytes};
ghost use Rattle.elf_capi.specs.Ends.{ReturnsRead};

use elf_capi::{CallEnd, report_row, section_bytes};
use elf_table::ByteRange;

/// Locates the bytes of a section in a file in memory. No other section header is read (gABI 4,
/// Section Header).
///
/// Returns 0 if they lie in the file, 2 if the file has no such section or its type is NOBITS or
/// NULL, and 1 if a check fails that a listing makes before it reads the headers, with the maximum
/// number of headers allowed, or if the section extends past the end of the file; the first that
/// fails is in `end`.
#[unsafe(no_mangle)]
pub extern "C" fn elfsee_section_bytes(
    file: &[u8],
    section: u16,
    range: &mut ByteRange,
    end: &mut CallEnd,
) -> u32
    ensures { ReturnsRead (ReadsSectionBytes file.now section) result range.old range.new end.new }
{
    report_row(section_bytes(file, section), range, end)
}
