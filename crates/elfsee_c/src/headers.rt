//! The exports that read the headers of a file in memory.
ghost use Rattle.elf_capi.specs.Headers.{ReadsHeader, ReadsSection, ReadsSegment};
ghost use Rattle.elf_capi.specs.Ends.{ReturnsRead};

use elf_capi::{CallEnd, read_header, read_section, read_segment, report_row};
use elf_record::{Ehdr, Phdr, Shdr};

/// Reads the file header of a file in memory (gABI 4, ELF Header).
///
/// Returns 0 if it was read, and 1 if a check of it fails, with the first that does in `end`.
#[unsafe(no_mangle)]
pub extern "C" fn elfsee_header(file: &[u8], header: &mut Ehdr, end: &mut CallEnd) -> u32
    ensures { ReturnsRead (ReadsHeader file.now) result header.old header.new end.new }
{
    report_row(read_header(file), header, end)
}

/// Reads the section header at an index from a file in memory. No other section header is read
/// (gABI 4, Section Header).
///
/// Returns 0 if it was read, 2 if the file has none at that index, and 1 if a check fails that a
/// listing makes before it reads the headers, with the maximum number of headers allowed; the first
/// that does is in `end`.
#[unsafe(no_mangle)]
pub extern "C" fn elfsee_section(
    file: &[u8],
    index: u16,
    section: &mut Shdr,
    end: &mut CallEnd,
) -> u32
    ensures { ReturnsRead (ReadsSection file.now index) result section.old section.new end.new }
{
    report_row(read_section(file, index), section, end)
}

/// Reads the program header at an index, as [`elfsee_section`] does a section header (gABI 5,
/// Program Header).
#[unsafe(no_mangle)]
pub extern "C" fn elfsee_segment(
    file: &[u8],
    index: u16,
    segment: &mut Phdr,
    end: &mut CallEnd,
) -> u32
    ensures { ReturnsRead (ReadsSegment file.now index) result segment.old segment.new end.new }
{
    report_row(read_segment(file, index), segment, end)
}
