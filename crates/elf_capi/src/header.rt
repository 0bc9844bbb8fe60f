//! The headers of a file in memory, one at a time.
ghost use Rattle.elf_capi.specs.Headers.{FindsSection, FindsSegment, ReadsHeader};
ghost use Rattle.elf_capi.specs.Headers.{ReadsSection, ReadsSegment};

use crate::checked::checked_header;
use crate::file_headers::{FileHeaders, MAX_HEADERS};
use elf_record::{Ehdr, Phdr, Refusal, Shdr};
use elf_table::HeaderRows;

/// Reads the file header of a file in memory; the result is never `None` (gABI 4, ELF Header).
///
/// # Errors
/// Returns the first check of it that fails.
pub fn read_header(file: &[u8]) -> Result<Option<Ehdr>, Refusal>
    ensures { ReadsHeader file.now result }
{
    let header = checked_header(file)?;
    Ok(Some(header))
}

/// Reads the section header of an index from a file in memory; `None` if there is none. No other
/// section header is read (gABI 4, Section Header).
///
/// # Errors
/// Returns the first check that fails before the headers are read, with the largest limit on
/// headers.
pub fn read_section(file: &[u8], index: u16) -> Result<Option<Shdr>, Refusal>
    ensures { ReadsSection file.now index result }
{
    match find_section(file, index)? {
        Some((_, header)) => Ok(Some(header)),
        None => Ok(None),
    }
}

/// Reads the program header of an index from a file in memory, as [`read_section`] does a section
/// header (gABI 5, Program Header).
///
/// # Errors
/// As for [`read_section`].
pub fn read_segment(file: &[u8], index: u16) -> Result<Option<Phdr>, Refusal>
    ensures { ReadsSegment file.now index result }
{
    match find_segment(file, index)? {
        Some((_, header)) => Ok(Some(header)),
        None => Ok(None),
    }
}

/// Returns the section header of an index, after its file offset, as [`read_section`] does.
///
/// # Errors
/// As for [`read_section`].
pub(crate) fn find_section(file: &[u8], index: u16) -> Result<Option<(u64, Shdr)>, Refusal>
    ensures { FindsSection file.now index result }
{
    let headers = FileHeaders::new(file, MAX_HEADERS)?;
    if index >= headers.section_count() {
        return Ok(None);
    }
    Ok(Some((headers.section_place(index), headers.section_header(index))))
}

/// Returns the program header of an index, after its file offset, as [`read_segment`] does.
///
/// # Errors
/// As for [`read_segment`].
pub fn find_segment(file: &[u8], index: u16) -> Result<Option<(u64, Phdr)>, Refusal>
    ensures { FindsSegment file.now index result }
{
    let headers = FileHeaders::new(file, MAX_HEADERS)?;
    if index >= headers.segment_count() {
        return Ok(None);
    }
    Ok(Some((headers.segment_place(index), headers.program_header(index))))
}
