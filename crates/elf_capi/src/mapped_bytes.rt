//! The range of the bytes at an address in a file, by the segments that load them.
ghost use Rattle.elf_capi.specs.MappedBytes.{FindsMapping, ReadsMapped};

use crate::file_headers::{FileHeaders, MAX_HEADERS};
use elf_record::{Phdr, Refusal};
use elf_table::{ByteRange, Fault, HeaderRows, checked_mapped, mapping};

/// Returns the range in a file in memory of the `size` bytes at an address, by the first LOAD
/// program header whose bytes in the file include them all; `None` if there is none (gABI 5,
/// Program Loading).
///
/// # Errors
/// Returns the first check that fails before the headers are read, with the largest limit on
/// headers; then `TableOutside` at that program header if the bytes end past the end of the file.
pub fn find_mapped(file: &[u8], address: u64, size: u64) -> Result<Option<ByteRange>, Refusal>
    ensures { ReadsMapped file.now address size result }
{
    let Some((place, header)) = find_mapping(file, address, size)? else {
        return Ok(None);
    };
    match checked_mapped(&header, file.len() as u64, place, address, size) {
        Ok(bytes) => Ok(Some(ByteRange {
            at: bytes.at(),
            len: bytes.size(),
        })),
        Err(Fault::Refused(refusal)) => Err(refusal),
        Err(Fault::Source { .. }) => unreachable!(),
    }
}

/// Returns the first LOAD program header that holds `size` bytes at an address, after its file
/// offset; `None` if there is none.
///
/// # Errors
/// Returns the first check that fails before the headers are read.
fn find_mapping(file: &[u8], address: u64, size: u64) -> Result<Option<(u64, Phdr)>, Refusal>
    ensures { FindsMapping file.now address size result }
{
    let headers = FileHeaders::new(file, MAX_HEADERS)?;
    match mapping(&headers, address, size) {
        Some(segment) => Ok(Some((
            headers.segment_place(segment),
            headers.program_header(segment),
        ))),
        None => Ok(None),
    }
}
