//! The range of a section's bytes in a file.
ghost use Rattle.elf_capi.specs.SectionBytes.{ReadsSectionBytes};

use crate::header::find_section;
use elf_record::{Cause, Refusal};
use elf_table::{ByteRange, has_no_bytes, is_out_of_bounds};

/// Returns the range of a section's bytes in a file in memory; `None` if the file has no such
/// section, or if its type is NOBITS or NULL, so that it has no bytes there. No other section
/// header is read (gABI 4, Section Header).
///
/// # Errors
/// Returns the first check that fails before the headers are read, with the largest limit on
/// headers; then `TableOutside` at the section header if the section ends past the end of the file.
pub fn section_bytes(file: &[u8], section: u16) -> Result<Option<ByteRange>, Refusal>
    ensures { ReadsSectionBytes file.now section result }
{
    let Some((place, header)) = find_section(file, section)? else {
        return Ok(None);
    };
    if has_no_bytes(&header) {
        return Ok(None);
    }
    if is_out_of_bounds(file.len() as u64, header.sh_offset, header.sh_size) {
        return Err(Refusal {
            at: place,
            cause: Cause::TableOutside,
        });
    }
    Ok(Some(ByteRange {
        at: header.sh_offset,
        len: header.sh_size,
    }))
}
