//! The tables of notes that section headers and program headers describe.
ghost use Rattle.elf_capi.specs.NoteRows.{InFile, ReadsSectionNotes, ReadsSegmentNotes};

use crate::header::{find_section, find_segment};
use crate::notes::NotePosition;
use elf_record::Refusal;
use elf_record::numbers::{PT_NOTE, SHT_NOTE};
use elf_table::{Fault, checked_bytes};

/// Returns the position of the first note of a section of a file in memory; `None` if the file has
/// no such section, or if its type is not NOTE (gABI 5, Note Section).
///
/// # Errors
/// Returns the first check that fails before the headers are read, with the largest limit on
/// headers; then `TableOutside` at the section header if the section ends past the end of the file.
pub fn section_notes(file: &[u8], section: u16) -> Result<Option<NotePosition>, Refusal>
    ensures { ReadsSectionNotes file.now section result }
{
    let Some((place, header)) = find_section(file, section)? else {
        return Ok(None);
    };
    if header.sh_type != SHT_NOTE {
        return Ok(None);
    }
    let notes = NotePosition {
        at: header.sh_offset,
        left: header.sh_size,
        align: header.sh_addralign,
        header: u32::from(section),
        none: 0,
    };
    within(file.len() as u64, place, notes)
}

/// Returns the position of the first note of a segment, as [`section_notes`] does for a section.
///
/// # Errors
/// As for [`section_notes`], at the program header.
pub fn segment_notes(file: &[u8], segment: u16) -> Result<Option<NotePosition>, Refusal>
    ensures { ReadsSegmentNotes file.now segment result }
{
    let Some((place, header)) = find_segment(file, segment)? else {
        return Ok(None);
    };
    if header.p_type != PT_NOTE {
        return Ok(None);
    }
    let notes = NotePosition {
        at: header.p_offset,
        left: header.p_filesz,
        align: header.p_align,
        header: u32::from(segment),
        none: 0,
    };
    within(file.len() as u64, place, notes)
}

/// Checks that a table of notes lies within a file of `size` bytes; an empty table is not checked.
fn within(size: u64, place: u64, notes: NotePosition) -> Result<Option<NotePosition>, Refusal>
    ensures { InFile size place notes result }
{
    match checked_bytes(notes.at, notes.left, size, place) {
        Ok(_) => Ok(Some(notes)),
        Err(Fault::Refused(refusal)) => Err(refusal),
        Err(Fault::Source { .. }) => unreachable!(),
    }
}
