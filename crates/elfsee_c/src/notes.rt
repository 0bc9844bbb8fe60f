//! The exports that iterate over the notes of a file in memory.
ghost use Rattle.elf_capi.specs.NoteRows.{ReadsSectionNotes, ReadsSegmentNotes, TakesNote};
ghost use Rattle.elf_capi.specs.Ends.{ReturnsRead};

use elf_capi::{CallEnd, Note, NotePosition, next_note, report_row, section_notes, segment_notes};

/// Checks that the notes of a section lie within the file, and sets `notes` before the first. No
/// other section header is read (gABI 5, Note Section).
///
/// Returns 0 if they do, 2 if the file has no such section or its type is not NOTE, and 1 if a
/// check fails that a listing makes before it reads the headers, with the maximum number of headers
/// allowed, or if the section extends past the end of the file; the first that fails is in `end`.
#[unsafe(no_mangle)]
pub extern "C" fn elfsee_notes(
    file: &[u8],
    section: u16,
    notes: &mut NotePosition,
    end: &mut CallEnd,
) -> u32
    ensures { ReturnsRead (ReadsSectionNotes file.now section) result notes.old notes.new end.new }
{
    report_row(section_notes(file, section), notes, end)
}

/// Sets `notes` before the first note of a segment, as [`elfsee_notes`] does for a section (gABI 5,
/// Note Section).
#[unsafe(no_mangle)]
pub extern "C" fn elfsee_segment_notes(
    file: &[u8],
    segment: u16,
    notes: &mut NotePosition,
    end: &mut CallEnd,
) -> u32
    ensures { ReturnsRead (ReadsSegmentNotes file.now segment) result notes.old notes.new end.new }
{
    report_row(segment_notes(file, segment), notes, end)
}

/// Reads the next note and steps over it (gABI 5, Note Section).
///
/// Returns 0 if it was read, 2 after the last, and 1 if there is no note at the offset, with
/// `NoteCut` and the offset in `end`. If it was not read, `notes` is unchanged.
#[unsafe(no_mangle)]
pub extern "C" fn elfsee_next_note(
    file: &[u8],
    notes: &mut NotePosition,
    note: &mut Note,
    end: &mut CallEnd,
) -> u32
    ensures { ReturnsRead (TakesNote file.now notes.old notes.new) result note.old note.new
        end.new }
{
    report_row(next_note(file, notes), note, end)
}
