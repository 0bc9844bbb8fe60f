//! Notes, and steps over them.
ghost use Rattle.std.specs.Prelude.{◌≡◌};
ghost use Rattle.elf_model.specs.declared.causes.Cause.TheVariants.{NoteCut};
ghost use Rattle.elf_capi.specs.NoteRows.{TakesNote};

use elf_note::{are_zeros, note_align, note_parts};
use elf_record::{Cause, NoteHead, Refusal};
use elf_table::{ByteRange, bytes_of, chunk_at};

/// A position in a table of notes: plain numbers, as those of [`Rows`](crate::Rows).
#[repr(C)]
#[derive(Clone, Copy)]
pub struct NotePosition {
    /// The file offset of the next note.
    pub at: u64,
    /// The number of bytes from there to the end of the table.
    pub left: u64,
    /// The alignment of the notes: 8, or any other number for 4.
    pub align: u64,
    /// The index of the header that describes the table.
    pub header: u32,
    /// 0.
    pub none: u32,
}

/// A note: its offset and those of its parts (gABI 5, Note Section).
#[repr(C)]
#[derive(Clone, Copy)]
pub struct Note {
    /// The file offset of the note.
    pub at: u64,
    /// The file offset of its name.
    pub name_at: u64,
    /// The file offset of its descriptor; if that is empty, the end of the note.
    pub desc_at: u64,
    /// The size of its name in bytes, with any NUL.
    pub namesz: u32,
    /// The size of its descriptor in bytes.
    pub descsz: u32,
    /// Its type; what it means depends on the name.
    pub kind: u32,
    /// The index of the header that describes its table.
    pub header: u32,
}

/// Reads the next note and moves past it and its padding; returns `None` if fewer than 12 bytes are
/// left, all of them zero (gABI 5, Note Section).
///
/// # Errors
/// Returns `NoteCut` at the offset of the next note if there is no whole note. The position is then
/// unchanged.
pub fn next_note(file: &[u8], notes: &mut NotePosition) -> Result<Option<Note>, Refusal>
    ensures { TakesNote file.now notes.old notes.new result }
{
    let range = ByteRange {
        at: notes.at,
        len: notes.left,
    };
    let table = bytes_of(file, range);
    if table.len() < 12 {
        if are_zeros(table) {
            return Ok(None);
        }
        return Err(cut(notes.at));
    }
    let head = NoteHead::decode(chunk_at(table, 0));
    let Some(parts) = note_parts(note_align(notes.align), &head, table.len() as u64) else {
        return Err(cut(notes.at));
    };
    let note = Note {
        at: notes.at,
        name_at: notes.at + 12,
        desc_at: notes.at + parts.descriptor,
        namesz: head.namesz,
        descsz: head.descsz,
        kind: head.kind,
        header: notes.header,
    };
    notes.at += parts.size;
    notes.left -= parts.size;
    Ok(Some(note))
}

/// Returns the refusal of a table of notes at an offset.
fn cut(at: u64) -> Refusal
    ensures { result ≡ record { at = at; cause = NoteCut } }
{
    Refusal {
        at,
        cause: Cause::NoteCut,
    }
}
