//! A note that a cursor yields.
use elf_record::NoteHead;
use elf_table::NameEnd;

/// A note, with the first bytes of its descriptor borrowed from the cursor (gABI 5, Note Section).
/// Its name, as it is shown, is in the buffer that the caller passed to the cursor. The sizes are
/// those of the header, however much is shown.
#[derive(Clone, Copy)]
pub struct NoteRow<'a> {
    /// The file offset of the note header.
    pub at: u64,
    /// The note header.
    pub head: NoteHead,
    /// The file offset of the name.
    pub name_at: u64,
    /// Whether the name is shown whole, up to its first NUL.
    pub name_end: NameEnd,
    /// The file offset of the descriptor; if that is empty, the end of the note.
    pub desc_at: u64,
    /// The descriptor's first 32 bytes, or all if it has fewer.
    pub desc: &'a [u8],
}
