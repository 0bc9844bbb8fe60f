//! The sizes of a note's parts.
ghost use Rattle.std.specs.Prelude.{◌≡◌, ◌+◌, ◌<◌, ◌≤◌, min, MatchOption};
ghost use Rattle.elf_model.specs.Prelude.{alignment_gap, bytes_to_alignment, descriptor_start, note_align};
ghost use Rattle.elf_note.specs.NoteCursors.{AreNoteParts};

use elf_record::NoteHead;

/// The parts of a note, by their distances from its start.
#[derive(Clone, Copy)]
pub struct NoteParts {
    /// Where its descriptor begins.
    pub descriptor: u64,
    /// Where the next note begins, or the end of the table.
    pub size: u64,
}

/// Returns the alignment of notes, by that of their header: 8 bytes for 8, otherwise 4.
pub fn note_align(align: u64) -> u64
    ensures value { result ≡ note_align align }
    ensures some { 0 < result }
    ensures small { result ≤ 8 }
{
    if align == 8 { 8 } else { 4 }
}

/// Returns the parts of the note of a header, of whose table `left` bytes are left from its start
/// on; `None` if the note has more.
pub fn note_parts(align: u64, head: &NoteHead, left: u64) -> Option<NoteParts>
    requires some { 0 < align }
    requires small { align ≤ 8 }
    ensures { MatchOption result
        (left < descriptor_start align head.now.namesz head.now.descsz + head.now.descsz)
        (AreNoteParts align head.now left) }
{
    let gap = alignment_gap(align, head.namesz, head.descsz);
    let descriptor = 12 + u64::from(head.namesz) + gap;
    let end = descriptor + u64::from(head.descsz);
    if left < end {
        return None;
    }
    let size = end + padding(align, end, left - end);
    Some(NoteParts { descriptor, size })
}

// Returns the number of bytes from `place` to the next multiple of `align`.
fn bytes_to_alignment(align: u64, place: u64) -> u64
    requires { 0 < align }
    ensures value { result ≡ bytes_to_alignment align place }
    ensures less { result < align }
{
    (align - place % align) % align
}

// Returns the number of bytes between a note's name and its descriptor, for their sizes: none if
// the descriptor is empty.
fn alignment_gap(align: u64, namesz: u32, descsz: u32) -> u64
    requires { 0 < align }
    ensures value { result ≡ alignment_gap align namesz descsz }
    ensures less { result < align }
{
    if descsz == 0 {
        return 0;
    }
    bytes_to_alignment(align, 12 + u64::from(namesz))
}

// Returns the number of padding bytes after a note of `size` bytes, if `left` bytes of its table
// are left after the note: those up to the next multiple of the alignment, or fewer at the table's
// end.
fn padding(align: u64, size: u64, left: u64) -> u64
    requires { 0 < align }
    ensures { result ≡ min (bytes_to_alignment align size) left }
{
    bytes_to_alignment(align, size).min(left)
}
