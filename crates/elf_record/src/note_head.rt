//! Note headers.
ghost use Rattle.std.specs.Prelude.{◌≡◌, ℕ, List, length};

use crate::fields::{put_u32, u32_at};
use arrayvec::ArrayVec;

/// The header of a note, 12 bytes: three words of four bytes, as the usual tools write it (gABI 5,
/// Note Section, whose words have eight bytes in 64-bit files).
///
/// The name and the descriptor follow it, each padded; the sizes do not count the padding.
#[derive(Clone, Copy)]
pub struct NoteHead {
    /// The size of the note's name in bytes, with its terminating NUL, at 0.
    pub namesz: u32,
    /// The size of the note's descriptor in bytes, at 4.
    pub descsz: u32,
    /// The note's type, at 8. Its meaning depends on the name.
    pub kind: u32,
}

impl NoteHead {
    ghost use Rattle.elf_record.specs.NoteHead.{IsNoteHead, note_head_parts};
    ghost use Rattle.elf_record.specs.Parts.{AllFit, joined, spelling};
    ghost use Rattle.arrayvec.specs.ArrayVec.{array_vec_len};
    ghost use Rattle.elf_model.specs.Bytes.{IsBytes, slice};

    /// Reads the fields from the record's bytes. No field is checked.
    pub fn decode(bytes: &[u8; 12]) -> NoteHead
        ensures fields { IsNoteHead bytes.now 0 result }
        ensures is_at { (file : List ℕ) (at : ℕ) → bytes.now ≡ slice file at 12 →
            IsNoteHead file at result }
    {
        NoteHead {
            namesz: u32_at(bytes, 0),
            descsz: u32_at(bytes, 4),
            kind: u32_at(bytes, 8),
        }
    }

    /// Returns the record's bytes: those that `decode` reads these fields from, and no others.
    pub fn encode(&self) -> [u8; 12]
        ensures spelled { result ≡ spelling (note_head_parts self.now) }
        ensures fields { IsNoteHead result 0 self.now }
        ensures only { (bytes : List ℕ) → IsBytes bytes → length bytes ≡ 12 →
            IsNoteHead bytes 0 self.now → bytes ≡ result }
    {
        self.spelled().into_inner().unwrap()
    }

    fn spelled(&self) -> ArrayVec<u8, 12>
        ensures items { result.items ≡ joined (note_head_parts self.now) }
        ensures fits { AllFit (note_head_parts self.now) }
        ensures full { array_vec_len result ≡ 12 }
    {
        let mut out = ArrayVec::new();
        put_u32(&mut out, self.namesz);
        put_u32(&mut out, self.descsz);
        put_u32(&mut out, self.kind);
        out
    }
}
