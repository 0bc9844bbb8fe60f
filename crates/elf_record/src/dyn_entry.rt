//! Dynamic entries.
ghost use Rattle.std.specs.Prelude.{◌≡◌, ℕ, List, length};

use crate::fields::{i64_at, put_i64, put_u64, u64_at};
use arrayvec::ArrayVec;

/// A dynamic entry of an ELF64 file, 16 bytes (gABI 5, Dynamic Section).
#[repr(C)]
#[derive(Clone, Copy)]
pub struct Dyn {
    /// The entry's tag, at 0, in two's complement.
    pub d_tag: i64,
    /// The entry's value or its virtual address, at 8. The tag decides which.
    pub d_un: u64,
}

impl Dyn {
    ghost use Rattle.elf_record.specs.Dyn.{IsDyn, dyn_parts};
    ghost use Rattle.elf_record.specs.Parts.{AllFit, joined, spelling};
    ghost use Rattle.arrayvec.specs.ArrayVec.{array_vec_len};
    ghost use Rattle.elf_model.specs.Prelude.{IsBytes, slice, twos_complement};
    ghost use Rattle.std.specs.Int.{cast_unsigned, w64};

    /// Reads the fields from the record's bytes. No field is checked.
    pub fn decode(bytes: &[u8; 16]) -> Dyn
        ensures fields { IsDyn bytes.now 0 result }
        ensures is_at { (file : List ℕ) (at : ℕ) → bytes.now ≡ slice file at 16 →
            IsDyn file at result }
    {
        Dyn {
            d_tag: i64_at(bytes, 0),
            d_un: u64_at(bytes, 8),
        }
    }

    /// Returns the record's bytes: those that `decode` reads these fields from, and no others.
    pub fn encode(&self) -> [u8; 16]
        ensures spelled { result ≡ spelling (dyn_parts self.now) }
        ensures fields { IsDyn result 0 self.now }
        ensures only { (bytes : List ℕ) → IsBytes bytes → length bytes ≡ 16 →
            IsDyn bytes 0 self.now → bytes ≡ result }
    {
        self.spelled().into_inner().unwrap()
    }

    fn spelled(&self) -> ArrayVec<u8, 16>
        ensures items { result.items ≡ joined (dyn_parts self.now) }
        ensures fits { AllFit (dyn_parts self.now) }
        ensures full { array_vec_len result ≡ 16 }
        ensures signed { self.now.d_tag ≡ twos_complement (cast_unsigned w64 self.now.d_tag) }
    {
        let mut out = ArrayVec::new();
        put_i64(&mut out, self.d_tag);
        put_u64(&mut out, self.d_un);
        out
    }
}
