//! Relocation entries.
ghost use Rattle.std.specs.Prelude.{◌≡◌, ◌/◌, ◌%◌, ◌^◌, ℕ, List, length};

use crate::fields::{i64_at, put_i64, put_u64, u64_at};
use arrayvec::ArrayVec;

/// A relocation entry with an addend, 24 bytes (gABI 4, Relocation).
#[repr(C)]
#[derive(Clone, Copy)]
pub struct Rela {
    /// The place of the relocation, at 0: in a relocatable file an offset in bytes in the section
    /// that sh_info names.
    pub r_offset: u64,
    /// The symbol's index, in the high 32 bits, and the relocation's type, in the low 32, at 8.
    pub r_info: u64,
    /// The addend, at 16, in two's complement.
    pub r_addend: i64,
}

impl Rela {
    ghost use Rattle.elf_record.specs.Rela.{IsRela, rela_parts};
    ghost use Rattle.elf_record.specs.Parts.{AllFit, joined, spelling};
    ghost use Rattle.arrayvec.specs.ArrayVec.{array_vec_len};
    ghost use Rattle.elf_model.specs.Prelude.{IsBytes, slice, twos_complement};
    ghost use Rattle.std.specs.Int.{cast_unsigned, w64};

    /// Reads the fields from the record's bytes. No field is checked.
    pub fn decode(bytes: &[u8; 24]) -> Rela
        ensures fields { IsRela bytes.now 0 result }
        ensures is_at { (file : List ℕ) (at : ℕ) → bytes.now ≡ slice file at 24 →
            IsRela file at result }
    {
        Rela {
            r_offset: u64_at(bytes, 0),
            r_info: u64_at(bytes, 8),
            r_addend: i64_at(bytes, 16),
        }
    }

    /// Returns the record's bytes: those that `decode` reads these fields from, and no others.
    pub fn encode(&self) -> [u8; 24]
        ensures spelled { result ≡ spelling (rela_parts self.now) }
        ensures fields { IsRela result 0 self.now }
        ensures only { (bytes : List ℕ) → IsBytes bytes → length bytes ≡ 24 →
            IsRela bytes 0 self.now → bytes ≡ result }
    {
        self.spelled().into_inner().unwrap()
    }

    /// Returns the symbol's index: the high 32 bits of `r_info` (gABI 4, Relocation).
    pub fn symbol(&self) -> u32
        ensures { result ≡ self.now.r_info / 2 ^ 32 }
    {
        (self.r_info >> 32) as u32
    }

    /// Returns the relocation's type: the low 32 bits of `r_info` (gABI 4, Relocation).
    pub fn kind(&self) -> u32
        ensures { result ≡ self.now.r_info % 2 ^ 32 }
    {
        (self.r_info & 0xffff_ffff) as u32
    }

    fn spelled(&self) -> ArrayVec<u8, 24>
        ensures items { result.items ≡ joined (rela_parts self.now) }
        ensures fits { AllFit (rela_parts self.now) }
        ensures full { array_vec_len result ≡ 24 }
        ensures signed { self.now.r_addend ≡ twos_complement (cast_unsigned w64 self.now.r_addend) }
    {
        let mut out = ArrayVec::new();
        put_u64(&mut out, self.r_offset);
        put_u64(&mut out, self.r_info);
        put_i64(&mut out, self.r_addend);
        out
    }
}
