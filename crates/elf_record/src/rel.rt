//! Relocation entries without addends.
ghost use Rattle.std.specs.Prelude.{◌≡◌, ◌/◌, ◌%◌, ◌^◌, ℕ, List, length};

use crate::fields::{put_u64, u64_at};
use arrayvec::ArrayVec;

/// A relocation entry without an addend, 16 bytes: the first 16 bytes of one with an addend have
/// the same fields (gABI 4, Relocation).
#[derive(Clone, Copy)]
pub struct Rel {
    /// The place of the relocation, at 0: in a relocatable file an offset in bytes in the section
    /// that sh_info names.
    pub r_offset: u64,
    /// The symbol's index, in the high 32 bits, and the relocation's type, in the low 32, at 8.
    pub r_info: u64,
}

impl Rel {
    ghost use Rattle.elf_record.specs.Rel.{IsRel, rel_parts};
    ghost use Rattle.elf_record.specs.Parts.{AllFit, joined, spelling};
    ghost use Rattle.arrayvec.specs.ArrayVec.{array_vec_len};
    ghost use Rattle.elf_model.specs.Bytes.{IsBytes, slice};

    /// Reads the fields from the record's bytes. No field is checked.
    pub fn decode(bytes: &[u8; 16]) -> Rel
        ensures fields { IsRel bytes.now 0 result }
        ensures is_at { (file : List ℕ) (at : ℕ) → bytes.now ≡ slice file at 16 →
            IsRel file at result }
    {
        Rel {
            r_offset: u64_at(bytes, 0),
            r_info: u64_at(bytes, 8),
        }
    }

    /// Returns the record's bytes: those that `decode` reads these fields from, and no others.
    pub fn encode(&self) -> [u8; 16]
        ensures spelled { result ≡ spelling (rel_parts self.now) }
        ensures fields { IsRel result 0 self.now }
        ensures only { (bytes : List ℕ) → IsBytes bytes → length bytes ≡ 16 →
            IsRel bytes 0 self.now → bytes ≡ result }
    {
        self.spelled().into_inner().unwrap()
    }

    /// Returns the symbol's index: the high 32 bits of `r_info` (gABI 4, Relocation).
    pub fn symbol(&self) -> u32
        ensures { result ≡ self.now.r_info / 2 ^ 32 }
    {
        (self.r_info >> 32) as u32
    }

    /// Returns the relocation's type: the low 32 bits of `r_info` (gABI 4, Relocation).
    pub fn kind(&self) -> u32
        ensures { result ≡ self.now.r_info % 2 ^ 32 }
    {
        (self.r_info & 0xffff_ffff) as u32
    }

    fn spelled(&self) -> ArrayVec<u8, 16>
        ensures items { result.items ≡ joined (rel_parts self.now) }
        ensures fits { AllFit (rel_parts self.now) }
        ensures full { array_vec_len result ≡ 16 }
    {
        let mut out = ArrayVec::new();
        put_u64(&mut out, self.r_offset);
        put_u64(&mut out, self.r_info);
        out
    }
}
