//! The records of version definitions.
ghost use Rattle.std.specs.Prelude.{◌≡◌, ℕ, List, length};

use crate::fields::{put_u16, put_u32, u16_at, u32_at};
use arrayvec::ArrayVec;

/// A version definition, 20 bytes (Linux Standard Base Core, Symbol Versioning).
///
/// Its names are stored apart from it.
#[derive(Clone, Copy)]
pub struct Verdef {
    /// The version of its layout, which is 1, at 0.
    pub vd_version: u16,
    /// Its flags, at 2.
    pub vd_flags: u16,
    /// Its version index, at 4.
    pub vd_ndx: u16,
    /// The number of its names, its own and its parents', at 6.
    pub vd_cnt: u16,
    /// The hash of its name, at 8.
    pub vd_hash: u32,
    /// The distance in bytes from it to its first name, at 12.
    pub vd_aux: u32,
    /// The distance in bytes from it to the next definition, at 16; 0 ends the chain.
    pub vd_next: u32,
}

impl Verdef {
    ghost use Rattle.elf_record.specs.Verdef.{IsVerdef, verdef_parts};
    ghost use Rattle.elf_record.specs.Parts.{AllFit, joined, spelling};
    ghost use Rattle.arrayvec.specs.ArrayVec.{array_vec_len};
    ghost use Rattle.elf_model.specs.Bytes.{IsBytes, slice};

    /// Reads the fields from the record's bytes. No field is checked.
    pub fn decode(bytes: &[u8; 20]) -> Verdef
        ensures fields { IsVerdef bytes.now 0 result }
        ensures is_at { (file : List ℕ) (at : ℕ) → bytes.now ≡ slice file at 20 →
            IsVerdef file at result }
    {
        Verdef {
            vd_version: u16_at(bytes, 0),
            vd_flags: u16_at(bytes, 2),
            vd_ndx: u16_at(bytes, 4),
            vd_cnt: u16_at(bytes, 6),
            vd_hash: u32_at(bytes, 8),
            vd_aux: u32_at(bytes, 12),
            vd_next: u32_at(bytes, 16),
        }
    }

    /// Returns the record's bytes: those that `decode` reads these fields from, and no others.
    pub fn encode(&self) -> [u8; 20]
        ensures spelled { result ≡ spelling (verdef_parts self.now) }
        ensures fields { IsVerdef result 0 self.now }
        ensures only { (bytes : List ℕ) → IsBytes bytes → length bytes ≡ 20 →
            IsVerdef bytes 0 self.now → bytes ≡ result }
    {
        self.spelled().into_inner().unwrap()
    }

    fn spelled(&self) -> ArrayVec<u8, 20>
        ensures items { result.items ≡ joined (verdef_parts self.now) }
        ensures fits { AllFit (verdef_parts self.now) }
        ensures full { array_vec_len result ≡ 20 }
    {
        let mut out = ArrayVec::new();
        put_u16(&mut out, self.vd_version);
        put_u16(&mut out, self.vd_flags);
        put_u16(&mut out, self.vd_ndx);
        put_u16(&mut out, self.vd_cnt);
        put_u32(&mut out, self.vd_hash);
        put_u32(&mut out, self.vd_aux);
        put_u32(&mut out, self.vd_next);
        out
    }
}
