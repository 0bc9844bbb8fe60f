//! The records of files whose versions are needed.
ghost use Rattle.std.specs.Prelude.{◌≡◌, ℕ, List, length};

use crate::fields::{put_u16, put_u32, u16_at, u32_at};
use arrayvec::ArrayVec;

/// A file whose versions are needed, 16 bytes (Linux Standard Base Core, Symbol Versioning).
///
/// Its versions are stored apart from it.
#[derive(Clone, Copy)]
pub struct Verneed {
    /// The version of its layout, which is 1, at 0.
    pub vn_version: u16,
    /// The number of versions that are needed of it, at 2.
    pub vn_cnt: u16,
    /// The string table index of its name, at 4.
    pub vn_file: u32,
    /// The distance in bytes from it to the first of its versions, at 8.
    pub vn_aux: u32,
    /// The distance in bytes from it to the next file, at 12; 0 ends the chain.
    pub vn_next: u32,
}

impl Verneed {
    ghost use Rattle.elf_record.specs.Verneed.{IsVerneed, verneed_parts};
    ghost use Rattle.elf_record.specs.Parts.{AllFit, joined, spelling};
    ghost use Rattle.arrayvec.specs.ArrayVec.{array_vec_len};
    ghost use Rattle.elf_model.specs.Bytes.{IsBytes, slice};

    /// Reads the fields from the record's bytes. No field is checked.
    pub fn decode(bytes: &[u8; 16]) -> Verneed
        ensures fields { IsVerneed bytes.now 0 result }
        ensures is_at { (file : List ℕ) (at : ℕ) → bytes.now ≡ slice file at 16 →
            IsVerneed file at result }
    {
        Verneed {
            vn_version: u16_at(bytes, 0),
            vn_cnt: u16_at(bytes, 2),
            vn_file: u32_at(bytes, 4),
            vn_aux: u32_at(bytes, 8),
            vn_next: u32_at(bytes, 12),
        }
    }

    /// Returns the record's bytes: those that `decode` reads these fields from, and no others.
    pub fn encode(&self) -> [u8; 16]
        ensures spelled { result ≡ spelling (verneed_parts self.now) }
        ensures fields { IsVerneed result 0 self.now }
        ensures only { (bytes : List ℕ) → IsBytes bytes → length bytes ≡ 16 →
            IsVerneed bytes 0 self.now → bytes ≡ result }
    {
        self.spelled().into_inner().unwrap()
    }

    fn spelled(&self) -> ArrayVec<u8, 16>
        ensures items { result.items ≡ joined (verneed_parts self.now) }
        ensures fits { AllFit (verneed_parts self.now) }
        ensures full { array_vec_len result ≡ 16 }
    {
        let mut out = ArrayVec::new();
        put_u16(&mut out, self.vn_version);
        put_u16(&mut out, self.vn_cnt);
        put_u32(&mut out, self.vn_file);
        put_u32(&mut out, self.vn_aux);
        put_u32(&mut out, self.vn_next);
        out
    }
}
