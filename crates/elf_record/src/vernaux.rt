//! The records of needed versions.
ghost use Rattle.std.specs.Prelude.{◌≡◌, ℕ, List, length};

use crate::fields::{put_u16, put_u32, u16_at, u32_at};
use arrayvec::ArrayVec;

/// A version that is needed of a file, 16 bytes (Linux Standard Base Core, Symbol Versioning).
#[derive(Clone, Copy)]
pub struct Vernaux {
    /// The hash of its name, at 0.
    pub vna_hash: u32,
    /// Its flags, at 4.
    pub vna_flags: u16,
    /// Its version index, at 6.
    pub vna_other: u16,
    /// The string table index of its name, at 8.
    pub vna_name: u32,
    /// The distance in bytes from it to the next version of the file, at 12; 0 ends the chain.
    pub vna_next: u32,
}

impl Vernaux {
    ghost use Rattle.elf_record.specs.Vernaux.{IsVernaux, vernaux_parts};
    ghost use Rattle.elf_record.specs.Parts.{AllFit, joined, spelling};
    ghost use Rattle.arrayvec.specs.ArrayVec.{array_vec_len};
    ghost use Rattle.elf_model.specs.Bytes.{IsBytes, slice};

    /// Reads the fields from the record's bytes. No field is checked.
    pub fn decode(bytes: &[u8; 16]) -> Vernaux
        ensures fields { IsVernaux bytes.now 0 result }
        ensures is_at { (file : List ℕ) (at : ℕ) → bytes.now ≡ slice file at 16 →
            IsVernaux file at result }
    {
        Vernaux {
            vna_hash: u32_at(bytes, 0),
            vna_flags: u16_at(bytes, 4),
            vna_other: u16_at(bytes, 6),
            vna_name: u32_at(bytes, 8),
            vna_next: u32_at(bytes, 12),
        }
    }

    /// Returns the record's bytes: those that `decode` reads these fields from, and no others.
    pub fn encode(&self) -> [u8; 16]
        ensures spelled { result ≡ spelling (vernaux_parts self.now) }
        ensures fields { IsVernaux result 0 self.now }
        ensures only { (bytes : List ℕ) → IsBytes bytes → length bytes ≡ 16 →
            IsVernaux bytes 0 self.now → bytes ≡ result }
    {
        self.spelled().into_inner().unwrap()
    }

    fn spelled(&self) -> ArrayVec<u8, 16>
        ensures items { result.items ≡ joined (vernaux_parts self.now) }
        ensures fits { AllFit (vernaux_parts self.now) }
        ensures full { array_vec_len result ≡ 16 }
    {
        let mut out = ArrayVec::new();
        put_u32(&mut out, self.vna_hash);
        put_u16(&mut out, self.vna_flags);
        put_u16(&mut out, self.vna_other);
        put_u32(&mut out, self.vna_name);
        put_u32(&mut out, self.vna_next);
        out
    }
}
