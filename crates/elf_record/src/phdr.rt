//! Program headers.
ghost use Rattle.std.specs.Prelude.{◌≡◌, ℕ, List, length};

use crate::fields::{put_u32, put_u64, u32_at, u64_at};
use arrayvec::ArrayVec;

/// A program header of an ELF64 file, 56 bytes (gABI 5, Program Header).
#[repr(C)]
#[derive(Clone, Copy)]
pub struct Phdr {
    /// The file offset of the segment's first byte, at 8.
    pub p_offset: u64,
    /// The virtual address of the segment's first byte, at 16.
    pub p_vaddr: u64,
    /// Its physical address, if that is meaningful, at 24.
    pub p_paddr: u64,
    /// The segment's size in the file in bytes, at 32.
    pub p_filesz: u64,
    /// The segment's size in memory in bytes, at 40.
    pub p_memsz: u64,
    /// The alignment of the segment in bytes, at 48; 0 and 1 mean none.
    pub p_align: u64,
    /// The segment's type, at 0.
    pub p_type: u32,
    /// The segment's flags, at 4: the bits of a `SegmentFlags`.
    pub p_flags: u32,
}

impl Phdr {
    ghost use Rattle.elf_record.specs.Phdr.{IsPhdr, phdr_parts};
    ghost use Rattle.elf_record.specs.Parts.{AllFit, joined, spelling};
    ghost use Rattle.arrayvec.specs.ArrayVec.{array_vec_len};
    ghost use Rattle.elf_model.specs.Bytes.{IsBytes, slice};

    /// Reads the fields from the record's bytes. No field is checked.
    pub fn decode(bytes: &[u8; 56]) -> Phdr
        ensures fields { IsPhdr bytes.now 0 result }
        ensures is_at { (file : List ℕ) (at : ℕ) → bytes.now ≡ slice file at 56 →
            IsPhdr file at result }
    {
        Phdr {
            p_type: u32_at(bytes, 0),
            p_flags: u32_at(bytes, 4),
            p_offset: u64_at(bytes, 8),
            p_vaddr: u64_at(bytes, 16),
            p_paddr: u64_at(bytes, 24),
            p_filesz: u64_at(bytes, 32),
            p_memsz: u64_at(bytes, 40),
            p_align: u64_at(bytes, 48),
        }
    }

    /// Returns the record's bytes: those that `decode` reads these fields from, and no others.
    pub fn encode(&self) -> [u8; 56]
        ensures spelled { result ≡ spelling (phdr_parts self.now) }
        ensures fields { IsPhdr result 0 self.now }
        ensures only { (bytes : List ℕ) → IsBytes bytes → length bytes ≡ 56 →
            IsPhdr bytes 0 self.now → bytes ≡ result }
    {
        self.spelled().into_inner().unwrap()
    }

    fn spelled(&self) -> ArrayVec<u8, 56>
        ensures items { result.items ≡ joined (phdr_parts self.now) }
        ensures fits { AllFit (phdr_parts self.now) }
        ensures full { array_vec_len result ≡ 56 }
    {
        let mut out = ArrayVec::new();
        put_u32(&mut out, self.p_type);
        put_u32(&mut out, self.p_flags);
        put_u64(&mut out, self.p_offset);
        put_u64(&mut out, self.p_vaddr);
        put_u64(&mut out, self.p_paddr);
        put_u64(&mut out, self.p_filesz);
        put_u64(&mut out, self.p_memsz);
        put_u64(&mut out, self.p_align);
        out
    }
}
