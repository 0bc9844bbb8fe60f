//! Section headers.
ghost use Rattle.std.specs.Prelude.{◌≡◌, ℕ, List, length};
ghost use Rattle.elf_model.specs.Apply.{applies_to};

use crate::fields::{put_u32, put_u64, u32_at, u64_at};
use crate::numbers::SHT_RELA;
use arrayvec::ArrayVec;

/// A section header of an ELF64 file, 64 bytes (gABI 4, Section Header).
#[repr(C)]
#[derive(Clone, Copy)]
pub struct Shdr {
    /// The section's flags, at 8: the bits of a `SectionFlags`.
    pub sh_flags: u64,
    /// The virtual address of the section's first byte, at 16; 0 if it is not in memory.
    pub sh_addr: u64,
    /// The file offset of the section's first byte, at 24.
    pub sh_offset: u64,
    /// The section's size in bytes, at 32, also of a section without bytes in the file.
    pub sh_size: u64,
    /// The alignment of the section's address in bytes, at 48; 0 and 1 mean none.
    pub sh_addralign: u64,
    /// The size of an entry in bytes, at 56, if the section is a table of fixed-size entries;
    /// otherwise 0.
    pub sh_entsize: u64,
    /// The offset of the section's name in the section name string table, at 0.
    pub sh_name: u32,
    /// The section's type, at 4.
    pub sh_type: u32,
    /// The index of a section that this one refers to, at 40. Its meaning depends on the type.
    pub sh_link: u32,
    /// Further information, at 44. Its meaning depends on the type.
    pub sh_info: u32,
}

impl Shdr {
    ghost use Rattle.elf_record.specs.Shdr.{IsShdr, shdr_parts};
    ghost use Rattle.elf_record.specs.Parts.{AllFit, joined, spelling};
    ghost use Rattle.arrayvec.specs.ArrayVec.{array_vec_len};
    ghost use Rattle.elf_model.specs.Bytes.{IsBytes, slice};

    /// Reads the fields from the record's bytes. No field is checked.
    pub fn decode(bytes: &[u8; 64]) -> Shdr
        ensures fields { IsShdr bytes.now 0 result }
        ensures is_at { (file : List ℕ) (at : ℕ) → bytes.now ≡ slice file at 64 →
            IsShdr file at result }
    {
        Shdr {
            sh_name: u32_at(bytes, 0),
            sh_type: u32_at(bytes, 4),
            sh_flags: u64_at(bytes, 8),
            sh_addr: u64_at(bytes, 16),
            sh_offset: u64_at(bytes, 24),
            sh_size: u64_at(bytes, 32),
            sh_link: u32_at(bytes, 40),
            sh_info: u32_at(bytes, 44),
            sh_addralign: u64_at(bytes, 48),
            sh_entsize: u64_at(bytes, 56),
        }
    }

    /// Returns `true` if the section has relocation entries for the section of an index (gABI 4,
    /// Relocation).
    pub fn applies_to(&self, section: u16) -> bool
        ensures { (file : List ℕ) (at : ℕ) → IsShdr file at self.now →
            result ≡ applies_to file section at }
    {
        self.sh_type == SHT_RELA && self.sh_info == u32::from(section)
    }

    /// Returns the record's bytes: those that `decode` reads these fields from, and no others.
    pub fn encode(&self) -> [u8; 64]
        ensures spelled { result ≡ spelling (shdr_parts self.now) }
        ensures fields { IsShdr result 0 self.now }
        ensures only { (bytes : List ℕ) → IsBytes bytes → length bytes ≡ 64 →
            IsShdr bytes 0 self.now → bytes ≡ result }
    {
        self.spelled().into_inner().unwrap()
    }

    fn spelled(&self) -> ArrayVec<u8, 64>
        ensures items { result.items ≡ joined (shdr_parts self.now) }
        ensures fits { AllFit (shdr_parts self.now) }
        ensures full { array_vec_len result ≡ 64 }
    {
        let mut out = ArrayVec::new();
        put_u32(&mut out, self.sh_name);
        put_u32(&mut out, self.sh_type);
        put_u64(&mut out, self.sh_flags);
        put_u64(&mut out, self.sh_addr);
        put_u64(&mut out, self.sh_offset);
        put_u64(&mut out, self.sh_size);
        put_u32(&mut out, self.sh_link);
        put_u32(&mut out, self.sh_info);
        put_u64(&mut out, self.sh_addralign);
        put_u64(&mut out, self.sh_entsize);
        out
    }
}
