//! The file header.
ghost use Rattle.std.specs.Prelude.{◌≡◌, ℕ, List, length};
ghost use Rattle.elf_model.specs.Prelude.{is_linked_type};

use crate::fields::{
    array_at, put_array, put_u8, put_u16, put_u32, put_u64, u8_at, u16_at, u32_at, u64_at,
};
use crate::numbers::{ET_DYN, ET_EXEC};
use arrayvec::ArrayVec;
use elf_model::{Cause, Refusal};

/// The magic number's four bytes, 7f 45 4c 46, as a little-endian number.
const MAGIC: u32 = 0x464c_457f;
/// The class of 64-bit files.
const CLASS_64: u8 = 2;
/// The data encoding of little-endian files.
const DATA_LITTLE_ENDIAN: u8 = 1;
/// The only version of the identification.
const VERSION_CURRENT: u8 = 1;

/// The file header of an ELF64 file, 64 bytes at offset 0 (gABI 4, ELF Header).
///
/// Every byte is in a field, the padding of the identification too.
#[repr(C)]
#[derive(Clone, Copy)]
pub struct Ehdr {
    /// The virtual address of the entry point, at 24.
    pub e_entry: u64,
    /// The file offset of the program headers, at 32.
    pub e_phoff: u64,
    /// The file offset of the section headers, at 40.
    pub e_shoff: u64,
    /// The object file's version, at 20.
    pub e_version: u32,
    /// The machine's flags, at 48.
    pub e_flags: u32,
    /// The object file's type, at 16.
    pub e_type: u16,
    /// The machine, at 18.
    pub e_machine: u16,
    /// The size of the file header in bytes, at 52.
    pub e_ehsize: u16,
    /// The size of a program header in bytes, at 54.
    pub e_phentsize: u16,
    /// The number of program headers, at 56.
    pub e_phnum: u16,
    /// The size of a section header in bytes, at 58.
    pub e_shentsize: u16,
    /// The number of section headers, at 60.
    pub e_shnum: u16,
    /// The section of the section names, at 62.
    pub e_shstrndx: u16,
    /// The magic number, bytes 0 to 3: 7f 45 4c 46.
    pub ident_magic: [u8; 4],
    /// The file's class, byte 4: 2 is 64-bit.
    pub ident_class: u8,
    /// The data encoding, byte 5: 1 is little-endian.
    pub ident_data: u8,
    /// The version of the identification, byte 6.
    pub ident_version: u8,
    /// The operating system or ABI, byte 7.
    pub ident_osabi: u8,
    /// The ABI's version, byte 8.
    pub ident_abi_version: u8,
    /// The padding of the identification, bytes 9 to 15.
    pub ident_padding: [u8; 7],
}

impl Ehdr {
    ghost use Rattle.elf_record.specs.Ehdr.{IsEhdr, IsChecked, ehdr_parts};
    ghost use Rattle.elf_record.specs.Parts.{AllFit, joined, spelling};
    ghost use Rattle.arrayvec.specs.ArrayVec.{array_vec_len};
    ghost use Rattle.elf_model.specs.Prelude.{IsBytes, slice, without_sections};

    /// Reads the fields from the record's bytes. No field is checked.
    pub fn decode(bytes: &[u8; 64]) -> Ehdr
        ensures fields { IsEhdr bytes.now 0 result }
        ensures is_at { (file : List ℕ) (at : ℕ) → bytes.now ≡ slice file at 64 →
            IsEhdr file at result }
    {
        Ehdr {
            ident_magic: array_at(bytes, 0),
            ident_class: u8_at(bytes, 4),
            ident_data: u8_at(bytes, 5),
            ident_version: u8_at(bytes, 6),
            ident_osabi: u8_at(bytes, 7),
            ident_abi_version: u8_at(bytes, 8),
            ident_padding: array_at(bytes, 9),
            e_type: u16_at(bytes, 16),
            e_machine: u16_at(bytes, 18),
            e_version: u32_at(bytes, 20),
            e_entry: u64_at(bytes, 24),
            e_phoff: u64_at(bytes, 32),
            e_shoff: u64_at(bytes, 40),
            e_flags: u32_at(bytes, 48),
            e_ehsize: u16_at(bytes, 52),
            e_phentsize: u16_at(bytes, 54),
            e_phnum: u16_at(bytes, 56),
            e_shentsize: u16_at(bytes, 58),
            e_shnum: u16_at(bytes, 60),
            e_shstrndx: u16_at(bytes, 62),
        }
    }

    /// Returns the same file header without section headers: e_shoff, e_shnum and e_shstrndx are 0.
    pub fn without_sections(&self) -> Ehdr
        ensures { (file : List ℕ) → IsEhdr file 0 self.now →
            IsEhdr (without_sections file) 0 result }
    {
        Ehdr {
            e_shoff: 0,
            e_shnum: 0,
            e_shstrndx: 0,
            ..*self
        }
    }

    /// Returns the record's bytes: those that `decode` reads these fields from, and no others.
    pub fn encode(&self) -> [u8; 64]
        ensures spelled { result ≡ spelling (ehdr_parts self.now) }
        ensures fields { IsEhdr result 0 self.now }
        ensures only { (bytes : List ℕ) → IsBytes bytes → length bytes ≡ 64 →
            IsEhdr bytes 0 self.now → bytes ≡ result }
    {
        self.spelled().into_inner().unwrap()
    }

    /// Checks the identification: magic number, class, data encoding and version, in this order
    /// (gABI 4, ELF Identification). The other fields are not checked.
    ///
    /// # Errors
    /// Returns the first check that fails: `NotElf` at 0, `BadClass` at 4, `BadData` at 5,
    /// `BadVersion` at 6.
    pub fn check(bytes: &[u8; 64]) -> Result<Ehdr, Refusal>
        ensures checked { IsChecked bytes.now result }
        ensures in_file { (file : List ℕ) → bytes.now ≡ slice file 0 64 → IsChecked file result }
    {
        Ehdr::check_ident(bytes)
    }

    fn check_ident(bytes: &[u8; 64]) -> Result<Ehdr, Refusal>
        ensures { IsChecked bytes.now result }
    {
        let header = Ehdr::decode(bytes);
        if u32_at(bytes, 0) != MAGIC {
            return Err(Refusal {
                at: 0,
                cause: Cause::NotElf,
            });
        }
        if header.ident_class != CLASS_64 {
            return Err(Refusal {
                at: 4,
                cause: Cause::BadClass,
            });
        }
        if header.ident_data != DATA_LITTLE_ENDIAN {
            return Err(Refusal {
                at: 5,
                cause: Cause::BadData,
            });
        }
        if header.ident_version != VERSION_CURRENT {
            return Err(Refusal {
                at: 6,
                cause: Cause::BadVersion,
            });
        }
        Ok(header)
    }

    fn spelled(&self) -> ArrayVec<u8, 64>
        ensures items { result.items ≡ joined (ehdr_parts self.now) }
        ensures fits { AllFit (ehdr_parts self.now) }
        ensures full { array_vec_len result ≡ 64 }
    {
        let mut out = ArrayVec::new();
        put_array(&mut out, &self.ident_magic);
        put_u8(&mut out, self.ident_class);
        put_u8(&mut out, self.ident_data);
        put_u8(&mut out, self.ident_version);
        put_u8(&mut out, self.ident_osabi);
        put_u8(&mut out, self.ident_abi_version);
        put_array(&mut out, &self.ident_padding);
        put_u16(&mut out, self.e_type);
        put_u16(&mut out, self.e_machine);
        put_u32(&mut out, self.e_version);
        put_u64(&mut out, self.e_entry);
        put_u64(&mut out, self.e_phoff);
        put_u64(&mut out, self.e_shoff);
        put_u32(&mut out, self.e_flags);
        put_u16(&mut out, self.e_ehsize);
        put_u16(&mut out, self.e_phentsize);
        put_u16(&mut out, self.e_phnum);
        put_u16(&mut out, self.e_shentsize);
        put_u16(&mut out, self.e_shnum);
        put_u16(&mut out, self.e_shstrndx);
        out
    }
}

/// Returns `true` if a loader links files of the type `e_type`: executable files and shared objects
/// (gABI 4, ELF Header).
pub fn is_linked_type(e_type: u16) -> bool
    ensures { result ≡ is_linked_type e_type }
{
    e_type == ET_EXEC || e_type == ET_DYN
}
