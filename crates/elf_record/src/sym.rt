//! Symbols.
ghost use Rattle.std.specs.Prelude.{◌≡◌, ◌/◌, ◌%◌, ℕ, List, length};

use crate::fields::{put_u8, put_u16, put_u32, put_u64, u8_at, u16_at, u32_at, u64_at};
use crate::numbers::{SHN_ABS, SHN_COMMON, SHN_LORESERVE, SHN_UNDEF};
use arrayvec::ArrayVec;

/// A symbol of an ELF64 file, 24 bytes (gABI 4, Symbol Table).
#[repr(C)]
#[derive(Clone, Copy)]
pub struct Sym {
    /// The symbol's value, at 8: in a relocatable file its offset in bytes in its section.
    pub st_value: u64,
    /// The symbol's size in bytes, at 16; 0 if it has none or it is not known.
    pub st_size: u64,
    /// The offset of the symbol's name in the string table, at 0.
    pub st_name: u32,
    /// The index of the section that the symbol is defined in, or a special index, at 6.
    pub st_shndx: u16,
    /// The symbol's binding, in the high four bits, and its type, in the low four, at 4.
    pub st_info: u8,
    /// The symbol's visibility, in the low two bits, at 5.
    pub st_other: u8,
}

/// The section of a symbol (gABI 4, Special Section Indexes).
#[derive(Clone, Copy)]
pub enum SymbolSection {
    /// Not in this file: the index 0.
    Undefined,
    /// In the section with this index, from 1 to 0xfeff. The file may have fewer sections.
    Section(u16),
    /// Nowhere, its value is absolute: the index 0xfff1.
    Absolute,
    /// In no section yet, as a common block: the index 0xfff2.
    Common,
    /// By one of the other reserved indices, starting at 0xff00.
    Reserved(u16),
}

impl Sym {
    ghost use Rattle.elf_record.specs.Sym.{IsPlace, IsSym, sym_parts};
    ghost use Rattle.elf_record.specs.Parts.{AllFit, joined, spelling};
    ghost use Rattle.arrayvec.specs.ArrayVec.{array_vec_len};
    ghost use Rattle.elf_model.specs.Bytes.{IsBytes, slice};

    /// Reads the fields from the record's bytes. No field is checked.
    pub fn decode(bytes: &[u8; 24]) -> Sym
        ensures fields { IsSym bytes.now 0 result }
        ensures is_at { (file : List ℕ) (at : ℕ) → bytes.now ≡ slice file at 24 →
            IsSym file at result }
    {
        Sym {
            st_name: u32_at(bytes, 0),
            st_info: u8_at(bytes, 4),
            st_other: u8_at(bytes, 5),
            st_shndx: u16_at(bytes, 6),
            st_value: u64_at(bytes, 8),
            st_size: u64_at(bytes, 16),
        }
    }

    /// Returns the record's bytes: those that `decode` reads these fields from, and no others.
    pub fn encode(&self) -> [u8; 24]
        ensures spelled { result ≡ spelling (sym_parts self.now) }
        ensures fields { IsSym result 0 self.now }
        ensures only { (bytes : List ℕ) → IsBytes bytes → length bytes ≡ 24 →
            IsSym bytes 0 self.now → bytes ≡ result }
    {
        self.spelled().into_inner().unwrap()
    }

    /// Returns the binding: the high four bits of `st_info` (gABI 4, Symbol Binding).
    pub fn binding(&self) -> u8
        ensures { result ≡ self.now.st_info / 16 }
    {
        self.st_info / 16
    }

    /// Returns the type: the low four bits of `st_info` (gABI 4, Symbol Types).
    pub fn kind(&self) -> u8
        ensures { result ≡ self.now.st_info % 16 }
    {
        self.st_info % 16
    }

    /// Returns the visibility: the low two bits of `st_other` (gABI 4, Symbol Visibility).
    pub fn visibility(&self) -> u8
        ensures { result ≡ self.now.st_other % 4 }
    {
        self.st_other % 4
    }

    /// Returns the section of the symbol, by `st_shndx` (gABI 4, Special Section Indexes).
    pub fn place(&self) -> SymbolSection
        ensures { IsPlace self.now.st_shndx result }
    {
        match self.st_shndx {
            SHN_UNDEF => SymbolSection::Undefined,
            SHN_ABS => SymbolSection::Absolute,
            SHN_COMMON => SymbolSection::Common,
            index if index < SHN_LORESERVE => SymbolSection::Section(index),
            index => SymbolSection::Reserved(index),
        }
    }

    fn spelled(&self) -> ArrayVec<u8, 24>
        ensures items { result.items ≡ joined (sym_parts self.now) }
        ensures fits { AllFit (sym_parts self.now) }
        ensures full { array_vec_len result ≡ 24 }
    {
        let mut out = ArrayVec::new();
        put_u32(&mut out, self.st_name);
        put_u8(&mut out, self.st_info);
        put_u8(&mut out, self.st_other);
        put_u16(&mut out, self.st_shndx);
        put_u64(&mut out, self.st_value);
        put_u64(&mut out, self.st_size);
        out
    }
}
