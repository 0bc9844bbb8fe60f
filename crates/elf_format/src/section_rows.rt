//! The lines of section headers.
ghost use Rattle.std.specs.Prelude.{◌≡◌, ◌+◌, ◌≤◌, ◌++◌, ℕ, List, length, IfSome, option_copied};
ghost use Rattle.arrayvec.specs.ArrayVec.{array_vec_len};
ghost use Rattle.elf_model.specs.Prelude.{flags_column, flags_with_letters, letters_of, name_of, names_where, section_flags, section_flags_text, section_prefix, section_types};
ghost use Rattle.elf_format.specs.Tables.{letters};
ghost use Rattle.elf_record.specs.Shdr.{IsShdr};
ghost use Rattle.elf_format.specs.Fronts.{front_of};

use crate::columns::{LineBuf, put_where};
use crate::constant_names::ConstantNames;
use crate::fields::{
    LinePrefix, begin_named, put_half, put_hex_field, put_index, put_name_or_hex, put_text,
};
use crate::name_tables::name_in_either_table;
use crate::render::Render;
use elf_record::gnu_numbers::{
    SHF_EXCLUDE, SHF_GNU_MBIND, SHF_GNU_RETAIN, SHF_X86_64_LARGE, SHT_GNU_ATTRIBUTES, SHT_GNU_HASH,
    SHT_GNU_LIBLIST, SHT_GNU_VERDEF, SHT_GNU_VERNEED, SHT_GNU_VERSYM, SHT_RELR, SHT_X86_64_UNWIND,
};
use elf_record::numbers::{
    EM_X86_64, SHT_DYNAMIC, SHT_DYNSYM, SHT_FINI_ARRAY, SHT_GROUP, SHT_HASH, SHT_INIT_ARRAY,
    SHT_NOBITS, SHT_NOTE, SHT_NULL, SHT_PREINIT_ARRAY, SHT_PROGBITS, SHT_REL, SHT_RELA, SHT_SHLIB,
    SHT_STRTAB, SHT_SYMTAB, SHT_SYMTAB_SHNDX,
};
use elf_record::{SectionFlags, Shdr};

/// Fills the prefix with the `S` line of a section header up to the name: its index, type, flags,
/// address, file offset, size, link and info (gABI 4, Section Header).
#[tactic(auto, unfolding(elf_model::specs::LineFronts::section_prefix))]
pub fn section_prefix<R: Render>(
    front: &mut LinePrefix,
    index: u16,
    header: &Shdr,
    naming: ConstantNames,
)
    ensures front { (file : List ℕ) (at : ℕ) → IsShdr file at header.now → front_of front.new
        ≡ section_prefix R.FORMAT naming.gnu naming.machine file at index }
    ensures key { length front.new.key.now ≤ 16 }
{
    let kind = u64::from(header.sh_type);
    let letters = section_letters(header.sh_flags, naming);
    begin_named::<R>(front, b"S", b"name");
    let line = &mut front.line;
    put_half::<R>(line, b"index", index, b' ');
    put_name_or_hex::<R>(line, b"type", 13, 8, section_type_name(kind, naming), kind);
    put_text::<R>(line, b"flags", 12, &letters, b' ');
    put_hex_field::<R>(line, b"address", 16, 12, header.sh_addr, b' ');
    put_hex_field::<R>(line, b"offset", 16, 9, header.sh_offset, b' ');
    put_hex_field::<R>(line, b"size", 16, 9, header.sh_size, b' ');
    put_index::<R>(line, b"link", 4, header.sh_link);
    put_index::<R>(line, b"info", 5, header.sh_info);
}

/// The largest number of letters of flags that are shown.
const MOST_LETTERS: usize = 12;

/// All flags that the standard defines.
const STANDARD_FLAGS: u64 = 0xff7;

/// Returns the letters of a section's flags, and a question mark if any other bit is set (gABI 4,
/// Section Attribute Flags); of more than twelve the first eleven, and a question mark.
fn section_letters(bits: u64, naming: ConstantNames) -> LineBuf
    ensures text { result.items ≡ section_flags_text naming.gnu naming.machine bits }
    ensures short { array_vec_len result ≤ 12 }
{
    let mut line = LineBuf::new();
    put_letters(&mut line, true, &STANDARD_LETTERS, bits);
    put_letters(&mut line, naming.gnu, &GNU_LETTERS, bits);
    put_letters(&mut line, naming.is_gnu_on_x86_64(), &X86_64_LETTERS, bits);
    put_letters(&mut line, naming.gnu, &PROCESSOR_LETTERS, bits);
    let known = flags_with_letters(naming);
    put_where(&mut line, bits & known != bits, b"?");
    flags_column(line)
}

#[tactic(auto, unfolding(crate::specs::Rows::flags_column))]
/// Returns a text of letters, or the first eleven letters of a longer one, and a question mark.
fn flags_column(letters: LineBuf) -> LineBuf
    ensures text { result.items ≡ flags_column letters.items }
    ensures short { array_vec_len result ≤ 12 }
{
    let mut line = letters;
    if line.len() > MOST_LETTERS {
        line.truncate(MOST_LETTERS - 1);
        line.push(b'?');
    }
    line
}

/// Appends the letters of the flags of a table that are set, if a condition holds.
#[tactic(auto, unfolding(crate::specs::Rows::letters_of))]
fn put_letters(line: &mut LineBuf, condition: bool, mut table: &[(u64, u8)], bits: u64)
    requires { array_vec_len line.old + length table.now ≤ 256 }
    ensures items { line.new.items
        ≡ line.old.items ++ letters_of (names_where condition (letters table.entry.now)) bits }
    ensures len { array_vec_len line.new ≤ array_vec_len line.old + length table.entry.now }
{
    if !condition {
        return;
    }
    while let [flag, rest @ ..] = table {
        put_where(line, bits & flag.0 == flag.0, &[flag.1]);
        table = rest;
    }
}

/// The flags of the standard, and their letters.
const STANDARD_LETTERS: [(u64, u8); 11] = [
    (SectionFlags::WRITE.0, b'W'),
    (SectionFlags::ALLOC.0, b'A'),
    (SectionFlags::EXECINSTR.0, b'X'),
    (SectionFlags::MERGE.0, b'M'),
    (SectionFlags::STRINGS.0, b'S'),
    (SectionFlags::INFO_LINK.0, b'I'),
    (SectionFlags::LINK_ORDER.0, b'L'),
    (SectionFlags::OS_NONCONFORMING.0, b'O'),
    (SectionFlags::GROUP.0, b'G'),
    (SectionFlags::TLS.0, b'T'),
    (SectionFlags::COMPRESSED.0, b'C'),
];

/// The GNU flags, and their letters.
const GNU_LETTERS: [(u64, u8); 2] = [(SHF_GNU_RETAIN, b'R'), (SHF_GNU_MBIND, b'D')];

/// The flags of x86-64, and their letters (x86-64 psABI, Section Attribute Flags).
const X86_64_LETTERS: [(u64, u8); 1] = [(SHF_X86_64_LARGE, b'l')];

/// The flags of every processor, and their letters.
const PROCESSOR_LETTERS: [(u64, u8); 1] = [(SHF_EXCLUDE, b'E')];

/// Returns all flags that have letters.
#[tactic(auto, unfolding(crate::specs::Rows::section_flags, crate::specs::Rows::standard_section_flags, crate::specs::Rows::further_section_flags, crate::specs::Rows::gnu_section_flags, crate::specs::Rows::x86_64_section_flags, crate::specs::Rows::processor_section_flags))]
fn flags_with_letters(naming: ConstantNames) -> u64
    ensures { result ≡ flags_with_letters (section_flags naming.gnu naming.machine) }
{
    if !naming.gnu {
        return STANDARD_FLAGS;
    }
    let further = STANDARD_FLAGS | SHF_GNU_RETAIN | SHF_GNU_MBIND | SHF_EXCLUDE;
    if naming.machine == EM_X86_64 {
        return further | SHF_X86_64_LARGE;
    }
    further
}

/// Returns the name of a section type.
fn section_type_name(kind: u64, naming: ConstantNames) -> Option<&'static str>
    ensures name { option_copied result ≡ name_of (section_types naming.gnu naming.machine) kind }
    ensures short { IfSome result (λ name. length name.now ≤ 13) }
{
    let unwind = name_in_either_table(&[], naming.is_gnu_on_x86_64(), &X86_64_SECTION_TYPES, kind);
    name_in_either_table(
        &STANDARD_SECTION_TYPES,
        naming.gnu,
        &GNU_SECTION_TYPES,
        kind,
    )
    .or(unwind)
}

/// The section types of the standard that have names (gABI 4, Section Types).
const STANDARD_SECTION_TYPES: [(u64, &str); 17] = [
    (SHT_NULL as u64, "NULL"),
    (SHT_PROGBITS as u64, "PROGBITS"),
    (SHT_SYMTAB as u64, "SYMTAB"),
    (SHT_STRTAB as u64, "STRTAB"),
    (SHT_RELA as u64, "RELA"),
    (SHT_HASH as u64, "HASH"),
    (SHT_DYNAMIC as u64, "DYNAMIC"),
    (SHT_NOTE as u64, "NOTE"),
    (SHT_NOBITS as u64, "NOBITS"),
    (SHT_REL as u64, "REL"),
    (SHT_SHLIB as u64, "SHLIB"),
    (SHT_DYNSYM as u64, "DYNSYM"),
    (SHT_INIT_ARRAY as u64, "INIT_ARRAY"),
    (SHT_FINI_ARRAY as u64, "FINI_ARRAY"),
    (SHT_PREINIT_ARRAY as u64, "PREINIT_ARRAY"),
    (SHT_GROUP as u64, "GROUP"),
    (SHT_SYMTAB_SHNDX as u64, "SYMTAB_SHNDX"),
];

/// The GNU section types that have names.
const GNU_SECTION_TYPES: [(u64, &str); 7] = [
    (SHT_RELR as u64, "RELR"),
    (SHT_GNU_ATTRIBUTES as u64, "GNU_ATTRIBS"),
    (SHT_GNU_HASH as u64, "GNU_HASH"),
    (SHT_GNU_LIBLIST as u64, "GNU_LIBLIST"),
    (SHT_GNU_VERDEF as u64, "VERDEF"),
    (SHT_GNU_VERNEED as u64, "VERNEED"),
    (SHT_GNU_VERSYM as u64, "VERSYM"),
];

/// The section types of x86-64 that have names (x86-64 psABI, Section Types).
const X86_64_SECTION_TYPES: [(u64, &str); 1] = [(SHT_X86_64_UNWIND as u64, "X86_64_UNWIND")];
