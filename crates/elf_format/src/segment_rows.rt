//! The lines of program headers.
ghost use Rattle.std.specs.Prelude.{◌≡◌, ◌+◌, ◌≤◌, ◌++◌, ◌∷◌, [], if◌then◌else◌, ℕ, List, length};
ghost use Rattle.std.specs.Prelude.{codes, IfSome, option_copied};
ghost use Rattle.arrayvec.specs.ArrayVec.{array_vec_len};
ghost use Rattle.elf_model.specs.Prelude.{name_of, segment_flags_text, segment_line, segment_types};
ghost use Rattle.elf_record.specs.Phdr.{IsPhdr};

use crate::columns::LineBuf;
use crate::fields::{begin, put_closing, put_half, put_hex_field, put_name_or_hex, put_text};
use crate::name_tables::name_in_either_table;
use crate::render::Render;
use bitflags::Flags;
use elf_record::gnu_numbers::{
    PT_GNU_EH_FRAME, PT_GNU_PROPERTY, PT_GNU_RELRO, PT_GNU_SFRAME, PT_GNU_STACK,
};
use elf_record::numbers::{
    PT_DYNAMIC, PT_INTERP, PT_LOAD, PT_NOTE, PT_NULL, PT_PHDR, PT_SHLIB, PT_TLS,
};
use elf_record::{Phdr, SegmentFlags};

/// Returns the `P` line of a program header: its index, type, permissions, file offset, virtual and
/// physical address, size in the file and in memory, and alignment (gABI 5, Program Header); `gnu`
/// says whether GNU types have names.
#[tactic(auto, unfolding(elf_model::specs::Lines::segment_line))]
pub fn segment_row<R: Render>(index: u16, header: &Phdr, gnu: bool) -> LineBuf
    ensures { (file : List ℕ) (at : ℕ) → IsPhdr file at header.now →
        result.items ≡ segment_line R.FORMAT gnu file at index }
{
    let kind = u64::from(header.p_type);
    let mut letters = LineBuf::new();
    put_permissions(&mut letters, SegmentFlags(header.p_flags));
    let mut line = LineBuf::new();
    begin::<R>(&mut line, b"P");
    put_half::<R>(&mut line, b"index", index, b' ');
    put_name_or_hex::<R>(&mut line, b"type", 8, 8, segment_type_name(kind, gnu), kind);
    put_text::<R>(&mut line, b"permissions", 3, &letters, b' ');
    put_hex_field::<R>(&mut line, b"offset", 16, 9, header.p_offset, b' ');
    put_hex_field::<R>(&mut line, b"vaddr", 16, 12, header.p_vaddr, b' ');
    put_hex_field::<R>(&mut line, b"paddr", 16, 12, header.p_paddr, b' ');
    put_hex_field::<R>(&mut line, b"filesz", 16, 9, header.p_filesz, b' ');
    put_hex_field::<R>(&mut line, b"memsz", 16, 9, header.p_memsz, b' ');
    put_hex_field::<R>(&mut line, b"align", 16, 5, header.p_align, b'\n');
    put_closing::<R>(&mut line);
    line
}

/// Appends a segment's permissions: the letters of read, write and execute, or a dash for each that
/// is not given. Other bits are not shown (gABI 5, Segment Flag Bits).
fn put_permissions(line: &mut LineBuf, flags: SegmentFlags)
    requires { array_vec_len line.old + 3 ≤ 256 }
    ensures items { line.new.items ≡ line.old.items ++ segment_flags_text flags.0 }
    ensures len { array_vec_len line.new ≡ array_vec_len line.old + 3 }
{
    put_letter(line, flags.contains(SegmentFlags::R), b'R');
    put_letter(line, flags.contains(SegmentFlags::W), b'W');
    put_letter(line, flags.contains(SegmentFlags::X), b'X');
}

/// Appends a flag's letter, or a dash if it is not set.
fn put_letter(line: &mut LineBuf, is_set: bool, letter: u8)
    requires { array_vec_len line.old + 1 ≤ 256 }
    ensures items { line.new.items ≡ line.old.items ++ (if is_set then letter ∷ [] else codes "-") }
    ensures len { array_vec_len line.new ≡ array_vec_len line.old + 1 }
{
    line.push(if is_set { letter } else { b'-' });
}

/// Returns the name of a segment type.
fn segment_type_name(kind: u64, gnu: bool) -> Option<&'static str>
    ensures name { option_copied result ≡ name_of (segment_types gnu) kind }
    ensures short { IfSome result (λ name. length name.now ≤ 8) }
{
    name_in_either_table(&STANDARD_SEGMENT_TYPES, gnu, &GNU_SEGMENT_TYPES, kind)
}

/// The segment types of the standard (gABI 5, Segment Types).
const STANDARD_SEGMENT_TYPES: [(u64, &str); 8] = [
    (PT_NULL as u64, "NULL"),
    (PT_LOAD as u64, "LOAD"),
    (PT_DYNAMIC as u64, "DYNAMIC"),
    (PT_INTERP as u64, "INTERP"),
    (PT_NOTE as u64, "NOTE"),
    (PT_SHLIB as u64, "SHLIB"),
    (PT_PHDR as u64, "PHDR"),
    (PT_TLS as u64, "TLS"),
];

/// The GNU segment types that have names.
const GNU_SEGMENT_TYPES: [(u64, &str); 5] = [
    (PT_GNU_EH_FRAME as u64, "EH_FRAME"),
    (PT_GNU_STACK as u64, "STACK"),
    (PT_GNU_RELRO as u64, "RELRO"),
    (PT_GNU_PROPERTY as u64, "PROPERTY"),
    (PT_GNU_SFRAME as u64, "SFRAME"),
];
