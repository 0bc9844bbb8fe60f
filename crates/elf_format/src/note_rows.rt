//! The lines of notes.
ghost use Rattle.elf_source.specs.Prelude.{IsOutFault, OutGrows, OutPuts};
ghost use Rattle.std.specs.Prelude.{◌≡◌, ◌≤◌, ℕ, List, length, IfErr, IfSome};
ghost use Rattle.arrayvec.specs.ArrayVec.{array_vec_len};
ghost use Rattle.elf_model.specs.Prelude.{hex_bytes, note_line, note_prefix};
ghost use Rattle.elf_format.specs.Fronts.{front_of};
ghost use Rattle.elf_format.specs.Notes.{IsDescriptor, content_end, items_of, note_end, shown_content};
ghost use Rattle.elf_model.specs.declared.formats.Format.TheVariants.{Table as InTable};
ghost use Rattle.elf_format.specs.Named.{shown_as, tailed_line};

use crate::columns::{LineBuf, line_of, put, put_where};
use crate::dynamic_flags::Words;
use crate::fields::{LinePrefix, begin_named, put_closing, put_half, put_hex_field, put_text};
use crate::named::show_tailed;
use crate::note_contents::note_content;
use crate::render::{Json, Render};
use elf_model::Format;
use elf_record::NoteHead;
use elf_source::{Out, OutFault, Sink};
use hex::encode_to_slice;

/// The number of bytes of a note's descriptor that are shown.
const SHOWN_DESCRIPTOR: u32 = 32;

/// Fills the prefix with the `N` line of a note up to the name: the index of its section or program
/// header, type, and the sizes of its name and its descriptor in bytes (gABI 5, Note Section).
#[tactic(auto, unfolding(elf_model::specs::LineFronts::note_prefix))]
pub fn note_prefix<R: Render>(front: &mut LinePrefix, index: u16, head: &NoteHead)
    ensures front { front_of front.new
        ≡ note_prefix R.FORMAT index head.now.kind head.now.namesz head.now.descsz }
    ensures key { length front.new.key.now ≤ 16 }
{
    begin_named::<R>(front, b"N", b"name");
    let line = &mut front.line;
    put_half::<R>(line, b"index", index, b' ');
    put_hex_field::<R>(line, b"type", 8, 8, u64::from(head.kind), b' ');
    put_hex_field::<R>(line, b"namesz", 8, 6, u64::from(head.namesz), b' ');
    put_hex_field::<R>(line, b"descsz", 8, 6, u64::from(head.descsz), b' ');
}

/// Writes the `N` line of a note after its prefix, with its name, which `is_cut` if it has more
/// bytes than these, and the first bytes of its descriptor: 32 of them, or all if it has fewer; in
/// a table the content of a note that has one in words.
///
/// # Errors
/// Returns a fault of the output; a prefix of the line was written.
pub fn show_note<R: Render, W: Sink>(
    front: &mut LinePrefix,
    head: &NoteHead,
    name: &[u8],
    is_cut: bool,
    first_bytes: &[u8],
    out: &mut Out<W>,
) -> Result<(), OutFault>
    requires few { length first_bytes.now ≤ 32 }
    requires key { length front.old.key.now ≤ 16 }
    requires format { front.old.format ≡ R.FORMAT }
    ensures grows { OutGrows out.old out.new }
    ensures fails { IfErr result (IsOutFault out.new) }
    ensures puts { (descriptor : List ℕ) →
        IsDescriptor first_bytes.now head.now.descsz descriptor → OutPuts out.old out.new result
        (note_line (front_of front.old) head.now.kind (shown_as is_cut name.now) descriptor) }
{
    let has_more = head.descsz > SHOWN_DESCRIPTOR;
    match content_shown::<R>(head.kind, name, is_cut, first_bytes, has_more) {
        Some(content) => show_content(front, name, is_cut, &content, out),
        None => show_digits(front, name, is_cut, first_bytes, has_more, out),
    }
}

/// Returns the content of a note in words, if the row has it in place of the digits: in a table, of
/// a note whose name is whole.
#[inline(always)]
fn content_shown<R: Render>(
    kind: u32,
    name: &[u8],
    is_cut: bool,
    first_bytes: &[u8],
    has_more: bool,
) -> Option<Words>
    requires { length first_bytes.now ≤ 32 }
    ensures content { let name = shown_as is_cut name.now in
        items_of result ≡ shown_content R.FORMAT name kind first_bytes.now has_more }
    ensures short { IfSome result (λ content. array_vec_len content ≤ 230) }
{
    match R::FORMAT {
        Format::Columns | Format::Object => None,
        Format::Table => content_of(kind, name, is_cut, first_bytes, has_more),
    }
}

/// Returns the content of a note in words, if it has one and its name is whole.
fn content_of(
    kind: u32,
    name: &[u8],
    is_cut: bool,
    first_bytes: &[u8],
    has_more: bool,
) -> Option<Words>
    requires { length first_bytes.now ≤ 32 }
    ensures content { let name = shown_as is_cut name.now in
        items_of result ≡ shown_content InTable name kind first_bytes.now has_more }
    ensures short { IfSome result (λ content. array_vec_len content ≤ 230) }
{
    if is_cut {
        return None;
    }
    note_content(name, kind, first_bytes, has_more)
}

/// Writes the `N` line of a note after its prefix, with its name and the digits of the first bytes
/// of its descriptor.
///
/// # Errors
/// Returns a fault of the output; a prefix of the line was written.
fn show_digits<W: Sink>(
    front: &mut LinePrefix,
    name: &[u8],
    is_cut: bool,
    first_bytes: &[u8],
    has_more: bool,
    out: &mut Out<W>,
) -> Result<(), OutFault>
    requires few { length first_bytes.now ≤ 32 }
    requires key { length front.old.key.now ≤ 16 }
    ensures puts { let tail = note_end front.old.format (hex_bytes first_bytes.now) has_more in
        OutPuts out.old out.new result
        (tailed_line (front_of front.old) (shown_as is_cut name.now) tail) }
{
    let mut digits = [0; 64];
    let text = &mut digits[..2 * first_bytes.len()];
    encode_to_slice(first_bytes, text).unwrap();
    let tail = note_end(front.format, text, has_more);
    show_tailed(front, name, is_cut, &tail, out)
}

/// Writes the `N` line of a note after its prefix, with its name and its content.
///
/// # Errors
/// Returns a fault of the output; a prefix of the line was written.
fn show_content<W: Sink>(
    front: &mut LinePrefix,
    name: &[u8],
    is_cut: bool,
    content: &Words,
    out: &mut Out<W>,
) -> Result<(), OutFault>
    requires few { array_vec_len content.now ≤ 230 }
    requires key { length front.old.key.now ≤ 16 }
    ensures puts { let tail = content_end content.now.items in
        OutPuts out.old out.new result
        (tailed_line (front_of front.old) (shown_as is_cut name.now) tail) }
{
    let tail = content_end(content);
    show_tailed(front, name, is_cut, &tail, out)
}

/// Returns the text after a note's name in a table: its content, and the line's end.
fn content_end(content: &Words) -> LineBuf
    requires { array_vec_len content.now ≤ 230 }
    ensures items { result.items ≡ content_end content.now.items }
    ensures short { array_vec_len result ≤ 256 }
{
    let mut line = line_of(b" ");
    put(&mut line, content);
    put(&mut line, b"\n");
    line
}

/// Returns the text after a note's name: the digits of the first bytes of its descriptor, in
/// columns the mark of one that has more than these, and the line's end.
#[tactic(auto, unfolding(crate::specs::Notes::note_end))]
fn note_end(format: Format, digits: &[u8], has_more: bool) -> LineBuf
    requires { length digits.now ≤ 64 }
    ensures items { result.items ≡ note_end format digits.now has_more }
    ensures short { array_vec_len result ≤ 256 }
{
    let mut line = LineBuf::new();
    match format {
        Format::Columns | Format::Table => {
            put(&mut line, b" ");
            put(&mut line, digits);
            put_where(&mut line, has_more, b"\\+");
            put(&mut line, b"\n");
        }
        Format::Object => {
            put_text::<Json>(&mut line, b"descriptor", 0, digits, b'\n');
            put_closing::<Json>(&mut line);
        }
    }
    line
}
