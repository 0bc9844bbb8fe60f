//! Lines with a name of any length: a line is written in pieces.
ghost use Rattle.std.specs.Prelude.{◌≡◌, ℕ, ◌+◌, ◌<◌, ◌≤◌, [], ◌∷◌, ◌++◌, length};
ghost use Rattle.std.specs.Prelude.{slice_index, IsOk, IsTrue};
ghost use Rattle.arrayvec.specs.ArrayVec.{array_vec_len};
ghost use Rattle.elf_model.specs.Lines.{named_line, name_byte_text};
ghost use Rattle.elf_source.specs.Output.{OutPuts};
ghost use Rattle.elf_format.specs.Fronts.{front_of};
ghost use Rattle.elf_format.specs.Named.{escaped_bytes, shown_as, tailed_line};
ghost use Rattle.elf_format.specs.Pieces.{PutsBefore, byte_text, name_closing, name_start, spelt};

use crate::columns::{LINE_BYTES, LineBuf, put, write_hex};
use crate::fields::LinePrefix;
use crate::objects::{put_key, put_quoted_byte};
use elf_model::Format;
use elf_source::{Out, OutFault, Sink};

/// Writes a line that ends in a name: its prefix, the name escaped as in a listing, the mark of a
/// truncated name, and the line's end.
///
/// # Errors
/// Returns a fault of the output; a prefix of the line was written.
#[tactic(auto, unfolding(elf_model::specs::Lines::line_named, crate::specs::Named::line_tailed, elf_model::specs::Fields::closing))]
pub fn show_named<W: Sink>(
    front: &mut LinePrefix,
    name: &[u8],
    is_cut: bool,
    out: &mut Out<W>,
) -> Result<(), OutFault>
    requires { length front.old.key.now ≤ 16 }
    ensures puts { OutPuts out.old out.new result
        (named_line (front_of front.old) (shown_as is_cut name.now)) }
{
    match front.format {
        Format::Columns | Format::Table => show_tailed(front, name, is_cut, b"\n", out),
        Format::Object => show_tailed(front, name, is_cut, b"}\n", out),
    }
}

/// Writes a line that ends in a name and a tail: its prefix, the name escaped as in a listing, the
/// mark of a truncated name, and the `tail`, with the line's end, of at most 256 bytes.
///
/// # Errors
/// Returns a fault of the output; a prefix of the line was written.
#[inline(always)]
pub fn show_tailed<W: Sink>(
    front: &mut LinePrefix,
    name: &[u8],
    is_cut: bool,
    tail: &[u8],
    out: &mut Out<W>,
) -> Result<(), OutFault>
    requires key { length front.old.key.now ≤ 16 }
    requires tail { length tail.now ≤ 256 }
    ensures puts { OutPuts out.old out.new result
        (tailed_line (front_of front.old) (shown_as is_cut name.now) tail.now) }
{
    put_named(front, name, is_cut, out)?;
    show_last(&mut front.line, tail, out)
}

/// A name that follows another: the text between them, its bytes, and the text after it, with the
/// line's end. The first and the last have at most 256 bytes.
pub struct SecondName<'a> {
    /// The text before it.
    pub between: &'a [u8],
    /// The name.
    pub name: &'a [u8],
    /// The text after it.
    pub tail: &'a [u8],
}

/// Writes a line that ends in two names: its prefix, the first name escaped as in a listing, the
/// mark of a truncated name, and the second name between the texts around it, escaped too.
///
/// # Errors
/// Returns a fault of the output; a prefix of the line was written.
pub fn show_joined<W: Sink>(
    front: &mut LinePrefix,
    name: &[u8],
    is_cut: bool,
    next: &SecondName<'_>,
    out: &mut Out<W>,
) -> Result<(), OutFault>
    requires key { length front.old.key.now ≤ 16 }
    requires between { length next.now.between.now ≤ 256 }
    requires tail { length next.now.tail.now ≤ 256 }
    ensures puts { let front = front_of front.old in
        let more = escaped_bytes front.format next.now.name.now ++ next.now.tail.now in
        OutPuts out.old out.new result
        (tailed_line front (shown_as is_cut name.now) (next.now.between.now ++ more)) }
{
    let format = front.format;
    put_named(front, name, is_cut, out)?;
    put_piece(&mut front.line, next.between, out)?;
    put_name(&mut front.line, format, next.name, out)?;
    show_last(&mut front.line, next.tail, out)
}

/// Appends a line's prefix, a name with the texts around it, and the mark of a truncated name. If
/// the line is full it is written, and begun again.
///
/// # Errors
/// Returns a fault of the output; a prefix of these bytes was written.
#[inline(always)]
fn put_named<W: Sink>(
    front: &mut LinePrefix,
    name: &[u8],
    is_cut: bool,
    out: &mut Out<W>,
) -> Result<(), OutFault>
    requires { length front.old.key.now ≤ 16 }
    ensures puts { let text = tailed_line (front_of front.old) (shown_as is_cut name.now) [] in
        PutsBefore out.old out.new result text front.new.line.items }
    ensures format { front.new.format ≡ front.old.format }
{
    let format = front.format;
    begin_name(front, out)?;
    put_name(&mut front.line, format, name, out)?;
    put_piece(&mut front.line, name_closing(format, is_cut), out)
}

/// Appends a text of at most 256 bytes to a line. If the line is full it is written, and begun
/// again.
///
/// # Errors
/// Returns a fault of the output; a prefix of the line was written.
#[inline(always)]
fn put_piece<W: Sink>(line: &mut LineBuf, text: &[u8], out: &mut Out<W>) -> Result<(), OutFault>
    requires { length text.now ≤ 256 }
    ensures puts { let whole = line.old.items ++ text.now in
        PutsBefore out.old out.new result whole line.new.items }
{
    make_room(line, text.len(), out)?;
    put(line, text);
    Ok(())
}

/// Writes a line and then its last text, of at most 256 bytes.
///
/// # Errors
/// Returns a fault of the output; a prefix of these bytes was written.
#[inline(always)]
fn show_last<W: Sink>(line: &mut LineBuf, text: &[u8], out: &mut Out<W>) -> Result<(), OutFault>
    requires { length text.now ≤ 256 }
    ensures puts { OutPuts out.old out.new result (line.old.items ++ text.now) }
{
    put_piece(line, text, out)?;
    out.put(line)
}

/// Appends the text before a name: nothing in columns. If the line is full it is written, and begun
/// again.
///
/// # Errors
/// Returns a fault of the output; a prefix of the line was written.
#[inline(always)]
#[tactic(auto, unfolding(crate::specs::Pieces::name_start))]
fn begin_name<W: Sink>(front: &mut LinePrefix, out: &mut Out<W>) -> Result<(), OutFault>
    requires { length front.old.key.now ≤ 16 }
    ensures puts { let text = front.old.line.items
        ++ name_start front.old.format front.old.key.now in
        PutsBefore out.old out.new result text front.new.line.items }
    ensures format { front.new.format ≡ front.old.format }
{
    match front.format {
        Format::Columns | Format::Table => Ok(()),
        Format::Object => {
            make_room(&mut front.line, 21, out)?;
            put_key(&mut front.line, front.key);
            front.line.push(b'"');
            Ok(())
        }
    }
}

/// Returns the text that ends a name, by whether the name was truncated.
#[inline(always)]
#[tactic(auto, unfolding(crate::specs::Pieces::name_closing))]
fn name_closing(format: Format, is_cut: bool) -> &'static [u8]
    ensures items { result.now ≡ name_closing format is_cut }
    ensures short { length result.now ≤ 12 }
{
    match (format, is_cut) {
        (Format::Columns | Format::Table, false) => b"",
        (Format::Columns | Format::Table, true) => b"\\+",
        (Format::Object, false) => b"\"",
        (Format::Object, true) => b"\",\"cut\":true",
    }
}

/// Appends a name to a line: the bytes at its start that need no escape at once, as far as they
/// fit, and the others byte by byte.
///
/// # Errors
/// Returns a fault of the output; a prefix of the line and the name was written.
#[inline(always)]
fn put_name<W: Sink>(
    line: &mut LineBuf,
    format: Format,
    name: &[u8],
    out: &mut Out<W>,
) -> Result<(), OutFault>
    ensures puts { let text = line.old.items ++ spelt format name.now in
        PutsBefore out.old out.new result text line.new.items }
{
    let room = LINE_BYTES - line.len();
    let plain = plain_bytes(format, name).min(room);
    put(line, &name[..plain]);
    put_escaped(line, format, &name[plain..], out)
}

/// Returns the number of bytes at the start of a name that need no escape in a line.
fn plain_bytes(format: Format, name: &[u8]) -> usize
    ensures within { result ≤ length name.now }
    ensures stand { (k : ℕ) → k < result →
        byte_text format (slice_index name.now k) ≡ slice_index name.now k ∷ [] }
{
    let count = plain_front(format, name);
    match name.last_chunk::<16>() {
        Some(last) if name.len() - count < 16 && are_plain(last) => name.len(),
        _ => plain_from(format, name, count),
    }
}

/// Returns the number of bytes at the start of a name that need no escape in a line, in whole
/// pieces of sixteen.
fn plain_front(format: Format, name: &[u8]) -> usize
    ensures within { result ≤ length name.now }
    ensures stand { (k : ℕ) → k < result →
        byte_text format (slice_index name.now k) ≡ slice_index name.now k ∷ [] }
{
    let mut count = 0;
    while let Some(piece) = name[count..].first_chunk::<16>() {
        if !are_plain(piece) {
            break;
        }
        count += 16;
    }
    count
}

/// Does the same, byte by byte, after `front` bytes that need none.
fn plain_from(format: Format, name: &[u8], front: usize) -> usize
    requires within { front ≤ length name.now }
    requires stand { (k : ℕ) → k < front →
        byte_text format (slice_index name.now k) ≡ slice_index name.now k ∷ [] }
    ensures within { result ≤ length name.now }
    ensures stand { (k : ℕ) → k < result →
        byte_text format (slice_index name.now k) ≡ slice_index name.now k ∷ [] }
{
    let mut count = front;
    while count < name.len() && is_plain(name[count]) {
        count += 1;
    }
    count
}

/// Returns `true` if none of sixteen bytes of a name needs an escape in a line. Each is tested, so
/// that the compiler can test all of them at once.
fn are_plain(piece: &[u8; 16]) -> bool
    ensures { (format : Format) (k : ℕ) → IsTrue result → k < 16 →
        byte_text format (slice_index piece.now k) ≡ slice_index piece.now k ∷ [] }
{
    let mut plain = true;
    for byte in piece {
        plain &= is_plain(*byte);
    }
    plain
}

/// Returns `true` if a byte of a name is a printing ASCII character, no quotation mark and no
/// backslash, and so needs no escape in a line.
#[inline(always)]
fn is_plain(byte: u8) -> bool
    ensures { (format : Format) → IsTrue result → byte_text format byte ≡ byte ∷ [] }
{
    if byte < b' ' || byte > b'~' || byte == b'"' || byte == b'\\' {
        return false;
    }
    true
}

/// Appends a name to a line, each byte escaped as in a listing. If the line is full it is written,
/// and begun again.
///
/// # Errors
/// Returns a fault of the output; a prefix of the line and the name was written.
#[inline(always)]
fn put_escaped<W: Sink>(
    line: &mut LineBuf,
    format: Format,
    name: &[u8],
    out: &mut Out<W>,
) -> Result<(), OutFault>
    ensures puts { let text = line.old.items ++ spelt format name.now in
        PutsBefore out.old out.new result text line.new.items }
{
    for byte in name {
        make_room(line, 5, out)?;
        put_byte(line, format, *byte);
    }
    Ok(())
}

/// Appends an escaped byte of a name.
#[tactic(auto, unfolding(crate::specs::Pieces::byte_text))]
fn put_byte(line: &mut LineBuf, format: Format, byte: u8)
    requires { array_vec_len line.old + 5 ≤ 256 }
    ensures items { line.new.items ≡ line.old.items ++ byte_text format byte }
    ensures len { array_vec_len line.new ≤ array_vec_len line.old + 5 }
{
    match format {
        Format::Columns | Format::Table => put_name_byte(line, byte),
        Format::Object => put_quoted_byte(line, byte),
    }
}

/// Makes room for a number of bytes in a line: if fewer are free, the line is written and begun
/// again.
///
/// # Errors
/// Returns a fault of the output; a prefix of the line was written.
#[inline(always)]
pub(crate) fn make_room<W: Sink>(
    line: &mut LineBuf,
    count: usize,
    out: &mut Out<W>,
) -> Result<(), OutFault>
    requires { count ≤ 256 }
    ensures puts { PutsBefore out.old out.new result line.old.items line.new.items }
    ensures room { IsOk result → array_vec_len line.new + count ≤ 256 }
{
    if line.len() + count <= LINE_BYTES {
        return Ok(());
    }
    out.put(line)?;
    line.clear();
    Ok(())
}

/// Appends a byte of a name as a listing escapes it: a backslash is doubled, a printing ASCII
/// character is unchanged, and any other byte is `\x` and two hexadecimal digits.
#[tactic(auto, unfolding(elf_model::specs::Lines::name_byte_text))]
pub(crate) fn put_name_byte(line: &mut LineBuf, byte: u8)
    requires { array_vec_len line.old + 4 ≤ 256 }
    ensures items { line.new.items ≡ line.old.items ++ name_byte_text byte }
    ensures len { array_vec_len line.new ≤ array_vec_len line.old + 4 }
{
    match byte {
        b'\\' => put(line, b"\\\\"),
        b' '..=b'~' => line.push(byte),
        _ => {
            put(line, b"\\x");
            write_hex(line, 2, u64::from(byte));
        }
    }
}
