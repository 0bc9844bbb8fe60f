//! A line of a listing while it is built, field by field.
ghost use Rattle.std.specs.Prelude.{◌≡◌, ◌+◌, ◌-◌, ◌<◌, ◌≤◌, ◌++◌, ◌∷◌, [], if◌then◌else◌, decimal, length, max, take};
ghost use Rattle.arrayvec.specs.ArrayVec.{array_vec_len};
ghost use Rattle.elf_model.specs.Prelude.{digit, hex, left_in, number_sign, right_in, spaces};

use crate::hexadecimal::hex8;
use arrayvec::ArrayVec;
use itoa::{Buffer, write_digits};

/// The largest size of a line in bytes, except its name.
pub const LINE_BYTES: usize = 256;
/// The size in bytes of a buffer for the digits of a number.
pub const DIGIT_BYTES: usize = 40;

/// A line, or the prefix of one: at most 256 bytes.
pub type LineBuf = ArrayVec<u8, 256>;

/// Appends a text.
#[inline(always)]
pub fn put(line: &mut LineBuf, text: &[u8])
    requires { array_vec_len line.old + length text.now ≤ 256 }
    ensures items { line.new.items ≡ line.old.items ++ text.now }
    ensures len { array_vec_len line.new ≡ array_vec_len line.old + length text.now }
{
    line.try_extend_from_slice(text).unwrap();
}

/// Returns a line that begins with a text.
pub fn line_of(text: &[u8]) -> LineBuf
    requires { length text.now ≤ 256 }
    ensures items { result.items ≡ text.now }
    ensures len { array_vec_len result ≡ length text.now }
{
    let mut line = LineBuf::new();
    put(&mut line, text);
    line
}

/// Appends `count` spaces.
pub(crate) fn put_spaces(line: &mut LineBuf, count: usize)
    requires { array_vec_len line.old + count ≤ 256 }
    ensures items { line.new.items ≡ line.old.items ++ spaces count }
    ensures len { array_vec_len line.new ≡ array_vec_len line.old + count }
{
    for _ in 0..count {
        line.push(b' ');
    }
}

/// Appends a text, left-aligned in a column of this width, and the byte that ends the column. A
/// longer text is not truncated.
#[inline(always)]
#[tactic(auto, unfolding(elf_model::specs::Text::left_in))]
pub(crate) fn put_left(line: &mut LineBuf, width: usize, text: &[u8], end: u8)
    requires { array_vec_len line.old + (max width (length text.now) + 1) ≤ 256 }
    ensures items { line.new.items ≡ line.old.items ++ left_in width text.now ++ end ∷ [] }
    ensures len { array_vec_len line.new
        ≡ array_vec_len line.old + (max width (length text.now) + 1) }
{
    if width < 16 && text.len() <= width {
        let mut cell = [b' '; 16];
        fill_cell(&mut cell, width, text, end);
        put(line, &cell[..width + 1]);
    } else {
        put(line, text);
        put_spaces(line, width.saturating_sub(text.len()));
        line.push(end);
    }
}

/// Fills the start of a cell of spaces: with a text, which is no longer than the column, and after
/// the column the byte that ends it.
#[inline(always)]
fn fill_cell(cell: &mut [u8; 16], width: usize, text: &[u8], end: u8)
    requires spaces { cell.old ≡ spaces 16 }
    requires width { width < 16 }
    requires short { length text.now ≤ width }
    ensures { take (width + 1) cell.new
        ≡ text.now ++ spaces (width - length text.now) ++ end ∷ [] }
{
    cell[..text.len()].copy_from_slice(text);
    cell[width] = end;
}

/// Appends a decimal number, right-aligned in a column of this width, and the byte that ends the
/// column. A longer number is not truncated.
#[inline(always)]
pub(crate) fn put_right(line: &mut LineBuf, width: usize, number: u64, end: u8)
    requires width { width ≤ 20 }
    requires room { array_vec_len line.old + (max width (length (decimal number)) + 1) ≤ 256 }
    ensures items { line.new.items
        ≡ line.old.items ++ right_in width (decimal number) ++ end ∷ [] }
    ensures len { array_vec_len line.new
        ≡ array_vec_len line.old + (max width (length (decimal number)) + 1) }
{
    let mut cell = [b' '; 24];
    let start = write_cell(&mut cell, number, end);
    let first = 20 - width;
    if start >= first {
        put(line, &cell[first..21]);
    } else {
        put(line, &cell[start..21]);
    }
}

/// Writes a decimal number into a cell of spaces so that it ends at the twentieth byte, and after
/// it the byte that ends its column. Returns the index at which the number begins.
#[inline(always)]
fn write_cell(cell: &mut [u8; 24], number: u64, end: u8) -> usize
    requires { cell.old ≡ spaces 24 }
    ensures start { result + length (decimal number) ≡ 20 }
    ensures text { take 21 cell.new ≡ spaces result ++ (decimal number ++ end ∷ []) }
{
    let start = write_digits(number, cell, 20);
    cell[20] = end;
    start
}

/// Returns `#` and a decimal number.
#[tactic(auto, unfolding(elf_model::specs::NameTables::number_sign))]
pub fn number_sign(number: u32) -> LineBuf
    ensures text { result.items ≡ number_sign number }
    ensures short { array_vec_len result ≤ 11 }
{
    let mut line = line_of(b"#");
    let mut buffer = Buffer::new();
    put(&mut line, buffer.format(number).as_bytes());
    line
}

/// Appends a text if a condition holds, otherwise nothing.
pub fn put_where(line: &mut LineBuf, holds: bool, text: &[u8])
    requires { array_vec_len line.old + length text.now ≤ 256 }
    ensures items { line.new.items ≡ line.old.items ++ (if holds then text.now else []) }
    ensures len { array_vec_len line.new ≤ array_vec_len line.old + length text.now }
{
    if holds {
        put(line, text);
    }
}

/// Appends the last hexadecimal digits of a number, in lower case, with leading zeros.
#[inline(always)]
pub(crate) fn write_hex(line: &mut LineBuf, digits: u32, number: u64)
    requires room { array_vec_len line.old + digits ≤ 256 }
    requires digits { digits ≤ 16 }
    ensures items { line.new.items ≡ line.old.items ++ hex digits number }
    ensures len { array_vec_len line.new ≡ array_vec_len line.old + digits }
{
    match digits {
        16 => {
            put(line, &hex8((number >> 32) as u32));
            put(line, &hex8((number % (1 << 32)) as u32));
        }
        8 => put(line, &hex8((number % (1 << 32)) as u32)),
        _ => put_digits(line, digits, number),
    }
}

/// Does the same, digit by digit.
fn put_digits(line: &mut LineBuf, digits: u32, number: u64)
    requires room { array_vec_len line.old + digits ≤ 256 }
    requires digits { digits ≤ 16 }
    ensures items { line.new.items ≡ line.old.items ++ hex digits number }
    ensures len { array_vec_len line.new ≡ array_vec_len line.old + digits }
{
    let mut left = digits;
    while left > 0 {
        left -= 1;
        line.push(digit_of((number >> (4 * left)) % 16));
    }
}

#[tactic(auto, unfolding(elf_model::specs::Text::digit))]
fn digit_of(value: u64) -> u8
    requires { value < 16 }
    ensures { result ≡ digit value }
{
    if value < 10 {
        b'0' + value as u8
    } else {
        b'a' + (value - 10) as u8
    }
}
