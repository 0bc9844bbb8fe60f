//! The members of JSON objects (RFC 8259).
ghost use Rattle.std.specs.Prelude.{◌≡◌, ℕ, ◌+◌, ◌≤◌, ◌++◌, length, max, IfSome};
ghost use Rattle.std.specs.Prelude.{option_copied};
ghost use Rattle.arrayvec.specs.ArrayVec.{array_vec_len};
ghost use Rattle.elf_model.specs.Prelude.{member_key, name_byte_text, name_or_value, quoted, string_byte, string_text};

use crate::columns::{LineBuf, put, write_hex};
use itoa::{Buffer, Integer};

/// Appends a comma, a key and a colon.
#[tactic(auto, unfolding(elf_model::specs::Fields::member_key))]
pub(crate) fn put_key(line: &mut LineBuf, key: &[u8])
    requires { array_vec_len line.old + (length key.now + 4) ≤ 256 }
    ensures items { line.new.items ≡ line.old.items ++ member_key key.now }
    ensures len { array_vec_len line.new ≡ array_vec_len line.old + (length key.now + 4) }
{
    put(line, b",\"");
    put(line, key);
    put(line, b"\":");
}

/// Appends a key, and a number in decimal.
pub(crate) fn put_number<I: Integer>(line: &mut LineBuf, key: &[u8], number: I)
    requires { array_vec_len line.old + (length key.now + 4) + I.MAX_STR_LEN ≤ 256 }
    ensures items { line.new.items ≡ line.old.items ++ member_key key.now ++ I.text number }
    ensures len { array_vec_len line.new
        ≤ array_vec_len line.old + (length key.now + 4) + I.MAX_STR_LEN }
{
    put_key(line, key);
    let mut buffer = Buffer::new();
    put(line, buffer.format(number).as_bytes());
}

/// Appends a key, and a name as a string, or a number.
pub(crate) fn put_name_or_number(
    line: &mut LineBuf,
    key: &[u8],
    name: Option<&'static str>,
    number: u64,
)
    requires number { array_vec_len line.old + (length key.now + 4) + 20 ≤ 256 }
    requires room { IfSome name (λ name. array_vec_len line.old + (length key.now + 4)
        + (length name.now + length name.now + 2) ≤ 256) }
    ensures items { line.new.items
        ≡ line.old.items ++ member_key key.now ++ name_or_value (option_copied name.entry) number }
    ensures len { (most : ℕ) → IfSome name.entry (λ name. length name.now ≤ most) →
        array_vec_len line.new
        ≤ array_vec_len line.old + (length key.now + 4) + max (most + most + 2) 20 }
{
    match name {
        Some(name) => {
            put_key(line, key);
            put_quoted(line, name.as_bytes());
        }
        None => put_number(line, key, number),
    }
}

/// Appends a text as a string.
#[tactic(auto, unfolding(elf_model::specs::Fields::quoted))]
pub(crate) fn put_quoted(line: &mut LineBuf, text: &[u8])
    requires { array_vec_len line.old + (length text.now + length text.now + 2) ≤ 256 }
    ensures items { line.new.items ≡ line.old.items ++ quoted text.now }
    ensures len { array_vec_len line.new
        ≤ array_vec_len line.old + (length text.now + length text.now + 2) }
{
    line.push(b'"');
    for byte in text {
        put_string_byte(line, *byte);
    }
    line.push(b'"');
}

/// Appends a byte of a string.
#[tactic(auto, unfolding(elf_model::specs::Fields::string_byte))]
fn put_string_byte(line: &mut LineBuf, byte: u8)
    requires { array_vec_len line.old + 2 ≤ 256 }
    ensures items { line.new.items ≡ line.old.items ++ string_byte byte }
    ensures len { array_vec_len line.new ≤ array_vec_len line.old + 2 }
{
    if byte == b'"' || byte == b'\\' {
        line.push(b'\\');
    }
    line.push(byte);
}

/// Appends a byte of a name, escaped as in a listing, to a string.
#[tactic(auto, using(crate::proofs::NameText::string_hex), unfolding(elf_model::specs::Fields::string_byte, elf_model::specs::Fields::string_text, elf_model::specs::Lines::name_byte_text))]
pub(crate) fn put_quoted_byte(line: &mut LineBuf, byte: u8)
    requires { array_vec_len line.old + 5 ≤ 256 }
    ensures items { line.new.items ≡ line.old.items ++ string_text (name_byte_text byte) }
    ensures len { array_vec_len line.new ≤ array_vec_len line.old + 5 }
{
    match byte {
        b'\\' => put(line, b"\\\\\\\\"),
        b'"' => put(line, b"\\\""),
        b' '..=b'~' => line.push(byte),
        _ => {
            put(line, b"\\\\x");
            write_hex(line, 2, u64::from(byte));
        }
    }
}
