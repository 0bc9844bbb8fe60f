//! The fields of a member's header: text in columns, each padded with spaces.
ghost use Rattle.std.specs.Prelude.{◌≡◌, ◌==◌, ◌+◌, ◌^◌, ◌<◌, ◌≤◌, List, ℕ, length, position, take, if◌then◌else◌, Some, None, IfSome};
ghost use Rattle.elf_model.specs.Prelude.{are_all, bsd_name_length, is_decimal, is_name_table, long_offset, member_data, member_size, name_in_data, padded_end, padded_number, parse_padded_decimal, parsed_member_size, short_name, slice, trimmed, without_slash};
ghost use Rattle.elf_archive.specs.Members.{DataTold, SizeTold};

use crate::member::FileRange;
use elf_record::{u16_at, u64_at};
use memchr::memchr;

/// The size of a member's header in bytes.
pub const MEMBER_HEADER_BYTES: usize = 60;

/// The size of the name field in bytes.
pub(crate) const NAME_FIELD_BYTES: usize = 16;

/// The byte that pads a field.
const SPACE: u8 = b' ';

/// The byte that pads a name at the start of a member's data.
pub(crate) const NUL: u8 = 0;

/// The two bytes that end a header, a grave accent and a newline.
const HEADER_MARK: u16 = 0x0a60;

/// Returns the size of its data that a header gives, or `None` if the header does not end in its
/// mark, or the field is not a decimal number.
#[tactic(auto, unfolding(elf_model::specs::Archive::parsed_member_size))]
pub(crate) fn parsed_member_size(header: &[u8; MEMBER_HEADER_BYTES]) -> Option<u64>
    ensures value { result ≡ parsed_member_size header.now 0 }
    ensures small { IfSome result (λ size. size < 2 ^ 62) }
{
    if u16_at(header, 58) != HEADER_MARK {
        return None;
    }
    padded_number(&header[48..58])
}

/// Returns the size of all data that a header gives, if the header and they fit `left` bytes, of
/// which the header takes 60, or `None` if no such size is given.
pub(crate) fn size_within(header: &[u8; MEMBER_HEADER_BYTES], left: u64) -> Option<u64>
    requires { 60 ≤ left }
    ensures lies { IfSome result (λ size. 60 + size ≤ left) }
    ensures size { (file : List ℕ) (at : ℕ) → header.now ≡ slice file at 60 →
        length file ≡ at + left → SizeTold result (member_size file at) }
{
    let Some(size) = parsed_member_size(header) else {
        return None;
    };
    if left - (MEMBER_HEADER_BYTES as u64) < size {
        return None;
    }
    Some(size)
}

/// Returns the data that the header at the file offset `at` gives, after the name if that is at
/// their start, if the header and all data fit `left` bytes, of which the header takes 60, or
/// `None` if no size is given, or one that does not fit, or the name does not fit the data.
pub(crate) fn data_within(
    header: &[u8; MEMBER_HEADER_BYTES],
    at: u64,
    left: u64,
) -> Option<FileRange>
    requires header { 60 ≤ left }
    requires small { at + left < 2 ^ 63 }
    ensures begins { IfSome result (λ extent.
        extent.at ≡ at + 60 + name_in_data (take 16 header.now)) }
    ensures lies { IfSome result (λ extent. extent.at + extent.size ≤ at + left) }
    ensures extent { (file : List ℕ) → header.now ≡ slice file at 60 →
        length file ≡ at + left → DataTold result (member_data file at) }
{
    let Some(size) = size_within(header, left) else {
        return None;
    };
    let name = name_in_data(&header[..NAME_FIELD_BYTES]);
    if size < name {
        return None;
    }
    Some(FileRange {
        at: at + MEMBER_HEADER_BYTES as u64 + name,
        size: size - name,
    })
}

/// Returns the offset after data that end at the offset `end`, of the member whose header is at
/// `header`, and after the padding byte, which follows data whose total size is odd.
pub fn padded_end(header: u64, end: u64) -> u64
    requires order { header + 60 ≤ end }
    requires small { end < 2 ^ 63 }
    ensures { result ≡ padded_end header end }
{
    end + (end - (header + MEMBER_HEADER_BYTES as u64)) % 2
}

/// Returns `true` if a header is that of the table of names: its name is two slashes.
pub fn is_name_table(header: &[u8; MEMBER_HEADER_BYTES]) -> bool
    ensures { result ≡ is_name_table header.now 0 }
{
    u64_at(header, 0) == 0x2020_2020_2020_2f2f && u64_at(header, 8) == 0x2020_2020_2020_2020
}

/// Returns the offset in the table of names that a name field gives, if it gives one.
#[tactic(auto, unfolding(elf_model::specs::Archive::long_offset))]
pub(crate) fn long_offset(field: &[u8]) -> Option<u64>
    requires { length field.now ≡ 16 }
    ensures value { result ≡ long_offset field.now }
    ensures small { IfSome result (λ offset. offset < 2 ^ 62) }
{
    if field[0] != b'/' {
        return None;
    }
    padded_number(&field[1..16])
}

/// Returns how many bytes at the start of a member's data are its name, if its name field says so:
/// `#1/` and a decimal number, as BSD's `ar` writes it (FreeBSD's ar(5)).
#[tactic(auto, unfolding(elf_model::specs::Archive::bsd_name_length))]
pub(crate) fn bsd_name_length(field: &[u8]) -> Option<u64>
    requires { length field.now ≡ 16 }
    ensures value { result ≡ bsd_name_length field.now }
    ensures small { IfSome result (λ size. size < 2 ^ 62) }
{
    if field[0] != b'#' || field[1] != b'1' || field[2] != b'/' {
        return None;
    }
    padded_number(&field[3..16])
}

/// Returns how many bytes of a member's data its name takes, by its name field.
#[tactic(auto, unfolding(elf_model::specs::Archive::name_in_data))]
fn name_in_data(field: &[u8]) -> u64
    requires { length field.now ≡ 16 }
    ensures value { result ≡ name_in_data field.now }
    ensures small { result < 2 ^ 62 }
{
    match bsd_name_length(field) {
        Some(size) => size,
        None => 0,
    }
}

/// Returns the length of a name that is in its field itself, at the start of the field.
#[tactic(auto, unfolding(elf_model::specs::Archive::short_name))]
pub(crate) fn short_length(field: &[u8]) -> usize
    ensures name { take result field.now ≡ short_name field.now }
    ensures within { result ≤ length field.now }
{
    match find_byte(b'/', field) {
        None | Some(0) => trimmed_length(SPACE, field),
        Some(place) => place,
    }
}

/// Returns the length of a name of the table of names without the slash at its end.
#[tactic(auto, unfolding(elf_model::specs::Archive::without_slash))]
pub(crate) fn slashless_length(name: &[u8]) -> usize
    ensures name { take result name.now ≡ without_slash name.now }
    ensures within { result ≤ length name.now }
{
    if name.is_empty() || name[name.len() - 1] != b'/' {
        return name.len();
    }
    name.len() - 1
}

/// Returns the index of the first byte that is `byte`.
pub(crate) fn find_byte(byte: u8, bytes: &[u8]) -> Option<usize>
    ensures first { position (λ b. b == byte) bytes.now ≡ result }
    ensures below { IfSome result (λ place. place < length bytes.now) }
{
    memchr(byte, bytes)
}

/// Returns the decimal number in a field of at most 15 bytes: one or more digits, then only spaces.
#[tactic(auto, unfolding(elf_model::specs::Archive::padded_number))]
fn padded_number(field: &[u8]) -> Option<u64>
    requires some { 0 < length field.now }
    requires few { length field.now ≤ 15 }
    ensures value { result ≡ padded_number field.now }
    ensures small { IfSome result (λ number. number < 2 ^ 62) }
{
    if !is_decimal(field[0]) {
        return None;
    }
    parse_padded_decimal(field)
}

/// Returns the number that the digits before any other byte form, if only spaces follow them.
fn parse_padded_decimal(field: &[u8]) -> Option<u64>
    requires { length field.now ≤ 15 }
    ensures value { result ≡ parse_padded_decimal 0 field.now }
    ensures small { IfSome result (λ number. number < 2 ^ 62) }
{
    let mut number: u64 = 0;
    for (place, byte) in field.iter().enumerate() {
        if !is_decimal(*byte) {
            return spaced(number, &field[place..]);
        }
        number = 10 * number + u64::from(*byte - b'0');
    }
    Some(number)
}

/// Returns a number that only spaces follow.
fn spaced(number: u64, rest: &[u8]) -> Option<u64>
    ensures { result ≡ (if are_all 32 rest.now then Some number else None) }
{
    if are_spaces(rest) { Some(number) } else { None }
}

/// Returns `true` if a byte is a decimal digit.
fn is_decimal(byte: u8) -> bool
    ensures { result ≡ is_decimal byte }
{
    byte.is_ascii_digit()
}

/// Returns `true` if all bytes are spaces.
fn are_spaces(bytes: &[u8]) -> bool
    ensures { result ≡ are_all 32 bytes.now }
{
    bytes.iter().all(|byte| *byte == SPACE)
}

/// Returns the length of bytes without those at their end that are `byte`.
pub(crate) fn trimmed_length(byte: u8, bytes: &[u8]) -> usize
    ensures name { take result bytes.now ≡ trimmed byte bytes.now }
    ensures within { result ≤ length bytes.now }
{
    let mut end = bytes.len();
    while end > 0 && bytes[end - 1] == byte {
        end -= 1;
    }
    end
}
