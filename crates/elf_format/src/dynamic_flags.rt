//! The words of flags, as a table shows them.
ghost use Rattle.std.specs.Prelude.{◌≡◌, ◌+◌, ◌*◌, ◌^◌, ◌≤◌, ◌<◌, ◌++◌, ◌&&◌, ◌==◌, not, true, if◌then◌else◌, [], codes, length};
ghost use Rattle.arrayvec.specs.ArrayVec.{array_vec_len};
ghost use Rattle.elf_model.specs.Prelude.{flag_words, flags_text, separator, short_hex};
ghost use Rattle.elf_format.specs.Flags.{are_short_words, texts};

use crate::columns::{LineBuf, write_hex};
use crate::short_hexadecimal::without_zeros;
use arrayvec::ArrayVec;
use elf_record::gnu_numbers::DT_FLAGS_1;
use elf_record::numbers::DT_FLAGS;

/// A text of words in a table: at most 400 bytes.
pub type Words = ArrayVec<u8, 400>;

/// Returns the words of the flags that a dynamic entry with a tag has, and nothing for one of
/// another tag (gABI 5, Dynamic Section).
#[tactic(auto, unfolding(elf_model::specs::FlagWords::flag_words))]
pub fn flag_words(tag: u64, value: u64) -> Words
    ensures items { result.items ≡ flag_words tag value }
    ensures short { array_vec_len result ≤ 400 }
{
    let mut text = Words::new();
    match tag {
        DT_FLAGS => put_flags(&mut text, b" ", &FLAGS, 1 << 5, value),
        DT_FLAGS_1 => put_flags(&mut text, b" ", &FLAGS_1, 1 << 31, value),
        _ => {}
    }
    text
}

/// Appends the words of the bits of a number, the lowest first, with a text between two of them,
/// and then the bits without a word as a number. The words have at most ten bytes each, and `unit`
/// is the value of the first bit without one.
pub(crate) fn put_flags(
    text: &mut Words,
    between: &[u8],
    mut words: &[&'static str],
    unit: u64,
    number: u64,
)
    requires between { length between.now ≤ 2 }
    requires short { are_short_words 10 (texts words.now) ≡ true }
    requires unit { unit ≡ 2 ^ length words.now }
    requires some { 0 < unit }
    requires room { array_vec_len text.old + 12 * length words.now + 20 ≤ 400 }
    ensures items { text.new.items
        ≡ text.old.items ++ flags_text between.now (texts words.entry.now) number }
    ensures len { array_vec_len text.new
        ≤ array_vec_len text.old + 12 * length words.entry.now + 20 }
{
    let others = number.saturating_sub(number % unit);
    let mut is_first = true;
    let mut bits = number;
    while let [word, rest @ ..] = words {
        is_first = put_flag(text, between, is_first, bits % 2 == 1, word.as_bytes());
        bits /= 2;
        words = rest;
    }
    put_others(text, between, is_first, others);
}

/// Appends the word of a flag, after a text if it is not the first, if the flag is set. Returns
/// whether the next word is the first.
fn put_flag(text: &mut Words, between: &[u8], is_first: bool, is_set: bool, word: &[u8]) -> bool
    requires { array_vec_len text.old + length between.now + length word.now ≤ 400 }
    ensures items { text.new.items ≡ text.old.items
        ++ (if is_set then separator between.now is_first ++ word.now else []) }
    ensures first { result ≡ (is_first && not is_set) }
    ensures len { array_vec_len text.new
        ≤ array_vec_len text.old + length between.now + length word.now }
{
    if !is_set {
        return is_first;
    }
    put_separator(text, between, is_first);
    append(text, word);
    false
}

/// Appends the text between two words, if the next is not the first.
pub(crate) fn put_separator(text: &mut Words, between: &[u8], is_first: bool)
    requires { array_vec_len text.old + length between.now ≤ 400 }
    ensures items { text.new.items ≡ text.old.items ++ separator between.now is_first }
    ensures len { array_vec_len text.new ≤ array_vec_len text.old + length between.now }
{
    if !is_first {
        append(text, between);
    }
}

/// Appends the flags without a word as a number, if there are any.
fn put_others(text: &mut Words, between: &[u8], is_first: bool, others: u64)
    requires { array_vec_len text.old + length between.now + 18 ≤ 400 }
    ensures items { text.new.items ≡ text.old.items ++ (if others == 0 then []
        else separator between.now is_first ++ codes "0x" ++ short_hex others) }
    ensures len { array_vec_len text.new ≤ array_vec_len text.old + length between.now + 18 }
{
    if others == 0 {
        return;
    }
    put_separator(text, between, is_first);
    put_number(text, others);
}

/// Appends `0x` and a number in hexadecimal, without leading zeros.
#[tactic(auto, unfolding(elf_model::specs::Text::short_hex))]
pub(crate) fn put_number(text: &mut Words, number: u64)
    requires { array_vec_len text.old + 18 ≤ 400 }
    ensures items { text.new.items ≡ text.old.items ++ codes "0x" ++ short_hex number }
    ensures len { array_vec_len text.new ≤ array_vec_len text.old + 18 }
{
    let mut digits = LineBuf::new();
    write_hex(&mut digits, 16, number);
    append(text, b"0x");
    append(text, without_zeros(&digits));
}

/// Appends a text.
pub(crate) fn append(text: &mut Words, more: &[u8])
    requires { array_vec_len text.old + length more.now ≤ 400 }
    ensures items { text.new.items ≡ text.old.items ++ more.now }
    ensures len { array_vec_len text.new ≡ array_vec_len text.old + length more.now }
{
    text.try_extend_from_slice(more).unwrap();
}

/// The flags of DT_FLAGS, each a bit, from the lowest.
const FLAGS: [&str; 5] = ["ORIGIN", "SYMBOLIC", "TEXTREL", "BIND_NOW", "STATIC_TLS"];

/// Those of the GNU DT_FLAGS_1.
const FLAGS_1: [&str; 31] = [
    "NOW",
    "GLOBAL",
    "GROUP",
    "NODELETE",
    "LOADFLTR",
    "INITFIRST",
    "NOOPEN",
    "ORIGIN",
    "DIRECT",
    "TRANS",
    "INTERPOSE",
    "NODEFLIB",
    "NODUMP",
    "CONFALT",
    "ENDFILTEE",
    "DISPRELDNE",
    "DISPRELPND",
    "NODIRECT",
    "IGNMULDEF",
    "NOKSYMS",
    "NOHDR",
    "EDITED",
    "NORELOC",
    "SYMINTPOSE",
    "GLOBAUDIT",
    "SINGLETON",
    "STUB",
    "PIE",
    "KMOD",
    "WEAKFILTER",
    "NOCOMMON",
];
