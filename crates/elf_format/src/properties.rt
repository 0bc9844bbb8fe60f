//! The properties that a GNU note lists, as a table shows them.
ghost use Rattle.std.specs.Prelude.{◌≡◌, ◌+◌, ◌*◌, ◌≤◌, ◌++◌, true, codes, length, IfSome};
ghost use Rattle.arrayvec.specs.ArrayVec.{array_vec_len};
ghost use Rattle.elf_model.specs.Prelude.{hex_bytes, properties_in, property_text, property_words, separator, with_properties};
ghost use Rattle.elf_format.specs.Flags.{are_short_words, texts};
ghost use Rattle.elf_format.specs.Properties.{IsNextProperty, is_cut, is_none_listed, other_text, property_of};

use crate::dynamic_flags::{Words, append, put_flags, put_number, put_separator};
use crate::note_contents::word_at;
use hex::encode_to_slice;

/// The size of the header of a property in bytes.
const HEAD_BYTES: usize = 8;

/// The type of the property of the x86 features (x86-64 psABI, Program Property).
const X86_FEATURE_1_AND: u32 = 0xc000_0002;

/// The type of the property of the levels of the x86-64 instruction set that the code needs.
const X86_ISA_1_NEEDED: u32 = 0xc000_8002;

/// A property (Linux Extensions to gABI, Program Property).
#[derive(Clone, Copy)]
pub(crate) struct ListedProperty<'a> {
    /// Its type.
    pub(crate) kind: u32,
    /// Its data.
    pub(crate) content: &'a [u8],
    /// How many bytes it takes, with its header and its padding.
    pub(crate) size: usize,
}

/// How a walk over a list of properties ended.
#[derive(Clone, Copy)]
pub(crate) struct ListEnd {
    /// There was no property.
    pub(crate) is_empty: bool,
    /// What is left is no property.
    pub(crate) is_cut: bool,
}

/// Appends the texts of the properties of a list, up to its end or to what is no property.
pub(crate) fn put_properties(text: &mut Words, bytes: &[u8]) -> ListEnd
    requires few { length bytes.now ≤ 32 }
    requires room { array_vec_len text.old ≤ 100 }
    ensures items { let walk = properties_in bytes.now in
        text.new.items ≡ text.old.items ++ with_properties true walk.properties }
    ensures empty { result.is_empty ≡ is_none_listed (properties_in bytes.now) }
    ensures cut { result.is_cut ≡ is_cut (properties_in bytes.now) }
    ensures len { array_vec_len text.new ≤ array_vec_len text.old + 224 }
{
    let mut is_first = true;
    let mut rest = bytes;
    while let Some(property) = next_property(rest) {
        put_property(text, is_first, &property);
        is_first = false;
        rest = &rest[property.size..];
    }
    ListEnd {
        is_empty: is_first,
        is_cut: !rest.is_empty(),
    }
}

/// Returns the property at the beginning of some bytes, if there is a whole one. The padding of the
/// last may be missing.
fn next_property(bytes: &[u8]) -> Option<ListedProperty<'_>>
    requires { length bytes.now ≤ 32 }
    ensures next { IsNextProperty bytes.now result }
    ensures size { IfSome result (λ property. (8 + length property.content.now ≤ length bytes.now)
        × (8 + length property.content.now ≤ property.size)
        × (property.size ≤ length bytes.now)) }
{
    if bytes.len() < HEAD_BYTES {
        return None;
    }
    let kind = word_at(bytes, 0);
    let datasz = word_at(bytes, 4) as usize;
    if bytes.len() - HEAD_BYTES < datasz {
        return None;
    }
    let bare = HEAD_BYTES + datasz;
    let padded = bare + (8 - bare % 8) % 8;
    Some(ListedProperty {
        kind,
        content: &bytes[HEAD_BYTES..bare],
        size: padded.min(bytes.len()),
    })
}

/// Appends the text of a property, after a semicolon if it is not the first.
#[tactic(auto, using(crate::proofs::ContentLaws::property_features, crate::proofs::ContentLaws::property_levels, crate::proofs::ContentLaws::property_sized, crate::proofs::ContentLaws::property_kind))]
fn put_property(text: &mut Words, is_first: bool, property: &ListedProperty<'_>)
    requires few { length property.now.content.now ≤ 24 }
    requires room { array_vec_len text.old ≤ 300 }
    ensures items { text.new.items ≡ text.old.items
        ++ separator (codes "; ") is_first ++ property_text (property_of property.now) }
    ensures len { array_vec_len text.new
        ≤ array_vec_len text.old + 7 * (8 + length property.now.content.now) }
{
    put_separator(text, b"; ", is_first);
    if property.content.len() != 4 {
        return put_other(text, property);
    }
    match property.kind {
        X86_FEATURE_1_AND => {
            append(text, b"x86 feature: ");
            put_bits(text, &X86_FEATURES, word_at(property.content, 0));
        }
        X86_ISA_1_NEEDED => {
            append(text, b"x86 ISA: ");
            put_bits(text, &X86_LEVELS, word_at(property.content, 0));
        }
        _ => put_other(text, property),
    }
}

/// Appends the type of a property as a number, and its data.
fn put_other(text: &mut Words, property: &ListedProperty<'_>)
    requires few { length property.now.content.now ≤ 24 }
    requires room { array_vec_len text.old ≤ 302 }
    ensures items { text.new.items ≡ text.old.items ++ other_text (property_of property.now) }
    ensures len { array_vec_len text.new
        ≤ array_vec_len text.old + 20 + 2 * length property.now.content.now }
{
    put_number(text, u64::from(property.kind));
    append(text, b": ");
    put_digits(text, property.content);
}

/// Appends the words of the bits of a number, the lowest first.
fn put_bits(text: &mut Words, words: &[&'static str; 4], number: u32)
    requires room { array_vec_len text.old ≤ 320 }
    requires short { are_short_words 10 (texts words.now) ≡ true }
    ensures items { text.new.items ≡ text.old.items ++ property_words (texts words.now) number }
    ensures len { array_vec_len text.new ≤ array_vec_len text.old + 68 }
{
    if number == 0 {
        append(text, b"none");
        return;
    }
    put_flags(text, b", ", words, 1 << 4, u64::from(number));
}

/// Appends bytes in hexadecimal, two digits each.
fn put_digits(text: &mut Words, bytes: &[u8])
    requires few { length bytes.now ≤ 24 }
    requires room { array_vec_len text.old ≤ 350 }
    ensures items { text.new.items ≡ text.old.items ++ hex_bytes bytes.now }
    ensures len { array_vec_len text.new ≡ array_vec_len text.old + 2 * length bytes.now }
{
    let mut digits = [0; 48];
    let shown = &mut digits[..2 * bytes.len()];
    encode_to_slice(bytes, shown).unwrap();
    append(text, shown);
}

/// The x86 features, each a bit, from the lowest.
const X86_FEATURES: [&str; 4] = ["IBT", "SHSTK", "LAM_U48", "LAM_U57"];

/// The levels of the x86-64 instruction set.
const X86_LEVELS: [&str; 4] = ["baseline", "v2", "v3", "v4"];
