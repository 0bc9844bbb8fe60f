//! The content of notes in words, as a table shows it.
ghost use Rattle.std.specs.Prelude.{◌≡◌, ◌+◌, ◌≤◌, ◌==◌, ◌&&◌, ◌||◌, ◌++◌, not, true, decimal, length, nat_eq, option_copied, IfSome};
ghost use Rattle.std.specs.List.{starts_with};
ghost use Rattle.arrayvec.specs.ArrayVec.{array_vec_len};
ghost use Rattle.elf_model.specs.Prelude.{abi_tag, abi_version, before_nul, descriptor_mark, escaped, field, gnu_content, name_of, note_content, properties_text, space};
ghost use Rattle.elf_format.specs.Tables.{are_short, entries};
ghost use Rattle.elf_format.specs.Notes.{items_of};

use crate::columns::LineBuf;
use crate::dynamic_flags::{Words, append};
use crate::name_tables::name_of;
use crate::named::put_name_byte;
use crate::properties::{ListEnd, put_properties};
use elf_record::word;
use itoa::Buffer;

/// The type of a GNU note that says which systems run the file.
const NT_GNU_ABI_TAG: u32 = 1;

/// The type of a GNU note with the version of the linker gold.
const NT_GNU_GOLD_VERSION: u32 = 4;

/// The type of a GNU note that is a list of properties.
const NT_GNU_PROPERTY_TYPE_0: u32 = 5;

/// Returns the content of a note in words, if it has one, by its name, its type, the first bytes of
/// its descriptor, and whether it has more.
#[tactic(auto, unfolding(elf_model::specs::NoteLines::note_content))]
pub(crate) fn note_content(name: &[u8], kind: u32, first: &[u8], has_more: bool) -> Option<Words>
    requires few { length first.now ≤ 32 }
    ensures content { items_of result ≡ note_content name.now kind first.now has_more }
    ensures short { IfSome result (λ text. array_vec_len text ≤ 230) }
{
    if is_text(name, b"GNU") {
        return gnu_content(kind, first, has_more);
    }
    if is_text(name, b"CORE") {
        return type_name(&CORE_TYPES, kind);
    }
    if is_text(name, b"LINUX") {
        return type_name(&LINUX_CORE_TYPES, kind);
    }
    None
}

/// Returns `true` if a name is a text.
fn is_text(name: &[u8], text: &[u8]) -> bool
    ensures { result ≡ (length name.now == length text.now
        && starts_with nat_eq name.now text.now) }
{
    name.len() == text.len() && name.starts_with(text)
}

/// Returns the name of a type in a table, if it has one.
fn type_name(names: &[(u64, &'static str)], kind: u32) -> Option<Words>
    requires { are_short 16 (entries names.now) ≡ true }
    ensures name { items_of result ≡ name_of (entries names.now) kind }
    ensures short { IfSome result (λ text. array_vec_len text ≤ 230) }
{
    match short_name(names, kind) {
        Some(name) => Some(words_of(name.as_bytes())),
        None => None,
    }
}

/// Returns the name of a number in a table of short names.
fn short_name(names: &[(u64, &'static str)], number: u32) -> Option<&'static str>
    requires { are_short 16 (entries names.now) ≡ true }
    ensures name { option_copied result ≡ name_of (entries names.now) number }
    ensures short { IfSome result (λ name. length name.now ≤ 16) }
{
    name_of(names, u64::from(number))
}

/// Returns words that begin with a text.
fn words_of(text: &[u8]) -> Words
    requires { length text.now ≤ 400 }
    ensures items { result.items ≡ text.now }
    ensures len { array_vec_len result ≡ length text.now }
{
    let mut words = Words::new();
    append(&mut words, text);
    words
}

/// Returns the content of a GNU note of a type, if it has one.
#[tactic(auto, unfolding(elf_model::specs::NoteLines::gnu_content))]
fn gnu_content(kind: u32, first: &[u8], has_more: bool) -> Option<Words>
    requires few { length first.now ≤ 32 }
    ensures content { items_of result ≡ gnu_content kind first.now has_more }
    ensures short { IfSome result (λ text. array_vec_len text ≤ 230) }
{
    match kind {
        NT_GNU_ABI_TAG if first.len() == 16 => abi_tag(first),
        NT_GNU_GOLD_VERSION => Some(version_text(first, has_more)),
        NT_GNU_PROPERTY_TYPE_0 => properties_text(first, has_more),
        _ => None,
    }
}

/// Returns the system that an ABI tag names, and its version (Linux Standard Base Core, Note
/// Sections).
#[tactic(auto, using(crate::proofs::ContentLaws::abi_none, crate::proofs::ContentLaws::abi_some))]
fn abi_tag(words: &[u8]) -> Option<Words>
    requires { length words.now ≡ 16 }
    ensures content { items_of result ≡ abi_tag words.now }
    ensures short { IfSome result (λ text. array_vec_len text ≤ 230) }
{
    match short_name(&ABI_SYSTEMS, word_at(words, 0)) {
        Some(system) => Some(system_text(system, words)),
        None => None,
    }
}

/// Returns the name of a system with the version in an ABI tag.
fn system_text(system: &'static str, words: &[u8]) -> Words
    requires size { length words.now ≡ 16 }
    requires short { length system.now ≤ 16 }
    ensures items { result.items ≡ system.now ++ space ++ abi_version words.now }
    ensures len { array_vec_len result ≤ 230 }
{
    let mut text = words_of(system.as_bytes());
    append(&mut text, b" ");
    put_version(&mut text, words);
    text
}

/// Appends the version in an ABI tag, three words after the first.
fn put_version(text: &mut Words, words: &[u8])
    requires size { length words.now ≡ 16 }
    requires room { array_vec_len text.old ≤ 100 }
    ensures items { text.new.items ≡ text.old.items ++ abi_version words.now }
    ensures len { array_vec_len text.new ≤ array_vec_len text.old + 32 }
{
    put_word(text, word_at(words, 4));
    append(text, b".");
    put_word(text, word_at(words, 8));
    append(text, b".");
    put_word(text, word_at(words, 12));
}

/// Appends a number in decimal.
fn put_word(text: &mut Words, number: u32)
    requires { array_vec_len text.old + 10 ≤ 400 }
    ensures items { text.new.items ≡ text.old.items ++ decimal number }
    ensures len { array_vec_len text.new ≤ array_vec_len text.old + 10 }
{
    let mut buffer = Buffer::new();
    append(text, buffer.format(number).as_bytes());
}

/// Returns the number of four bytes at a place.
pub(crate) fn word_at(bytes: &[u8], place: usize) -> u32
    requires { place + 4 ≤ length bytes.now }
    ensures { result ≡ field bytes.now place 4 }
{
    let mut number = [0; 4];
    number.copy_from_slice(&bytes[place..place + 4]);
    word(&number)
}

/// Returns the text that some bytes are up to the first NUL, escaped, with the mark of a descriptor
/// that has more.
fn version_text(first: &[u8], has_more: bool) -> Words
    requires { length first.now ≤ 32 }
    ensures items { result.items
        ≡ escaped (before_nul first.now) ++ descriptor_mark has_more }
    ensures len { array_vec_len result ≤ 230 }
{
    let mut text = words_of(&escaped(before_nul(first)));
    put_mark(&mut text, has_more);
    text
}

/// Appends the mark of a descriptor that has more bytes than are shown.
fn put_mark(text: &mut Words, has_more: bool)
    requires { array_vec_len text.old + 2 ≤ 400 }
    ensures items { text.new.items ≡ text.old.items ++ descriptor_mark has_more }
    ensures len { array_vec_len text.new ≤ array_vec_len text.old + 2 }
{
    if has_more {
        append(text, b"\\+");
    }
}

/// Returns the bytes before the first NUL, or all.
fn before_nul(bytes: &[u8]) -> &[u8]
    ensures front { result.now ≡ before_nul bytes.now }
    ensures short { length result.now ≤ length bytes.now }
{
    let mut end = 0;
    while end < bytes.len() && bytes[end] != 0 {
        end += 1;
    }
    &bytes[..end]
}

/// Returns a text with each byte escaped as in a name.
fn escaped(text: &[u8]) -> LineBuf
    requires { length text.now ≤ 32 }
    ensures items { result.items ≡ escaped text.now }
    ensures len { array_vec_len result ≤ 128 }
{
    let mut line = LineBuf::new();
    for byte in text {
        put_name_byte(&mut line, *byte);
    }
    line
}

/// Returns the texts of the properties that end in the first bytes of a list, if any does; of a
/// list that is malformed nothing (Linux Extensions to gABI, Program Property).
fn properties_text(first: &[u8], has_more: bool) -> Option<Words>
    requires { length first.now ≤ 32 }
    ensures content { items_of result ≡ properties_text first.now has_more }
    ensures short { IfSome result (λ text. array_vec_len text ≤ 230) }
{
    let mut text = Words::new();
    let end = put_properties(&mut text, first);
    if !is_shown(end, has_more) {
        return None;
    }
    put_mark(&mut text, has_more);
    Some(text)
}

/// Returns `true` if the properties before the end of a walk are shown.
fn is_shown(end: ListEnd, has_more: bool) -> bool
    ensures { result ≡ (not end.is_empty && (has_more || not end.is_cut)) }
{
    !end.is_empty && (has_more || !end.is_cut)
}

/// The systems that an ABI tag names.
const ABI_SYSTEMS: [(u64, &str); 7] = [
    (0, "Linux"),
    (1, "Hurd"),
    (2, "Solaris"),
    (3, "FreeBSD"),
    (4, "NetBSD"),
    (5, "Syllable"),
    (6, "NaCl"),
];

/// The types of notes in cores of all systems.
const CORE_TYPES: [(u64, &str); 7] = [
    (1, "PRSTATUS"),
    (2, "FPREGSET"),
    (3, "PRPSINFO"),
    (4, "TASKSTRUCT"),
    (6, "AUXV"),
    (0x4649_4c45, "FILE"),
    (0x5349_4749, "SIGINFO"),
];

/// Those of Linux.
const LINUX_CORE_TYPES: [(u64, &str); 12] = [
    (0x100, "PPC_VMX"),
    (0x102, "PPC_VSX"),
    (0x200, "386_TLS"),
    (0x202, "X86_XSTATE"),
    (0x204, "X86_SHSTK"),
    (0x400, "ARM_VFP"),
    (0x401, "ARM_TLS"),
    (0x402, "ARM_HW_BREAK"),
    (0x403, "ARM_HW_WATCH"),
    (0x405, "ARM_SVE"),
    (0x406, "ARM_PAC_MASK"),
    (0x46e6_2b7f, "PRXFPREG"),
];
