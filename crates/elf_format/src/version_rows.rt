//! The lines of symbol versions.
ghost use Rattle.std.specs.Prelude.{◌≡◌, ◌≤◌, if◌then◌else◌, codes, length};
ghost use Rattle.elf_format.specs.Fronts.{front_of};
ghost use Rattle.elf_model.specs.VersionRows.{kind_text, version_prefix, symbol_version_prefix};

use crate::fields::{LinePrefix, begin_named, put_decimal, put_half, put_hex_field, put_text};
use crate::render::{Columns, Json, Render, Tabular};
use elf_model::Format;
use elf_record::{VersionKind, version_number};

/// Fills the prefix with the `V` line of a record of definitions or needs up to its name: the index
/// of its section, its kind, version index, flags and hash (Linux Standard Base Core, Symbol
/// Versioning).
#[tactic(auto, unfolding(elf_model::specs::VersionRows::version_prefix))]
pub fn version_prefix<R: Render>(
    front: &mut LinePrefix,
    section: u16,
    kind: VersionKind,
    number: u16,
    flags: u16,
    hash: u32,
)
    ensures front { front_of front.new ≡ version_prefix R.FORMAT kind section number flags hash }
    ensures key { length front.new.key.now ≤ 16 }
{
    begin_named::<R>(front, b"V", b"name");
    let line = &mut front.line;
    put_half::<R>(line, b"index", section, b' ');
    put_text::<R>(line, b"kind", 4, kind_name(kind).as_bytes(), b' ');
    put_half::<R>(line, b"number", number, b' ');
    put_hex_field::<R>(line, b"flags", 4, 5, u64::from(flags), b' ');
    put_hex_field::<R>(line, b"hash", 8, 8, u64::from(hash), b' ');
}

/// Fills the prefix with the `X` line of a symbol's version up to its name: the index of the
/// section of symbol versions, the symbol's index, and the version index with the mark of a hidden
/// version, of the symbol's `word` (Linux Standard Base Core, Symbol Versioning).
#[tactic(auto, unfolding(elf_model::specs::VersionRows::symbol_version_prefix))]
pub fn symbol_version_prefix<R: Render>(front: &mut LinePrefix, section: u16, index: u64, word: u16)
    ensures front { front_of front.new ≡ symbol_version_prefix R.FORMAT section index word }
    ensures key { length front.new.key.now ≤ 16 }
{
    let number = version_number(word);
    begin_named::<R>(front, b"X", b"name");
    let line = &mut front.line;
    put_half::<R>(line, b"table", section, b' ');
    put_decimal::<R>(line, b"index", 10, index, b' ');
    put_half::<R>(line, b"number", number, b' ');
    put_text::<R>(line, b"hidden", 1, hidden_mark(word == number), b' ');
}

/// Does the same as [`symbol_version_prefix`], in a format that is known only at run time.
pub fn symbol_version_front_in(
    format: Format,
    front: &mut LinePrefix,
    section: u16,
    index: u64,
    word: u16,
)
    ensures front { front_of front.new ≡ symbol_version_prefix format section index word }
    ensures key { length front.new.key.now ≤ 16 }
{
    match format {
        Format::Columns => symbol_version_prefix::<Columns>(front, section, index, word),
        Format::Object => symbol_version_prefix::<Json>(front, section, index, word),
        Format::Table => symbol_version_prefix::<Tabular>(front, section, index, word),
    }
}

// Returns the mark of a version that is shown, or hidden.
fn hidden_mark(shown: bool) -> &'static [u8]
    ensures mark { result.now ≡ (if shown then codes "-" else codes "H") }
    ensures short { length result.now ≡ 1 }
{
    if shown { b"-" } else { b"H" }
}

// Returns the word for a kind of record.
#[tactic(auto, unfolding(elf_model::specs::VersionRows::kind_text))]
fn kind_name(kind: VersionKind) -> &'static str
    ensures word { result.now ≡ kind_text kind }
    ensures short { length result.now ≤ 4 }
{
    match kind {
        VersionKind::Definition => "DEF",
        VersionKind::File => "FILE",
        VersionKind::Need => "NEED",
    }
}
