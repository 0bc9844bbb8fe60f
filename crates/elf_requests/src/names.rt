//! Names that can be looked up.
ghost use Rattle.std.specs.Prelude.{◌≡◌, ◌≤◌, IsNone, IfSome, length, true};
ghost use Rattle.elf_model.specs.NameLaws.{IsWanted};
ghost use Rattle.elf_requests.specs.Asked.{IsSectionName, IsText, begins_name};

use crate::requests::{LookupName, LookupSymbol};
use elf_options::{is_valid_row_name, parse_query};
use elf_reloc::SectionName;

/// Returns a name that can be looked up: an argument of 1 to 4,096 bytes, none of them NUL. Returns
/// `None` for any other argument.
pub fn checked_name(word: &str) -> Option<LookupName<'_>>
    ensures named { IfSome result (λ name. name.bytes.now ≡ word.now) }
    ensures unnamed { IsNone result → IsWanted word.now → length word.now ≤ 4096 → ⊥ }
{
    match name_bytes(word) {
        Some(bytes) => Some(LookupName { bytes }),
        None => None,
    }
}

/// Returns a symbol that can be looked up as glibc's dynamic loader does it.
///
/// It is an argument NAME, NAME@VERSION or NAME@@VERSION of 1 to 4,096 bytes, none of them NUL,
/// with a nonempty name and a nonempty version. Returns `None` for any other argument.
pub fn checked_symbol(word: &str) -> Option<LookupSymbol<'_>>
    ensures named { IfSome result (λ symbol. symbol.text.now ≡ word.now) }
    ensures unnamed { IsNone result → IsText true word.now → ⊥ }
{
    let text = name_bytes(word)?;
    if !parse_query(text).is_complete() {
        return None;
    }
    Some(LookupSymbol { text })
}

/// Returns the name of a section: an argument of at most 4,096 bytes, none of them NUL, that begins
/// with a dot or a letter. Returns `None` for any other argument.
pub fn checked_section(word: &str) -> Option<SectionName<'_>>
    ensures named { IfSome result (λ name.
        (name.bytes.now ≡ word.now) × IsSectionName word.now) }
    ensures unnamed { IsNone result → IsSectionName word.now → ⊥ }
{
    let bytes = name_bytes(word)?;
    if !begins_name(bytes) {
        return None;
    }
    Some(SectionName { bytes })
}

/// Returns `true` if bytes begin with a dot or a letter.
fn begins_name(bytes: &[u8]) -> bool
    ensures { result ≡ begins_name bytes.now }
{
    match bytes.first() {
        Some(first) => *first == b'.' || first.is_ascii_alphabetic(),
        None => false,
    }
}

/// Returns the bytes of an argument that has 1 to 4,096 of them, none NUL.
fn name_bytes(word: &str) -> Option<&[u8]>
    ensures named { IfSome result (λ name. (name.now ≡ word.now)
        × IsWanted name.now × (length name.now ≤ 4096)) }
    ensures unnamed { IsNone result → IsWanted word.now → length word.now ≤ 4096 → ⊥ }
{
    let name = word.as_bytes();
    if is_valid_row_name(name, false) {
        return Some(name);
    }
    None
}
