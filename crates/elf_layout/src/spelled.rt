//! Items of a layout, parsed from arguments.
ghost use Rattle.std.specs.Prelude.{◌≡◌, ◌≢◌, ◌≤◌, ◌^◌, ◌++◌, ℕ, List, IfSome, IsNone, length};
ghost use Rattle.std.specs.Str.Parse.{IsNumeral};
ghost use Rattle.elf_layout.specs.Layouts.{IsName};
ghost use Rattle.elf_layout.specs.Spelled.{IsAddress, IsEntry, IsIndex, IsItemOf, IsNumber};
ghost use Rattle.elf_layout.specs.Spelled.{IsSplitAtEquals, ParsesItem, item_address};
ghost use Rattle.elf_layout.specs.declared.layout.Item.{Item};

use crate::layout::Item;
use crate::lent::is_name;

/// The largest index of a section.
const LAST_INDEX: u64 = 65_279;

/// Parses an item of a layout.
///
/// `at:INDEX=ADDR` is the address of a section; `def:NAME=ADDR`, that of a symbol; `plt:NAME=ADDR`,
/// that of a symbol's procedure linkage table entry; `got:NAME=ADDR`, that of its global offset
/// table entry; `tpgot:NAME=ADDR`, that of the global offset table entry of its offset from the
/// thread pointer. The argument is split at its last `=`. INDEX is 1 to 5 decimal digits, from 1 to
/// 65279; NAME 1 to 255 bytes without NUL; ADDR `0x` and 1 to 16 hexadecimal digits of either case.
/// Returns None for any other argument.
pub fn item(word: &str) -> Option<Item<'_>>
    ensures spelled { IfSome result (ParsesItem word.now) }
    ensures unspelled { IsNone result → (item : Item) → ParsesItem word.now item → ⊥ }
{
    let (key, text) = parted(word)?;
    let address = address_of(text)?;
    item_of(key, address)
}

/// Returns what is before and after the last `=`.
pub fn parted(word: &str) -> Option<(&str, &str)>
    ensures parts { IfSome result (λ parts. IsSplitAtEquals word.now parts.0.now parts.1.now) }
    ensures none { IsNone result → (key text : List ℕ) → IsSplitAtEquals word.now key text → ⊥ }
{
    word.rsplit_once('=')
}

/// Returns what follows a text that the argument begins with.
pub fn behind<'a>(word: &'a str, front: &str) -> Option<&'a str>
    ensures rest { IfSome result (λ rest. word.now ≡ front.now ++ rest.now) }
    ensures none { IsNone result → (rest : List ℕ) → word.now ≢ front.now ++ rest }
{
    word.strip_prefix(front)
}

/// Parses an address.
pub fn address_of(text: &str) -> Option<u64>
    ensures address { IfSome result (IsAddress text.now) }
    ensures none { IsNone result → (address : ℕ) → IsAddress text.now address → ⊥ }
{
    number(behind(text, "0x")?, 16, 16)
}

/// Parses a number of 1 to `most` digits.
pub fn number(digits: &str, radix: u32, most: usize) -> Option<u64>
    requires { (2 ≤ radix) × (radix ≤ 36) × (radix ^ most ≤ 2 ^ 64) }
    ensures number { IfSome result (IsNumber radix most digits.now) }
    ensures none { IsNone result → IsNumeral radix digits.now → length digits.now ≤ most → ⊥ }
{
    if digits.len() > most || digits.starts_with('+') {
        return None;
    }
    u64::from_str_radix(digits, radix).ok()
}

/// Returns the item of a key before an address.
fn item_of(key: &str, address: u64) -> Option<Item<'_>>
    ensures is_of { IfSome result (IsItemOf key.now) }
    ensures address { IfSome result (λ item. item_address item ≡ address) }
    ensures none { IsNone result → (item : Item) → IsItemOf key.now item → ⊥ }
{
    if let Some(digits) = behind(key, "at:") {
        let index = index_of(digits)?;
        return Some(Item::Section { index, address });
    }
    if let Some(word) = behind(key, "def:") {
        let name = name_of(word)?;
        return Some(Item::Define { name, address });
    }
    entry_of(key, address)
}

/// Returns the item of a symbol's entry, by the key before an address.
fn entry_of(key: &str, address: u64) -> Option<Item<'_>>
    ensures is_of { IfSome result (IsItemOf key.now) }
    ensures address { IfSome result (λ item. item_address item ≡ address) }
    ensures none { IsNone result → (item : Item) → IsEntry item → IsItemOf key.now item → ⊥ }
{
    if let Some(word) = behind(key, "plt:") {
        let name = name_of(word)?;
        return Some(Item::Entry { name, address });
    }
    if let Some(word) = behind(key, "got:") {
        let name = name_of(word)?;
        return Some(Item::Table { name, address });
    }
    let name = name_of(behind(key, "tpgot:")?)?;
    Some(Item::Thread { name, address })
}

/// Parses the index of a section.
fn index_of(digits: &str) -> Option<u16>
    ensures index { IfSome result (IsIndex digits.now) }
    ensures none { IsNone result → (index : ℕ) → IsIndex digits.now index → ⊥ }
{
    let index = number(digits, 10, 5)?;
    if index == 0 || index > LAST_INDEX {
        return None;
    }
    Some(index as u16)
}

/// Returns the bytes of a name in a layout.
fn name_of(word: &str) -> Option<&[u8]>
    ensures name { IfSome result (λ name. (name.now ≡ word.now) × IsName word.now) }
    ensures none { IsNone result → IsName word.now → ⊥ }
{
    let name = word.as_bytes();
    if is_name(name) { Some(name) } else { None }
}
