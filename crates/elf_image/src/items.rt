//! Items of an image, parsed from arguments.
use crate::image_items::{CopyItem, ItemKind, NumberItem};
use elf_layout::{address_of, behind, number, parted};

/// An item of an image.
#[derive(Clone, Copy)]
pub enum ImageItem<'a> {
    /// One whose value is a number.
    Number(NumberItem),
    /// The bytes of a copied object.
    Copy(CopyItem<'a>),
}

/// Parses an item of an image.
///
/// `base=ADDR` is the load address; `desc=ADDR` the first word of a static TLS descriptor;
/// `sym:INDEX=ADDR` the address that the dynamic symbol of an index is bound to, and
/// `call:INDEX=ADDR` that for calls; `mod:INDEX=N`, `dtp:INDEX=N` and `tp:INDEX=N` are of the
/// object that it is bound in: the module id, its value there, and its offset from the thread
/// pointer, with INDEX 0 of the file itself (not `dtp:0`); `ires:ADDR=VALUE` is the answer of the
/// resolver at an address; `copy:INDEX=HEX` the bytes of a copied object. The argument is split at
/// its last `=`. INDEX has 1 to 10 decimal digits and is below 2^32; ADDR and VALUE are `0x` and 1
/// to 16 hexadecimal digits, N the same or 1 to 19 decimal digits; HEX is an even number of
/// hexadecimal digits. Returns `None` for any other argument.
pub fn image_item(word: &str) -> Option<ImageItem<'_>> {
    let (key, text) = parted(word)?;
    if let Some(digits) = behind(key, "copy:") {
        return Some(ImageItem::Copy(copy_of(digits, text)?));
    }
    Some(ImageItem::Number(number_of(key, text)?))
}

/// Returns the item of a copied object.
fn copy_of<'a>(index: &str, text: &'a str) -> Option<CopyItem<'a>> {
    let digits = text.as_bytes();
    if digits.len() % 2 != 0 || digits.is_empty() || !are_hex_digits(digits) {
        return None;
    }
    Some(CopyItem {
        index: index_of(index)?,
        digits: 1,
        bytes: digits,
    })
}

/// Returns `true` if each byte is a hexadecimal digit.
fn are_hex_digits(bytes: &[u8]) -> bool {
    for byte in bytes {
        if !byte.is_ascii_hexdigit() {
            return false;
        }
    }
    true
}

/// Returns the item of a key and a number.
fn number_of(key: &str, text: &str) -> Option<NumberItem> {
    match key {
        "base" => return Some(item_of(ItemKind::LoadAddress, 0, address_of(text)?)),
        "desc" => return Some(item_of(ItemKind::Descriptor, 0, address_of(text)?)),
        _ => {}
    }
    if let Some(address) = behind(key, "ires:") {
        return Some(item_of(ItemKind::Resolver, address_of(address)?, address_of(text)?));
    }
    symbol_item(key, text)
}

/// Returns the item of a symbol, by the key before a number.
fn symbol_item(key: &str, text: &str) -> Option<NumberItem> {
    if let Some(digits) = behind(key, "sym:") {
        return Some(item_of(ItemKind::Symbol, key_of(digits)?, address_of(text)?));
    }
    if let Some(digits) = behind(key, "call:") {
        return Some(item_of(ItemKind::Call, key_of(digits)?, address_of(text)?));
    }
    thread_item(key, text)
}

/// Returns the item of a thread-local symbol, by the key before a number.
fn thread_item(key: &str, text: &str) -> Option<NumberItem> {
    if let Some(digits) = behind(key, "mod:") {
        return Some(item_of(ItemKind::Module, key_of(digits)?, number_or_address(text)?));
    }
    if let Some(digits) = behind(key, "tp:") {
        return Some(item_of(ItemKind::Thread, key_of(digits)?, number_or_address(text)?));
    }
    let index = key_of(behind(key, "dtp:")?)?;
    if index == 0 {
        return None;
    }
    Some(item_of(ItemKind::Value, index, number_or_address(text)?))
}

/// Returns an item.
fn item_of(kind: ItemKind, key: u64, value: u64) -> NumberItem {
    NumberItem {
        kind: kind.number(),
        key,
        value,
    }
}

/// Parses an address, or a number of 1 to 19 decimal digits.
fn number_or_address(text: &str) -> Option<u64> {
    match address_of(text) {
        Some(address) => Some(address),
        None => number(text, 10, 19),
    }
}

/// Parses the index of a symbol, as the key of an item.
fn key_of(digits: &str) -> Option<u64> {
    Some(u64::from(index_of(digits)?))
}

/// Parses the index of a symbol.
fn index_of(digits: &str) -> Option<u32> {
    let index = number(digits, 10, 10)?;
    if index > 0xffff_ffff {
        return None;
    }
    Some(index as u32)
}
