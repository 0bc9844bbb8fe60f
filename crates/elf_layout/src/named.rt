//! A name with its address.
ghost use Rattle.std.specs.Prelude.{◌≡◌, ◌≢◌, ◌≤◌, ◌<◌, ◌^◌, [], length, All, Any, MatchBool};
ghost use Rattle.elf_layout.specs.Layouts.{HasKey, LacksKey, items_cost};

use std::marker::Model;

/// The maximum number of bytes of a name in a layout.
pub const ITEM_NAME_BYTES: usize = 255;

/// A name of at most 255 bytes, stored inline, with the address that is given for it.
#[derive(Drop)]
pub struct NamedAddress {
    bytes: [u8; ITEM_NAME_BYTES],
    len: usize,
    address: u64,
}

impl Model for NamedAddress {
    ghost use Rattle.std.specs.Prelude.{ℕ, ◌≤◌, List, take};

    ghost Value = { List ℕ × ℕ };

    ghost view = { λ n. (take n.len n.bytes, n.address) };

    ghost invariant = { λ n. n.len ≤ 255 };
}

impl Default for NamedAddress {
    fn default() -> NamedAddress
        ensures { result ≡ ([], 0) }
    {
        NamedAddress {
            bytes: [0; ITEM_NAME_BYTES],
            len: 0,
            address: 0,
        }
    }
}

impl NamedAddress {
    /// Creates a name of at most 255 bytes with its address.
    pub(crate) fn new(name: &[u8], address: u64) -> NamedAddress
        requires { length name.now ≤ 255 }
        ensures { result ≡ (name.now, address) }
    {
        let mut bytes = [0; ITEM_NAME_BYTES];
        let len = name.len();
        bytes[..len].copy_from_slice(name);
        NamedAddress {
            bytes,
            len,
            address,
        }
    }

    /// Returns the name.
    pub fn name(&self) -> &[u8]
        ensures value { result.now ≡ self.now.0 }
        ensures few { length self.now.0 ≤ 255 }
    {
        &self.bytes[..self.len]
    }

    /// Returns `true` if it is this name.
    fn is(&self, name: &[u8]) -> bool
        ensures { MatchBool result (self.now.0 ≡ name.now) (self.now.0 ≢ name.now) }
    {
        self.name() == name
    }

    /// Returns the address that is given for it.
    pub fn address(&self) -> u64
        ensures { result ≡ self.now.1 }
    {
        self.address
    }
}

/// Returns `true` if one of the items has this name.
pub(crate) fn has_name(items: &[NamedAddress], name: &[u8]) -> bool
    ensures { MatchBool result (HasKey items.now name.now) (LacksKey items.now name.now) }
{
    for item in items {
        if item.is(name) {
            return true;
        }
    }
    false
}

/// Returns how many bytes a comparison with each of the names may read: for each its length with
/// its NUL, rounded up to pieces of 64.
pub(crate) fn names_cost(items: &[NamedAddress]) -> u128
    ensures value { result ≡ items_cost items.now }
    ensures few { result < 2 ^ 73 }
{
    let mut cost = 0;
    let mut i = 0;
    while i < items.len() {
        cost += 64 * (items[i].name().len() as u128 + 1).div_ceil(64);
        i += 1;
    }
    cost
}
