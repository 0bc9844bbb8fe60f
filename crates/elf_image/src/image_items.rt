//! Items: what an image depends on besides its file.
ghost use Rattle.std.specs.Prelude.{◌≡◌, ◌+◌, ◌*◌, ◌/◌, ◌^◌, ◌<◌, ◌≤◌, length, MatchBool, MatchOption};
ghost use Rattle.std.specs.Prelude.{option_map, slice_index_or, unwrap_or, ℕ, List};
ghost use Rattle.std.specs.Ordering.{nat_cmp};
ghost use Rattle.elf_layout.specs.Lent.{FindsKey, Follows, KeysAscend};
ghost use Rattle.elf_model.specs.ImageItems.{bytes_for};
ghost use Rattle.elf_image.specs.Items.{Ascend, byte_in, byte_of_digits, copied, copies_of, copy_bytes, copy_index};
ghost use Rattle.elf_image.specs.Items.{copy_size, digit_value, given, item_kind_number, number_of};
ghost use Rattle.elf_image.specs.Items.{item_rank, item_rank_of};
ghost use Rattle.elf_image.specs.declared.image_items.ItemKind.TheVariants.{LoadAddress};
ghost use Rattle.elf_image.specs.declared.image_items.NumberItem.{NumberItem as IsNumberItem};

/// What an item says. Items are sorted by it, in this order.
#[derive(Clone, Copy, PartialEq, Eq)]
pub enum ItemKind {
    /// The load address: what is added to each address of the file.
    LoadAddress,
    /// The first word of a static TLS descriptor.
    Descriptor,
    /// The address that a symbol of the dynamic symbols is bound to.
    Symbol,
    /// The address that a symbol is bound to for calls, if that is another.
    Call,
    /// The module id of the object that a symbol is bound in.
    Module,
    /// The value of the symbol in that object.
    Value,
    /// The offset of the symbol from the thread pointer.
    Thread,
    /// The answer of the resolver at an address of the file.
    Resolver,
}

impl ItemKind {
    /// Returns the number of the kind, which is its place in the order of items.
    pub fn number(self) -> u32
        ensures { result ≡ item_kind_number self }
    {
        match self {
            ItemKind::LoadAddress => 0,
            ItemKind::Descriptor => 1,
            ItemKind::Symbol => 2,
            ItemKind::Call => 3,
            ItemKind::Module => 4,
            ItemKind::Value => 5,
            ItemKind::Thread => 6,
            ItemKind::Resolver => 7,
        }
    }
}

/// An item whose value is a number.
#[repr(C)]
#[derive(Clone, Copy, PartialEq, Eq, PartialOrd, Ord)]
pub struct NumberItem {
    /// The number of its kind.
    pub kind: u32,
    /// The index of a symbol, the address of a resolver, or 0.
    pub key: u64,
    /// The value.
    pub value: u64,
}

/// The bytes of a copied object, as they are or as hexadecimal digits, two for each.
#[derive(Clone, Copy)]
pub enum CopyBytes<'a> {
    /// The bytes.
    Raw(&'a [u8]),
    /// An even number of digits.
    Digits(&'a [u8]),
}

/// An item of a copied object.
#[repr(C)]
#[derive(Clone, Copy)]
pub struct CopyItem<'a> {
    /// The index of the symbol.
    pub index: u32,
    /// 0 if the bytes are as they are; if they are hexadecimal digits, two for each, another number.
    pub digits: u32,
    /// The bytes of the object that it is bound to.
    pub bytes: &'a [u8],
}

impl<'a> CopyItem<'a> {
    /// Returns the bytes of the object.
    pub fn copied(&self) -> CopyBytes<'a>
        ensures { result ≡ copied self.now }
    {
        if self.digits == 0 {
            CopyBytes::Raw(self.bytes)
        } else {
            CopyBytes::Digits(self.bytes)
        }
    }
}

impl CopyBytes<'_> {
    /// Returns the number of bytes.
    #[tactic(auto, using(crate::proofs::ItemSteps::copy_length))]
    pub fn len(&self) -> usize
        ensures size { result ≡ copy_size self.now }
        ensures length { result ≡ length (copy_bytes self.now) }
    {
        match self {
            CopyBytes::Raw(bytes) => bytes.len(),
            CopyBytes::Digits(digits) => digits.len() / 2,
        }
    }

    /// Returns the byte of an index.
    pub fn byte(&self, index: usize) -> u8
        requires { index < copy_size self.now }
        ensures { result ≡ byte_in self.now index }
    {
        match self {
            CopyBytes::Raw(bytes) => bytes[index],
            CopyBytes::Digits(digits) => byte_of(digits, index),
        }
    }
}

/// Returns the byte of an index, of two digits each.
fn byte_of(digits: &[u8], index: usize) -> u8
    requires { index < length digits.now / 2 }
    ensures { result ≡ byte_of_digits digits.now index }
{
    16 * digit_of(digits[2 * index]) + digit_of(digits[2 * index + 1])
}

/// Returns the number of a hexadecimal digit of either case.
#[tactic(auto, unfolding(crate::specs::Items::digit_value))]
fn digit_of(byte: u8) -> u8
    ensures value { result ≡ digit_value byte }
    ensures small { result < 16 }
{
    match byte {
        b'0'..=b'9' => byte - b'0',
        b'a'..=b'f' => byte - b'a' + 10,
        b'A'..=b'F' => byte - b'A' + 10,
        _ => 0,
    }
}

/// The items of an image, in ascending order: numbers by kind and key, copies by index.
#[derive(Clone, Copy)]
pub struct ImageItems<'a> {
    numbers: &'a [NumberItem],
    copies: &'a [CopyItem<'a>],
    pub ghost ascending: { Ascend numbers.now copies.now },
}

impl<'a> ImageItems<'a> {
    /// Returns the items of these slices, or `None` if one is not above the one before it.
    pub fn new(numbers: &'a [NumberItem], copies: &'a [CopyItem<'a>]) -> Option<ImageItems<'a>>
        ensures { MatchOption result (Ascend numbers.now copies.now → ⊥) (λ items.
            (given items.numbers.now items.copies.now ≡ given numbers.now copies.now)
            × Ascend numbers.now copies.now) }
    {
        if !numbers_ascend(numbers) || !copies_ascend(copies) {
            return None;
        }
        Some(ImageItems { numbers, copies })
    }

    /// Returns the value of the item of a kind and a key, if there is one.
    pub fn number(&self, kind: ItemKind, key: u64) -> Option<u64>
        ensures { result ≡ number_of (given self.now.numbers.now self.now.copies.now) kind key }
    {
        match search_number(self.numbers, item_rank(kind.number(), key)) {
            Ok(found) => Some(key_and_value(self.numbers, found).1),
            Err(_) => None,
        }
    }

    /// Returns the load address, 0 without an item.
    pub fn base(&self) -> u64
        ensures { result ≡ unwrap_or
            (number_of (given self.now.numbers.now self.now.copies.now) LoadAddress 0) 0 }
    {
        self.number(ItemKind::LoadAddress, 0).unwrap_or(0)
    }

    /// Returns the bytes of the copied object of a symbol, if there is an item.
    pub fn copy(&self, index: u32) -> Option<CopyBytes<'a>>
        ensures { option_map copy_bytes result
            ≡ bytes_for (given self.now.numbers.now self.now.copies.now).copies index }
    {
        match search_copy(self.copies, index) {
            Ok(found) => Some(self.copies[found].copied()),
            Err(_) => None,
        }
    }
}

/// Returns the place of a kind and a key in the order of items.
fn item_rank(kind: u32, key: u64) -> u128
    ensures { result ≡ item_rank kind key }
{
    u128::from(kind) * 0x1_0000_0000_0000_0000 + u128::from(key)
}

/// Searches for the number of a place in the order of items.
fn search_number(items: &[NumberItem], wanted: u128) -> Result<usize, usize>
    requires { KeysAscend nat_cmp item_rank_of items.now }
    ensures { FindsKey nat_cmp item_rank_of items.now wanted result }
{
    items.binary_search_by_key(&wanted, |item| item_rank(item.kind, item.key))
}

/// Returns the key and the value of the item at an index of the slice.
fn key_and_value(items: &[NumberItem], i: usize) -> (u64, u64)
    requires { i < length items.now }
    ensures key { (d : IsNumberItem) → result.0 ≡ (slice_index_or items.now i d).key }
    ensures value { (d : IsNumberItem) → result.1 ≡ (slice_index_or items.now i d).value }
    ensures fits { result.0 < 2 ^ 64 }
{
    (key_at(items, i), items[i].value)
}

/// Returns the key of the item at an index of the slice.
fn key_at(items: &[NumberItem], i: usize) -> u64
    requires { i < length items.now }
    ensures { (d : IsNumberItem) → result ≡ (slice_index_or items.now i d).key }
{
    items[i].key
}

/// Searches for the copy of an index.
fn search_copy(items: &[CopyItem<'_>], index: u32) -> Result<usize, usize>
    requires { KeysAscend nat_cmp copy_index items.now }
    ensures { FindsKey nat_cmp copy_index items.now index result }
{
    items.binary_search_by_key(&index, |item| item.index)
}

/// Returns `true` if each number is above the one before it.
fn numbers_ascend(items: &[NumberItem]) -> bool
    ensures { MatchBool result (KeysAscend nat_cmp item_rank_of items.now)
        (KeysAscend nat_cmp item_rank_of items.now → ⊥) }
{
    let mut i = 0;
    while i < items.len() {
        if !number_follows(items, i) {
            return false;
        }
        i += 1;
    }
    true
}

/// Returns `true` if the number of an index is the first, or above the one before it.
fn number_follows(items: &[NumberItem], i: usize) -> bool
    requires { i < length items.now }
    ensures { MatchBool result (Follows nat_cmp item_rank_of items.now i)
        (Follows nat_cmp item_rank_of items.now i → ⊥) }
{
    i == 0
        || item_rank(items[i - 1].kind, items[i - 1].key) < item_rank(items[i].kind, items[i].key)
}

/// Returns `true` if each index is above the one before it.
fn copies_ascend(items: &[CopyItem<'_>]) -> bool
    ensures { MatchBool result (KeysAscend nat_cmp copy_index items.now)
        (KeysAscend nat_cmp copy_index items.now → ⊥) }
{
    let mut i = 0;
    while i < items.len() {
        if !copy_follows(items, i) {
            return false;
        }
        i += 1;
    }
    true
}

/// Returns `true` if the copy of an index is the first, or above the one before it.
fn copy_follows(items: &[CopyItem<'_>], i: usize) -> bool
    requires { i < length items.now }
    ensures { MatchBool result (Follows nat_cmp copy_index items.now i)
        (Follows nat_cmp copy_index items.now i → ⊥) }
{
    i == 0 || items[i - 1].index < items[i].index
}
