//! Borrowed items of a layout in ascending order.
ghost use Rattle.std.specs.Prelude.{◌≡◌, ◌≢◌, ◌≤◌, ◌<◌, ◌+◌, ◌^◌, ℕ, List, All, MatchBool};
ghost use Rattle.std.specs.Prelude.{IfOk, IfErr, [], length, slice_index, slice_index_or, take};
ghost use Rattle.std.specs.Ordering.{nat_cmp};
ghost use Rattle.std.specs.declared.cmp.Ordering.TheVariants.{Less};
ghost use Rattle.elf_model.specs.Prelude.{Searched, address_in, address_named, longest, lookup_cost, pad64, slice};
ghost use Rattle.elf_model.specs.declared.causes.Cause.TheVariants.{NameUnended};
ghost use Rattle.elf_layout.specs.Layouts.{IsName};
ghost use Rattle.elf_layout.specs.Lent.{BeginsWith, BeginsAt, FindsKey, Follows, IsAddressAt};
ghost use Rattle.elf_layout.specs.Lent.{MayFollow, MayBorrow, KeysAscend};
ghost use Rattle.elf_layout.specs.Lent.{borrowed_index, lent_name, name_order, named, placed, search_end};
ghost use Rattle.elf_layout.specs.declared.lent.LentName.{LentName as IsLentName};

use crate::named::ITEM_NAME_BYTES;
use elf_model::Cause;
use std::cmp::Ordering;
use std::marker::Model;

/// A section of a borrowed layout.
#[repr(C)]
#[derive(Clone, Copy, PartialEq, Eq, PartialOrd, Ord)]
pub struct LentSection {
    /// The section's index.
    pub index: u16,
    /// The address of its first byte.
    pub address: u64,
}

/// A name of a borrowed layout.
#[repr(C)]
#[derive(Clone, Copy, PartialEq, Eq, PartialOrd, Ord)]
pub struct LentName<'a> {
    /// The symbol's name: 1 to 255 bytes without a NUL.
    pub name: &'a [u8],
    /// The symbol's value, or the address of its entry.
    pub address: u64,
}

/// Sections with their addresses, by ascending index.
#[derive(Drop)]
pub struct SortedSections<'a> {
    items: &'a [LentSection],
}

impl<'a> Model for SortedSections<'a> {
    ghost use Rattle.std.specs.Prelude.{List, ℕ};
    ghost use Rattle.std.specs.Ordering.{nat_cmp};
    ghost use Rattle.elf_layout.specs.Lent.{KeysAscend, borrowed_index, placed};

    ghost Value = { List (ℕ × ℕ) };

    ghost view = { λ s. placed s.items.now };

    ghost invariant = { λ s. KeysAscend nat_cmp borrowed_index s.items.now };
}

impl<'a> SortedSections<'a> {
    /// Creates a view of sections, each by its index, with the address of its first byte.
    ///
    /// # Errors
    /// Returns the position of the first item whose index is not greater than that of the item
    /// before it.
    pub fn new(items: &'a [LentSection]) -> Result<SortedSections<'a>, usize>
        ensures sorted { IfOk result (λ sections. sections ≡ placed items.now) }
        ensures rise { IfOk result (λ _. KeysAscend nat_cmp borrowed_index items.now) }
        ensures refused { IfErr result (λ i. (i < length items.now)
            × (KeysAscend nat_cmp borrowed_index (take (i + 1) items.now) → ⊥)) }
        ensures falls { IfErr result (λ i. Follows nat_cmp borrowed_index items.now i → ⊥) }
    {
        let mut i = 0;
        while i < items.len() {
            if !section_follows(items, i) {
                return Err(i);
            }
            i += 1;
        }
        Ok(SortedSections { items })
    }

    /// Returns the address that is given for a section index, if there is one.
    pub fn address(&self, section: u16) -> Option<u64>
        ensures { result ≡ address_in self.now section }
    {
        match search_section(self.items, section) {
            Ok(i) => Some(self.items[i].address),
            Err(_) => None,
        }
    }
}

/// Returns `true` if the index at a position is greater than the one before it.
fn section_follows(items: &[LentSection], i: usize) -> bool
    requires { i < length items.now }
    ensures { MatchBool result (Follows nat_cmp borrowed_index items.now i)
        (Follows nat_cmp borrowed_index items.now i → ⊥) }
{
    i == 0 || items[i - 1].index < items[i].index
}

/// Returns the position of a section, or where it would be.
fn search_section(items: &[LentSection], section: u16) -> Result<usize, usize>
    requires { KeysAscend nat_cmp borrowed_index items.now }
    ensures { FindsKey nat_cmp borrowed_index items.now section result }
{
    items.binary_search_by_key(&section, |item| item.index)
}

/// Names with their addresses, in ascending byte order.
#[derive(Drop)]
pub struct SortedNames<'a> {
    items: &'a [LentName<'a>],
    most: usize,
}

impl<'a> Model for SortedNames<'a> {
    ghost use Rattle.std.specs.Prelude.{◌≡◌, List, ℕ};
    ghost use Rattle.elf_model.specs.ApplyCost.{longest};
    ghost use Rattle.elf_layout.specs.Lent.{MayBorrow, named};

    ghost Value = { List (List ℕ × ℕ) };

    ghost view = { λ n. named n.items.now };

    ghost invariant = { λ n. MayBorrow n.items.now × (n.most ≡ longest (named n.items.now)) };
}

impl<'a> SortedNames<'a> {
    /// Creates a view of names of 1 to 255 bytes without a NUL, each with its address.
    ///
    /// # Errors
    /// Returns the position of the first item that has no such name, or whose name is not greater
    /// than that of the item before it.
    pub fn new(items: &'a [LentName<'a>]) -> Result<SortedNames<'a>, usize>
        ensures sorted { IfOk result (λ names. names ≡ named items.now) }
        ensures lent { IfOk result (λ _. MayBorrow items.now) }
        ensures refused { IfErr result (λ i. (i < length items.now)
            × (MayBorrow (take (i + 1) items.now) → ⊥)) }
        ensures falls { IfErr result (λ i. MayFollow items.now i → ⊥) }
    {
        let mut most = 0;
        let mut i = 0;
        while i < items.len() {
            if !name_follows(items, i) {
                return Err(i);
            }
            most = most.max(name_at(items, i).len());
            i += 1;
        }
        Ok(SortedNames { items, most })
    }

    /// Returns `true` if there are no names.
    pub fn is_empty(&self) -> bool
        ensures { MatchBool result (self.now ≡ []) (self.now ≢ []) }
    {
        self.items.is_empty()
    }

    /// Returns the length in bytes of the longest name.
    pub fn longest(&self) -> usize
        ensures value { result ≡ longest self.now }
        ensures few { result ≤ 255 }
    {
        self.most
    }

    /// Returns how many bytes a lookup may read: the length of the longest name with its NUL,
    /// rounded up to pieces of 64; none if there are no names.
    #[tactic(auto, unfolding(crate::proofs::Words::costs))]
    pub fn cost(&self) -> u128
        ensures value { result ≡ lookup_cost Searched self.now }
        ensures few { result < 2 ^ 73 }
    {
        if self.items.is_empty() {
            return 0;
        }
        64 * (self.most as u128 + 1).div_ceil(64)
    }

    /// Returns the address of the name at an index of a string table, if there is one. `front` has
    /// the bytes at that index: one byte more than the longest name has, or all bytes up to the
    /// table's end if those are fewer.
    ///
    /// # Errors
    /// Returns `NameUnended` if the table ends before the name and its NUL, and one of these names
    /// begins with the bytes that are there.
    pub fn find(&self, front: &[u8]) -> Result<Option<u64>, Cause>
        ensures unended { IfErr result (λ cause. cause ≡ NameUnended) }
        ensures found { (strings : List ℕ) (index : ℕ) → index < length strings →
            front.now ≡ slice strings index (longest self.now + 1) →
            result ≡ address_named strings index self.now }
    {
        let end = name_end(front);
        let key = &front[..end];
        let place = search_name(self.items, key);
        if end < front.len() {
            return Ok(address_at(self.items, place));
        }
        if begins_at(self.items, place_of(place), key) {
            return Err(Cause::NameUnended);
        }
        Ok(None)
    }
}

/// Returns the position of a name, or where it would be.
fn search_name(items: &[LentName<'_>], name: &[u8]) -> Result<usize, usize>
    requires { KeysAscend name_order lent_name items.now }
    ensures { FindsKey name_order lent_name items.now name.now result }
{
    items.binary_search_by_key(&name, |item| item.name)
}

/// Returns `true` if there is a name at a position, and it is greater than the one before it.
fn name_follows(items: &[LentName<'_>], i: usize) -> bool
    requires { i < length items.now }
    ensures { MatchBool result (MayFollow items.now i) (MayFollow items.now i → ⊥) }
{
    let name = name_at(items, i);
    is_name(name) && (i == 0 || is_below(name_at(items, i - 1), name))
}

/// Returns the name of the item at a position.
fn name_at<'a>(items: &[LentName<'a>], i: usize) -> &'a [u8]
    requires { i < length items.now }
    ensures { (d : IsLentName) → result.now ≡ lent_name (slice_index_or items.now i d) }
{
    items[i].name
}

/// Returns `true` if bytes are a valid name in a layout: 1 to 255 bytes, none a NUL.
pub fn is_name(name: &[u8]) -> bool
    ensures { MatchBool result (IsName name.now) (IsName name.now → ⊥) }
{
    !name.is_empty() && name.len() <= ITEM_NAME_BYTES && name_end(name) == name.len()
}

/// Returns `true` if a name comes before another.
fn is_below(before: &[u8], name: &[u8]) -> bool
    ensures { MatchBool result (name_order before.now name.now ≡ Less)
        (name_order before.now name.now ≢ Less) }
{
    before.cmp(name) == Ordering::Less
}

/// Returns the number of bytes before the first NUL, or of all.
fn name_end(bytes: &[u8]) -> usize
    ensures within { result ≤ length bytes.now }
    ensures before { (k : ℕ) → k < result → slice_index bytes.now k ≢ 0 }
    ensures ends { result < length bytes.now → slice_index bytes.now result ≡ 0 }
{
    let mut end = 0;
    while end < bytes.len() && bytes[end] != 0 {
        end += 1;
    }
    end
}

/// Returns the address of the item that a search found.
fn address_at(items: &[LentName<'_>], place: Result<usize, usize>) -> Option<u64>
    requires { IfOk place (λ i. i < length items.now) }
    ensures { IsAddressAt items.now place result }
{
    match place {
        Ok(i) => Some(items[i].address),
        Err(_) => None,
    }
}

/// Returns the position at which a search ended.
fn place_of(place: Result<usize, usize>) -> usize
    ensures { result ≡ search_end place }
{
    let (Ok(i) | Err(i)) = place;
    i
}

/// Returns `true` if there is a name at a position that begins with some bytes.
fn begins_at(items: &[LentName<'_>], place: usize, front: &[u8]) -> bool
    ensures { MatchBool result (BeginsAt items.now place front.now)
        (BeginsAt items.now place front.now → ⊥) }
{
    place < items.len() && begins(name_at(items, place), front)
}

/// Returns `true` if a name begins with some bytes.
fn begins(name: &[u8], front: &[u8]) -> bool
    ensures { MatchBool result (BeginsWith name.now front.now) (BeginsWith name.now front.now → ⊥) }
{
    name.starts_with(front)
}
