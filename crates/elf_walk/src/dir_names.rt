//! Names in memory that is allocated once.
ghost use Rattle.std.specs.Prelude.{◌≡◌, ◌+◌, ◌≤◌, ◌<◌, ◌++◌, ◌∷◌, [], true, false, IfOk, IfSome, IsNone, OnOk, length, slice_index_or};
ghost use Rattle.std.specs.List.Sorted.{IsPermutation, IsSorted};
ghost use Rattle.elf_model.specs.Bytes.{slice};
ghost use Rattle.elf_walk.specs.Order.{order};
ghost use Rattle.elf_walk.specs.Held.{IsEnough, IsSmallDirectory, LeavesRoom, bytes_held, repeats};

use std::alloc::{AllocError, Global};
use std::marker::Model;

/// The maximum number of bytes of a name in a directory.
pub const ENTRY_NAME_BYTES: usize = 255;

/// How many names are held at once.
const MOST_NAMES: usize = 32_768;

/// How many bytes of names are held at once.
const MOST_BYTES: usize = 720_896;

/// How many names are kept if there are more.
pub const KEPT_NAMES: usize = 20_480;

/// How many bytes of names are kept if there are more.
pub const KEPT_BYTES: usize = 589_824;

/// A list of names, stored one after the other.
#[derive(Drop)]
pub struct DirNames {
    bytes: Vec<u8>,
    places: Vec<NameSpan>,
}

/// The span of a name among the bytes.
#[derive(Clone, Copy)]
struct NameSpan {
    start: u32,
    len: u8,
}

impl Model for DirNames {
    ghost use Rattle.std.specs.Prelude.{◌≡◌, ◌≤◌, ◌+◌, ℕ, List, map, All, length, sum_by};
    ghost use Rattle.elf_model.specs.Bytes.{slice};

    ghost Value = { List (List ℕ) };

    ghost view = { λ n. map (λ p. slice n.bytes.items p.start p.len) n.places.items };

    ghost invariant = { λ n. (All (λ p. p.start + p.len ≤ length n.bytes.items) n.places.items)
        × (sum_by (λ p. p.len) n.places.items ≡ length n.bytes.items) };
}

impl DirNames {
    /// Creates an empty list of names. Allocates its memory from `alloc`.
    ///
    /// # Errors
    /// Out of memory.
    pub(crate) fn new(alloc: Global) -> Result<DirNames, AllocError>
        ensures { IfOk result (λ names. names ≡ []) }
    {
        let bytes = Vec::with_capacity(alloc, MOST_BYTES)?;
        let places = Vec::with_capacity(alloc, MOST_NAMES)?;
        Ok(DirNames { bytes, places })
    }

    /// Removes all names.
    pub(crate) fn clear(&mut self)
        ensures { self.new ≡ [] }
    {
        self.bytes.clear();
        self.places.clear();
    }

    /// Returns the number of names.
    pub fn len(&self) -> usize
        ensures { result ≡ length self.now }
    {
        self.places.len()
    }

    /// Returns the total length of the names in bytes.
    fn size(&self) -> usize
        ensures { result ≡ bytes_held self.now }
    {
        self.bytes.len()
    }

    /// Returns the name at an index.
    pub fn get(&self, index: usize) -> Option<&[u8]>
        ensures some { IfSome result (λ n. (index < length self.now)
            × (n.now ≡ slice_index_or self.now index []) × (length n.now ≤ 255)) }
        ensures none { IsNone result → length self.now ≤ index }
    {
        match self.places.get(index) {
            Some(place) => Some(name_at(&self.bytes, *place)),
            None => None,
        }
    }

    /// Returns `true` if there is no room for one more name.
    pub(crate) fn is_full(&self) -> bool
        ensures { result ≡ false → LeavesRoom self.now }
    {
        self.len() >= MOST_NAMES || self.size() > MOST_BYTES - ENTRY_NAME_BYTES
    }

    /// Returns `true` if these are as many names as are kept if there are more.
    pub(crate) fn is_enough(&self) -> bool
        ensures none { self.now ≡ [] → result ≡ false }
        ensures enough { result ≡ true → IsEnough self.now }
        ensures few { result ≡ false → 0 < length self.now → IsSmallDirectory self.now }
    {
        self.len() > 0 && (self.len() >= KEPT_NAMES || self.size() >= KEPT_BYTES)
    }

    /// Appends a name.
    ///
    /// # Errors
    /// Out of memory, or the name has more than 255 bytes; the names are unchanged.
    pub(crate) fn push(&mut self, name: &[u8]) -> Result<(), AllocError>
        ensures pushed { OnOk result (self.new ≡ self.old ++ name.now ∷ []) }
        ensures short { OnOk result (length name.now ≤ 255) }
    {
        let (Ok(start), Ok(len)) = (u32::try_from(self.bytes.len()), u8::try_from(name.len()))
        else {
            return Err(AllocError);
        };
        self.bytes.extend_from_slice(name)?;
        if self.places.push(NameSpan { start, len }).is_err() {
            self.bytes.truncate(start as usize);
            return Err(AllocError);
        }
        Ok(())
    }

    /// Sorts the names by their bytes.
    pub(crate) fn sort(&mut self)
        ensures permutation { IsPermutation self.old self.new }
        ensures sorted { IsSorted order self.new }
    {
        let bytes = self.bytes.as_slice();
        self.places.sort_unstable_by(|one, other| name_at(bytes, *one).cmp(name_at(bytes, *other)));
    }

    /// Returns `true` if a name equals the one before it.
    pub(crate) fn repeats(&self, index: usize) -> bool
        requires { index < length self.now }
        ensures { result ≡ repeats self.now index }
    {
        if index == 0 {
            return false;
        }
        let (Some(name), Some(before)) = (self.get(index), self.get(index - 1)) else {
            return false;
        };
        name == before
    }
}

/// Returns the name at a span of bytes.
fn name_at(bytes: &[u8], place: NameSpan) -> &[u8]
    ensures piece { result.now ≡ slice bytes.now place.start place.len }
    ensures short { length result.now ≤ 255 }
{
    let start = place.start as usize;
    let len = usize::from(place.len);
    let rest = if start < bytes.len() {
        &bytes[start..]
    } else {
        &[]
    };
    if len < rest.len() { &rest[..len] } else { rest }
}
