//! The names in a directory, sorted, one pass at a time.
ghost use Rattle.std.specs.Prelude.{◌≡◌, ◌<◌, ◌++◌, ◌∷◌, List, ℕ, suc, slice_index_or, true, false, IfOk, IfSome, IsNone, OnOk, Ok, [], length, take};
ghost use Rattle.std.specs.List.Sorted.{IsSorted};
ghost use Rattle.elf_walk.specs.Held.{IsEnough, IsWithinKept, LeavesRoom, IsSettled};
ghost use Rattle.elf_walk.specs.Kept.{HoldsWithin, IsFront, IsNameable, KeepsFirstNames, is_dot_entry, wants};
ghost use Rattle.elf_walk.specs.Order.{order};
ghost use Rattle.elf_walk.specs.Passes.{in_order};

use crate::dir_names::{DirNames, ENTRY_NAME_BYTES};
use arrayvec::ArrayVec;
use std::alloc::{AllocError, Global};
use std::cmp::Ordering;
use std::marker::Model;
use std::str;

/// A name in a directory.
pub type DirEntryName = ArrayVec<u8, 255>;

/// The first names of a directory after a given one, sorted by their bytes, without duplicates, up
/// to the batch's capacity. A pass over the directory inserts each of its names; if there are more
/// than are kept, another pass follows.
#[derive(Drop)]
pub struct NameBatch {
    kept: DirNames,
    /// Where names are sorted.
    spare: DirNames,
    after: DirEntryName,
    limit: DirEntryName,
    more: bool,
}

impl Model for NameBatch {
    ghost use Rattle.elf_walk.specs.Kept.{KeptNames};
    ghost use Rattle.elf_walk.specs.Passes.{in_order};

    ghost Value = { KeptNames };

    ghost view = { λ b. record {
      names = in_order b.kept;
      held = b.kept;
      after = b.after.items;
      limit = b.limit.items;
      more = b.more;
    } };
}

/// The result of inserting a name.
#[derive(Clone, Copy)]
pub enum Insertion {
    /// It belongs to this pass or another, or was inserted before, or it is `.` or `..`.
    Placed,
    /// It is not UTF-8, or longer than 255 bytes.
    Unnamed,
}

impl NameBatch {
    /// Creates an empty batch. Allocates its memory from `alloc`.
    ///
    /// # Errors
    /// Out of memory.
    pub fn new(alloc: Global) -> Result<NameBatch, AllocError>
        ensures { IfOk result (λ batch. KeepsFirstNames [] batch) }
    {
        Ok(NameBatch {
            kept: DirNames::new(alloc)?,
            spare: DirNames::new(alloc)?,
            after: DirEntryName::new(),
            limit: DirEntryName::new(),
            more: false,
        })
    }

    /// Begins a pass for the names after another one, which is empty in the first pass over a
    /// directory.
    pub fn begin(&mut self, after: &DirEntryName)
        ensures keeps { KeepsFirstNames [] self.new }
        ensures after { self.new.after ≡ after.now.items }
        ensures more { self.new.more ≡ false }
        ensures room { HoldsWithin self.new }
    {
        self.kept.clear();
        self.after = copied(after);
        self.more = false;
    }

    /// Returns `true` if another pass is needed.
    pub fn has_more(&self) -> bool
        ensures { result ≡ self.now.more }
    {
        self.more
    }

    /// Inserts a name of the directory.
    ///
    /// # Errors
    /// Out of memory.
    pub fn put(&mut self, name: &[u8]) -> Result<Insertion, AllocError>
        ensures dots { is_dot_entry name.now ≡ true →
            (result ≡ Ok Insertion.Placed) × (self.new ≡ self.old) }
        ensures unnamed { is_dot_entry name.now ≡ false → ¬ (IsNameable name.now) →
            (result ≡ Ok Insertion.Unnamed) × (self.new ≡ self.old) }
        ensures placed { is_dot_entry name.now ≡ false → IsNameable name.now →
            OnOk result (result ≡ Ok Insertion.Placed) }
        ensures named { result ≡ Ok Insertion.Placed → is_dot_entry name.now ≡ false →
            IsNameable name.now }
        ensures keeps { is_dot_entry name.now ≡ false → IsNameable name.now →
            OnOk result ((names : List (List ℕ)) → KeepsFirstNames names self.old →
            KeepsFirstNames (names ++ name.now ∷ []) self.new) }
        ensures room { OnOk result (HoldsWithin self.old → HoldsWithin self.new) }
        ensures after { self.new.after ≡ self.old.after }
    {
        if is_dot_entry(name) {
            return Ok(Insertion::Placed);
        }
        if !is_nameable(name) {
            return Ok(Insertion::Unnamed);
        }
        self.hold(name)?;
        Ok(Insertion::Placed)
    }

    /// Inserts a name among those that are kept, if it belongs there.
    ///
    /// # Errors
    /// Out of memory.
    fn hold(&mut self, name: &[u8]) -> Result<(), AllocError>
        ensures keeps { OnOk result ((names : List (List ℕ)) → KeepsFirstNames names self.old →
            KeepsFirstNames (names ++ name.now ∷ []) self.new) }
        ensures room { OnOk result (HoldsWithin self.old → HoldsWithin self.new) }
        ensures after { self.new.after ≡ self.old.after }
    {
        self.make_room()?;
        if self.wants(name) {
            self.kept.push(name)?;
        }
        Ok(())
    }

    /// Drops the last names if there is no room for one more.
    ///
    /// # Errors
    /// Out of memory.
    fn make_room(&mut self) -> Result<(), AllocError>
        ensures keeps { OnOk result ((names : List (List ℕ)) → KeepsFirstNames names self.old →
            KeepsFirstNames names self.new) }
        ensures enough { OnOk result (HoldsWithin self.old → self.new.more ≡ true →
            IsEnough self.new.names) }
        ensures room { OnOk result (LeavesRoom self.new.held) }
        ensures after { self.new.after ≡ self.old.after }
    {
        if self.kept.is_full() {
            return self.end();
        }
        Ok(())
    }

    /// Returns `true` if a name belongs to those that are kept.
    fn wants(&self, name: &[u8]) -> bool
        ensures { result ≡ wants name.now self.now }
    {
        name.cmp(self.after.as_slice()) == Ordering::Greater
            && (!self.more || name.cmp(self.limit.as_slice()) == Ordering::Less)
    }

    /// Ends a pass: sorts the names that are kept.
    ///
    /// # Errors
    /// Out of memory.
    pub fn end(&mut self) -> Result<(), AllocError>
        ensures names { OnOk result (self.new.held ≡ self.new.names) }
        ensures keeps { OnOk result ((names : List (List ℕ)) → KeepsFirstNames names self.old →
            KeepsFirstNames names self.new) }
        ensures within { OnOk result (IsWithinKept self.new.held) }
        ensures enough { OnOk result (HoldsWithin self.old → self.new.more ≡ true →
            IsEnough self.new.names) }
        ensures after { self.new.after ≡ self.old.after }
    {
        settle(
            &mut self.kept,
            &mut self.spare,
            &mut self.limit,
            &mut self.more,
        )
    }

    /// Returns the names that are kept: sorted once the pass has ended.
    pub fn names(&self) -> &DirNames
        ensures { result.now ≡ self.now.held }
    {
        &self.kept
    }
}

/// Returns `true` if a name is `.` or `..`.
fn is_dot_entry(name: &[u8]) -> bool
    ensures { result ≡ is_dot_entry name.now }
{
    name == b".".as_slice() || name == b"..".as_slice()
}

/// Returns `true` if a name can be represented: it is UTF-8, of at most 255 bytes.
fn is_nameable(name: &[u8]) -> bool
    ensures nameable { result ≡ true → IsNameable name.now }
    ensures unnameable { result ≡ false → ¬ (IsNameable name.now) }
{
    str::from_utf8(name).is_ok() && name.len() <= ENTRY_NAME_BYTES
}

/// Sorts names, and drops the last ones if there are many: then the limit is the last that is kept.
///
/// # Errors
/// Out of memory.
fn settle(
    kept: &mut DirNames,
    spare: &mut DirNames,
    limit: &mut DirEntryName,
    more: &mut bool,
) -> Result<(), AllocError>
    ensures front { OnOk result ((all : List (List ℕ)) →
        IsFront limit.old.items more.old (in_order kept.old) all →
        IsFront limit.new.items more.new (in_order kept.new) all) }
    ensures order { OnOk result (in_order kept.new ≡ kept.new) }
    ensures settles { OnOk result (IsSettled more.old more.new (in_order kept.old) kept.new) }
{
    kept.sort();
    spare.clear();
    put_each_once(kept, spare)?;
    kept.clear();
    let is_whole = put_first(spare, kept)?;
    if !is_whole {
        *more = true;
        *limit = last_of(kept);
    }
    Ok(())
}

/// Appends sorted names without duplicates.
///
/// # Errors
/// Out of memory.
fn put_each_once(from: &DirNames, to: &mut DirNames) -> Result<(), AllocError>
    requires sorted { IsSorted order from.now }
    requires empty { to.old ≡ [] }
    ensures { OnOk result (to.new ≡ in_order from.now) }
{
    for i in 0..from.len() {
        if from.repeats(i) {
            continue;
        }
        let Some(name) = from.get(i) else {
            return Err(AllocError);
        };
        to.push(name)?;
    }
    Ok(())
}

/// Appends the first of some names, as many as are kept. Returns whether these are all.
///
/// # Errors
/// Out of memory.
fn put_first(from: &DirNames, to: &mut DirNames) -> Result<bool, AllocError>
    requires empty { to.old ≡ [] }
    ensures whole { result ≡ Ok true → to.new ≡ from.now }
    ensures front { result ≡ Ok false → (to.new ≡ take (length to.new) from.now)
        × (0 < length to.new) × (length to.new < length from.now) }
    ensures within { OnOk result (IsWithinKept to.new) }
    ensures enough { result ≡ Ok false → IsEnough to.new }
{
    for i in 0..from.len() {
        if to.is_enough() {
            return Ok(false);
        }
        let Some(name) = from.get(i) else {
            return Err(AllocError);
        };
        to.push(name)?;
    }
    Ok(true)
}

/// Returns the last of some names, or the empty name if there are none.
fn last_of(names: &DirNames) -> DirEntryName
    ensures { (most : ℕ) → length names.now ≡ suc most →
        result.items ≡ slice_index_or names.now most [] }
{
    let mut last = DirEntryName::new();
    if let Some(name) = names.get(names.len().saturating_sub(1)) {
        let _ = last.try_extend_from_slice(name);
    }
    last
}

/// Returns a copy of a name.
fn copied(name: &DirEntryName) -> DirEntryName
    ensures { result.items ≡ name.now.items }
{
    let mut copy = DirEntryName::new();
    let _ = copy.try_extend_from_slice(name);
    copy
}
