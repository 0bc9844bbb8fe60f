//! Pending names, the last one first.
ghost use Rattle.std.specs.Prelude.{◌≡◌, ◌≤◌, ◌<◌, All, List, ℕ, IfOk, IsSomeAnd, OnOk, [], take, length};
ghost use Rattle.elf_walk.specs.Stacked.{pushed, stacked};

use crate::batch::DirEntryName;
use crate::dir_names::DirNames;
use std::alloc::{AllocError, Global};
use std::marker::Model;

/// The maximum total size of pending names, each with one more byte.
pub const STACK_BYTES: usize = 2_097_152;

/// A stack of pending names, in memory that is allocated once: each with its length after it, so
/// that the last one is found.
#[derive(Drop)]
pub struct NameStack {
    bytes: Vec<u8>,
}

impl Model for NameStack {
    ghost use Rattle.std.specs.Prelude.{ℕ, List};

    ghost Value = { List ℕ };

    ghost view = { λ s. s.bytes.items };
}

impl NameStack {
    /// Creates an empty stack. Allocates its memory from `alloc`.
    ///
    /// # Errors
    /// Out of memory.
    pub fn new(alloc: Global) -> Result<NameStack, AllocError>
        ensures { IfOk result (λ stack. stack ≡ []) }
    {
        Ok(NameStack {
            bytes: Vec::with_capacity(alloc, STACK_BYTES)?,
        })
    }

    /// Removes all names.
    pub fn clear(&mut self)
        ensures { self.new ≡ [] }
    {
        self.bytes.clear();
    }

    /// Removes the names after `len` bytes.
    pub fn truncate(&mut self, len: usize)
        ensures { self.new ≡ take len self.old }
    {
        self.bytes.truncate(len);
    }

    /// Returns the size of the names in bytes.
    pub fn len(&self) -> usize
        ensures { result ≡ length self.now }
    {
        self.bytes.len()
    }

    /// Pushes a name.
    ///
    /// # Errors
    /// Out of memory, or the name has more than 255 bytes; the names before are unchanged.
    fn push(&mut self, name: &[u8]) -> Result<(), AllocError>
        ensures pushed { OnOk result (self.new ≡ pushed self.old name.now) }
        ensures short { OnOk result (length name.now ≤ 255) }
        ensures stays { take (length self.old) self.new ≡ self.old }
    {
        let Ok(len) = u8::try_from(name.len()) else {
            return Err(AllocError);
        };
        self.bytes.extend_from_slice(name)?;
        if self.bytes.push(len).is_err() {
            return Err(AllocError);
        }
        Ok(())
    }

    /// Pushes the first `count` of some names, so that the first of all is the last one here.
    ///
    /// # Errors
    /// Out of memory; the names before are unchanged.
    pub fn push_first(&mut self, names: &DirNames, count: usize) -> Result<(), AllocError>
        requires { count ≤ length names.now }
        ensures stacked { OnOk result (self.new ≡ stacked (take count names.now) self.old) }
        ensures short { OnOk result (All (λ name. length name ≤ 255) (take count names.now)) }
        ensures stays { take (length self.old) self.new ≡ self.old }
    {
        let mut left = count;
        while left > 0 {
            left -= 1;
            let Some(name) = names.get(left) else {
                return Err(AllocError);
            };
            self.push(name)?;
        }
        Ok(())
    }

    /// Pops the last name.
    pub fn pop(&mut self) -> Option<DirEntryName>
        ensures { (below name : List ℕ) → self.old ≡ pushed below name → length name ≤ 255 →
            IsSomeAnd result (λ last. last.items ≡ name) × (self.new ≡ below) }
    {
        let Some(last) = self.bytes.len().checked_sub(1) else {
            return None;
        };
        let len = usize::from(self.bytes[last]);
        let Some(start) = last.checked_sub(len) else {
            return None;
        };
        let mut name = DirEntryName::new();
        let _ = name.try_extend_from_slice(&self.bytes[start..last]);
        self.bytes.truncate(start);
        Some(name)
    }
}

/// Returns how many of the first of some names fit the given number of bytes, at least one.
pub fn count_fitting(names: &DirNames, room: usize) -> usize
    ensures within { result ≤ length names.now }
    ensures some { 0 < length names.now → 0 < result }
{
    let mut taken: usize = 0;
    for i in 0..names.len() {
        let Some(name) = names.get(i) else {
            return i;
        };
        taken = taken.saturating_add(name.len() + 1);
        if taken > room && i > 0 {
            return i;
        }
    }
    names.len()
}
