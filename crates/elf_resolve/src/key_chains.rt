//! Lists of numbers by keys.
ghost use Rattle.std.specs.Prelude.{◌≡◌, ℕ, ◌+◌, ◌<◌, ◌≤◌, [], get_or, length, vec_capacity, IfOk};
ghost use Rattle.std.specs.Prelude.{slice_set};
ghost use Rattle.elf_resolve.specs.KeyChains.{AddsNumber, LIST_END, first_number, number_after, number_or_end};

use std::alloc::{AllocError, Global};
use std::marker::Model;

/// The end of a list.
const END: u32 = u32::MAX;

/// For each key a list of numbers, in memory that is allocated once, and used up to the largest key
/// and number.
#[derive(Drop)]
pub(crate) struct KeyChains {
    heads: Vec<u32>,
    nexts: Vec<u32>,
    keys: usize,
    numbers: usize,
}

impl Model for KeyChains {
    ghost use Rattle.std.specs.Prelude.{◌≤◌, vec_capacity};
    ghost use Rattle.elf_resolve.specs.KeyChains.{ChainTable};

    ghost Value = { ChainTable };

    ghost view = { λ t. record {
      heads = t.heads.items;
      nexts = t.nexts.items;
      keys = t.keys;
      numbers = t.numbers;
    } };

    ghost invariant = { λ t. (t.keys ≤ vec_capacity t.heads)
        × (t.numbers ≤ vec_capacity t.nexts) };
}

impl KeyChains {
    /// Creates empty lists for `keys` keys, of numbers below `numbers`.
    ///
    /// # Errors
    /// Out of memory.
    pub(crate) fn new(alloc: Global, keys: u32, numbers: usize) -> Result<KeyChains, AllocError>
        ensures { IfOk result
            (λ chains. chains ≡ record { heads = []; nexts = []; keys = keys; numbers = numbers }) }
    {
        let keys = keys as usize;
        Ok(KeyChains {
            heads: Vec::with_capacity(alloc, keys)?,
            nexts: Vec::with_capacity(alloc, numbers)?,
            keys,
            numbers,
        })
    }

    /// Adds a number to the list of a key, before the others.
    pub(crate) fn add(&mut self, key: u32, number: usize)
        ensures { AddsNumber self.old self.new key number }
    {
        let key = key as usize;
        if key >= self.keys || number >= self.numbers || number >= END as usize {
            return;
        }
        reach(&mut self.heads, key);
        reach(&mut self.nexts, number);
        let first = read(&self.heads, key);
        put(&mut self.nexts, number, first);
        put(&mut self.heads, key, number as u32);
    }

    /// Returns how many numbers a list can have.
    pub(crate) fn most(&self) -> usize
        ensures { result ≡ self.now.numbers }
    {
        self.numbers
    }

    /// Returns the first number of a key.
    pub(crate) fn first(&self, key: u32) -> Option<usize>
        ensures { result ≡ first_number self.now key }
    {
        shown(read(&self.heads, key as usize))
    }

    /// Returns the number after one in its list.
    pub(crate) fn after(&self, number: usize) -> Option<usize>
        ensures { result ≡ number_after self.now number }
    {
        shown(read(&self.nexts, number))
    }
}

/// Adds ends, so that there is an element of an index.
fn reach(elements: &mut Vec<u32>, index: usize)
    requires { index < vec_capacity elements.old }
    ensures same { (k : ℕ) → get_or elements.new.items k LIST_END
        ≡ get_or elements.old.items k LIST_END }
    ensures there { index < length elements.new.items }
    ensures capacity { vec_capacity elements.old ≤ vec_capacity elements.new }
{
    if index >= elements.len() {
        let _ = elements.resize(index + 1, END);
    }
}

/// Sets an element, if there is one of an index.
fn put(elements: &mut Vec<u32>, index: usize, number: u32)
    ensures items { elements.new.items ≡ slice_set elements.old.items index number }
    ensures capacity { vec_capacity elements.old ≤ vec_capacity elements.new }
{
    if index < elements.len() {
        elements[index] = number;
    }
}

/// Returns an element, or an end if there is none of an index.
fn read(elements: &[u32], index: usize) -> u32
    ensures { result ≡ get_or elements.now index LIST_END }
{
    match elements.get(index) {
        Some(number) => *number,
        None => END,
    }
}

/// Returns a number of a list, unless it is the end.
fn shown(number: u32) -> Option<usize>
    ensures { result ≡ number_or_end number }
{
    if number == END {
        return None;
    }
    Some(number as usize)
}
