//! A set of version indices.
ghost use Rattle.std.specs.Prelude.{◌≡◌, ℕ, ◌<◌, ◌==◌, ◌||◌, false, true, MatchBool};
ghost use Rattle.elf_loader.specs.NumberSets.{has_number};
ghost use Rattle.elf_model.specs.Versions.{VERSION_NUMBERS};

use elf_record::VERSION_NUMBERS;
use std::marker::Model;

/// The number of words of 64 bits that hold a bit for each.
const WORDS: usize = 16;

/// A set of version indices, each below 1,024: a bit for each.
#[derive(Drop)]
pub struct VersionIndexSet {
    words: [u64; WORDS],
}

impl Model for VersionIndexSet {
    ghost use Rattle.std.specs.Prelude.{◌≡◌, ℕ, List, length};

    ghost Value = { List ℕ };

    ghost view = { λ s. s.words };

    ghost invariant = { λ s. length s.words ≡ 16 };
}

impl VersionIndexSet {
    /// Creates an empty set.
    pub fn new() -> VersionIndexSet
        ensures { (number : ℕ) → has_number result number ≡ false }
    {
        VersionIndexSet { words: [0; WORDS] }
    }

    /// Returns `true` if a version index is in the set.
    pub fn contains(&self, number: u16) -> bool
        ensures { result ≡ has_number self.now number }
    {
        number < VERSION_NUMBERS && self.words[usize::from(number / 64)] >> (number % 64) & 1 == 1
    }

    /// Returns `true` if the set is empty.
    pub fn is_empty(&self) -> bool
        ensures { MatchBool result ((number : ℕ) → has_number self.now number ≡ false)
            ((number : ℕ) × (has_number self.now number ≡ true)) }
    {
        let _ = &self.words;
        for number in 0..VERSION_NUMBERS {
            if self.contains(number) {
                return false;
            }
        }
        true
    }

    /// Inserts a version index below 1,024 into the set.
    pub(crate) fn insert(&mut self, number: u16)
        requires { number < VERSION_NUMBERS }
        ensures { (other : ℕ) → has_number self.new other
            ≡ (number == other || has_number self.old other) }
    {
        self.words[usize::from(number / 64)] |= 1 << (number % 64);
    }
}
