//! Sorted texts, among which a name is searched.
ghost use Rattle.std.specs.Prelude.{◌≡◌, bytes_eq};
ghost use Rattle.std.specs.List.{list_any};
ghost use Rattle.std.specs.List.Sorted.{IsPermutation};
ghost use Rattle.elf_model.specs.Choice.{most_bytes};
ghost use Rattle.elf_options.specs.Joins.{joined_text};
ghost use Rattle.elf_options.specs.Names.{NeverDescend, texts_of};

use crate::versioned_name::VersionedName;
use std::marker::Model;

/// Texts of the caller in ascending byte order. One may occur more than once.
#[derive(Drop)]
pub struct SortedStrings<'a> {
    texts: &'a [&'a [u8]],
}

impl<'a> Model for SortedStrings<'a> {
    ghost use Rattle.std.specs.Prelude.{List, ℕ};
    ghost use Rattle.elf_options.specs.Names.{NeverDescend, texts_of};

    ghost Value = { List (List ℕ) };

    ghost view = { λ s. texts_of s.texts.now };

    ghost invariant = { λ s. NeverDescend s.texts.now };
}

/// Sorts texts in ascending byte order.
pub fn sort_strings(texts: &mut [&[u8]])
    ensures same { IsPermutation (texts_of texts.old) (texts_of texts.new) }
    ensures sorted { NeverDescend texts.new }
{
    texts.sort_unstable();
}

impl<'a> SortedStrings<'a> {
    /// Creates a view of sorted texts, to search.
    pub fn new(texts: &'a [&'a [u8]]) -> SortedStrings<'a>
        requires { NeverDescend texts.now }
        ensures { result ≡ texts_of texts.now }
    {
        SortedStrings { texts }
    }

    /// Returns `true` if one of the texts has these bytes. It compares logarithmically many texts.
    pub fn has(&self, text: &[u8]) -> bool
        ensures { result ≡ list_any (bytes_eq text.now) self.now }
    {
        self.texts.binary_search(&text).is_ok()
    }

    /// Returns `true` if one of the texts is a name with its version.
    pub(crate) fn has_joined(&self, joined: &VersionedName<'_>) -> bool
        ensures { result ≡ list_any (bytes_eq (joined_text joined.now)) self.now }
    {
        self.texts
            .binary_search_by(|text| joined.compare(text))
            .is_ok()
    }

    /// Returns the length in bytes of the longest text.
    #[tactic(auto, unfolding(elf_model::specs::Choice::most_bytes))]
    pub fn longest(&self) -> usize
        ensures { result ≡ most_bytes self.now }
    {
        let mut most = 0;
        for text in self.texts {
            most = text.len().max(most);
        }
        most
    }
}
