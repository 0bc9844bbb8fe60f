//! The paths that are tried in a list of directories.
ghost use Rattle.std.specs.Prelude.{◌≡◌, ◌<◌, ◌≤◌, ◌∷◌, [], true, false};
ghost use Rattle.elf_needs.specs.Searching.{dir_paths};
ghost use Rattle.elf_needs.specs.Steps.{dirs_of};

use crate::path_budget::PathBudget;
use crate::path_elements::first_entry;
use crate::paths::{CandidatePath, put_entry};
use crate::search_path_list::SearchPathList;
use std::marker::Model;

/// The paths of a name in a list of directories that were not tried yet.
#[derive(Drop)]
pub struct CandidatePaths<'a> {
    root: &'a [u8],
    name: &'a [u8],
    origin: Option<&'a [u8]>,
    /// What separates directories besides a colon.
    separator: u8,
    /// What is left of the list.
    left: Option<&'a [u8]>,
}

impl<'a> Model for CandidatePaths<'a> {
    ghost use Rattle.std.specs.Prelude.{List, ℕ};
    ghost use Rattle.elf_needs.specs.Searching.{entry_paths};
    ghost use Rattle.elf_needs.specs.Steps.{left_entries, origin_of};

    ghost Value = { List (List ℕ) };

    ghost view = { λ t. entry_paths t.root.now t.name.now (origin_of t.origin)
        (left_entries t.separator t.left) };
}

impl<'a> CandidatePaths<'a> {
    /// Creates the paths of a name in a list of directories, below a root, which precedes each
    /// directory that begins with a slash.
    #[tactic(auto, unfolding(crate::specs::Searching::entries_of, crate::specs::Searching::entry_paths))]
    pub fn new(root: &'a [u8], name: &'a [u8], list: SearchPathList<'a>) -> CandidatePaths<'a>
        ensures { result ≡ dir_paths root.now name.now (dirs_of list.entry) }
    {
        let left = if list.text.is_empty() {
            None
        } else {
            Some(list.text)
        };
        CandidatePaths {
            root,
            name,
            origin: list.origin,
            separator: list.separator,
            left,
        }
    }

    /// Returns no path of a name.
    #[tactic(auto, unfolding(crate::specs::Searching::entry_paths))]
    pub(crate) fn none(root: &'a [u8], name: &'a [u8]) -> CandidatePaths<'a>
        ensures { result ≡ [] }
    {
        CandidatePaths {
            root,
            name,
            origin: None,
            separator: b':',
            left: None,
        }
    }

    /// Composes the next path. Returns whether there is one that may be tried; otherwise the
    /// contents of the path are unspecified. Each directory counts as a try, also if it gives no
    /// path.
    pub(crate) fn next(&mut self, path: &mut CandidatePath, tries: &mut PathBudget) -> bool
        ensures next { result ≡ true → self.old ≡ path.new.items ∷ self.new }
        ensures none { result ≡ false → tries.new.is_over ≡ false → self.old ≡ [] }
        ensures counted { result ≡ true → tries.new.left < tries.old.left }
        ensures few { tries.new.left ≤ tries.old.left }
    {
        while let Some(text) = self.left {
            if !tries.take() {
                return false;
            }
            let entry = first_entry(text, self.separator);
            self.left = entry.after;
            if put_entry(path, self.root, self.name, entry.text, self.origin) {
                return true;
            }
        }
        false
    }
}
