//! The paths that are tried in all directories.
ghost use Rattle.std.specs.Prelude.{◌≡◌, ◌<◌, ◌≤◌, ◌∷◌, [], true, false};
ghost use Rattle.elf_needs.specs.Searching.{searched_paths};
ghost use Rattle.elf_needs.specs.Steps.{dirs_in};

use crate::path_budget::PathBudget;
use crate::paths::CandidatePath;
use crate::search_path_list::SearchPathList;
use crate::tries::CandidatePaths;
use elf_format::FoundBy;
use std::marker::Model;

/// The paths of a name in lists of directories that were not tried yet.
#[derive(Drop)]
pub struct LibrarySearch<'a> {
    root: &'a [u8],
    name: &'a [u8],
    lists: &'a [SearchPathList<'a>],
    /// The index of the next list.
    at: usize,
    /// What is left of the one before it.
    tries: CandidatePaths<'a>,
}

impl<'a> Model for LibrarySearch<'a> {
    ghost use Rattle.std.specs.Prelude.{List, ℕ, ◌++◌, drop};
    ghost use Rattle.elf_needs.specs.Searching.{searched_paths};
    ghost use Rattle.elf_needs.specs.Steps.{dirs_in};

    ghost Value = { List (List ℕ) };

    ghost view = { λ s. s.tries
        ++ searched_paths s.root.now s.name.now (dirs_in (drop s.at s.lists.now)) };
}

impl<'a> LibrarySearch<'a> {
    /// Creates the paths of a name in lists of directories, below a root, which precedes each
    /// directory that begins with a slash.
    pub fn new(root: &'a [u8], name: &'a [u8], lists: &'a [SearchPathList<'a>]) -> LibrarySearch<'a>
        ensures { result ≡ searched_paths root.now name.now (dirs_in lists.now) }
    {
        LibrarySearch {
            root,
            name,
            lists,
            at: 0,
            tries: CandidatePaths::none(root, name),
        }
    }

    /// Composes the next path. Returns whether there is one that may be tried; otherwise the
    /// contents of the path are unspecified.
    pub(crate) fn next(&mut self, path: &mut CandidatePath, tries: &mut PathBudget) -> bool
        ensures next { result ≡ true → self.old ≡ path.new.items ∷ self.new }
        ensures none { result ≡ false → tries.new.is_over ≡ false → self.old ≡ [] }
        ensures counted { result ≡ true → tries.new.left < tries.old.left }
        ensures few { tries.new.left ≤ tries.old.left }
    {
        while !self.tries.next(path, tries) {
            if tries.is_over {
                return false;
            }
            if self.at >= self.lists.len() {
                return false;
            }
            self.tries = CandidatePaths::new(self.root, self.name, self.lists[self.at]);
            self.at += 1;
        }
        true
    }

    /// Returns how a library at the path that was composed last is found: by the list that the path
    /// is from.
    pub(crate) fn found_by(&self) -> FoundBy {
        match self.at {
            0 => FoundBy::Default,
            next => match self.lists.get(next - 1) {
                Some(list) => list.found_by,
                None => FoundBy::Default,
            },
        }
    }
}
