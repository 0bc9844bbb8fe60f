//! A loader's cache in which libraries are searched.
ghost use Rattle.std.specs.Prelude.{◌≡◌, ℕ, List, Some};
ghost use Rattle.elf_library.specs.Prelude.{ReturnsCacheText};
ghost use Rattle.elf_model.specs.Prelude.{path_in_cache};
ghost use Rattle.elf_library.specs.Budget.{AsksClosed};
ghost use Rattle.elf_library.specs.Caches.{PaysCache};

use crate::cache_search::read_path_in_cache;
use crate::candidates::{FileSource, SearchEnd};
use crate::needs_fault::NeedsFault;
use crate::system_files::{ClosedFiles, opened_at};
use elf_source::{Counted, Limited, Source};
use elf_table::{Fault, NameBuf};
use std::marker::Model;
use std::os::unix::fs::FileExt;
use std::rt::Files;

/// A loader's cache: a file with the paths of libraries, by their names (glibc, `elf/dl-cache.c`).
#[derive(Drop)]
pub struct LibraryCache<S: Source + Drop> {
    source: Counted<S>,
}

impl<S: Source + Drop> Model for LibraryCache<S> {
    ghost use Rattle.elf_source.specs.Source.{CountedState};

    ghost Value = { CountedState };

    ghost view = { λ c. c.source };
}

impl<S: Source + Drop> LibraryCache<S> {
    /// Creates a cache of a file of which nothing was read yet.
    pub fn new(source: S) -> LibraryCache<S> {
        LibraryCache {
            source: Counted::new(source),
        }
    }

    /// Reads the path of a name into `path`. Returns `false` if there is none, or if the file is no
    /// cache; then, and after a fault, the contents of `path` are unspecified. Requests at most the
    /// bytes left of the budget, if there is one; those requested are subtracted, and added to what
    /// was requested from the files that are closed.
    ///
    /// # Errors
    /// Returns a fault of a read, or the refusal `Budget`.
    pub(crate) fn path(
        &mut self,
        left: &mut Option<u64>,
        closed: &mut ClosedFiles,
        name: &[u8],
        path: &mut NameBuf,
    ) -> Result<bool, Fault>
        ensures asks { AsksClosed 0 left.old left.new closed.old.asked closed.new.asked }
        ensures pays { PaysCache self.old self.new left.old left.new
            closed.old.asked closed.new.asked }
        ensures known { (file : List ℕ) → self.old.seen.file ≡ Some file →
            ReturnsCacheText (path_in_cache file name.now) path.new result }
    {
        let before = self.source.asked();
        let found = self
            .source
            .charge(left, &mut |src| { read_path_in_cache(src, name, path) });
        closed.add(self.source.asked() - before);
        found
    }
}

/// Opens the cache at a path, if it is a regular file that can be opened.
///
/// # Errors
/// It cannot be opened for a fault of the system, or its length cannot be determined.
pub fn cache_at<R: Files>(
    rt: &R,
    path: &[u8],
) -> Result<Option<LibraryCache<FileSource<R::File>>>, NeedsFault>
where
    R::File: FileExt,
{
    match opened_at(rt, path) {
        Ok(Some(file)) => Ok(Some(file.into_cache())),
        Ok(None) | Err(SearchEnd::Refused(_) | SearchEnd::Unread(_)) => Ok(None),
        Err(SearchEnd::Failed(fault)) => Err(fault),
    }
}
