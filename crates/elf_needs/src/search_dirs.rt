//! The search for a library.
ghost use Rattle.std.specs.Prelude.{◌≡◌, ◌≤◌, length};
ghost use Rattle.elf_needs.specs.Called.{above_of};
ghost use Rattle.elf_library.specs.Prelude.{AsksFound};

use crate::known_object::{KnownObject, MOST_OBJECTS, ObjectList};
use crate::library_search::LibrarySearch;
use crate::needers::{NeedingObject, SearchPaths, gather_dirs};
use crate::path_budget::PathBudget;
use crate::paths::{CandidatePath, named_path};
use crate::search_path_list::SearchPathList;
use crate::system_dirs::is_below_default;
use elf_format::FoundBy;
use elf_library::{FileSource, NeedsFault, ObjectFile, SearchEnd, SystemFiles, candidate};
use elf_table::{Fault, NameBuf};
use memchr::memchr;
use std::os::unix::fs::FileExt;
use std::rt::Files;

/// The directories given on a command line, each a list separated by colons, and the root that
/// precedes each directory that begins with a slash.
#[derive(Clone, Copy)]
pub struct SearchDirs<'a> {
    /// Those that come before an object's DT_RUNPATH; semicolons separate them too.
    pub library: &'a [u8],
    /// Those that come last.
    pub default: &'a [u8],
    /// The other root.
    pub root: &'a [u8],
}

/// A search for a library of a machine: its parameters, and what is left of the budget.
#[derive(Drop)]
pub(crate) struct Search<'s> {
    /// The given directories.
    pub directories: SearchDirs<'s>,
    /// The machine.
    pub machine: u16,
    /// The path that is tried.
    pub path: CandidatePath,
    /// How what is at that path was found.
    pub found_by: FoundBy,
    /// What is left of the budget, if there is one.
    pub left: Option<u64>,
    /// How many paths may still be tried.
    pub tries: PathBudget,
}

impl Search<'_> {
    /// Searches for the library with a name that an object needs. If it is found, its path is in
    /// the search's, and how it was found; none is found if one more path would be tried than may be. It is not inlined:
    /// the stack of its caller would hold its lists while a file is read.
    ///
    /// # Errors
    /// Why the search ended: a file on a path is refused, a path cannot be opened for a fault of the
    /// system, a read of the cache failed, or the budget has no room for what is read of it.
    #[inline(never)]
    pub(crate) fn find<R: Files>(
        &mut self,
        system: &mut SystemFiles<'_, R, FileSource<R::File>>,
        objects: &ObjectList,
        needer: &KnownObject,
        name: &[u8],
    ) -> Result<Option<ObjectFile<FileSource<R::File>>>, SearchEnd>
    where
        R::File: FileExt,
        ensures asks { AsksFound self.old.left self.new.left
            system.old.closed.asked system.new.closed.asked result }
        ensures few { self.new.tries.left ≤ self.old.tries.left }
    {
        if memchr(b'/', name).is_some() {
            self.found_by = FoundBy::Path;
            return self.try_path(system, name);
        }
        let mut lists = no_lists();
        gather(objects, needer, &self.directories, &mut lists);
        self.find_in(system, needer, name, &lists)
    }

    /// Searches for the library with a name in lists of directories, and before the last of them in
    /// the loader's cache.
    ///
    /// # Errors
    /// Those of [`Search::find`].
    fn find_in<R: Files>(
        &mut self,
        system: &mut SystemFiles<'_, R, FileSource<R::File>>,
        needer: &KnownObject,
        name: &[u8],
        lists: &[SearchPathList<'_>],
    ) -> Result<Option<ObjectFile<FileSource<R::File>>>, SearchEnd>
    where
        R::File: FileExt,
        ensures asks { AsksFound self.old.left self.new.left
            system.old.closed.asked system.new.closed.asked result }
        ensures few { self.new.tries.left ≤ self.old.tries.left }
    {
        let root = self.directories.root;
        let last = lists.len().saturating_sub(1);
        let first = LibrarySearch::new(root, name, &lists[..last]);
        if let Some(found) = self.try_all(system, first)? {
            return Ok(Some(found));
        }
        if self.tries.is_over {
            return Ok(None);
        }
        if let Some(found) = self.try_cache(system, needer, name)? {
            return Ok(Some(found));
        }
        self.try_all(system, LibrarySearch::new(root, name, &lists[last..]))
    }

    /// Tries the path that the loader's cache has for the name of a library that an object needs, if
    /// there is a cache. A path below a default directory is not tried if the object's needs are not
    /// searched for there.
    ///
    /// # Errors
    /// Those of [`Search::find`].
    #[inline(never)]
    fn try_cache<R: Files>(
        &mut self,
        system: &mut SystemFiles<'_, R, FileSource<R::File>>,
        needer: &KnownObject,
        name: &[u8],
    ) -> Result<Option<ObjectFile<FileSource<R::File>>>, SearchEnd>
    where
        R::File: FileExt,
        ensures asks { AsksFound self.old.left self.new.left
            system.old.closed.asked system.new.closed.asked result }
        ensures few { self.new.tries.left ≤ self.old.tries.left }
    {
        let mut path = NameBuf::new();
        match system.path_in_cache(&mut self.left, name, &mut path) {
            Ok(true)
                if needer.links.has_nodeflib()
                    && is_below_default(self.directories.default, path.bytes()) => { Ok(None) }
            Ok(true) => {
                self.found_by = FoundBy::Cache;
                self.try_path(system, path.bytes())
            }
            Ok(false) => Ok(None),
            Err(Fault::Refused(refusal)) => Err(SearchEnd::Unread(refusal)),
            Err(Fault::Source { .. }) => Err(SearchEnd::Failed(NeedsFault::Read)),
        }
    }

    /// Tries a path, below the root if it begins with a slash.
    ///
    /// # Errors
    /// A read failed, or the path cannot be opened for a fault of the system.
    fn try_path<R: Files>(
        &mut self,
        system: &mut SystemFiles<'_, R, FileSource<R::File>>,
        path: &[u8],
    ) -> Result<Option<ObjectFile<FileSource<R::File>>>, SearchEnd>
    where
        R::File: FileExt,
        ensures asks { AsksFound self.old.left self.new.left
            system.old.closed.asked system.new.closed.asked result }
        ensures few { self.new.tries.left ≤ self.old.tries.left }
    {
        if !self.tries.take() {
            return Ok(None);
        }
        if !named_path(&mut self.path, self.directories.root, path) {
            return Ok(None);
        }
        self.try_candidate(system)
    }

    /// Tries the path that is composed.
    ///
    /// # Errors
    /// A read failed, or the path cannot be opened for a fault of the system.
    fn try_candidate<R: Files>(
        &mut self,
        system: &mut SystemFiles<'_, R, FileSource<R::File>>,
    ) -> Result<Option<ObjectFile<FileSource<R::File>>>, SearchEnd>
    where
        R::File: FileExt,
        ensures asks { AsksFound self.old.left self.new.left
            system.old.closed.asked system.new.closed.asked result }
        ensures same { self.new.tries ≡ self.old.tries }
    {
        candidate(system, &self.path, self.machine, &mut self.left)
    }

    /// Tries paths, one after another.
    ///
    /// # Errors
    /// Those of [`Search::find`].
    fn try_all<R: Files>(
        &mut self,
        system: &mut SystemFiles<'_, R, FileSource<R::File>>,
        search: LibrarySearch<'_>,
    ) -> Result<Option<ObjectFile<FileSource<R::File>>>, SearchEnd>
    where
        R::File: FileExt,
        ensures asks { AsksFound self.old.left self.new.left
            system.old.closed.asked system.new.closed.asked result }
        ensures few { self.new.tries.left ≤ self.old.tries.left }
    {
        let mut search = search;
        while search.next(&mut self.path, &mut self.tries) {
            self.found_by = search.found_by();
            if let Some(found) = self.try_candidate(system)? {
                return Ok(Some(found));
            }
        }
        Ok(None)
    }
}

/// Returns empty lists of directories. It is not inlined: the stack of its caller would hold them
/// three times.
#[inline(never)]
fn no_lists<'a>() -> SearchPaths<'a> {
    SearchPaths::new()
}

/// Appends the lists of the directories in which a library is searched that an object needs. It is
/// not inlined: the stack of its caller would hold the objects above while paths are tried.
#[inline(never)]
fn gather<'a>(
    objects: &'a ObjectList,
    needer: &KnownObject,
    directories: &SearchDirs<'a>,
    lists: &mut SearchPaths<'a>,
) {
    let mut chain = [NeedingObject::default(); MOST_OBJECTS];
    let count = put_chain(objects, needer, &mut chain);
    let library = SearchPathList {
        text: directories.library,
        separator: b';',
        origin: Some(objects.program_directory()),
        found_by: FoundBy::LibraryPath,
    };
    gather_dirs(&chain[..count], library, directories.default, lists);
}

/// Copies an object, the one that first needed it, and so on up to the program, up to the capacity,
/// to the start of others. Returns how many.
fn put_chain<'a>(
    objects: &'a ObjectList,
    known: &KnownObject,
    chain: &mut [NeedingObject<'a>],
) -> usize
    ensures { result ≤ length chain.new }
{
    let mut known = *known;
    for place in 0..chain.len() {
        chain[place] = NeedingObject {
            rpath: objects.text(known.links.rpath),
            runpath: objects.text(known.links.runpath),
            directory: objects.directory(&known),
            nodeflib: known.links.has_nodeflib(),
        };
        let Some(above) = above(objects, &known) else {
            return place + 1;
        };
        known = above;
    }
    chain.len()
}

/// Returns the object that first needed another, if there is one.
fn above(objects: &ObjectList, known: &KnownObject) -> Option<KnownObject>
    ensures { result ≡ above_of objects.now known.now }
{
    match known.needer {
        Some(needer) => objects.get(usize::from(needer)),
        None => None,
    }
}
