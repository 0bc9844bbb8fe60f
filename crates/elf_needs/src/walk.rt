//! The objects of a program, in a loader's order.
ghost use Rattle.std.specs.Prelude.{◌≡◌};
ghost use Rattle.elf_needs.specs.Budget.{AsksFiles};
ghost use Rattle.elf_needs.specs.Called.{HoldsNothing};

use crate::buffers::NeedsBuffers;
use crate::known_object::{MOST_OBJECTS, ObjectList};
use crate::line_options::LineOptions;
use crate::open_objects::OpenObjects;
use crate::path_budget::PathBudget;
use crate::paths::CandidatePath;
use crate::search_dirs::{Search, SearchDirs};
use crate::walk_needs::ControlFlow;
use elf_format::{FoundBy, show_too_many, show_too_many_paths};
use elf_library::{FileSource, NeedsFault, ObjectFile, SystemFiles};
use elf_source::{CachedSource, Out, Sink};
use elf_table::HeaderStore;
use std::os::unix::fs::FileExt;
use std::rt::Files;

/// Objects whose files are kept open, files of the system.
pub type OpenFiles<F> = OpenObjects<CachedFile<F>>;

/// The source of a file of the system that is kept open, with some of its pages.
type CachedFile<F> = CachedSource<FileSource<F>>;

/// The parameters of a walk.
#[derive(Clone, Copy)]
pub struct NeedsOptions<'a> {
    /// The given directories.
    pub directories: SearchDirs<'a>,
    /// How many bytes may be read, of all files together, if limited.
    pub budget: Option<u64>,
    /// How many paths may be tried.
    pub tries: u64,
    /// Which lines are written, and how.
    pub lines: LineOptions,
}

/// The result of listing objects, or the versions that they need.
#[derive(Clone, Copy)]
pub struct Listed {
    /// The exit status.
    pub status: u8,
    /// Whether all are listed: otherwise there are more than 512 objects, or more paths to try than
    /// may be tried, or for versions the budget is exhausted, which ends the listing.
    pub whole: bool,
}

/// A walk over the objects of a program: what it uses for each, and the results so far.
#[derive(Drop)]
pub struct DependencyWalk<'w, 's, W: Sink> {
    pub(crate) search: Search<'s>,
    pub(crate) objects: ObjectList,
    pub(crate) store: HeaderStore<'w>,
    pub(crate) lines: LineOptions,
    pub(crate) out: Out<W>,
    pub(crate) status: u8,
}

impl<'w, 's, W: Sink> DependencyWalk<'w, 's, W> {
    /// Creates a walk with no object yet. Headers are loaded into the store, and lines are written
    /// to `out`.
    pub fn new(
        settings: &NeedsOptions<'s>,
        store: HeaderStore<'w>,
        room: NeedsBuffers,
        out: Out<W>,
    ) -> DependencyWalk<'w, 's, W>
        ensures budget { result.search.left ≡ settings.now.budget }
        ensures lines { result.lines ≡ settings.now.lines }
        ensures fresh { result.status ≡ 0 }
        ensures out { result.out ≡ out }
    {
        let NeedsBuffers { objects } = room;
        DependencyWalk {
            search: Search {
                directories: settings.directories,
                machine: 0,
                path: CandidatePath::new(),
                found_by: FoundBy::Path,
                left: settings.budget,
                tries: PathBudget::new(settings.tries),
            },
            objects,
            store,
            lines: settings.lines,
            out,
            status: 0,
        }
    }

    /// Returns the output.
    pub fn into_out(self) -> Out<W>
        ensures { result ≡ self.entry.out }
    {
        let DependencyWalk { out, .. } = self;
        out
    }
}

impl<W: Sink + Drop> DependencyWalk<'_, '_, W> {
    /// Returns its memory, in which nothing is left, for the walk over another program's objects.
    pub fn into_room(self) -> NeedsBuffers
        ensures { HoldsNothing result.objects }
    {
        let DependencyWalk { objects, .. } = self;
        let mut room = NeedsBuffers { objects };
        room.clear();
        room
    }
}

impl<W: Sink> DependencyWalk<'_, '_, W> {
    /// Lists the objects that a program needs, in a loader's order: the program, then for each
    /// object in order each library that it needs and that is not one of those before.
    ///
    /// When all are found, a line for each, or if only problems are written for each that is missing
    /// or refused, and then one for the interpreter that the program names. Returns the exit status, 1 if one is missing or refused, or there are more
    /// than 512, or more paths to try than may be tried, and whether all are listed. Requests at
    /// most the budget, if there is one, from all files together. `path` is the program's as it is
    /// shown, and the directory of `real` replaces `$ORIGIN`. The files of those that are found are
    /// kept open, as far as there is room for them.
    ///
    /// # Errors
    /// A read or the output failed, or a path cannot be opened for a fault of the system.
    pub fn list<R: Files>(
        &mut self,
        system: &mut SystemFiles<'_, R, FileSource<R::File>>,
        file: ObjectFile<FileSource<R::File>>,
        path: &[u8],
        real: &[u8],
        opened: &mut OpenFiles<R::File>,
    ) -> Result<Listed, NeedsFault>
    where
        R::File: FileExt,
        ensures asks { AsksFiles file.asked opened.old.objects.items opened.new.objects.items
            self.old.search.left self.new.search.left
            system.old.closed.asked system.new.closed.asked }
    {
        let found = self.find(system, file, real, opened);
        self.show_objects(path)?;
        self.end_objects(found?)
    }

    /// Finds the objects that a program needs, in a loader's order, as [`DependencyWalk::list`]
    /// lists them, and its interpreter. Returns whether all are found.
    ///
    /// # Errors
    /// A read failed, or a path cannot be opened for a fault of the system.
    fn find<R: Files>(
        &mut self,
        system: &mut SystemFiles<'_, R, FileSource<R::File>>,
        file: ObjectFile<FileSource<R::File>>,
        real: &[u8],
        opened: &mut OpenFiles<R::File>,
    ) -> Result<ControlFlow, NeedsFault>
    where
        R::File: FileExt,
        ensures asks { AsksFiles file.asked opened.old.objects.items opened.new.objects.items
            self.old.search.left self.new.search.left
            system.old.closed.asked system.new.closed.asked }
    {
        self.program(file, real, opened, &mut system.closed)?;
        self.find_interpreter(system)?;
        for index in 0..MOST_OBJECTS {
            let Some(known) = self.objects.get(index) else {
                break;
            };
            let flow = self.needs_of(system, index, &known, opened)?;
            if flow != ControlFlow::Yes {
                return Ok(flow);
            }
        }
        Ok(ControlFlow::Yes)
    }

    /// Writes what follows the lines of the objects: the line of the interpreter, or the one that
    /// ends the objects if there are too many, or too many paths to try. Returns the result of
    /// listing.
    ///
    /// # Errors
    /// The output failed.
    fn end_objects(&mut self, flow: ControlFlow) -> Result<Listed, NeedsFault>
        ensures left { self.new.search.left ≡ self.old.search.left }
    {
        let format = self.lines.format;
        let shown = match flow {
            ControlFlow::Yes => {
                self.end_interpreter()?;
                return Ok(self.listed(true));
            }
            ControlFlow::TooManyObjects(at) => show_too_many(at, format, &mut self.out),
            ControlFlow::TooManyPaths(at) => show_too_many_paths(at, format, &mut self.out),
        };
        self.status = 1;
        match shown {
            Ok(()) => Ok(self.listed(false)),
            Err(fault) => Err(NeedsFault::Out(fault)),
        }
    }

    /// Returns the result of listing so far, of all objects or not.
    pub(crate) fn listed(&self, whole: bool) -> Listed
        ensures { result ≡ record { status = self.now.status; whole = whole } }
    {
        Listed {
            status: self.status,
            whole,
        }
    }
}
