//! The libraries that an object needs.
ghost use Rattle.std.specs.Prelude.{◌≡◌};
ghost use Rattle.elf_needs.specs.Budget.{AsksFiles};

use crate::known_object::{KnownObject, MOST_OBJECTS};
use crate::object_reports::{NOWHERE, ObjectPlace, found_identity, report_alone};
use crate::open_objects::OpenObjects;
use crate::walk::{DependencyWalk, OpenFiles};
use elf_format::{FoundBy, ObjectState};
use elf_library::{
    ClosedFiles, FileSource, NeededLibrary, NeedsFault, ObjectFile, ObjectRole, SearchEnd,
    SystemFiles,
};
use elf_record::{Cause, Refusal};
use elf_source::{CachedSource, Sink, Source};
use memchr::memchr;
use std::os::unix::fs::FileExt;
use std::rt::Files;

/// Whether a walk goes on.
#[derive(Clone, Copy, PartialEq, Eq)]
pub(crate) enum ControlFlow {
    /// It does.
    Yes,
    /// There are more objects than are listed: the file offset of the dynamic entry that needs one
    /// more.
    TooManyObjects(u64),
    /// There are more paths to try than may be: the file offset of the dynamic entry whose library
    /// is searched for.
    TooManyPaths(u64),
}

impl<W: Sink> DependencyWalk<'_, '_, W> {
    /// Processes what an object needs.
    pub(crate) fn needs_of<R: Files>(
        &mut self,
        system: &mut SystemFiles<'_, R, FileSource<R::File>>,
        index: usize,
        known: &KnownObject,
        opened: &mut OpenFiles<R::File>,
    ) -> Result<ControlFlow, NeedsFault>
    where
        R::File: FileExt,
        ensures asks { AsksFiles 0 opened.old.objects.items opened.new.objects.items
            self.old.search.left self.new.search.left
            system.old.closed.asked system.new.closed.asked }
    {
        for place in known.needs..known.needs_end {
            let Some(need) = self.objects.need(place) else {
                return Ok(ControlFlow::Yes);
            };
            let objects = &self.objects;
            if objects.has_name(objects.links.text(need.name)) {
                continue;
            }
            let flow = self.take(system, index, known, need, opened)?;
            if flow != ControlFlow::Yes {
                return Ok(flow);
            }
        }
        Ok(ControlFlow::Yes)
    }

    /// Searches for a library that an object needs, unless it is the interpreter, and takes what is
    /// found.
    fn take<R: Files>(
        &mut self,
        system: &mut SystemFiles<'_, R, FileSource<R::File>>,
        index: usize,
        needer: &KnownObject,
        need: NeededLibrary,
        opened: &mut OpenFiles<R::File>,
    ) -> Result<ControlFlow, NeedsFault>
    where
        R::File: FileExt,
        ensures asks { AsksFiles 0 opened.old.objects.items opened.new.objects.items
            self.old.search.left self.new.search.left
            system.old.closed.asked system.new.closed.asked }
    {
        let objects = &self.objects;
        let name = objects.links.text(need.name);
        let by = u16::try_from(index).ok();
        if objects.is_interpreter_name(name) {
            self.search.found_by = interpreter_found_by(name);
            return self.take_interpreter(system, by, need, opened);
        }
        match self.search.find(system, objects, needer, name) {
            Ok(Some(file)) => self.take_file(system, by, need, file, opened),
            Ok(None) => self.take_none(by, need),
            Err(SearchEnd::Refused(refusal)) => self.add_refused(by, need, refusal),
            Err(SearchEnd::Unread(refusal)) => {
                self.add_alone(by, need, ObjectState::Refused(refusal))
            }
            Err(SearchEnd::Failed(fault)) => Err(fault),
        }
    }

    /// Adds a library that is not found, or ends the objects.
    fn take_none(&mut self, by: Option<u16>, need: NeededLibrary) -> Result<ControlFlow, NeedsFault>
        ensures left { self.new.search.left ≡ self.old.search.left }
    {
        if self.search.tries.is_over {
            return Ok(ControlFlow::TooManyPaths(need.at));
        }
        self.add_alone(by, need, ObjectState::Missing)
    }

    /// Takes a file that is found: that of an object that is known or of the interpreter, of which
    /// the name is one more, or the next object's.
    fn take_file<R: Files>(
        &mut self,
        system: &mut SystemFiles<'_, R, FileSource<R::File>>,
        by: Option<u16>,
        need: NeededLibrary,
        file: ObjectFile<FileSource<R::File>>,
        opened: &mut OpenFiles<R::File>,
    ) -> Result<ControlFlow, NeedsFault>
    where
        R::File: FileExt,
        ensures asks { AsksFiles file.asked opened.old.objects.items opened.new.objects.items
            self.old.search.left self.new.search.left
            system.old.closed.asked system.new.closed.asked }
    {
        let identity = file.attributes().identity;
        if let Some(known) = self.objects.with_file(identity) {
            file.close(&mut system.closed);
            return self.add_name(by, need, known);
        }
        if self.objects.is_interpreter_file(identity) {
            file.close(&mut system.closed);
            return self.take_interpreter(system, by, need, opened);
        }
        if self.objects.len() >= MOST_OBJECTS {
            file.close(&mut system.closed);
            return Ok(ControlFlow::TooManyObjects(need.at));
        }
        self.add_found(by, need.name, file, opened, &mut system.closed)
    }

    /// Adds one more name of an object that is known. If there is no room for it, the name is an
    /// object of its own, which is refused.
    pub(crate) fn add_name(
        &mut self,
        by: Option<u16>,
        need: NeededLibrary,
        known: u16,
    ) -> Result<ControlFlow, NeedsFault>
        ensures left { self.new.search.left ≡ self.old.search.left }
    {
        if self.objects.add_alias(need.name, known) {
            return Ok(ControlFlow::Yes);
        }
        let refusal = Refusal {
            at: need.at,
            cause: Cause::TooLong,
        };
        self.add_alone(by, need, ObjectState::Refused(refusal))
    }

    /// Adds an object of which nothing but its state is known; or ends the objects.
    pub(crate) fn add_alone(
        &mut self,
        by: Option<u16>,
        need: NeededLibrary,
        state: ObjectState,
    ) -> Result<ControlFlow, NeedsFault>
        ensures left { self.new.search.left ≡ self.old.search.left }
    {
        if self.objects.len() >= MOST_OBJECTS {
            return Ok(ControlFlow::TooManyObjects(need.at));
        }
        self.add(by, Some(need.name), &NOWHERE, &report_alone(state));
        Ok(ControlFlow::Yes)
    }

    /// Adds a library whose file at the path of the search is refused before it is read; or ends
    /// the objects.
    fn add_refused(
        &mut self,
        by: Option<u16>,
        need: NeededLibrary,
        refusal: Refusal,
    ) -> Result<ControlFlow, NeedsFault>
        ensures left { self.new.search.left ≡ self.old.search.left }
    {
        if self.objects.len() >= MOST_OBJECTS {
            return Ok(ControlFlow::TooManyObjects(need.at));
        }
        let report = report_alone(ObjectState::Refused(refusal));
        let place = ObjectPlace {
            path: self.objects.keep_path(&self.search.path),
            file: None,
            found_by: Some(self.search.found_by),
        };
        self.add(by, Some(need.name), &place, &report);
        Ok(ControlFlow::Yes)
    }

    /// Reads a library that is found at the path of the search, and adds it.
    fn add_found<S: Source + Drop>(
        &mut self,
        by: Option<u16>,
        name: u32,
        file: ObjectFile<S>,
        opened: &mut OpenObjects<CachedSource<S>>,
        closed: &mut ClosedFiles,
    ) -> Result<ControlFlow, NeedsFault>
        ensures asks { AsksFiles file.asked opened.old.objects.items opened.new.objects.items
            self.old.search.left self.new.search.left
            closed.old.asked closed.new.asked }
    {
        let mut file = file;
        let path = self.objects.keep_path(&self.search.path);
        let report = self.read(&mut file, ObjectRole::Library, path);
        let identity = file.attributes().identity;
        let report = self.keep(file, report, opened, closed)?;
        let place = ObjectPlace {
            path,
            file: found_identity(report.state, identity),
            found_by: Some(self.search.found_by),
        };
        self.add(by, Some(name), &place, &report);
        Ok(ControlFlow::Yes)
    }
}

/// Returns how the interpreter is found by its name.
fn interpreter_found_by(name: &[u8]) -> FoundBy {
    match memchr(b'/', name) {
        Some(_) => FoundBy::Path,
        None => FoundBy::Listed,
    }
}
