//! The search for the interpreter that a program names.
ghost use Rattle.std.specs.Prelude.{◌≡◌, ◌++◌, [], IfSome, Some, length, slice_index_or};
ghost use Rattle.elf_library.specs.Prelude.{AsksClosed, AsksFile, with_text};
ghost use Rattle.elf_needs.specs.Budget.{AsksFiles};
ghost use Rattle.elf_needs.specs.Searching.{if_short, root_before};

use crate::known_interpreter::Interpreter;
use crate::known_object::MOST_OBJECTS;
use crate::object_reports::{ObjectPlace, ObjectReport, found_identity, report_alone};
use crate::paths::named_path;
use crate::walk::{DependencyWalk, OpenFiles};
use crate::walk_needs::ControlFlow;
use elf_format::{ObjectState, show_interpreter, show_refusal};
use elf_library::{
    ClosedFiles, FileIdentity, FileSource, NeededLibrary, NeedsFault, ObjectFile, ObjectRole,
    SearchEnd, SystemFiles, is_budget_fault,
};
use elf_source::{Sink, Source};
use elf_table::Fault;
use std::os::unix::fs::FileExt;
use std::rt::Files;

/// What is read of the file at the interpreter's path.
#[derive(Clone, Copy)]
struct InterpreterRead {
    /// Whether it can be the interpreter.
    is_found: bool,
    /// How it is linked, if it is an object.
    report: ObjectReport,
    /// Which file it is, if that is known.
    file: Option<FileIdentity>,
}

impl<W: Sink> DependencyWalk<'_, '_, W> {
    /// Searches for the interpreter that the program names, at its path below the root, and reads
    /// what it needs.
    ///
    /// # Errors
    /// A read failed, or the path cannot be opened for a fault of the system.
    pub(crate) fn find_interpreter<R: Files>(
        &mut self,
        system: &mut SystemFiles<'_, R, FileSource<R::File>>,
    ) -> Result<(), NeedsFault>
    where
        R::File: FileExt,
        ensures asks { AsksClosed 0 self.old.search.left self.new.search.left
            system.old.closed.asked system.new.closed.asked }
    {
        let Some(interpreter) = self.objects.interpreter else {
            return Ok(());
        };
        let Some(path) = self.keep_interpreter_path(interpreter.name) else {
            return Ok(());
        };
        let read = match system.open(&self.search.path) {
            Ok(Some(file)) => self.read_found(file, path, &mut system.closed)?,
            Ok(None) | Err(SearchEnd::Refused(_) | SearchEnd::Unread(_)) => missing(),
            Err(SearchEnd::Failed(fault)) => return Err(fault),
        };
        self.objects.interpreter = Some(Interpreter {
            name: interpreter.name,
            path,
            is_found: read.is_found,
            report: read.report,
            file: read.file,
            object: None,
        });
        Ok(())
    }

    /// Composes the interpreter's path below the root, and stores it. Returns its index, or `None`
    /// if it is too long to be opened.
    fn keep_interpreter_path(&mut self, name: u32) -> Option<u32>
        ensures left { self.new.search.left ≡ self.old.search.left }
        ensures below { IfSome result (λ index. let old = self.old.objects.paths in
            let path = slice_index_or old.texts name [] in
            (if_short (root_before self.old.search.directories.root.now path ++ path)
            ≡ Some self.new.search.path.items)
            × (self.new.objects.paths ≡ with_text old self.new.search.path.items)
            × (index ≡ length old.texts)) }
    {
        let root = self.search.directories.root;
        let name = self.objects.path(name);
        if !named_path(&mut self.search.path, root, name) {
            return None;
        }
        self.objects.keep_path(&self.search.path)
    }

    /// Reads the file at the interpreter's path, and closes it.
    fn read_found<S: Source + Drop>(
        &mut self,
        file: ObjectFile<S>,
        path: u32,
        closed: &mut ClosedFiles,
    ) -> Result<InterpreterRead, NeedsFault>
        ensures asks { AsksClosed file.asked self.old.search.left self.new.search.left
            closed.old.asked closed.new.asked }
    {
        let mut file = file;
        let read = self.read_opened(&mut file, path);
        file.close(closed);
        read
    }

    /// Reads whether a file can be the interpreter, and what it needs.
    fn read_opened<S: Source>(
        &mut self,
        file: &mut ObjectFile<S>,
        path: u32,
    ) -> Result<InterpreterRead, NeedsFault>
        ensures asks { AsksFile file.old file.new self.old.search.left self.new.search.left }
    {
        let attributes = file.attributes();
        if !attributes.is_executable {
            return Ok(missing());
        }
        let machine = self.search.machine;
        let report = match file.interprets(&mut self.search.left, machine) {
            Ok(true) => self.read(file, ObjectRole::Library, Some(path))?,
            Ok(false) => return Ok(missing()),
            Err(Fault::Refused(refusal)) => report_alone(ObjectState::Refused(refusal)),
            Err(Fault::Source { .. }) => return Err(NeedsFault::Read),
        };
        Ok(InterpreterRead {
            is_found: true,
            report,
            file: attributes.identity,
        })
    }

    /// Takes the interpreter, which an object needs by name: it is the next object, unless it is
    /// one; then the name is one more of its names.
    pub(crate) fn take_interpreter<R: Files>(
        &mut self,
        system: &mut SystemFiles<'_, R, FileSource<R::File>>,
        by: Option<u16>,
        need: NeededLibrary,
        opened: &mut OpenFiles<R::File>,
    ) -> Result<ControlFlow, NeedsFault>
    where
        R::File: FileExt,
        ensures asks { AsksFiles 0 opened.old.objects.items opened.new.objects.items
            self.old.search.left self.new.search.left
            system.old.closed.asked system.new.closed.asked }
    {
        let Some(interpreter) = self.objects.interpreter else {
            return self.add_alone(by, need, ObjectState::Missing);
        };
        if let Some(known) = self.objects.interpreter_object() {
            return self.add_name(by, need, known);
        }
        if self.objects.len() >= MOST_OBJECTS {
            return Ok(ControlFlow::TooManyObjects(need.at));
        }
        let report = self.keep_interpreter(system, &interpreter, opened)?;
        self.add_interpreter(by, need.name, &interpreter, &report)
    }

    /// Keeps the file of the interpreter open, if what it needs is known and its path still leads
    /// to a file.
    fn keep_interpreter<R: Files>(
        &mut self,
        system: &mut SystemFiles<'_, R, FileSource<R::File>>,
        interpreter: &Interpreter,
        opened: &mut OpenFiles<R::File>,
    ) -> Result<ObjectReport, NeedsFault>
    where
        R::File: FileExt,
        ensures asks { AsksFiles 0 opened.old.objects.items opened.new.objects.items
            self.old.search.left self.new.search.left
            system.old.closed.asked system.new.closed.asked }
    {
        let report = interpreter.report;
        if !matches!(report.state, ObjectState::Found) {
            return Ok(report);
        }
        match system.open(self.objects.path(interpreter.path)) {
            Ok(Some(file)) => self.keep(file, Ok(report), opened, &mut system.closed),
            Ok(None) => Ok(report_alone(ObjectState::Missing)),
            Err(SearchEnd::Refused(refusal) | SearchEnd::Unread(refusal)) => {
                Ok(report_alone(ObjectState::Refused(refusal)))
            }
            Err(SearchEnd::Failed(fault)) => Err(fault),
        }
    }

    /// Adds the interpreter as an object.
    fn add_interpreter(
        &mut self,
        by: Option<u16>,
        name: u32,
        interpreter: &Interpreter,
        report: &ObjectReport,
    ) -> Result<ControlFlow, NeedsFault>
        ensures left { self.new.search.left ≡ self.old.search.left }
    {
        let place = ObjectPlace {
            path: Some(interpreter.path),
            file: found_identity(report.state, interpreter.file),
            found_by: Some(self.search.found_by),
        };
        let index = self.add(by, Some(name), &place, report);
        self.objects.interpreter = Some(Interpreter {
            object: Some(index),
            ..*interpreter
        });
        Ok(ControlFlow::Yes)
    }

    /// Writes the line of the interpreter, if the program names one; or that of the refusal that
    /// ended the budget while it was read.
    ///
    /// # Errors
    /// The output failed.
    pub(crate) fn end_interpreter(&mut self) -> Result<(), NeedsFault>
        ensures left { self.new.search.left ≡ self.old.search.left }
    {
        let Some(interpreter) = self.objects.interpreter else {
            return Ok(());
        };
        let shown = match interpreter.report.state {
            ObjectState::Refused(refusal) if is_budget_fault(refusal) => {
                self.status = 1;
                show_refusal(refusal, self.lines.format, &mut self.out)
            }
            ObjectState::Found
            | ObjectState::Missing
            | ObjectState::Refused(_)
            | ObjectState::Unused => {
                if !interpreter.is_found {
                    self.status = 1;
                } else if self.lines.problems {
                    return Ok(());
                }
                let path = self.objects.path(interpreter.path);
                show_interpreter(interpreter.is_found, path, self.lines.format, &mut self.out)
            }
        };
        shown.map_err(NeedsFault::Out)
    }
}

/// Returns what is read where no interpreter is found.
fn missing() -> InterpreterRead {
    InterpreterRead {
        is_found: false,
        report: report_alone(ObjectState::Missing),
        file: None,
    }
}
