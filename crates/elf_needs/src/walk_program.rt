//! The program whose objects are listed.
ghost use Rattle.std.specs.Prelude.{◌≡◌};
ghost use Rattle.elf_library.specs.Prelude.{AsksFile};
ghost use Rattle.elf_needs.specs.Budget.{AsksFiles};

use crate::needed_names::within_root;
use crate::object_reports::{ObjectPlace, ObjectReport, found_identity, report_alone};
use crate::open_objects::OpenObjects;
use crate::paths::named_path;
use crate::walk::DependencyWalk;
use elf_format::ObjectState;
use elf_library::{ClosedFiles, NeedsFault, ObjectFile, ObjectRole};
use elf_record::{Cause, Refusal};
use elf_source::{CachedSource, Sink, Source};
use elf_table::{Fault, NameBuf};

/// The file offset of a file header's number of program headers (gABI 4, ELF Header).
const PROGRAM_HEADERS_AT: u64 = 0x38;

impl<W: Sink> DependencyWalk<'_, '_, W> {
    /// Reads the program, and adds it.
    pub(crate) fn program<S: Source + Drop>(
        &mut self,
        file: ObjectFile<S>,
        real: &[u8],
        opened: &mut OpenObjects<CachedSource<S>>,
        closed: &mut ClosedFiles,
    ) -> Result<(), NeedsFault>
        ensures asks { AsksFiles file.asked opened.old.objects.items opened.new.objects.items
            self.old.search.left self.new.search.left
            closed.old.asked closed.new.asked }
    {
        let mut file = file;
        let kept = self.keep_program_path(real);
        let report = self.read_program(&mut file, kept);
        let identity = file.attributes().identity;
        let report = self.keep(file, report, opened, closed)?;
        if !matches!(report.state, ObjectState::Found) {
            self.objects.interpreter = None;
        }
        let place = ObjectPlace {
            path: kept,
            file: found_identity(report.state, identity),
            found_by: None,
        };
        self.add(None, None, &place, &report);
        Ok(())
    }

    /// Stores the path of the program, whose directory replaces `$ORIGIN`, and returns its index: one
    /// that is not within the root is taken below it.
    fn keep_program_path(&mut self, real: &[u8]) -> Option<u32>
        ensures left { self.new.search.left ≡ self.old.search.left }
    {
        let root = self.search.directories.root;
        if root.is_empty() || within_root(root, real).len() < real.len() {
            return self.objects.keep_path(real);
        }
        if !named_path(&mut self.search.path, root, real) {
            return None;
        }
        self.objects.keep_path(&self.search.path)
    }

    /// Reads the machine of the program at the path of an index, what it needs, and the path of its
    /// interpreter.
    fn read_program<S: Source>(
        &mut self,
        file: &mut ObjectFile<S>,
        path: Option<u32>,
    ) -> Result<ObjectReport, NeedsFault>
        ensures asks { AsksFile file.old file.new self.old.search.left self.new.search.left }
    {
        match file.machine(&mut self.search.left) {
            Ok(Some(machine)) => self.search.machine = machine,
            // That is reported when the program is read.
            Ok(None) | Err(Fault::Refused(_)) => {}
            Err(Fault::Source { .. }) => return Err(NeedsFault::Read),
        }
        let report = self.read(file, ObjectRole::Program, path)?;
        if !matches!(report.state, ObjectState::Found) {
            return Ok(report);
        }
        self.read_interpreter(file, &report)
    }

    /// Reads the path of the interpreter that a program names. A program whose path is refused is
    /// refused. It is not inlined: the stack of its caller would hold the path.
    #[inline(never)]
    fn read_interpreter<S: Source>(
        &mut self,
        file: &mut ObjectFile<S>,
        report: &ObjectReport,
    ) -> Result<ObjectReport, NeedsFault>
        ensures asks { AsksFile file.old file.new self.old.search.left self.new.search.left }
    {
        let mut path = NameBuf::new();
        let left = &mut self.search.left;
        match file.interpreter(left, &mut self.store, &mut path) {
            Ok(false) => Ok(*report),
            Ok(true) if self.objects.name_interpreter(path.bytes()) => Ok(*report),
            Ok(true) => Ok(report_alone(ObjectState::Refused(Refusal {
                at: PROGRAM_HEADERS_AT,
                cause: Cause::TooLong,
            }))),
            Err(Fault::Refused(refusal)) => Ok(report_alone(ObjectState::Refused(refusal))),
            Err(Fault::Source { .. }) => Err(NeedsFault::Read),
        }
    }
}
