//! The state of an object that was read.
ghost use Rattle.std.specs.Prelude.{◌≡◌};
ghost use Rattle.elf_library.specs.Prelude.{AsksFile};
ghost use Rattle.elf_needs.specs.Budget.{AsksFiles};
ghost use Rattle.elf_needs.specs.Walked.{report_alone, status_with};

use crate::known_object::KnownObject;
use crate::open_objects::OpenObjects;
use crate::walk::DependencyWalk;
use elf_format::{FoundBy, ObjectState};
use elf_library::{ClosedFiles, FileIdentity, LinkInfo, NeedsFault, ObjectFile, ObjectRole};
use elf_source::{CachedSource, Sink, Source};
use elf_table::Fault;

/// The result for an object: its state, what its dynamic entries give, and where its needs are.
#[derive(Clone, Copy)]
pub(crate) struct ObjectReport {
    pub state: ObjectState,
    pub links: LinkInfo,
    pub needs: usize,
    pub needs_end: usize,
}

/// Where an object is, as far as that is known.
#[derive(Clone, Copy)]
pub(crate) struct ObjectPlace {
    /// The index of its path.
    pub path: Option<u32>,
    /// Which file it is.
    pub file: Option<FileIdentity>,
    /// How it was found.
    pub found_by: Option<FoundBy>,
}

/// An object that is nowhere.
pub(crate) const NOWHERE: ObjectPlace = ObjectPlace {
    path: None,
    file: None,
    found_by: None,
};

impl<W: Sink> DependencyWalk<'_, '_, W> {
    /// Reads what the file at the path of an index needs. What was requested from it is subtracted
    /// from the budget. It is not inlined: the stack of its callers would hold its buffers twice.
    #[inline(never)]
    pub(crate) fn read<S: Source>(
        &mut self,
        file: &mut ObjectFile<S>,
        role: ObjectRole,
        path: Option<u32>,
    ) -> Result<ObjectReport, NeedsFault>
        ensures asks { AsksFile file.old file.new self.old.search.left self.new.search.left }
    {
        let needs = self.objects.links.needs();
        let left = &mut self.search.left;
        match file.links(role, left, &mut self.store, &mut self.objects.links) {
            Ok(links) => Ok(self.named(links, needs, path)),
            Err(Fault::Refused(refusal)) => Ok(report_alone(ObjectState::Refused(refusal))),
            Err(Fault::Source { .. }) => Err(NeedsFault::Read),
        }
    }

    /// Replaces the tokens in the names of what the object at a path needs, the last needs from an
    /// index on. It is refused if a name has no room then.
    fn named(&mut self, links: LinkInfo, needs: usize, path: Option<u32>) -> ObjectReport
        ensures left { self.new.search.left ≡ self.old.search.left }
    {
        let needs_end = self.objects.links.needs();
        let root = self.search.directories.root;
        match self.objects.replace_names(needs, needs_end, path, root) {
            None => ObjectReport {
                state: ObjectState::Found,
                links,
                needs,
                needs_end,
            },
            Some(refusal) => report_alone(ObjectState::Refused(refusal)),
        }
    }

    /// Keeps the file of the next object open, if it is found; otherwise closes it.
    #[inline(never)]
    pub(crate) fn keep<S: Source + Drop>(
        &mut self,
        file: ObjectFile<S>,
        report: Result<ObjectReport, NeedsFault>,
        opened: &mut OpenObjects<CachedSource<S>>,
        closed: &mut ClosedFiles,
    ) -> Result<ObjectReport, NeedsFault>
        ensures asks { AsksFiles file.asked opened.old.objects.items opened.new.objects.items
            self.old.search.left self.new.search.left
            closed.old.asked closed.new.asked }
    {
        match (u16::try_from(self.objects.len()), report) {
            (Ok(index), Ok(report)) if matches!(report.state, ObjectState::Found) => {
                self.keep_open(index, file, &report, opened, closed)
            }
            _ => {
                file.close(closed);
                report
            }
        }
    }

    /// Keeps the file of the object with an index open, if there is room for it and it has a hash
    /// table; otherwise closes it.
    fn keep_open<S: Source + Drop>(
        &mut self,
        index: u16,
        file: ObjectFile<S>,
        report: &ObjectReport,
        opened: &mut OpenObjects<CachedSource<S>>,
        closed: &mut ClosedFiles,
    ) -> Result<ObjectReport, NeedsFault>
        ensures asks { AsksFiles file.asked opened.old.objects.items opened.new.objects.items
            self.old.search.left self.new.search.left
            closed.old.asked closed.new.asked }
    {
        let left = &mut self.search.left;
        match opened.keep(index, file, &mut self.store, left, closed) {
            Ok(()) => Ok(*report),
            Err(Fault::Refused(refusal)) => Ok(report_alone(ObjectState::Refused(refusal))),
            Err(Fault::Source { .. }) => Err(NeedsFault::Read),
        }
    }

    /// Adds an object, and returns its index.
    pub(crate) fn add(
        &mut self,
        needer: Option<u16>,
        name: Option<u32>,
        at: &ObjectPlace,
        report: &ObjectReport,
    ) -> u16
        ensures left { self.new.search.left ≡ self.old.search.left }
        ensures status { self.new.status ≡ status_with report.now.state self.old.status }
        ensures same { (self.new.lines ≡ self.old.lines) × (self.new.out ≡ self.old.out) }
    {
        if matches!(report.state, ObjectState::Missing | ObjectState::Refused(_)) {
            self.status = 1;
        }
        let added = self.objects.add(KnownObject {
            needer,
            name,
            path: at.path,
            file: at.file,
            found_by: at.found_by,
            state: report.state,
            links: report.links,
            needs: report.needs,
            needs_end: report.needs_end,
        });
        added.unwrap_or(0)
    }
}

/// Returns the result for an object of which nothing but its state is known.
pub(crate) fn report_alone(state: ObjectState) -> ObjectReport
    ensures { result ≡ report_alone state }
{
    ObjectReport {
        state,
        links: LinkInfo {
            soname: None,
            rpath: None,
            runpath: None,
            flags_1: 0,
            is_program: false,
        },
        needs: 0,
        needs_end: 0,
    }
}

/// Returns which file an object is, if it is found.
pub(crate) fn found_identity(
    state: ObjectState,
    file: Option<FileIdentity>,
) -> Option<FileIdentity> {
    match state {
        ObjectState::Found => file,
        ObjectState::Missing | ObjectState::Refused(_) | ObjectState::Unused => None,
    }
}
