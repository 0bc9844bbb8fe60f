//! The archives among the inputs of a link, and which of their members are taken.
ghost use Rattle.std.specs.Prelude.{◌≡◌, ◌≤◌, ◌++◌, ℕ, List, Err, OnOk, IfErr, IfOk, IsErr, None, Some, drop, false, length, map, replicate};
ghost use Rattle.std.specs.List.{slice_get};
ghost use Rattle.elf_model.specs.LinkArchives.{LinkFiles, files_as_inputs, link_members, members_as_objects, members_refusal};
ghost use Rattle.elf_model.specs.LinkInputs.{archive_again, input_taken};
ghost use Rattle.elf_resolve.specs.LinkMembers.{file_of_range};
ghost use Rattle.elf_resolve.specs.OpenedArchives.{archive_of_input};
ghost use Rattle.elf_resolve.specs.Resolved.{linking_of, open_archive};
ghost use Rattle.elf_resolve.specs.ResolvedInputs.{EntersIndex, IsArchiveAt, IsLink, KeepsArchives, KeptArchive, OpenedAs, TookInput, TookMembers};
ghost use Rattle.elf_model.specs.declared.link_states.LinkRow.{LinkRow};
ghost use Rattle.elf_resolve.specs.EndsAtRefusal.{IsFaultOfIndex, LeavesRows, NoneRefused, StopsLink};
ghost use Rattle.elf_resolve.specs.SearchStops.{EndsSearch, StopsWith};
ghost use Rattle.elf_resolve.specs.Taken.{IsLinkFault, header_of};
ghost use Rattle.elf_resolve.specs.NamedRows.{KeepsRowNames};
ghost use Rattle.elf_resolve.specs.ReadBudgets.{KeepsToBudget};

use crate::archive_index::read_index;
use crate::archive_searches::{add_marks, element_at, member_row, search_members};
use crate::archives::OpenedArchive;
use crate::budgeted_files::BudgetedFiles;
use crate::link_faults::{LinkFault, refused};
use crate::link_files::InputFiles;
use crate::resolver::{InputState, Resolver};
use crate::table::LinkStop;
use elf_model::{LinkCause, LinkRowKind};
use elf_source::{Counted, RangeSource, Source};

impl Resolver<'_> {
    /// Reads the members of an archive, and takes those that are asked for, or all.
    ///
    /// # Errors
    /// The first fault of the archive, its index and the members that are taken.
    pub(crate) fn take_archive<S: Source>(
        &mut self,
        src: &mut Counted<RangeSource<S>>,
        is_whole: bool,
        input: u32,
    ) -> Result<(), LinkFault>
        ensures takes { (files : LinkFiles) (file : List ℕ) → IsLink files self.old →
            IsArchiveAt files file self.old src.old.seen is_whole input →
            OnOk result (TookInput files self.old self.new input
            (input_taken (linking_of self.old) input (files_as_inputs files input))) }
        ensures leaves { (files : LinkFiles) (file : List ℕ) → IsLink files self.old →
            IsArchiveAt files file self.old src.old.seen is_whole input →
            NoneRefused files self.old.link.rows.rows → LeavesRows files ⊥ self.new
            (input_taken (linking_of self.old) input (files_as_inputs files input)).rows result }
        ensures names { (files : LinkFiles) (file : List ℕ) → IsLink files self.old →
            IsArchiveAt files file self.old src.old.seen is_whole input →
            OnOk result (KeepsRowNames files self.old self.new) }
        ensures most { src.new.most ≡ src.old.most }
    {
        let archive = self.open_archive(src, is_whole, input)?;
        if is_whole {
            return self.take_whole(src, archive);
        }
        self.keep_archive(archive)?;
        self.search(src, archive)
    }

    /// Adds the row of an archive, and reads its members, and its index unless all members are
    /// taken.
    ///
    /// # Errors
    /// The first fault of the archive and its index; there is no room for them.
    fn open_archive<S: Source>(
        &mut self,
        src: &mut Counted<RangeSource<S>>,
        is_whole: bool,
        input: u32,
    ) -> Result<OpenedArchive, LinkFault>
        ensures below { src.new.seen.whole ≡ src.old.seen.whole }
        ensures most { src.new.most ≡ src.old.most }
        ensures opens { (file : List ℕ) → src.old.seen.file ≡ Some file →
            length self.old.taken.items ≡ length self.old.tables.members.items →
            IfOk result (OpenedAs file is_whole input self.old self.new) }
        ensures stops { (files : LinkFiles) (file : List ℕ) →
            IsArchiveAt files file self.old src.old.seen is_whole input →
            NoneRefused files self.old.link.rows.rows → IfErr result
            (StopsLink files ⊥ self.new.link.rows.rows (input_taken (linking_of self.old) input
            (files_as_inputs files input)).rows self.new.row) }
        ensures names { (files : LinkFiles) → OnOk result (KeepsRowNames files self.old self.new) }
    {
        let row = self.add_row(LinkRowKind::Archive, input)?;
        let first = self.tables.members.len();
        let entries = self.tables.entries.len();
        let names = self.tables.walk(src)?;
        let count = self.tables.members.len();
        self.mark_members(count.saturating_sub(first))?;
        self.read_names(src, is_whole, first)?;
        Ok(OpenedArchive {
            input,
            row,
            members: (first, count),
            entries: (entries, self.tables.entries.len()),
            names,
        })
    }

    /// Adds marks of members that are not taken.
    ///
    /// # Errors
    /// There is no room for them.
    fn mark_members(&mut self, count: usize) -> Result<(), LinkFault>
        ensures same { self.new ≡ record self.old { taken = self.new.taken } }
        ensures marks { OnOk result
            (self.new.taken.items ≡ self.old.taken.items ++ replicate count false) }
        ensures limit { IfErr result (IsLinkFault None) }
    {
        add_marks(&mut self.taken, count)
    }

    /// Enters the names of an archive's index, whose members, from `first` on, are the last ones,
    /// unless all members are taken.
    ///
    /// # Errors
    /// Those of the index.
    fn read_names<S: Source>(
        &mut self,
        src: &mut Counted<RangeSource<S>>,
        is_whole: bool,
        first: usize,
    ) -> Result<(), LinkFault>
        ensures below { src.new.seen.whole ≡ src.old.seen.whole }
        ensures most { src.new.most ≡ src.old.most }
        ensures keeps { KeepsArchives self.old self.new }
        ensures row { self.new.row ≡ self.old.row }
        ensures names { self.new.room.names ≡ self.old.room.names }
        ensures enters { (file : List ℕ) → src.old.seen.file ≡ Some file →
            drop first self.old.tables.members.items ≡ map header_of (link_members file).members →
            first ≤ length self.old.tables.members.items → members_refusal file ≡ None →
            OnOk result (EntersIndex is_whole file self.old self.new) }
        ensures fails { (file : List ℕ) → src.old.seen.file ≡ Some file →
            drop first self.old.tables.members.items ≡ map header_of (link_members file).members →
            first ≤ length self.old.tables.members.items → members_refusal file ≡ None →
            IfErr result (IsFaultOfIndex is_whole file) }
    {
        if is_whole {
            return Ok(());
        }
        let keys = &mut self.link.keys;
        let strings = &mut self.room.tables.strings;
        read_index(src, &mut self.tables, first, strings, keys)
    }

    /// Keeps an archive, which is then the state of its input.
    ///
    /// # Errors
    /// There is no room for it.
    fn keep_archive(&mut self, archive: OpenedArchive) -> Result<(), LinkFault>
        ensures keeps { OnOk result (KeptArchive self.old self.new archive) }
        ensures limit { IfErr result (IsLinkFault None) }
        ensures names { self.new.room ≡ self.old.room }
    {
        let index = self.tables.archives.len();
        self.set_state(archive.input, InputState::Archive(index));
        if self.tables.archives.push(archive).is_err() {
            return refused(0, LinkCause::TooManyRows);
        }
        Ok(())
    }

    /// Searches an archive once more.
    ///
    /// # Errors
    /// The first fault of the members that are taken.
    pub(crate) fn search_again<F: InputFiles>(
        &mut self,
        files: &mut BudgetedFiles<F>,
        archive: usize,
    ) -> Result<(), LinkFault>
        ensures file { F.file files.new.files ≡ F.file files.old.files }
        ensures searches { (all : LinkFiles) (a : OpenedArchive) (file : List ℕ) →
            IsLink all self.old →
            slice_get self.old.tables.archives.items archive ≡ Some a →
            archive_of_input self.old.tables.archives.items a.input ≡ Some a →
            all.file a.input ≡ Some file → F.file files.old.files a.input ≡ Some file →
            OnOk result (TookMembers self.old self.new (archive_again (linking_of self.old)
            (open_archive self.old.tables.entries.items self.old.taken.items a)
            (members_as_objects file (link_members file).members all.headers))) }
        ensures leaves { (all : LinkFiles) (a : OpenedArchive) (file : List ℕ) →
            IsLink all self.old →
            slice_get self.old.tables.archives.items archive ≡ Some a →
            archive_of_input self.old.tables.archives.items a.input ≡ Some a →
            all.file a.input ≡ Some file → F.file files.old.files a.input ≡ Some file →
            NoneRefused all self.old.link.rows.rows →
            LeavesRows all ⊥ self.new (archive_again (linking_of self.old)
            (open_archive self.old.tables.entries.items self.old.taken.items a)
            (members_as_objects file (link_members file).members all.headers)).rows result }
        ensures text { F.text files.new.files ≡ F.text files.old.files }
        ensures spends { KeepsToBudget files.old.budget files.new.budget }
        ensures names { (all : LinkFiles) (a : OpenedArchive) (file : List ℕ) →
            IsLink all self.old →
            slice_get self.old.tables.archives.items archive ≡ Some a →
            archive_of_input self.old.tables.archives.items a.input ≡ Some a →
            all.file a.input ≡ Some file → F.file files.old.files a.input ≡ Some file →
            OnOk result (KeepsRowNames all self.old self.new) }
    {
        let Some(archive) = element_at(&self.tables.archives, archive) else {
            return Ok(());
        };
        let mut src = files.open(archive.input)?;
        let taken = self.search(&mut src, archive);
        files.close(&src);
        taken
    }

    /// Takes the members of an archive that its index asks for.
    ///
    /// # Errors
    /// The first fault of a member that is taken.
    fn search<S: Source>(
        &mut self,
        src: &mut Counted<RangeSource<S>>,
        archive: OpenedArchive,
    ) -> Result<(), LinkFault>
        ensures searches { (files : LinkFiles) (file : List ℕ) → IsLink files self.old →
            archive_of_input self.old.tables.archives.items archive.input ≡ Some archive →
            files.file archive.input ≡ Some file → file_of_range src.old.seen ≡ Some file →
            OnOk result (TookMembers self.old self.new (archive_again (linking_of self.old)
            (open_archive self.old.tables.entries.items self.old.taken.items archive)
            (members_as_objects file (link_members file).members files.headers))) }
        ensures leaves { (files : LinkFiles) (file : List ℕ) → IsLink files self.old →
            archive_of_input self.old.tables.archives.items archive.input ≡ Some archive →
            files.file archive.input ≡ Some file → file_of_range src.old.seen ≡ Some file →
            NoneRefused files self.old.link.rows.rows →
            LeavesRows files ⊥ self.new (archive_again (linking_of self.old)
            (open_archive self.old.tables.entries.items self.old.taken.items archive)
            (members_as_objects file (link_members file).members files.headers)).rows result }
        ensures names { (files : LinkFiles) (file : List ℕ) → IsLink files self.old →
            archive_of_input self.old.tables.archives.items archive.input ≡ Some archive →
            files.file archive.input ≡ Some file → file_of_range src.old.seen ≡ Some file →
            OnOk result (KeepsRowNames files self.old self.new) }
        ensures most { src.new.most ≡ src.old.most }
    {
        let found = search_members(
            &mut self.link,
            &mut self.room,
            &self.tables,
            &mut self.taken,
            src,
            archive,
        );
        match found.ended {
            Ok(()) => Ok(()),
            Err(stop) => self.stopped(archive, stop, found.fault, found.asked),
        }
    }

    /// Returns the fault at which a search stopped, and keeps the row of the member that has it.
    ///
    /// # Errors
    /// That fault.
    fn stopped(
        &mut self,
        archive: OpenedArchive,
        stop: LinkStop,
        fault: Option<LinkFault>,
        asked: Option<u32>,
    ) -> Result<(), LinkFault>
        ensures fails { IsErr result }
        ensures stops { (files : LinkFiles) (file : List ℕ) (old whole : List LinkRow) →
            EndsSearch files.headers file archive.input old self.old.link.rows.rows whole fault
            asked (Err stop) → files.file archive.input ≡ Some file → NoneRefused files old →
            LeavesRows files ⊥ self.new whole result }
    {
        self.row = None;
        match stop {
            LinkStop::TooManyRows => refused(0, LinkCause::TooManyRows),
            LinkStop::Full(_) => self.stopped_at(archive, fault, asked),
            LinkStop::Unreadable => self.stopped_at(archive, fault, asked),
        }
    }

    /// Returns the fault that a search kept, and keeps the row of the member that has it: the last
    /// row, or that of a member that was only asked for a definition.
    ///
    /// # Errors
    /// That fault.
    fn stopped_at(
        &mut self,
        archive: OpenedArchive,
        fault: Option<LinkFault>,
        asked: Option<u32>,
    ) -> Result<(), LinkFault>
        ensures fails { IsErr result }
        ensures stops { (files : LinkFiles) (file : List ℕ) (old whole : List LinkRow) →
            StopsWith files.headers file archive.input old self.old.link.rows.rows whole fault
            asked → files.file archive.input ≡ Some file → NoneRefused files old →
            LeavesRows files ⊥ self.new whole result }
    {
        let Some(fault) = fault else {
            return Err(LinkFault::Read);
        };
        let Some(member) = asked else {
            self.row = self.link.rows.len().checked_sub(1);
            return Err(fault);
        };
        self.row = self.link.rows.add(member_row(archive, member));
        Err(fault)
    }
}
