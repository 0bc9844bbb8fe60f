//! The inputs of a link that are taken for the first time.
ghost use Rattle.std.specs.Prelude.{◌≡◌, ◌<◌, false, ℕ, List, OnOk, Ok, Some};
ghost use Rattle.std.specs.List.{slice_get};
ghost use Rattle.elf_model.specs.LinkArchives.{LinkFiles, files_as_inputs};
ghost use Rattle.elf_model.specs.LinkInputs.{input_taken};
ghost use Rattle.elf_resolve.specs.EndsAtRefusal.{LeavesRows, NoneRefused};
ghost use Rattle.elf_resolve.specs.LinkMembers.{file_of_range};
ghost use Rattle.elf_resolve.specs.Resolved.{linking_of};
ghost use Rattle.elf_resolve.specs.NamedRows.{KeepsRowNames};
ghost use Rattle.elf_resolve.specs.ResolvedInputs.{IsLink, IsPlanned, TookInput};
ghost use Rattle.elf_resolve.specs.ReadBudgets.{KeepsToBudget};

use crate::budgeted_files::BudgetedFiles;
use crate::link_faults::{LinkFault, refused};
use crate::link_files::{InputFiles, InputKind, LinkInput};
use crate::needed_libraries::NewLibrary;
use crate::object::take_object;
use crate::resolver::{InputState, Resolver};
use elf_model::{LinkCause, LinkRowKind};
use elf_source::{Counted, RangeSource, Source};

impl Resolver<'_> {
    /// Takes an input for the first time.
    ///
    /// # Errors
    /// The first fault of the input.
    pub(crate) fn take_input<F: InputFiles>(
        &mut self,
        files: &mut BudgetedFiles<F>,
        input: LinkInput,
        index: u32,
    ) -> Result<(), LinkFault>
        ensures file { F.file files.new.files ≡ F.file files.old.files }
        ensures takes { (all : LinkFiles) → IsPlanned all (F.file files.old.files) index input →
            IsLink all self.old →
            slice_get self.old.states.items index ≡ Some InputState.New →
            OnOk result (TookInput all self.old self.new index
            (input_taken (linking_of self.old) index (files_as_inputs all index))) }
        ensures leaves { (all : LinkFiles) → IsPlanned all (F.file files.old.files) index input →
            IsLink all self.old →
            slice_get self.old.states.items index ≡ Some InputState.New →
            NoneRefused all self.old.link.rows.rows →
            LeavesRows all (input.kind ≡ InputKind.BadScript) self.new
            (input_taken (linking_of self.old) index (files_as_inputs all index)).rows result }
        ensures text { F.text files.new.files ≡ F.text files.old.files }
        ensures spends { KeepsToBudget files.old.budget files.new.budget }
        ensures names { (all : LinkFiles) → IsPlanned all (F.file files.old.files) index input →
            IsLink all self.old →
            slice_get self.old.states.items index ≡ Some InputState.New →
            OnOk result (KeepsRowNames all self.old self.new) }
    {
        self.set_state(index, InputState::Done);
        self.take_kind(files, input, index)
    }

    /// Takes an input of a kind for the first time.
    ///
    /// # Errors
    /// The first fault of the input.
    #[tactic(auto, using(crate::proofs::ReadBudgetLaws::spends_none))]
    fn take_kind<F: InputFiles>(
        &mut self,
        files: &mut BudgetedFiles<F>,
        input: LinkInput,
        index: u32,
    ) -> Result<(), LinkFault>
        ensures file { F.file files.new.files ≡ F.file files.old.files }
        ensures takes { (all : LinkFiles) → IsPlanned all (F.file files.old.files) index input →
            IsLink all self.old →
            slice_get self.old.states.items index ≡ Some InputState.Done →
            OnOk result (TookInput all self.old self.new index
            (input_taken (linking_of self.old) index (files_as_inputs all index))) }
        ensures leaves { (all : LinkFiles) → IsPlanned all (F.file files.old.files) index input →
            IsLink all self.old →
            slice_get self.old.states.items index ≡ Some InputState.Done →
            NoneRefused all self.old.link.rows.rows →
            LeavesRows all (input.kind ≡ InputKind.BadScript) self.new
            (input_taken (linking_of self.old) index (files_as_inputs all index)).rows result }
        ensures text { F.text files.new.files ≡ F.text files.old.files }
        ensures spends { KeepsToBudget files.old.budget files.new.budget }
        ensures names { (all : LinkFiles) → IsPlanned all (F.file files.old.files) index input →
            IsLink all self.old →
            slice_get self.old.states.items index ≡ Some InputState.Done →
            OnOk result (KeepsRowNames all self.old self.new) }
    {
        match input.kind {
            InputKind::Missing => {
                self.add_row(LinkRowKind::Missing, index)?;
                Ok(())
            }
            InputKind::BadScript => {
                self.add_row(LinkRowKind::Refused, index)?;
                refused(0, LinkCause::ScriptFault)
            }
            InputKind::Object => self.read_input(files, input, index),
            InputKind::Shared => self.read_input(files, input, index),
            InputKind::Archive => self.read_input(files, input, index),
        }
    }

    /// Opens the file of an input, and takes it.
    ///
    /// # Errors
    /// It cannot be opened; the first fault of the file.
    fn read_input<F: InputFiles>(
        &mut self,
        files: &mut BudgetedFiles<F>,
        input: LinkInput,
        index: u32,
    ) -> Result<(), LinkFault>
        ensures file { F.file files.new.files ≡ F.file files.old.files }
        ensures takes { (all : LinkFiles) (file : List ℕ) → IsPlanned all (F.file files.old.files)
            index input → F.file files.old.files index ≡ Some file → all.file index ≡ Some file →
            IsLink all self.old → slice_get self.old.states.items index ≡ Some InputState.Done →
            OnOk result (TookInput all self.old self.new index (input_taken (linking_of self.old)
            index (files_as_inputs all index))) }
        ensures leaves { (all : LinkFiles) (file : List ℕ) → IsPlanned all (F.file files.old.files)
            index input → F.file files.old.files index ≡ Some file → all.file index ≡ Some file →
            IsLink all self.old → slice_get self.old.states.items index ≡ Some InputState.Done →
            NoneRefused all self.old.link.rows.rows → LeavesRows all ⊥ self.new (input_taken
            (linking_of self.old) index (files_as_inputs all index)).rows result }
        ensures text { F.text files.new.files ≡ F.text files.old.files }
        ensures spends { KeepsToBudget files.old.budget files.new.budget }
        ensures names { (all : LinkFiles) (file : List ℕ) → IsPlanned all (F.file files.old.files)
            index input → F.file files.old.files index ≡ Some file → all.file index ≡ Some file →
            IsLink all self.old → slice_get self.old.states.items index ≡ Some InputState.Done →
            OnOk result (KeepsRowNames all self.old self.new) }
    {
        let mut src = files.open(index)?;
        let taken = self.take_file(&files.files, &mut src, input, index);
        files.close(&src);
        taken
    }

    /// Takes the file of an input.
    ///
    /// # Errors
    /// The first fault of the file.
    fn take_file<F: InputFiles>(
        &mut self,
        files: &F,
        src: &mut Counted<RangeSource<F::InputSource>>,
        input: LinkInput,
        index: u32,
    ) -> Result<(), LinkFault>
        ensures takes { (all : LinkFiles) (file : List ℕ) →
            IsPlanned all (F.file files.now) index input →
            IsLink all self.old → src.old.seen.file ≡ Some file →
            file_of_range src.old.seen ≡ Some file → all.file index ≡ Some file →
            slice_get self.old.states.items index ≡ Some InputState.Done →
            OnOk result (TookInput all self.old self.new index
            (input_taken (linking_of self.old) index (files_as_inputs all index))) }
        ensures leaves { (all : LinkFiles) (file : List ℕ) →
            IsPlanned all (F.file files.now) index input →
            IsLink all self.old → src.old.seen.file ≡ Some file →
            file_of_range src.old.seen ≡ Some file → all.file index ≡ Some file →
            slice_get self.old.states.items index ≡ Some InputState.Done →
            NoneRefused all self.old.link.rows.rows → LeavesRows all ⊥ self.new
            (input_taken (linking_of self.old) index (files_as_inputs all index)).rows result }
        ensures names { (all : LinkFiles) (file : List ℕ) →
            IsPlanned all (F.file files.now) index input →
            IsLink all self.old → src.old.seen.file ≡ Some file →
            file_of_range src.old.seen ≡ Some file → all.file index ≡ Some file →
            slice_get self.old.states.items index ≡ Some InputState.Done →
            OnOk result (KeepsRowNames all self.old self.new) }
        ensures most { src.new.most ≡ src.old.most }
    {
        match input.kind {
            InputKind::Archive => self.take_archive(src, input.is_whole, index),
            InputKind::Shared => self.take_shared(files, src, input, index),
            InputKind::Object | InputKind::Missing | InputKind::BadScript => {
                self.take_one(src, index)
            }
        }
    }

    /// Takes a shared library.
    ///
    /// # Errors
    /// The first fault of the file.
    fn take_shared<F: InputFiles>(
        &mut self,
        files: &F,
        src: &mut Counted<RangeSource<F::InputSource>>,
        input: LinkInput,
        index: u32,
    ) -> Result<(), LinkFault>
        ensures most { src.new.most ≡ src.old.most }
    {
        let row = self.add_row(LinkRowKind::Shared, index)?;
        self.take_library(
            src,
            NewLibrary {
                input: index,
                row,
                path: files.path(index),
                as_needed: input.as_needed,
            },
        )
    }

    /// Takes an object.
    ///
    /// # Errors
    /// The first fault of the file.
    fn take_one<S: Source>(&mut self, src: &mut Counted<S>, index: u32) -> Result<(), LinkFault>
        ensures takes { (all : LinkFiles) (file : List ℕ) → IsLink all self.old →
            src.old.seen.file ≡ Some file → all.file index ≡ Some file →
            all.is_archive index ≡ false →
            slice_get self.old.states.items index ≡ Some InputState.Done →
            OnOk result (TookInput all self.old self.new index
            (input_taken (linking_of self.old) index (files_as_inputs all index))) }
        ensures leaves { (all : LinkFiles) (file : List ℕ) → IsLink all self.old →
            src.old.seen.file ≡ Some file → all.file index ≡ Some file →
            all.is_archive index ≡ false →
            NoneRefused all self.old.link.rows.rows → LeavesRows all ⊥ self.new
            (input_taken (linking_of self.old) index (files_as_inputs all index)).rows result }
        ensures names { (all : LinkFiles) → OnOk result (KeepsRowNames all self.old self.new) }
        ensures most { src.new.most ≡ src.old.most }
    {
        let row = self.add_row(LinkRowKind::Object, index)?;
        take_object(src, &mut self.room, &mut self.link.keys, row)
    }
}
