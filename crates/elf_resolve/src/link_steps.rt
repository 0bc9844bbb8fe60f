//! The steps of a link: its inputs in order, and groups of them.
ghost use Rattle.std.specs.Prelude.{◌≡◌, ◌+◌, ◌<◌, ℕ, List, IfErr, IfOk, OnOk, None, Ok, Some};
ghost use Rattle.std.specs.List.{slice_get};
ghost use Rattle.elf_model.specs.LinkArchives.{LinkFiles, files_as_inputs};
ghost use Rattle.elf_model.specs.LinkInputs.{Linking};
ghost use Rattle.elf_resolve.specs.EndsAtRefusal.{HasBadScript, LeavesRows, NoneRefused};
ghost use Rattle.elf_resolve.specs.Taken.{IsLinkFault};
ghost use Rattle.elf_resolve.specs.LinkPlaces.{input_made, is_new_input};
ghost use Rattle.elf_resolve.specs.Plans.{IsStaticPlan, planned_files};
ghost use Rattle.elf_resolve.specs.Resolved.{linking_of};
ghost use Rattle.elf_resolve.specs.NamedRows.{KeepsRowNames};
ghost use Rattle.elf_resolve.specs.ResolvedInputs.{IsAtStep, IsLink, OpenedGroup, TookAll, TookInput};
ghost use Rattle.elf_resolve.specs.ReadBudgets.{KeepsToBudget};

use crate::archive_searches::element_at;
use crate::budgeted_files::BudgetedFiles;
use crate::link_faults::{LinkFault, refused};
use crate::link_files::{InputFiles, LinkPlan, LinkStep};
use crate::resolver::{InputState, OpenGroup, Resolver};
use elf_model::LinkCause;

impl Resolver<'_> {
    /// Makes the steps of a plan, from the first on.
    ///
    /// # Errors
    /// The first fault of an input.
    #[tactic(auto, using(crate::proofs::ReadBudgetLaws::spends_none))]
    pub(crate) fn take_steps<F: InputFiles>(
        &mut self,
        files: &mut BudgetedFiles<F>,
        plan: &LinkPlan,
    ) -> Result<(), LinkFault>
        ensures takes { (headers : ℕ) (whole : Linking) →
            IsStaticPlan (F.file files.old.files) plan.now →
            let all = planned_files (F.file files.old.files) plan.now headers in
            IsAtStep all plan.now whole self.old 0 → OnOk result (TookAll all self.new whole) }
        ensures leaves { (headers : ℕ) (whole : Linking) →
            IsStaticPlan (F.file files.old.files) plan.now →
            let all = planned_files (F.file files.old.files) plan.now headers in
            IsAtStep all plan.now whole self.old 0 → NoneRefused all self.old.link.rows.rows →
            LeavesRows all (HasBadScript plan.now) self.new whole.rows result }
        ensures text { F.text files.new.files ≡ F.text files.old.files }
        ensures spends { KeepsToBudget files.old.budget files.new.budget }
        ensures names { (headers : ℕ) (whole : Linking) →
            IsStaticPlan (F.file files.old.files) plan.now →
            let all = planned_files (F.file files.old.files) plan.now headers in
            IsAtStep all plan.now whole self.old 0 →
            OnOk result (KeepsRowNames all self.old self.new) }
    {
        let count = plan.steps.len();
        let mut place = 0;
        'turns: for _ in 0..u64::MAX {
            if place >= count {
                return Ok(());
            }
            let after = self.take_step(files, plan, place, place + 1)?;
            place = after;
        }
        Err(LinkFault::Read)
    }

    /// Makes the step of an index, and returns the index of the next one that is made, which is
    /// `next` unless a group is taken once more.
    ///
    /// # Errors
    /// The first fault of an input.
    #[tactic(auto, using(crate::proofs::ReadBudgetLaws::spends_none))]
    fn take_step<F: InputFiles>(
        &mut self,
        files: &mut BudgetedFiles<F>,
        plan: &LinkPlan,
        place: usize,
        next: usize,
    ) -> Result<usize, LinkFault>
        ensures file { F.file files.new.files ≡ F.file files.old.files }
        ensures steps { (headers : ℕ) (whole : Linking) →
            IsStaticPlan (F.file files.old.files) plan.now → next ≡ place + 1 →
            let all = planned_files (F.file files.old.files) plan.now headers in
            IsAtStep all plan.now whole self.old place →
            IfOk result (IsAtStep all plan.now whole self.new) }
        ensures leaves { (headers : ℕ) (whole : Linking) →
            IsStaticPlan (F.file files.old.files) plan.now →
            let all = planned_files (F.file files.old.files) plan.now headers in
            IsAtStep all plan.now whole self.old place →
            NoneRefused all self.old.link.rows.rows →
            LeavesRows all (HasBadScript plan.now) self.new whole.rows result }
        ensures text { F.text files.new.files ≡ F.text files.old.files }
        ensures spends { KeepsToBudget files.old.budget files.new.budget }
        ensures names { (headers : ℕ) → IsStaticPlan (F.file files.old.files) plan.now →
            let all = planned_files (F.file files.old.files) plan.now headers in
            IsLink all self.old → OnOk result (KeepsRowNames all self.old self.new) }
    {
        let Some(step) = element_at(&plan.steps, place) else {
            return Err(LinkFault::Read);
        };
        match step {
            LinkStep::Open => {
                self.open_group(next)?;
                Ok(next)
            }
            LinkStep::Close => self.close_group(next),
            LinkStep::Input(input) => {
                self.row = None;
                self.visit(files, plan, input)?;
                Ok(next)
            }
        }
    }

    /// Begins a round of a group, whose first step has an index.
    ///
    /// # Errors
    /// There is no room for it.
    fn open_group(&mut self, first: usize) -> Result<(), LinkFault>
        ensures opens { OnOk result (OpenedGroup self.old self.new first) }
        ensures rows { self.new.link ≡ self.old.link }
        ensures limit { IfErr result (IsLinkFault None) }
    {
        let asked = self.link.keys.asked();
        if self.groups.push(OpenGroup { first, asked }).is_err() {
            return refused(0, LinkCause::TooManyRows);
        }
        Ok(())
    }

    /// Ends a round of the group that began last. Returns its first step if a key was asked for in
    /// it, and otherwise the next step.
    ///
    /// # Errors
    /// There is no room for another round.
    fn close_group(&mut self, next: usize) -> Result<usize, LinkFault>
        ensures rows { self.new.link ≡ self.old.link }
        ensures limit { IfErr result (IsLinkFault None) }
        ensures closes { (files : LinkFiles) (plan : LinkPlan) (whole : Linking) (place : ℕ) →
            next ≡ place + 1 → slice_get plan.steps.items place ≡ Some LinkStep.Close →
            IsAtStep files plan whole self.old place →
            IfOk result (IsAtStep files plan whole self.new) }
        ensures same { OnOk result (self.new ≡ record self.old { groups = self.new.groups }) }
    {
        let Some(group) = self.groups.pop() else {
            return Ok(next);
        };
        if self.link.keys.asked() == group.asked {
            return Ok(next);
        }
        self.open_group(group.first)?;
        Ok(group.first)
    }

    /// Takes an input, or what is left of it in a further round.
    ///
    /// # Errors
    /// The first fault of the input.
    #[tactic(auto, using(crate::proofs::ReadBudgetLaws::spends_none))]
    fn visit<F: InputFiles>(
        &mut self,
        files: &mut BudgetedFiles<F>,
        plan: &LinkPlan,
        input: u32,
    ) -> Result<(), LinkFault>
        ensures file { F.file files.new.files ≡ F.file files.old.files }
        ensures visits { (headers : ℕ) → IsStaticPlan (F.file files.old.files) plan.now →
            let all = planned_files (F.file files.old.files) plan.now headers in
            IsLink all self.old → OnOk result (TookInput all self.old self.new input
            (input_made (is_new_input self.old.states.items input) (linking_of self.old) input
            (files_as_inputs all input))) }
        ensures leaves { (headers : ℕ) → IsStaticPlan (F.file files.old.files) plan.now →
            let all = planned_files (F.file files.old.files) plan.now headers in
            IsLink all self.old → NoneRefused all self.old.link.rows.rows →
            LeavesRows all (HasBadScript plan.now) self.new
            (input_made (is_new_input self.old.states.items input) (linking_of self.old) input
            (files_as_inputs all input)).rows result }
        ensures text { F.text files.new.files ≡ F.text files.old.files }
        ensures spends { KeepsToBudget files.old.budget files.new.budget }
        ensures names { (headers : ℕ) → IsStaticPlan (F.file files.old.files) plan.now →
            let all = planned_files (F.file files.old.files) plan.now headers in
            IsLink all self.old → OnOk result (KeepsRowNames all self.old self.new) }
    {
        let Some(known) = element_at(&plan.inputs, input as usize) else {
            return Err(LinkFault::Open);
        };
        match element_at(&self.states, input as usize) {
            Some(InputState::New) => self.take_input(files, known, input),
            Some(InputState::Archive(archive)) => self.search_again(files, archive),
            Some(InputState::Library(library)) => self.ask_again(files, library),
            Some(InputState::Done) => Ok(()),
            None => Err(LinkFault::Open),
        }
    }
}
