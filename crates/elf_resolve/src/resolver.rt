//! The inputs of a link in their order.
ghost use Rattle.std.specs.Prelude.{◌≡◌, ◌<◌, ◌∷◌, [], false, true, ℕ, List, get_or, map, Err, IfErr, IfOk, OnOk, None, Ok, Some};
ghost use Rattle.std.proofs.Math.ListN.{set};
ghost use Rattle.elf_model.specs.LinkArchives.{files_as_inputs, names_of_files};
ghost use Rattle.elf_model.specs.LinkInputs.{LinkInputs, file_row, linked};
ghost use Rattle.elf_model.specs.LinkLines.{FileNames};
ghost use Rattle.elf_model.specs.declared.formats.Format.{Format};
ghost use Rattle.elf_resolve.specs.LinkerNames.{output_of};
ghost use Rattle.elf_resolve.specs.ProblemLines.{lines_of_problems};
ghost use Rattle.elf_resolve.specs.ShownLinks.{shown_link};
ghost use Rattle.elf_resolve.specs.StaticLinks.{AreRowsNamed};
ghost use Rattle.elf_resolve.specs.EndsAtRefusal.{EndsLink, HasBadScript, LeavesRows};
ghost use Rattle.elf_resolve.specs.Taken.{IsLinkFault};
ghost use Rattle.elf_resolve.specs.ListRooms.{HasListRoom};
ghost use Rattle.elf_resolve.specs.MarkedRows.{AreFaultsMarked};
ghost use Rattle.elf_resolve.specs.OwnLinks.{IsOwnLink};
ghost use Rattle.elf_resolve.specs.Plans.{IsStaticPlan, planned_files, plan_steps};
ghost use Rattle.elf_resolve.specs.Resolved.{linking_of};
ghost use Rattle.elf_resolve.specs.NamedRows.{HasNames};
ghost use Rattle.elf_resolve.specs.ResolvedInputs.{AddedRowOf, AskedNames, HasRoomOf, IsFresh, NotAsked, TookAll};
ghost use Rattle.elf_resolve.specs.StaticLinks.{AreKeysListed};
ghost use Rattle.elf_resolve.specs.ReadBudgets.{KeepsToBudget};

use crate::archives::ArchiveTables;
use crate::budgeted_files::BudgetedFiles;
use crate::key_chains::KeyChains;
use crate::libraries::LibraryList;
use crate::link_faults::{LinkFault, full, refused};
use crate::link_files::{InputFiles, LinkPlan};
use crate::link_memory::{KeyLists, RowMarks, StepStates, new_link};
use crate::linker_names::OutputKind;
use crate::passes::Link;
use crate::room::{LinkCaps, LinkRoom};
use crate::spare_keys::SpareKeys;
use bumpalo::Bump;
use elf_model::{LinkCause, LinkRefusal, LinkRow, LinkRowKind, SymbolRole, SymbolUse};
use std::alloc::{AllocError, Global};
use std::hash::RandomState;

/// How a symbol that an argument asks for uses its key.
const ASKED: SymbolUse = SymbolUse {
    role: SymbolRole::Reference,
    restricted: false,
    dropped: false,
    of_library: false,
    absolute: None,
};

/// What is done at an input once more, in a further round of its group.
#[derive(Clone, Copy)]
pub(crate) enum InputState {
    /// It was not reached yet.
    New,
    /// Nothing.
    Done,
    /// The archive of an index is searched again.
    Archive(usize),
    /// It is asked again whether the library of an index is needed.
    Library(usize),
}

/// A group that is open: its first step, and how many keys had been asked for when it was begun.
#[derive(Clone, Copy)]
pub(crate) struct OpenGroup {
    /// The index of its first step.
    pub first: usize,
    /// How many keys had been asked for.
    pub asked: usize,
}

/// Why a link ended early, and the row of the file that is refused, if it has one.
#[derive(Clone, Copy)]
pub struct LinkEnd {
    /// The refusal.
    pub refusal: LinkRefusal,
    /// The row.
    pub row: Option<u32>,
}

/// A link: its keys, its rows and its archives, and the memory for one file at a time.
#[derive(Drop)]
pub struct Resolver<'a> {
    pub(crate) link: Link<'a>,
    pub(crate) tables: ArchiveTables,
    pub(crate) taken: Vec<bool>,
    pub(crate) offers: KeyChains,
    pub(crate) further: KeyChains,
    pub(crate) room: LinkRoom,
    pub(crate) output: OutputKind,
    pub(crate) end: Option<LinkEnd>,
    pub(crate) problems: Vec<bool>,
    pub(crate) spare: SpareKeys,
    pub(crate) libraries: LibraryList,
    pub(crate) kinds: Vec<Option<LinkRowKind>>,
    pub(crate) states: Vec<InputState>,
    pub(crate) groups: Vec<OpenGroup>,
    pub(crate) row: Option<u32>,
}

impl<'a> Resolver<'a> {
    /// Allocates the memory of a link. The names of keys have their bytes in `memory`.
    ///
    /// # Errors
    /// Out of memory.
    pub fn new(
        alloc: Global,
        hasher: RandomState,
        caps: &LinkCaps,
        steps: usize,
        memory: &'a Bump,
    ) -> Result<Resolver<'a>, AllocError>
        ensures fresh { IfOk result IsFresh }
        ensures room { IfOk result (HasRoomOf caps.now steps) }
    {
        let link = new_link(alloc, hasher, caps, memory)?;
        let KeyLists {
            tables,
            offers,
            further,
            spare,
        } = KeyLists::new(alloc, caps)?;
        let RowMarks {
            taken,
            problems,
            kinds,
            libraries,
        } = RowMarks::new(alloc, caps)?;
        let room = LinkRoom::new(alloc, caps)?;
        let StepStates { states, groups } = StepStates::new(alloc, steps)?;
        Ok(Resolver {
            link,
            tables,
            taken,
            offers,
            further,
            room,
            output: OutputKind::PROGRAM,
            end: None,
            problems,
            spare,
            libraries,
            kinds,
            states,
            groups,
            row: None,
        })
    }

    /// Enters a symbol that an argument asks for.
    ///
    /// # Errors
    /// There is no room for it.
    #[tactic(auto, unfolding(elf_model::specs::LinkKeys::symbol_taken))]
    pub fn ask(&mut self, name: &[u8]) -> Result<(), LinkFault>
        ensures asks { OnOk result (AskedNames self.old self.new (name.now ∷ [])) }
        ensures full { IfErr result (NotAsked self.old self.new name.now) }
        ensures limit { IfErr result (IsLinkFault None) }
    {
        match self.link.keys.use_name(name, ASKED, None) {
            Ok(()) => Ok(()),
            Err(fault) => Err(full(0, fault)),
        }
    }

    /// Takes all inputs in their order. The first refusal of a file ends that, and is kept.
    ///
    /// # Errors
    /// A file cannot be opened or read.
    pub fn resolve<F: InputFiles>(
        &mut self,
        files: &mut BudgetedFiles<F>,
        asked: &[&str],
        plan: &LinkPlan,
    ) -> Result<(), LinkFault>
        ensures links { (inputs : LinkInputs) → IsFresh self.old → IsStaticPlan (F.file
            files.old.files) plan.now → plan_steps inputs ≡ plan.now.steps.items → self.new.end ≡
            None → OnOk result (linking_of self.new ≡ linked (files_as_inputs (planned_files (F.file
            files.old.files) plan.now self.old.room.headers)) (map (λ name. name.now) asked.now)
            inputs) }
        ensures listed { (inputs : LinkInputs) → IsFresh self.old → IsStaticPlan (F.file
            files.old.files) plan.now → plan_steps inputs ≡ plan.now.steps.items → self.new.end ≡
            None → OnOk result (AreKeysListed self.new) }
        ensures marked { (inputs : LinkInputs) → IsFresh self.old → IsStaticPlan (F.file
            files.old.files) plan.now → plan_steps inputs ≡ plan.now.steps.items → self.new.end ≡
            None → OnOk result (AreFaultsMarked self.new) }
        ensures problems { (inputs : LinkInputs) (format : Format) (names : FileNames) →
            IsFresh self.old → IsStaticPlan (F.file files.old.files) plan.now →
            plan_steps inputs ≡ plan.now.steps.items → self.new.end ≡ None →
            OnOk result (shown_link true format names self.new
            ≡ lines_of_problems format names (output_of self.new.output) (linking_of self.new)) }
        ensures output { self.new.output ≡ plan.now.output }
        ensures text { F.text files.new.files ≡ F.text files.old.files }
        ensures spends { KeepsToBudget files.old.budget files.new.budget }
        ensures names { (inputs : LinkInputs) → IsFresh self.old → IsStaticPlan (F.file
            files.old.files) plan.now → plan_steps inputs ≡ plan.now.steps.items → self.new.end ≡
            None → OnOk result (HasNames (planned_files (F.file files.old.files) plan.now
            self.old.room.headers) self.new) }
        ensures named { (inputs : LinkInputs) (path : ℕ → List ℕ) → IsFresh self.old → IsStaticPlan
            (F.file files.old.files) plan.now → plan_steps inputs ≡ plan.now.steps.items → ((input :
            ℕ) → F.text files.old.files input ≡ Some (path input)) → self.new.end ≡ None → OnOk
            result (AreRowsNamed (F.text files.new.files) (names_of_files (planned_files (F.file
            files.old.files) plan.now self.old.room.headers) path) self.new) }
        ensures kinds { (inputs : LinkInputs) → IsFresh self.old → IsStaticPlan (F.file
            files.old.files) plan.now → plan_steps inputs ≡ plan.now.steps.items → self.new.end ≡
            None → OnOk result ((index : ℕ) → get_or self.new.kinds.items index None ≡ None) }
        ensures refused { (inputs : LinkInputs) (end : LinkEnd) → IsFresh self.old → IsStaticPlan
            (F.file files.old.files) plan.now → plan_steps inputs ≡ plan.now.steps.items → let all =
            planned_files (F.file files.old.files) plan.now self.old.room.headers in self.new.end ≡
            Some end → OnOk result (EndsLink all plan.now (linked (files_as_inputs all) (map (λ
            name. name.now) asked.now) inputs).rows self.new.link.rows.rows end) }
    {
        let taken = self.take_all(files, asked, plan);
        self.list_by_keys(plan.output);
        self.end_with(taken)
    }

    /// Sets what is made, lists by their keys what the lines of keys name, and marks the rows that
    /// those of faults name.
    fn list_by_keys(&mut self, output: OutputKind)
        ensures same { linking_of self.new ≡ linking_of self.old }
        ensures output { self.new.output ≡ output }
        ensures kinds { self.new.kinds ≡ self.old.kinds }
        ensures lists { HasListRoom self.old → IsOwnLink (linking_of self.old) →
            AreKeysListed self.new }
        ensures marks { HasListRoom self.old → IsOwnLink (linking_of self.old) →
            AreFaultsMarked self.new }
        ensures row { self.new.row ≡ self.old.row }
        ensures room { self.new.room ≡ self.old.room }
    {
        self.chain_entries();
        self.chain_further();
        self.output = output;
        self.mark_problems();
    }

    /// Keeps the refusal at which a link ended, if it ended so.
    ///
    /// # Errors
    /// A file cannot be opened or read.
    fn end_with(&mut self, taken: Result<(), LinkFault>) -> Result<(), LinkFault>
        ensures same { linking_of self.new ≡ linking_of self.old }
        ensures rest { self.new ≡ record self.old { end = self.new.end } }
        ensures ends { self.new.end ≡ None → OnOk result (taken ≡ Ok tt) }
        ensures refused { (end : LinkEnd) → self.new.end ≡ Some end → OnOk result
            ((taken ≡ Err (LinkFault.Refused end.refusal)) × (end.row ≡ self.old.row)) }
        ensures room { self.new.room ≡ self.old.room }
        ensures kinds { self.new.kinds ≡ self.old.kinds }
    {
        match taken {
            Ok(()) => {
                self.end = None;
                Ok(())
            }
            Err(LinkFault::Refused(refusal)) => {
                let row = self.row;
                self.end = Some(LinkEnd { refusal, row });
                Ok(())
            }
            Err(fault) => Err(fault),
        }
    }

    /// Takes all inputs, and lists the libraries that are not needed.
    ///
    /// # Errors
    /// The first fault.
    fn take_all<F: InputFiles>(
        &mut self,
        files: &mut BudgetedFiles<F>,
        asked: &[&str],
        plan: &LinkPlan,
    ) -> Result<(), LinkFault>
        ensures links { (inputs : LinkInputs) → IsFresh self.old → IsStaticPlan (F.file
            files.old.files) plan.now → plan_steps inputs ≡ plan.now.steps.items → OnOk result
            (linking_of self.new ≡ linked (files_as_inputs (planned_files (F.file files.old.files)
            plan.now self.old.room.headers)) (map (λ name. name.now) asked.now) inputs) }
        ensures room { (inputs : LinkInputs) → IsFresh self.old → IsStaticPlan (F.file
            files.old.files) plan.now → plan_steps inputs ≡ plan.now.steps.items → OnOk result
            (HasListRoom self.new) }
        ensures leaves { (inputs : LinkInputs) → IsFresh self.old → IsStaticPlan (F.file
            files.old.files) plan.now → plan_steps inputs ≡ plan.now.steps.items → let all =
            planned_files (F.file files.old.files) plan.now self.old.room.headers in LeavesRows all
            (HasBadScript plan.now) self.new (linked (files_as_inputs all) (map (λ name. name.now)
            asked.now) inputs).rows result }
        ensures text { F.text files.new.files ≡ F.text files.old.files }
        ensures spends { KeepsToBudget files.old.budget files.new.budget }
        ensures names { (inputs : LinkInputs) → IsFresh self.old → IsStaticPlan (F.file
            files.old.files) plan.now → plan_steps inputs ≡ plan.now.steps.items → OnOk result
            (HasNames (planned_files (F.file files.old.files) plan.now self.old.room.headers)
            self.new) }
    {
        self.take_inputs(files, asked, plan)?;
        self.offer_libraries(files)
    }

    /// Enters the symbols that arguments ask for, and takes all inputs.
    ///
    /// # Errors
    /// The first fault.
    #[tactic(auto, using(crate::proofs::ReadBudgetLaws::spends_none))]
    fn take_inputs<F: InputFiles>(
        &mut self,
        files: &mut BudgetedFiles<F>,
        asked: &[&str],
        plan: &LinkPlan,
    ) -> Result<(), LinkFault>
        ensures takes { (inputs : LinkInputs) → IsFresh self.old → IsStaticPlan (F.file
            files.old.files) plan.now → plan_steps inputs ≡ plan.now.steps.items → let all =
            planned_files (F.file files.old.files) plan.now self.old.room.headers in OnOk result
            (TookAll all self.new (linked (files_as_inputs all) (map (λ name. name.now) asked.now)
            inputs)) }
        ensures leaves { (inputs : LinkInputs) → IsFresh self.old → IsStaticPlan (F.file
            files.old.files) plan.now → plan_steps inputs ≡ plan.now.steps.items → let all =
            planned_files (F.file files.old.files) plan.now self.old.room.headers in LeavesRows all
            (HasBadScript plan.now) self.new (linked (files_as_inputs all) (map (λ name. name.now)
            asked.now) inputs).rows result }
        ensures text { F.text files.new.files ≡ F.text files.old.files }
        ensures spends { KeepsToBudget files.old.budget files.new.budget }
        ensures names { (inputs : LinkInputs) → IsFresh self.old → IsStaticPlan (F.file
            files.old.files) plan.now → plan_steps inputs ≡ plan.now.steps.items → OnOk result
            (HasNames (planned_files (F.file files.old.files) plan.now self.old.room.headers)
            self.new) }
    {
        self.ask_all(asked)?;
        self.take_steps(files, plan)
    }

    /// Enters the symbols that arguments ask for.
    ///
    /// # Errors
    /// There is no room for one.
    fn ask_all(&mut self, asked: &[&str]) -> Result<(), LinkFault>
        ensures asks { OnOk result
            (AskedNames self.old self.new (map (λ name. name.now) asked.now)) }
        ensures limit { IfErr result (IsLinkFault None) }
    {
        for name in asked {
            self.ask(name.as_bytes())?;
        }
        Ok(())
    }

    /// Sets what is done at an input once more.
    pub(crate) fn set_state(&mut self, input: u32, state: InputState)
        ensures same { self.new ≡ record self.old { states = self.new.states } }
        ensures sets { self.new.states.items ≡ set self.old.states.items input state }
    {
        if let Some(place) = self.states.get_mut(input as usize) {
            *place = state;
        }
    }

    /// Adds the row of an input, which is that of the file that is read.
    ///
    /// # Errors
    /// `TooManyRows` at 0 if there is no room for it.
    pub(crate) fn add_row(&mut self, kind: LinkRowKind, input: u32) -> Result<u32, LinkFault>
        ensures adds { IfOk result (AddedRowOf self.old self.new (file_row kind input)) }
        ensures row { IfOk result (λ index. self.new.row ≡ Some index) }
        ensures limit { IfErr result (IsLinkFault None) }
        ensures room { self.new.room ≡ self.old.room }
    {
        let row = LinkRow {
            kind,
            input,
            archive: None,
            member: None,
            reason: None,
        };
        match self.link.rows.add(row) {
            Some(index) => {
                self.row = Some(index);
                Ok(index)
            }
            None => refused(0, LinkCause::TooManyRows),
        }
    }

    /// Sets the kind of a row.
    pub(crate) fn set_kind(&mut self, row: u32, kind: LinkRowKind) {
        if let Some(place) = self.kinds.get_mut(row as usize) {
            *place = Some(kind);
        }
    }
}
