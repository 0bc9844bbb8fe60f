//! The walk over what a file's relocations change, in the order in which a loader applies them.
ghost use Rattle.std.specs.Prelude.{◌≡◌, ◌+◌, ◌^◌, ◌<◌, ◌≤◌, ℕ, List, ◌∷◌, Option, IfErr, IfOk, IfSome, Some, true, false};
ghost use Rattle.elf_model.specs.Image.{ImageChange, ImageSource, entry_change, relocation_changes};
ghost use Rattle.elf_model.specs.Records.{r_addend};
ghost use Rattle.elf_record.specs.Rela.{IsRela};
ghost use Rattle.elf_table.specs.Faults.{IsOfCheck};
ghost use Rattle.elf_table.specs.Prelude.{CallReads, fault_of_result};
ghost use Rattle.elf_image.specs.Changes.{AreChangesOf, FindsWord, GoesInTurn, IsUnwanted};
ghost use Rattle.elf_image.specs.Changes.{StoresGiven, TakesChange, image_changes_left, entry_reads};
ghost use Rattle.elf_image.specs.Changes.{IsRelativeEntry, TakesRelative, image_pass, walk_reads};
ghost use Rattle.elf_image.specs.Relocated.{HasEntries, IsHeldRange, IsImageOf};
ghost use Rattle.elf_image.specs.Within.{ImageWithin, StepsImageWalk, WalkAlive};
ghost use Rattle.elf_image.specs.declared.rela_rows.WindowReach.{WindowReach};
ghost use Rattle.elf_image.specs.declared.walk.WalkStep.TheVariants.{End};

use crate::changes::{EntryResult, ImageFile, PlacedBytes, RelocatedBytes};
use crate::entries::{EntryStep, OrderedEntries, OrderedEntry};
use crate::entry::entry_result;
use crate::place::{HeldRange, Place, checked_place, last_place};
use crate::rela_rows::{RelaRow, WindowReach};
use crate::relative_rows::{RelativeRow, RelativeRows, RelativeStep};
use crate::stored::relative_bytes;
use elf_source::{Counted, Source};
use elf_table::Fault;

/// An iterator over what the relocations of a file change: those of the relative relocations, then
/// those of the entries.
#[derive(Drop)]
pub(crate) struct ImageWalk {
    pub(crate) rows: RelativeRows,
    pub(crate) entries: OrderedEntries,
    /// Whether there are no more relative relocations.
    pub(crate) past_rows: bool,
    /// The segment of the last place.
    last: Option<HeldRange>,
    /// The window that is wanted: what cannot store into it is passed by.
    wanted: Option<WindowReach>,
}

/// A step of the walk.
#[derive(Clone, Copy)]
pub(crate) enum WalkStep<'a> {
    /// A relative relocation or an entry that stores bytes.
    Stores(PlacedBytes<'a>),
    /// An entry that lacks an item, with the cause of the refusal that it would be.
    Lacks(OrderedEntry, elf_record::Cause),
    /// Nothing: the walk continues.
    Nothing,
    /// There is nothing more.
    End,
}

/// An entry of R_X86_64_RELATIVE that was read, and its place.
#[derive(Clone, Copy)]
pub(crate) struct RelativeEntry {
    row: RelaRow,
    place: Place,
}

impl ImageWalk {
    /// Creates a walk before the first relocation of a file. If a window of a segment is wanted,
    /// relocations that cannot store into it are passed by; all were checked before.
    pub(crate) fn new(image: &ImageFile<'_, '_>, wanted: Option<WindowReach>) -> ImageWalk
        ensures alive { (size : ℕ) → ImageWithin size image.now → WalkAlive size image.now result }
        ensures wanted { result.wanted ≡ wanted }
        ensures low { (result.past_rows ≡ false) × (result.rows.low ≡ 0) }
        ensures reads { (size : ℕ) → ImageWithin size image.now →
            walk_reads result ≤ image_pass image.now }
        ensures known { (source : ImageSource) → IsImageOf source image.now →
            AreChangesOf source.file image.now result }
        ensures begins { (source : ImageSource) → IsImageOf source image.now →
            image_changes_left source result ≡ relocation_changes source }
    {
        let rows = RelativeRows::new(image.told.compact);
        let entries = OrderedEntries::new(image.told.ranges, wanted, image.chunks);
        ImageWalk {
            rows,
            entries,
            past_rows: false,
            last: None,
            wanted,
        }
    }

    /// Takes one step.
    ///
    /// # Errors
    /// Returns the first refusal, or a fault of the source. Then the walk is of no further use.
    pub(crate) fn step<'a, S: Source>(
        &mut self,
        src: &mut Counted<S>,
        image: &ImageFile<'_, 'a>,
    ) -> Result<WalkStep<'a>, Fault>
        requires image { ImageWithin src.old.seen.size image.now }
        requires walk { WalkAlive src.old.seen.size image.now self.old }
        ensures costs { CallReads src.old src.new (fault_of_result result) (walk_reads self.old) }
        ensures account { src.new.asked + walk_reads self.new
            ≤ src.old.asked + walk_reads self.old }
        ensures alive { IfOk result (λ _. WalkAlive src.old.seen.size image.now self.new) }
        ensures steps { IfOk result (StepsImageWalk self.old self.new) }
        ensures wanted { self.new.wanted ≡ self.old.wanted }
        ensures takes { (source : ImageSource) → src.old.seen.file ≡ Some source.file →
            IsImageOf source image.now → AreChangesOf source.file image.now self.old →
            TakesChange source image.now.leaves self.old.wanted (image_changes_left source self.old)
            (image_changes_left source self.new) result }
        ensures turn { (source : ImageSource) → src.old.seen.file ≡ Some source.file →
            IsImageOf source image.now → AreChangesOf source.file image.now self.old →
            IfOk result (GoesInTurn source.file self.old self.new) }
        ensures known { (source : ImageSource) → src.old.seen.file ≡ Some source.file →
            IsImageOf source image.now → AreChangesOf source.file image.now self.old →
            IfOk result (λ _. AreChangesOf source.file image.now self.new) }
    {
        if self.past_rows {
            return self.entry_step(src, image);
        }
        match self.rows.step(src)? {
            RelativeStep::Row(row) if self.passes(row.address) => Ok(WalkStep::Nothing),
            RelativeStep::Row(row) => {
                Ok(WalkStep::Stores(row_change(image, &mut self.last, row)?))
            }
            RelativeStep::Nothing => Ok(WalkStep::Nothing),
            RelativeStep::Ended => {
                self.past_rows = true;
                Ok(WalkStep::Nothing)
            }
        }
    }

    /// Returns the next entry if it was read, is of R_X86_64_RELATIVE and stores a word into the
    /// segment of the last place, with its place. [`Self::take_relative`] then takes it;
    /// [`Self::step`] would do so too.
    pub(crate) fn relative(&self, image: &ImageFile<'_, '_>) -> Option<RelativeEntry>
        requires { (size : ℕ) × WalkAlive size image.now self.now }
        ensures { IfSome result (IsRelativeEntry image.now self.now) }
    {
        if !self.past_rows {
            return None;
        }
        let row = self.entries.relative()?;
        let place = last_place(image, &self.last, row.entry.r_offset)?;
        Some(RelativeEntry { row, place })
    }

    /// Takes the entry that [`Self::relative`] returned, and returns what it changes.
    #[inline(always)]
    pub(crate) fn take_relative<'a>(
        &mut self,
        image: &ImageFile<'_, 'a>,
        found: &RelativeEntry,
    ) -> PlacedBytes<'a>
        requires alive { (size : ℕ) × WalkAlive size image.now self.old }
        requires found { IsRelativeEntry image.now self.old found.now }
        ensures { TakesRelative image.now self.old self.new result }
    {
        self.entries.pass_relative(&found.row);
        PlacedBytes {
            place: found.place,
            width: 8,
            bytes: relative_bytes(image, &found.row.entry),
        }
    }

    /// Returns `true` if a word at an address is not in the window that is wanted.
    fn passes(&self, address: u64) -> bool
        ensures { result ≡ true → IsUnwanted self.now.wanted address }
    {
        match self.wanted {
            None => false,
            Some(reach) => !reach.has(address),
        }
    }

    /// Takes one step over the entries.
    fn entry_step<'a, S: Source>(
        &mut self,
        src: &mut Counted<S>,
        image: &ImageFile<'_, 'a>,
    ) -> Result<WalkStep<'a>, Fault>
        requires image { ImageWithin src.old.seen.size image.now }
        requires walk { WalkAlive src.old.seen.size image.now self.old }
        requires past { self.old.past_rows ≡ true }
        ensures costs { CallReads src.old src.new (fault_of_result result) (walk_reads self.old) }
        ensures account { src.new.asked + walk_reads self.new
            ≤ src.old.asked + walk_reads self.old }
        ensures alive { IfOk result (λ _. WalkAlive src.old.seen.size image.now self.new) }
        ensures steps { IfOk result (StepsImageWalk self.old self.new) }
        ensures wanted { self.new.wanted ≡ self.old.wanted }
        ensures takes { (source : ImageSource) → src.old.seen.file ≡ Some source.file →
            IsImageOf source image.now → AreChangesOf source.file image.now self.old →
            TakesChange source image.now.leaves self.old.wanted (image_changes_left source self.old)
            (image_changes_left source self.new) result }
        ensures turn { (source : ImageSource) → src.old.seen.file ≡ Some source.file →
            IsImageOf source image.now → AreChangesOf source.file image.now self.old →
            IfOk result (GoesInTurn source.file self.old self.new) }
        ensures known { (source : ImageSource) → src.old.seen.file ≡ Some source.file →
            IsImageOf source image.now → AreChangesOf source.file image.now self.old →
            IfOk result (λ _. AreChangesOf source.file image.now self.new) }
    {
        match self.entries.step(src)? {
            EntryStep::Past => Ok(WalkStep::End),
            EntryStep::Nothing => Ok(WalkStep::Nothing),
            EntryStep::Entry(ordered) => self.entry_change(src, image, ordered),
        }
    }

    /// Returns what an entry changes.
    fn entry_change<'a, S: Source>(
        &mut self,
        src: &mut Counted<S>,
        image: &ImageFile<'_, 'a>,
        ordered: OrderedEntry,
    ) -> Result<WalkStep<'a>, Fault>
        requires image { ImageWithin src.old.seen.size image.now }
        requires last { IfSome self.old.last (IsHeldRange image.now) }
        ensures costs { CallReads src.old src.new (fault_of_result result)
            (entry_reads ordered.entry) }
        ensures last { IfSome self.new.last (IsHeldRange image.now) }
        ensures rows { self.new.rows ≡ self.old.rows }
        ensures entries { self.new.entries ≡ self.old.entries }
        ensures past { self.new.past_rows ≡ self.old.past_rows }
        ensures wanted { self.new.wanted ≡ self.old.wanted }
        ensures goes { IfOk result (λ step. step ≡ End → ⊥) }
        ensures takes { (source : ImageSource) (window : Option WindowReach)
            (rest : List ImageChange) → src.old.seen.file ≡ Some source.file →
            IsImageOf source image.now → HasEntries image.now.told →
            IsRela source.file ordered.at ordered.entry →
            r_addend source.file ordered.at < 2 ^ 64 → TakesChange source image.now.leaves window
            (entry_change source ordered.at ∷ rest) rest result × IfOk result StoresGiven }
    {
        match entry_result(src, image, &mut self.last, &ordered.entry, ordered.at)? {
            EntryResult::Nothing => Ok(WalkStep::Nothing),
            EntryResult::Stores(change) => Ok(WalkStep::Stores(change)),
            EntryResult::Lacks(cause) => Ok(WalkStep::Lacks(ordered, cause)),
        }
    }
}

/// Returns what a relative relocation changes.
fn row_change<'a>(
    image: &ImageFile<'_, 'a>,
    last: &mut Option<HeldRange>,
    row: RelativeRow,
) -> Result<PlacedBytes<'a>, Fault>
    requires { IfSome last.old (IsHeldRange image.now) }
    ensures last { IfSome last.new (IsHeldRange image.now) }
    ensures refusal { IfErr result IsOfCheck }
    ensures found { (source : ImageSource) → IsImageOf source image.now →
        FindsWord source row result }
{
    let place = checked_place(image, last, row.address, 8, row.at)?;
    Ok(PlacedBytes {
        place,
        width: 8,
        bytes: RelocatedBytes::Based,
    })
}
