//! The walk over the relocation entries for a section.
ghost use Rattle.std.specs.Prelude.{◌≡◌, ◌≤◌, ℕ, List, length, IfErr, IfOk};
ghost use Rattle.elf_table.specs.Prelude.{HoldsSectionHeaders, IsOfCheck};
ghost use Rattle.elf_reloc.specs.Walk.{BeginsWalk, FindsEntry, FoundGives, IsWalkAlive, MayWalk};
ghost use Rattle.elf_reloc.specs.Walk.{ReadsEntries, StepGives, StepsWalk, StepsRelocationWalk, WentOn};
ghost use Rattle.elf_reloc.specs.Walk.{walk_left};

use crate::entry::{ApplyTarget, PlacedPatch, RelocationSymbols, entry_change};
use elf_record::Rela;
use elf_source::{Counted, Source};
use elf_table::{Cursor, Fault, Row, Table};

/// An iterator over the relocation entries for a section: the rows of a section of entries, the
/// sections that are still to be read, and how many entries the sections before those have.
#[derive(Drop)]
pub(crate) struct RelocationWalk {
    cursor: Cursor,
    symbols: RelocationSymbols,
    current: u16,
    next: u16,
    count: u128,
}

/// The result of a step of the walk.
pub(crate) enum WalkStep {
    /// An entry that stores bytes.
    Stores(PlacedPatch),
    /// Nothing: the walk continues.
    Nothing,
    /// There are no more entries.
    End,
}

impl RelocationWalk {
    /// Creates a walk before the first entry.
    pub(crate) fn new() -> RelocationWalk
        ensures { BeginsWalk result }
    {
        RelocationWalk {
            cursor: Cursor::new(Table::new(0, 0, 24)),
            symbols: RelocationSymbols {
                linked: None,
                last: None,
            },
            current: 0,
            next: 0,
            count: 0,
        }
    }

    /// Returns the number of entries of the sections that were opened so far.
    pub(crate) fn count(&self) -> u128
        ensures { result ≡ self.now.count }
    {
        self.count
    }

    /// Returns the next entry that stores bytes, or `None` after the last.
    ///
    /// # Errors
    /// Returns the first refusal, or a fault of the source. Then the walk is of no further use.
    pub(crate) fn next<S: Source>(
        &mut self,
        src: &mut Counted<S>,
        target: &ApplyTarget<'_>,
    ) -> Result<Option<PlacedPatch>, Fault>
        requires { MayWalk src.old target.now self.old }
        ensures { StepsRelocationWalk src.old src.new target.now self.old self.new result
            (FoundGives target.now self.old self.new)
            (λ file. FindsEntry file target.now self.old self.new result) }
    {
        'steps: loop {
            match self.step(src, target)? {
                WalkStep::Stores(placed) => return Ok(Some(placed)),
                WalkStep::Nothing => {}
                WalkStep::End => return Ok(None),
            }
        }
    }

    /// Takes one step: an entry, or a section.
    fn step<S: Source>(
        &mut self,
        src: &mut Counted<S>,
        target: &ApplyTarget<'_>,
    ) -> Result<WalkStep, Fault>
        requires { MayWalk src.old target.now self.old }
        ensures { StepsRelocationWalk src.old src.new target.now self.old self.new result
            (StepGives target.now self.old self.new)
            (λ file. StepsWalk file target.now self.old self.new result) }
    {
        if !self.cursor.advance(src)? {
            return self.open(target);
        }
        let row = self.cursor.row();
        let at = row.at;
        let entry = Rela::decode(row.whole());
        match entry_change(src, target, &entry, at, &mut self.symbols)? {
            Some(placed) => Ok(WalkStep::Stores(placed)),
            None => Ok(WalkStep::Nothing),
        }
    }

    /// Moves to the next section: its entries, if it has some for the target.
    fn open(&mut self, target: &ApplyTarget<'_>) -> Result<WalkStep, Fault>
        requires goes { IsWalkAlive target.now.file.loaded.size target.now self.old }
        requires none { self.old.cursor.left ≡ 0 }
        ensures went { IfOk result (WentOn target.now.file.loaded.size target.now self.old
            self.new (StepGives target.now self.old self.new)) }
        ensures refusal { IfErr result IsOfCheck }
        ensures left { walk_left target.now self.new ≤ walk_left target.now self.old }
        ensures walked { (file : List ℕ) → HoldsSectionHeaders file target.now.file.loaded
            target.now.file.store.now → ReadsEntries file target.now self.old →
            StepsWalk file target.now self.old self.new result }
    {
        let section = self.next;
        if section >= target.file.sections() {
            return Ok(WalkStep::End);
        }
        self.next += 1;
        let header = target.file.section(section);
        if !header.applies_to(target.section) {
            return Ok(WalkStep::Nothing);
        }
        let found = target.file.relocations(section)?;
        self.count += u128::from(found.0.len());
        self.cursor = Cursor::new(found.0);
        self.symbols = RelocationSymbols {
            linked: found.1,
            last: None,
        };
        self.current = section;
        Ok(WalkStep::Nothing)
    }
}
