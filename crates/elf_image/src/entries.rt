//! The relocation entries in the order in which a loader applies them.
ghost use Rattle.std.specs.Prelude.{◌≡◌, ◌+◌, ◌*◌, ◌<◌, ◌≤◌, nat_lt, ℕ, Bool, false, true, IfErr};
ghost use Rattle.std.specs.Prelude.{IfOk, IfSome, List, [], ◌∷◌, Some};
ghost use Rattle.elf_model.specs.Image.{ImageSource, is_resolved};
ghost use Rattle.elf_record.specs.Rela.{IsRela};
ghost use Rattle.elf_table.specs.Prelude.{CallReads, IsOfCheck, fault_of_result};
ghost use Rattle.elf_image.specs.Chunks.{HoldsChunks};
ghost use Rattle.elf_image.specs.RelaRows.{IsFarRow, PassesEntries, entry_place};
ghost use Rattle.elf_image.specs.EntryOrder.{IsHeldRelative};
ghost use Rattle.elf_image.specs.EntryOrder.{AreOrderedEntries, BeginsPart, HasOrderedEntry, IsNumberedPart, IsPartTable};
ghost use Rattle.elf_image.specs.EntryOrder.{TakesOrderedEntry, TakesRow, entry_changes_left, entries_reads, is_noted};
ghost use Rattle.elf_image.specs.EntryOrder.{is_unsupported};
ghost use Rattle.elf_image.specs.EntryOrder.{part_changes, part_kind, parts_left, range_table};
ghost use Rattle.elf_image.specs.EntryOrder.{relative_from, symbol_reads, symbols_left};
ghost use Rattle.elf_image.specs.Within.{EntriesAlive, RelaRowsAlive, RangesWithin, StepsOrderedEntries};
ghost use Rattle.elf_image.specs.Within.{IsTableWithin, entries_ahead};
ghost use Rattle.elf_image.specs.declared.entries.EntryStep.TheVariants.{Past};

use crate::chunks::EntryChunks;
use crate::ranges::EntryRanges;
use crate::rela_rows::{RelaRow, RelaRows, WindowReach};
use elf_record::gnu_numbers::R_X86_64_IRELATIVE;
use elf_record::numbers::R_X86_64_RELATIVE;
use elf_record::sizes::RELOCATION_BYTES;
use elf_record::{Cause, Rela};
use elf_source::{Counted, Source};
use elf_table::{Fault, Table, refused};

/// A part of the order: the entries of a table that are of R_X86_64_IRELATIVE, or those that are
/// not.
#[derive(Clone, Copy)]
struct EntryPart {
    table: Table,
    indirect: bool,
    /// Whether it is the second table.
    second: bool,
}

/// An entry in its order.
#[derive(Clone, Copy)]
pub(crate) struct OrderedEntry {
    pub(crate) entry: Rela,
    /// Its offset in the file.
    pub(crate) at: u64,
}

/// A step of a cursor over entries.
#[derive(Clone, Copy)]
pub(crate) enum EntryStep {
    /// The next entry.
    Entry(OrderedEntry),
    /// Nothing: the cursor continues.
    Nothing,
    /// There are no more entries.
    Past,
}

/// A cursor over the entries of two ranges in the order in which a loader applies them: in each
/// range those that are not of R_X86_64_IRELATIVE, and then the others.
#[derive(Drop)]
pub(crate) struct OrderedEntries {
    pub(crate) ranges: EntryRanges,
    pub(crate) rows: RelaRows,
    part: EntryPart,
    /// How many parts were begun, of four.
    pub(crate) begun: u8,
    /// Whether the first table has an entry of R_X86_64_IRELATIVE, and whether the second has.
    indirect: (bool, bool),
    /// The window that is wanted: entries that cannot store into it are passed by.
    wanted: Option<WindowReach>,
    /// At which addresses entries of the first table store: all that are returned are noted if no
    /// window is wanted.
    pub(crate) chunks: EntryChunks,
}

impl OrderedEntries {
    /// Creates a cursor before the first entry.
    pub(crate) fn new(
        ranges: EntryRanges,
        wanted: Option<WindowReach>,
        chunks: EntryChunks,
    ) -> OrderedEntries
        ensures alive { (size : ℕ) → RangesWithin size ranges → EntriesAlive size result }
        ensures ranges { result.ranges ≡ ranges }
        ensures wanted { result.wanted ≡ wanted }
        ensures begins { (source : ImageSource) →
            entry_changes_left source result ≡ parts_left source ranges 0 }
        ensures known { (file : List ℕ) → HoldsChunks file ranges.first.at chunks →
            AreOrderedEntries file result }
        ensures reads { entries_reads result ≤ 72 * (ranges.first.count + ranges.second.count) }
    {
        let table = Table::new(0, 0, RELOCATION_BYTES);
        OrderedEntries {
            ranges,
            rows: RelaRows::new(table),
            part: EntryPart {
                table,
                indirect: false,
                second: false,
            },
            begun: 0,
            indirect: (false, false),
            wanted,
            chunks,
        }
    }

    /// Takes one step: to the next entry, over one that has another turn, or to the next part.
    ///
    /// # Errors
    /// Returns `Unsupported` at one of the first entries that is not of R_X86_64_RELATIVE, as it
    /// should be. Otherwise returns a fault of the read, or the refusal `Budget`.
    pub(crate) fn step<S: Source>(&mut self, src: &mut Counted<S>) -> Result<EntryStep, Fault>
        requires { EntriesAlive src.old.seen.size self.old }
        ensures costs { CallReads src.old src.new (fault_of_result result)
            (entries_reads self.old) }
        ensures account { src.new.asked + entries_reads self.new + symbol_reads result
            ≤ src.old.asked + entries_reads self.old }
        ensures alive { IfOk result (λ _. EntriesAlive src.old.seen.size self.new) }
        ensures steps { IfOk result (StepsOrderedEntries self.old self.new) }
        ensures ranges { self.new.ranges ≡ self.old.ranges }
        ensures wanted { self.new.wanted ≡ self.old.wanted }
        ensures some { IfOk result (HasOrderedEntry self.old.ranges) }
        ensures takes { (source : ImageSource) → src.old.seen.file ≡ Some source.file →
            AreOrderedEntries source.file self.old → TakesOrderedEntry source self.old.wanted
            (entry_changes_left source self.old) (entry_changes_left source self.new) result }
        ensures known { (file : List ℕ) → src.old.seen.file ≡ Some file →
            AreOrderedEntries file self.old → IfOk result (λ _. AreOrderedEntries file self.new) }
    {
        if self.rows.is_empty() {
            if self.begun >= 4 {
                return Ok(EntryStep::Past);
            }
            self.begin_part();
            return Ok(EntryStep::Nothing);
        }
        let far = self.far_entries();
        if far > 0 {
            self.rows.pass(far);
            return Ok(EntryStep::Nothing);
        }
        match self.rows.next(src, self.wanted)? {
            Some(row) => self.taken(row),
            None => Ok(EntryStep::Nothing),
        }
    }

    /// Returns how many of the next entries are known not to store into the window that is wanted.
    fn far_entries(&self) -> u64
        requires { self.now.rows.index ≤ self.now.rows.table.count }
        ensures few { result ≤ entries_ahead self.now.rows }
        ensures far { (file : List ℕ) (i : ℕ) → AreOrderedEntries file self.now →
            self.now.rows.index ≤ i → i < self.now.rows.index + result →
            IsFarRow file (entry_place self.now.rows i) self.now.wanted }
    {
        let Some(reach) = self.wanted else {
            return 0;
        };
        if self.part.indirect || self.part.second {
            return 0;
        }
        let ahead = self.rows.table.len() - self.rows.index;
        let far = self.chunks.far_from(self.rows.index, &reach);
        far.min(ahead)
    }

    /// Returns the next entry if it was read, is of R_X86_64_RELATIVE and in a part of such entries,
    /// and may store into the window that is wanted.
    pub(crate) fn relative(&self) -> Option<RelaRow>
        requires { (size : ℕ) × RelaRowsAlive size self.now.rows }
        ensures { IfSome result (IsHeldRelative self.now) }
    {
        if self.part.indirect {
            return None;
        }
        let row = self.rows.held()?;
        if row.entry.kind() != R_X86_64_RELATIVE || !self.may_want(row.entry.r_offset) {
            return None;
        }
        Some(row)
    }

    /// Returns `true` if an entry at an address may store into the window that is wanted.
    fn may_want(&self, address: u64) -> bool {
        match &self.wanted {
            Some(reach) => reach.has(address),
            None => true,
        }
    }

    /// Passes the entry that [`Self::relative`] returned.
    pub(crate) fn pass_relative(&mut self, row: &RelaRow)
        requires alive { (size : ℕ) × RelaRowsAlive size self.old.rows }
        requires held { IsHeldRelative self.old row.now }
        ensures rows { PassesEntries self.old.rows self.new.rows 1 }
        ensures ranges { self.new.ranges ≡ self.old.ranges }
        ensures begun { self.new.begun ≡ self.old.begun }
        ensures part { self.new.part ≡ self.old.part }
        ensures noted { self.new.indirect ≡ self.old.indirect }
        ensures wanted { self.new.wanted ≡ self.old.wanted }
        ensures chunks { (file : List ℕ) → AreOrderedEntries file self.old →
            HoldsChunks file self.old.ranges.first.at self.new.chunks }
    {
        self.note(row);
        self.rows.pass(1);
    }

    /// Notes at which address an entry of the part stores, unless a window is wanted.
    fn note(&mut self, row: &RelaRow)
        ensures rows { self.new.rows ≡ self.old.rows }
        ensures ranges { self.new.ranges ≡ self.old.ranges }
        ensures begun { self.new.begun ≡ self.old.begun }
        ensures part { self.new.part ≡ self.old.part }
        ensures noted { self.new.indirect ≡ self.old.indirect }
        ensures wanted { self.new.wanted ≡ self.old.wanted }
        ensures chunks { (file : List ℕ) → IsRela file row.now.at row.now.entry → row.now.at
            ≡ (range_table self.old.ranges self.old.part.second).at + 24 * row.now.index →
            HoldsChunks file self.old.ranges.first.at self.old.chunks →
            HoldsChunks file self.old.ranges.first.at self.new.chunks }
    {
        if self.wanted.is_none() && !self.part.second {
            self.chunks.note(row.index, &row.entry);
        }
    }

    /// Begins the next part; one without entries of its type has no rows.
    fn begin_part(&mut self)
        requires begun { self.old.begun < 4 }
        requires within { (size : ℕ) × RangesWithin size self.old.ranges }
        ensures begins { BeginsPart self.old self.new }
        ensures alive { (size : ℕ) → RangesWithin size self.old.ranges →
            RelaRowsAlive size self.new.rows }
        ensures few { entries_ahead self.new.rows
            ≤ self.old.ranges.first.count + self.old.ranges.second.count }
    {
        let part = self.part_of(self.begun);
        let rows = RelaRows::new(part.table);
        self.part = part;
        self.begun += 1;
        self.rows = rows;
    }

    /// Returns the part of a number below 4.
    fn part_of(&self, number: u8) -> EntryPart
        ensures within { (size : ℕ) → RangesWithin size self.now.ranges →
            IsTableWithin 24 size result.table }
        ensures few { result.table.count
            ≤ self.now.ranges.first.count + self.now.ranges.second.count }
        ensures kind { IsNumberedPart self.now.ranges.joined number result }
        ensures table { IsPartTable self.now.ranges self.now.indirect result result.table }
    {
        let (second, indirect) = part_kind(self.ranges.joined, number);
        let noted = self.is_noted(second);
        if indirect && !noted {
            return EntryPart {
                table: Table::new(0, 0, RELOCATION_BYTES),
                indirect,
                second,
            };
        }
        EntryPart {
            table: self.table(second),
            indirect,
            second,
        }
    }

    /// Returns the first table, or the second.
    fn table(&self, second: bool) -> Table
        ensures { result ≡ range_table self.now.ranges second }
    {
        if second {
            self.ranges.second
        } else {
            self.ranges.first
        }
    }

    /// Returns `true` if the first table, or the second, is known to have an entry of
    /// R_X86_64_IRELATIVE.
    fn is_noted(&self, second: bool) -> bool
        ensures { result ≡ is_noted self.now.indirect second }
    {
        if second {
            self.indirect.1
        } else {
            self.indirect.0
        }
    }

    /// Returns `true` if the entry of an index in the part's table is one of those at the start of
    /// the first range that should be of R_X86_64_RELATIVE.
    fn is_relative(&self, index: u64) -> bool
        ensures { result ≡ nat_lt 0 (relative_from self.now.ranges self.now.part.second index) }
    {
        if !self.part.second {
            return index < self.ranges.relative;
        }
        if !self.ranges.joined {
            return false;
        }
        let before = u128::from(self.ranges.first.len());
        before + u128::from(index) < u128::from(self.ranges.relative)
    }

    /// Returns `true` if an entry of a type should be of R_X86_64_RELATIVE, but is not.
    fn is_unsupported(&self, index: u64, kind: u32) -> bool
        ensures { result ≡ is_unsupported self.now.ranges self.now.part.second index kind }
    {
        self.is_relative(index) && kind != R_X86_64_RELATIVE
    }

    /// Returns the entry that was read, if it belongs to the part.
    fn taken(&mut self, row: RelaRow) -> Result<EntryStep, Fault>
        ensures rows { self.new.rows ≡ self.old.rows }
        ensures ranges { self.new.ranges ≡ self.old.ranges }
        ensures begun { self.new.begun ≡ self.old.begun }
        ensures part { self.new.part ≡ self.old.part }
        ensures wanted { self.new.wanted ≡ self.old.wanted }
        ensures keeps { (second : Bool) → is_noted self.new.indirect second ≡ false →
            is_noted self.old.indirect second ≡ false }
        ensures noted { IfOk result (λ _. (file : List ℕ) → IsRela file row.at row.entry →
            self.old.part.indirect ≡ false →
            is_noted self.new.indirect self.old.part.second ≡ false →
            is_resolved file row.at ≡ false) }
        ensures goes { IfOk result (λ step. step ≡ Past → ⊥) }
        ensures check { IfErr result IsOfCheck }
        ensures chunks { (file : List ℕ) → IsRela file row.at row.entry →
            (self.old.part.indirect ≡ false → row.at
            ≡ (range_table self.old.ranges self.old.part.second).at + 24 * row.index) →
            HoldsChunks file self.old.ranges.first.at self.old.chunks →
            HoldsChunks file self.old.ranges.first.at self.new.chunks }
        ensures symbol { symbol_reads result ≤ symbols_left self.old.part.indirect 1 }
        ensures takes { (source : ImageSource) → IsRela source.file row.at row.entry →
            TakesRow source row (part_changes source self.old.part.indirect
            (relative_from self.old.ranges self.old.part.second row.index) (row.at ∷ [])) result }
    {
        let kind = row.entry.kind();
        if self.part.indirect {
            if kind == R_X86_64_IRELATIVE {
                return Ok(row_step(row));
            }
            return Ok(EntryStep::Nothing);
        }
        if self.is_unsupported(row.index, kind) {
            return refused(row.at, Cause::Unsupported);
        }
        self.note(&row);
        if kind == R_X86_64_IRELATIVE {
            self.note_indirect();
            return Ok(EntryStep::Nothing);
        }
        Ok(row_step(row))
    }

    /// Notes that the table of the part has an entry of R_X86_64_IRELATIVE.
    fn note_indirect(&mut self)
        ensures rows { self.new.rows ≡ self.old.rows }
        ensures ranges { self.new.ranges ≡ self.old.ranges }
        ensures begun { self.new.begun ≡ self.old.begun }
        ensures part { self.new.part ≡ self.old.part }
        ensures wanted { self.new.wanted ≡ self.old.wanted }
        ensures chunks { self.new.chunks ≡ self.old.chunks }
        ensures noted { is_noted self.new.indirect self.old.part.second ≡ true }
        ensures keeps { (second : Bool) → is_noted self.new.indirect second ≡ false →
            is_noted self.old.indirect second ≡ false }
    {
        if self.part.second {
            self.indirect.1 = true;
        } else {
            self.indirect.0 = true;
        }
    }
}

/// Returns whether the part of a number below 4 is of the second table, and whether it is of the
/// entries of R_X86_64_IRELATIVE.
fn part_kind(joined: bool, number: u8) -> (bool, bool)
    ensures { result ≡ part_kind joined number }
{
    match number {
        0 => (false, false),
        1 => (joined, !joined),
        2 => (!joined, joined),
        _ => (true, true),
    }
}

/// Returns the step to an entry.
fn row_step(row: RelaRow) -> EntryStep
    ensures { result ≡ EntryStep.Entry (record { entry = row.entry; at = row.at }) }
{
    EntryStep::Entry(OrderedEntry {
        entry: row.entry,
        at: row.at,
    })
}
