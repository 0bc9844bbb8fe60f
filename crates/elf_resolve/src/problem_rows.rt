//! The rows of files that the faults of a link name.
ghost use Rattle.std.specs.Prelude.{◌≡◌, ◌/◌, ◌≤◌, ◌∷◌, ℕ, List, None, [], false, get_or, length, map};
ghost use Rattle.std.specs.List.{slice_get};
ghost use Rattle.elf_resolve.specs.EntryRows.{AreConsecutive, row_with_entry};
ghost use Rattle.elf_resolve.specs.KeyChains.{IsListFrom, first_number};
ghost use Rattle.elf_resolve.specs.LinkerNames.{output_of};
ghost use Rattle.elf_resolve.specs.MarkedRows.{AreMarked, archive_of_row, further_row, rows_found_after, rows_of_fault, rows_of_faults, with_mark};
ghost use Rattle.elf_resolve.specs.Resolved.{linking_of};
ghost use Rattle.elf_resolve.specs.StaticLinks.{AreKeysListed};

use crate::key_lines::{definer, referrer};
use crate::key_states::FoundState;
use crate::resolver::Resolver;
use elf_model::{FurtherDefinition, LinkRow};

impl Resolver<'_> {
    /// Marks the rows that the lines of faults name.
    pub(crate) fn mark_problems(&mut self)
        ensures same { self.new ≡ record self.old { problems = self.new.problems } }
        ensures marks { AreKeysListed self.old →
            let made = linking_of self.old in
            AreMarked self.old.link.rows
            (rows_of_faults (output_of self.old.output) made made.keys.order)
            self.old.problems.items self.new.problems.items }
    {
        for place in 0..self.link.keys.order().len() {
            let key = key_at(self.link.keys.order(), place);
            self.mark_key(key);
        }
    }

    /// Marks the rows that the lines of a key name, if it is a fault.
    fn mark_key(&mut self, key: u32)
        ensures same { self.new ≡ record self.old { problems = self.new.problems } }
        ensures marks { AreKeysListed self.old → AreMarked self.old.link.rows
            (rows_of_fault (output_of self.old.output) (linking_of self.old) key)
            self.old.problems.items self.new.problems.items }
    {
        let entry = self.settled(key);
        if !entry.is_own {
            return;
        }
        let state = self.state_of(key, &entry);
        let fails = state.is_fault();
        if !fails {
            return;
        }
        self.mark(definer(&entry));
        self.mark(referrer(&entry));
        self.mark_after(key, state);
    }

    /// Marks the rows that the lines after that of a key name.
    fn mark_after(&mut self, key: u32, state: FoundState)
        ensures same { self.new ≡ record self.old { problems = self.new.problems } }
        ensures marks { AreKeysListed self.old → AreMarked self.old.link.rows
            (rows_found_after (linking_of self.old) key state)
            self.old.problems.items self.new.problems.items }
    {
        if state.is_multiple() {
            self.mark_further(key);
            return;
        }
        if !state.has_offers() {
            return;
        }
        self.mark_offers(key);
        self.mark_spare(key);
    }

    /// Marks the row of a file, and of a member that of its archive.
    fn mark(&mut self, row: Option<u32>)
        ensures same { self.new ≡ record self.old { problems = self.new.problems } }
        ensures marks { AreMarked self.old.link.rows (row ∷ [])
            self.old.problems.items self.new.problems.items }
    {
        let Some(row) = row else {
            return;
        };
        let archive = archive_at(self.link.rows.rows(), row);
        set_mark(&mut self.problems, Some(row));
        set_mark(&mut self.problems, archive);
    }

    /// Marks the rows of the further definitions of a key.
    fn mark_further(&mut self, key: u32)
        ensures same { self.new ≡ record self.old { problems = self.new.problems } }
        ensures marks { (places : List ℕ) →
            IsListFrom self.old.further (first_number self.old.further key) places →
            length places ≤ self.old.further.numbers → AreMarked self.old.link.rows
            (map (further_row self.old.link.keys.keys.further) places)
            self.old.problems.items self.new.problems.items }
    {
        let mut next = self.further.first(key);
        for _turn in 0..self.further.most() {
            let Some(place) = next else {
                break;
            };
            let row = further_at(self.link.keys.further(), place);
            self.mark(row);
            next = self.further.after(place);
        }
    }

    /// Marks the rows of the archives that have a key.
    fn mark_offers(&mut self, key: u32)
        ensures same { self.new ≡ record self.old { problems = self.new.problems } }
        ensures marks { (from count : ℕ) (numbers : List ℕ) →
            AreConsecutive from self.old.tables.archives.items count →
            IsListFrom self.old.offers (first_number self.old.offers key) numbers →
            length numbers ≤ self.old.offers.numbers → AreMarked self.old.link.rows
            (map (λ n. row_with_entry self.old.tables.archives.items (n / 2)) numbers)
            self.old.problems.items self.new.problems.items }
    {
        let mut next = self.offers.first(key);
        for _turn in 0..self.offers.most() {
            let Some(place) = next else {
                break;
            };
            let row = self.tables.row_of_entry(place / 2);
            self.mark(row);
            next = self.offers.after(place);
        }
    }

    /// Marks the rows of the libraries that are not needed and have a key.
    fn mark_spare(&mut self, key: u32)
        ensures same { self.new ≡ record self.old { problems = self.new.problems } }
        ensures none { first_number self.old.spare.chains key ≡ None → self.new ≡ self.old }
    {
        let mut next = self.spare.first(key);
        for _turn in 0..self.spare.most() {
            let Some(place) = next else {
                break;
            };
            let row = self.spare.row(place);
            self.mark(row);
            next = self.spare.after(place);
        }
    }

    /// Returns `true` if a line of a fault names a row.
    pub(crate) fn is_in_problem(&self, row: u32) -> bool
        ensures { result ≡ get_or self.now.problems.items row false }
    {
        match self.problems.get(row as usize) {
            Some(mark) => *mark,
            None => false,
        }
    }
}

/// Returns the key at a place of an order, or the first key if there is none.
fn key_at(order: &[u32], place: usize) -> u32
    ensures { result ≡ get_or order.now place 0 }
{
    match order.get(place) {
        Some(key) => *key,
        None => 0,
    }
}

/// Returns the row of the further definition at a place.
fn further_at(further: &[FurtherDefinition], place: usize) -> Option<u32>
    ensures { result ≡ further_row further.now place }
{
    match further.get(place) {
        Some(further) => further.row,
        None => None,
    }
}

/// Returns the row of the archive of a member, by its own row.
fn archive_at(rows: &[LinkRow], row: u32) -> Option<u32>
    ensures { result ≡ archive_of_row (slice_get rows.now row) }
{
    match rows.get(row as usize) {
        Some(row) => row.archive,
        None => None,
    }
}

/// Marks a row, if there is one.
fn set_mark(marks: &mut Vec<bool>, row: Option<u32>)
    ensures { marks.new.items ≡ with_mark marks.old.items row }
{
    if let Some(row) = row {
        if let Some(mark) = marks.get_mut(row as usize) {
            *mark = true;
        }
    }
}
