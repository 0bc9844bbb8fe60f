//! The entries of a table, one after another.
ghost use Rattle.std.specs.Prelude.{◌≡◌, ◌+◌, ◌*◌, ◌^◌, ◌<◌, ◌≤◌, ℕ, List, Some, true, false, IfErr, IfOk};
ghost use Rattle.std.specs.Prelude.{IfSome, length, take};
ghost use Rattle.elf_model.specs.Bytes.{slice};
ghost use Rattle.elf_model.specs.Records.{r_addend};
ghost use Rattle.elf_record.specs.Rela.{IsRela};
ghost use Rattle.elf_source.specs.Prelude.{ReadsUpTo};
ghost use Rattle.elf_table.specs.Faults.{IsOfRead, IsReadFault};
ghost use Rattle.elf_table.specs.Windows.{HoldsBytes};
ghost use Rattle.elf_image.specs.RelaRows.{AreFarRows, IsHeldRow, IsRelaRow, PassesEntries, PassesRows, TakesRows};
ghost use Rattle.elf_image.specs.RelaRows.{IsRowFar, is_in_reach};
ghost use Rattle.elf_image.specs.Within.{RelaRowsAlive, IsTableWithin, entries_ahead};

use elf_record::gnu_numbers::R_X86_64_IRELATIVE;
use elf_record::numbers::R_X86_64_COPY;
use elf_record::sizes::RELOCATION_BYTES;
use elf_record::{Rela, u64_at};
use elf_source::{Counted, Source};
use elf_table::{Fault, Table, WINDOW_BYTES, Window};

/// The number of bytes of an entry.
const ROW: usize = RELOCATION_BYTES as usize;
/// The number of bytes that are read at once: whole entries.
const PAGE_BYTES: u64 = 4080;
/// The low byte of the type R_X86_64_COPY.
const COPY: u8 = R_X86_64_COPY as u8;
/// The low byte of the type R_X86_64_IRELATIVE.
const IRELATIVE: u8 = R_X86_64_IRELATIVE as u8;

/// The addresses at which an entry of another type than R_X86_64_COPY may store into a window of a
/// segment: it stores at most 16 bytes.
#[derive(Clone, Copy)]
pub(crate) struct WindowReach {
    pub(crate) first: u64,
    pub(crate) last: u64,
}

impl WindowReach {
    /// Returns `true` if bytes that are stored at an address may be in the window.
    pub(crate) fn has(&self, address: u64) -> bool
        ensures { result ≡ is_in_reach self.now address }
    {
        self.first <= address && address <= self.last
    }
}

/// An entry of a table: its index and its offset in the file.
#[derive(Clone, Copy)]
pub(crate) struct RelaRow {
    pub(crate) index: u64,
    pub(crate) at: u64,
    pub(crate) entry: Rela,
}

/// A cursor over the entries of a table, 24 bytes each. It reads as many as fit in 4,096 bytes at
/// once.
#[derive(Drop)]
pub(crate) struct RelaRows {
    pub(crate) table: Table,
    /// The index of the next entry.
    pub(crate) index: u64,
    pub(crate) window: Window<WINDOW_BYTES>,
}

impl RelaRows {
    /// Creates a cursor before the first entry.
    pub(crate) fn new(table: Table) -> RelaRows
        requires { table.entry ≡ 24 }
        ensures table { result.table ≡ table }
        ensures index { result.index ≡ 0 }
        ensures unread { result.window.unread ≡ 24 * table.count }
        ensures alive { (size : ℕ) → IsTableWithin 24 size table → RelaRowsAlive size result }
        ensures held { (file : List ℕ) → HoldsBytes file result.window }
    {
        let _ = table.entry();
        RelaRows {
            table,
            index: 0,
            window: Window::new(table.at(), table.len() * RELOCATION_BYTES, PAGE_BYTES),
        }
    }

    /// Returns `true` if there are no more entries.
    pub(crate) fn is_empty(&self) -> bool
        ensures none { result ≡ true → self.now.index ≡ self.now.table.count }
        ensures some { result ≡ false → self.now.index ≡ self.now.table.count → ⊥ }
    {
        self.index == self.table.len()
    }

    /// Returns the next entry. If a window of a segment is wanted, entries that cannot store into
    /// it are passed by: then it returns `None` after some of these.
    ///
    /// # Errors
    /// Returns a fault of the read, or the refusal `Budget`, at the next entry's offset.
    pub(crate) fn next<S: Source>(
        &mut self,
        src: &mut Counted<S>,
        wanted: Option<WindowReach>,
    ) -> Result<Option<RelaRow>, Fault>
        requires alive { RelaRowsAlive src.old.seen.size self.old }
        requires some { self.old.index < self.old.table.count }
        ensures reads { ReadsUpTo src.old src.new self.old.window.unread }
        ensures says { IfErr result (IsReadFault src.old src.new self.old.window.unread) }
        ensures fault { IfErr result IsOfRead }
        ensures account { src.new.asked + self.new.window.unread
            ≤ src.old.asked + self.old.window.unread }
        ensures table { self.new.table ≡ self.old.table }
        ensures rises { self.old.index ≤ self.new.index }
        ensures alive { IfOk result (λ _. RelaRowsAlive src.old.seen.size self.new) }
        ensures passes { IfOk result (PassesRows self.old self.new wanted) }
        ensures taken { (file : List ℕ) → src.old.seen.file ≡ Some file →
            HoldsBytes file self.old.window → IfOk result (λ found.
            HoldsBytes file self.new.window × TakesRows file self.old self.new wanted found) }
    {
        self.window.fill_buf(src, RELOCATION_BYTES)?;
        if let Some(reach) = wanted {
            let far = far_rows(self.window.front(), &reach);
            if far > 0 {
                self.pass(far as u64);
                return Ok(None);
            }
        }
        Ok(Some(self.take()))
    }

    /// Returns the next entry if it was read.
    pub(crate) fn held(&self) -> Option<RelaRow>
        requires { (size : ℕ) × RelaRowsAlive size self.now }
        ensures { IfSome result (IsHeldRow self.now) }
    {
        if self.window.front().len() < ROW {
            return None;
        }
        Some(self.front_row())
    }

    /// Returns the next entry, which was read.
    fn front_row(&self) -> RelaRow
        requires alive { (size : ℕ) × RelaRowsAlive size self.now }
        requires some { 24 ≤ length self.now.window.held }
        ensures { IsHeldRow self.now result }
    {
        RelaRow {
            index: self.index,
            at: self.window.at(),
            entry: front_entry(self.window.front()),
        }
    }

    /// Takes the next entry, which was read.
    fn take(&mut self) -> RelaRow
        requires alive { (size : ℕ) × RelaRowsAlive size self.old }
        requires some { 24 ≤ length self.old.window.held }
        ensures passes { PassesEntries self.old self.new 1 }
        ensures index { result.index ≡ self.old.index }
        ensures taken { (file : List ℕ) → HoldsBytes file self.old.window →
            IsRelaRow file self.old result }
    {
        let row = self.front_row();
        self.pass(1);
        row
    }

    /// Passes entries, no more than are ahead; those that were not read are never read.
    pub(crate) fn pass(&mut self, rows: u64)
        requires alive { (size : ℕ) × RelaRowsAlive size self.old }
        requires some { rows ≤ entries_ahead self.old }
        ensures { PassesEntries self.old self.new rows }
    {
        self.window.skip(rows * RELOCATION_BYTES);
        self.index += rows;
    }
}

/// Decodes the entry at the front of some bytes.
fn front_entry(bytes: &[u8]) -> Rela
    requires { 24 ≤ length bytes.now }
    ensures { (file : List ℕ) (at : ℕ) → take 24 bytes.now ≡ slice file at 24 →
        IsRela file at result × (r_addend file at < 2 ^ 64) }
{
    Rela::decode(bytes.first_chunk().unwrap())
}

/// Returns how many entries at the front of some cannot store into a window.
fn far_rows(bytes: &[u8], reach: &WindowReach) -> usize
    ensures few { 24 * result ≤ length bytes.now }
    ensures far { AreFarRows bytes.now reach.now result }
{
    let count = bytes.len() / ROW;
    let mut rows = 0;
    while rows < count && is_far(&bytes[ROW * rows..ROW * rows + ROW], reach) {
        rows += 1;
    }
    rows
}

/// Returns `true` if an entry cannot store into a window: its place is elsewhere, and it is neither
/// of R_X86_64_COPY, which may store any number of bytes, nor of R_X86_64_IRELATIVE, which has
/// another turn.
fn is_far(row: &[u8], reach: &WindowReach) -> bool
    requires { length row.now ≡ 24 }
    ensures { result ≡ true → IsRowFar row.now reach.now }
{
    let kind = row[8];
    if kind == COPY {
        return false;
    }
    if kind == IRELATIVE {
        return false;
    }
    !reach.has(u64_at(row, 0))
}
