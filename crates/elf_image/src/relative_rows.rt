//! The rows of relative relocations.
ghost use Rattle.std.specs.Prelude.{◌≡◌, ◌+◌, ◌*◌, ◌^◌, ◌<◌, ◌≤◌, ℕ, List, ◌∷◌, Some, IfErr, IfOk, IfSome, length, option_map};
ghost use Rattle.std.specs.Prelude.{unwrap_or};
ghost use Rattle.elf_model.specs.Image.{RelativeAddress, word_addresses};
ghost use Rattle.elf_model.specs.Prelude.{field};
ghost use Rattle.elf_model.specs.RelativeRelocations.{base_after};
ghost use Rattle.elf_table.specs.Prelude.{CallReads, fault_of_result};
ghost use Rattle.elf_table.specs.Faults.{IsOfCheck};
ghost use Rattle.elf_table.specs.Cursors.{row_at, unread_bytes};
ghost use Rattle.elf_table.specs.Tables.{size_of};
ghost use Rattle.elf_image.specs.declared.relative_rows.RelativeStep.TheVariants.{Ended};
ghost use Rattle.elf_image.specs.RelativeRows.{AreRowsOf, TakesAddress, relative_left, word_left, words_left};
ghost use Rattle.elf_image.specs.Within.{RowsAlive, StepsRelativeRows, IsTableWithin, row_steps};

use elf_record::{Cause, u64_at};
use elf_source::{Counted, Source};
use elf_table::{Cursor, Fault, Table, refused};

/// The last address of eight bytes that end at 2^64.
const MAX_ADDRESS: u128 = 0xffff_ffff_ffff_fff8;
/// The number of bits of a bitmap, after its lowest one.
const BITMAP_BITS: u32 = 63;

/// A row of relative relocations: the address of a word of 8 bytes in memory, and the file offset
/// of the word of the table that gives it.
#[derive(Clone, Copy)]
pub(crate) struct RelativeRow {
    pub(crate) at: u64,
    pub(crate) address: u64,
}

/// A step of a cursor over rows.
#[derive(Clone, Copy)]
pub(crate) enum RelativeStep {
    /// The next row.
    Row(RelativeRow),
    /// Nothing: the cursor continues.
    Nothing,
    /// There are no more rows.
    Ended,
}

/// A cursor over the rows of a table of relative relocations (gABI 4, Relative Relocation Table).
#[derive(Drop)]
pub(crate) struct RelativeRows {
    pub(crate) cursor: Cursor,
    /// The bits that are left of the word that was read last, if it is a bitmap.
    pub(crate) bits: u64,
    /// How many they are.
    pub(crate) left: u32,
    /// The offset of the word in the file.
    pub(crate) at: u64,
    /// The address of the next bit, if there is one.
    pub(crate) next: Option<u128>,
    /// The lowest address that the next row may have.
    pub(crate) low: u128,
}

impl RelativeRows {
    /// Creates a cursor before the first row of a table of words of 8 bytes.
    pub(crate) fn new(table: Table) -> RelativeRows
        ensures alive { (size : ℕ) → IsTableWithin 8 size table → RowsAlive size result }
        ensures low { result.low ≡ 0 }
        ensures reads { unread_bytes result.cursor ≡ size_of table }
        ensures known { (file : List ℕ) → AreRowsOf file result }
        ensures begins { (file : List ℕ) →
            relative_left file result ≡ words_left file table.at 0 table.count }
    {
        RelativeRows {
            cursor: Cursor::new(table),
            bits: 0,
            left: 0,
            at: 0,
            next: None,
            low: 0,
        }
    }

    /// Takes one step: to the next row, over a bit that is not set, or to the next word.
    ///
    /// # Errors
    /// Returns `Relr` at the word for a bitmap without an address, an address above 2^64 - 8, and
    /// one that is not at least 8 above the one before it. Otherwise returns a fault of the read.
    pub(crate) fn step<S: Source>(&mut self, src: &mut Counted<S>) -> Result<RelativeStep, Fault>
        requires { RowsAlive src.old.seen.size self.old }
        ensures costs { CallReads src.old src.new (fault_of_result result)
            (unread_bytes self.old.cursor) }
        ensures account { src.new.asked + unread_bytes self.new.cursor
            ≤ src.old.asked + unread_bytes self.old.cursor }
        ensures alive { IfOk result (λ _. RowsAlive src.old.seen.size self.new) }
        ensures steps { IfOk result (StepsRelativeRows self.old self.new) }
        ensures takes { (file : List ℕ) → src.old.seen.file ≡ Some file → AreRowsOf file self.old →
            TakesAddress self.old.low self.new.low (relative_left file self.old)
            (relative_left file self.new) result }
        ensures known { (file : List ℕ) → src.old.seen.file ≡ Some file → AreRowsOf file self.old →
            IfOk result (λ _. AreRowsOf file self.new) }
    {
        if self.left > 0 {
            return self.bit();
        }
        if !self.cursor.advance(src)? {
            return Ok(RelativeStep::Ended);
        }
        self.word()
    }

    /// Begins the word that was read, and returns its row if it is an address.
    fn word(&mut self) -> Result<RelativeStep, Fault>
        requires index { 0 < self.old.cursor.index }
        requires whole { length self.old.cursor.row ≡ 8 }
        requires left { self.old.left ≡ 0 }
        ensures cursor { self.new.cursor ≡ self.old.cursor }
        ensures index { self.old.cursor.index ≤ 2 ^ 64 }
        ensures few { self.new.left ≤ 63 }
        ensures next { IfSome self.old.next (λ address.
            address + 504 ≤ 2 ^ 64 + 504 * self.old.cursor.index) →
            IfSome self.new.next (λ address.
            address + 8 * self.new.left ≤ 2 ^ 64 + 504 * self.old.cursor.index) }
        ensures takes { (index : ℕ) → index + 1 ≡ self.old.cursor.index →
            TakesAddress self.old.low self.new.low
            (word_addresses (row_at self.old.cursor.table index) self.old.next
            (field self.old.cursor.row 0 8)) (word_left self.new) result }
        ensures goes { IfOk result (λ step. step ≡ Ended → ⊥) }
        ensures refusal { IfErr result IsOfCheck }
        ensures base { IfOk result (λ _.
            option_map (λ address. address + 8 * self.new.left) self.new.next
            ≡ base_after self.old.next (field self.old.cursor.row 0 8)) }
        ensures based { 0 < self.new.left → (address : ℕ) × (self.new.next ≡ Some address) }
    {
        let row = self.cursor.row();
        let word = u64_at(row.bytes, 0);
        self.at = row.at;
        if word % 2 == 0 {
            self.next = Some(u128::from(word) + 8);
            return self.row(u128::from(word));
        }
        if self.next.is_none() {
            return refused(self.at, Cause::Relr);
        }
        self.bits = word >> 1;
        self.left = BITMAP_BITS;
        Ok(RelativeStep::Nothing)
    }

    /// Goes on to the next bit of a bitmap, and returns its row if it is set.
    fn bit(&mut self) -> Result<RelativeStep, Fault>
        requires left { (0 < self.old.left) × (self.old.left ≤ 63) }
        requires fits { IfSome self.old.next (λ address. address + 8 < 2 ^ 128) }
        ensures cursor { self.new.cursor ≡ self.old.cursor }
        ensures left { self.new.left + 1 ≡ self.old.left }
        ensures next { (most : ℕ) → 504 ≤ most →
            IfSome self.old.next (λ address. address + 8 * self.old.left ≤ most) →
            IfSome self.new.next (λ address. address + 8 * self.new.left ≤ most) }
        ensures after { self.new.next ≡ Some (unwrap_or self.old.next 0 + 8) }
        ensures takes { TakesAddress self.old.low self.new.low (word_left self.old)
            (word_left self.new) result }
        ensures goes { IfOk result (λ step. step ≡ Ended → ⊥) }
        ensures refusal { IfErr result IsOfCheck }
    {
        let address = self.next.unwrap_or(0);
        let is_set = self.bits % 2 == 1;
        self.bits /= 2;
        self.left -= 1;
        self.next = Some(address + 8);
        if is_set {
            return self.row(address);
        }
        Ok(RelativeStep::Nothing)
    }

    /// Returns the row of an address.
    fn row(&mut self, address: u128) -> Result<RelativeStep, Fault>
        ensures cursor { self.new.cursor ≡ self.old.cursor }
        ensures left { self.new.left ≡ self.old.left }
        ensures next { self.new.next ≡ self.old.next }
        ensures same { (self.new.bits ≡ self.old.bits) × (self.new.at ≡ self.old.at) }
        ensures takes { (after : List RelativeAddress) → TakesAddress self.old.low self.new.low
            (record { word_at = self.old.at; address = Some address } ∷ after) after result }
        ensures goes { IfOk result (λ step. step ≡ Ended → ⊥) }
        ensures refusal { IfErr result IsOfCheck }
    {
        if address > MAX_ADDRESS || address < self.low {
            return refused(self.at, Cause::Relr);
        }
        self.low = address + 8;
        Ok(RelativeStep::Row(RelativeRow {
            at: self.at,
            address: address as u64,
        }))
    }
}
