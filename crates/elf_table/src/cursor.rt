//! A cursor over the rows of a table.
ghost use Rattle.std.specs.Prelude.{◌≡◌, ℕ, ◌+◌, ◌<◌, ◌≤◌, List, [], None, Some, Err, IfErr};
ghost use Rattle.elf_source.specs.Prelude.{ReadsOnward, ReadsUpTo};
ghost use Rattle.elf_table.specs.Cursors.{Advances, ShowsRow, asked_to, unread_bytes};
ghost use Rattle.elf_table.specs.declared.fault.Fault.{Fault};
ghost use Rattle.elf_table.specs.Faults.{IsReadFault};
ghost use Rattle.elf_table.specs.Tables.{TableInBounds, size_of};

use crate::fault::Fault;
use crate::row::Row;
use crate::table::Table;
use crate::window::{WINDOW_BYTES, Window};
use elf_source::{Counted, Source};
use std::marker::Model;

/// A cursor over the rows of a table. It reads as many whole rows at once as fit in 4,096 bytes,
/// never past the table's end, and each row is borrowed from that buffer.
#[derive(Drop)]
pub struct Cursor {
    table: Table,
    index: u64,
    window: Window<WINDOW_BYTES>,
    shown: u64,
    failed: Option<Fault>,
}

impl Model for Cursor {
    ghost use Rattle.std.specs.Prelude.{◌≡◌, ◌+◌, ◌-◌, ◌≤◌, length, take, drop, None};
    ghost use Rattle.elf_table.specs.Cursors.{CursorState, IsAtRow, page_of};
    ghost use Rattle.elf_table.specs.Tables.{size_of};
    ghost use Rattle.elf_table.specs.Windows.{range_end};

    ghost Value = { CursorState };

    ghost view = { λ c. record {
      table = c.table;
      index = c.index;
      left = c.table.count - c.index;
      unread = c.window.unread;
      held = drop c.shown c.window.held;
      row = take c.shown c.window.held;
      failed = c.failed;
    } };

    ghost invariant = { λ c. (c.index ≤ c.table.count) × (c.shown ≤ length c.window.held)
        × (c.window.page ≡ page_of c.table.entry)
        × (range_end c.window ≡ c.table.at + size_of c.table)
        × (c.failed ≡ None → IsAtRow c.table c.index c.shown c.window) };
}

impl Cursor {
    /// Creates a cursor before the first row of `table`.
    pub fn new(table: Table) -> Cursor
        ensures table { result.table ≡ table }
        ensures index { result.index ≡ 0 }
        ensures left { result.left ≡ table.count }
        ensures unread { result.unread ≡ size_of table }
        ensures held { result.held ≡ [] }
        ensures failed { result.failed ≡ None }
    {
        let entry = table.entry();
        let page = WINDOW_BYTES as u64 / entry * entry;
        Cursor {
            table,
            index: 0,
            window: Window::new(table.at(), table.len() * entry, page),
            shown: 0,
            failed: None,
        }
    }

    /// Advances to the next row and returns whether there is one. A table with rows ends within the
    /// source's length. All calls together read no more than the table's bytes, each byte at most
    /// once.
    ///
    /// # Errors
    /// Returns a fault of a read, or the refusal `Budget`, at the next row's offset. Each later
    /// call returns the same and reads nothing.
    pub fn advance<S: Source>(&mut self, src: &mut Counted<S>) -> Result<bool, Fault>
        requires { TableInBounds src.old.seen.size self.old.table }
        ensures reads { ReadsUpTo src.old src.new (unread_bytes self.old) }
        ensures says { self.old.failed ≡ None →
            IfErr result (IsReadFault src.old src.new (unread_bytes self.old)) }
        ensures account { src.new.asked + unread_bytes self.new
            ≤ src.old.asked + unread_bytes self.old }
        ensures onward { ReadsOnward S.one_read src.old.source src.new.source
            (asked_to self.old) (asked_to self.new) }
        ensures steps { Advances src.old.seen.file self.old self.new result }
        ensures again { (fault : Fault) → self.old.failed ≡ Some fault →
            (result ≡ Err fault) × (src.new ≡ src.old) × (self.new ≡ self.old) }
    {
        if let Some(fault) = self.failed {
            return Err(fault);
        }
        if self.index == self.table.len() {
            return Ok(false);
        }
        self.window.skip(self.shown);
        self.shown = 0;
        let entry = self.table.entry();
        if let Err(fault) = self.window.fill_buf(src, entry) {
            self.failed = Some(fault);
            return Err(fault);
        }
        self.index += 1;
        self.shown = entry;
        Ok(true)
    }

    /// Returns the current row: its index, its file offset and its bytes. After a fault it has no
    /// bytes.
    pub fn row(&self) -> Row<'_>
        requires { 0 < self.now.index }
        ensures { ShowsRow self.now result }
    {
        let index = self.index - 1;
        Row {
            index,
            at: self.table.place(index),
            bytes: &self.window.front()[..self.shown as usize],
        }
    }
}

impl Cursor {
    ghost use Rattle.std.specs.Prelude.{◌≡◌, ◌+◌, ◌≤◌, ⊤, None, Some, Err, IfErr};
    ghost use mathlib.Core.Option.{none};
    ghost use denote.Follow.{follows_so};
    ghost use Rattle.std.specs.Borrow.{sem};
    ghost use Rattle.elf_source.specs.Prelude.{ReadsOnward, ReadsUpTo};
    ghost use Rattle.elf_table.specs.Cursors.{Steps, asked_to, unread_bytes};
    ghost use Rattle.elf_table.specs.Faults.{IsReadFault};
    ghost use Rattle.elf_table.specs.Tables.{TableInBounds};
    ghost use Rattle.elf_table.specs.contracts.cursor.Cursor.{the_row};
    ghost use Rattle.elf_table.specs.declared.fault.Fault.{Fault};

    /// Returns the next row, borrowed from the cursor's window until the next call, or `None` after
    /// the last row.
    ///
    /// # Errors
    /// As for [`Cursor::advance`].
    pub fn next<S: Source>(&mut self, src: &mut Counted<S>) -> Result<Option<Row<'_>>, Fault>
        requires { TableInBounds src.old.seen.size self.old.table }
        ensures reads { ReadsUpTo src.old src.new (unread_bytes self.old) }
        ensures says { self.old.failed ≡ None →
            IfErr result (IsReadFault src.old src.new (unread_bytes self.old)) }
        ensures again { (fault : Fault) → self.old.failed ≡ Some fault →
            (result ≡ Err fault) × (src.new ≡ src.old) }
        ensures* after { sem 𝓛 (follows_so the_row the_row self.entry.ghost_name none (λ _ _. ⊤)
            (λ new. (src.new.asked + unread_bytes new ≤ src.old.asked + unread_bytes self.old)
            × Steps src.old.seen.file self.old new result
            × ReadsOnward S.one_read src.old.source src.new.source
            (asked_to self.old) (asked_to new))) }
    {
        if !self.advance(src)? {
            return Ok(None);
        }
        Ok(Some(self.row()))
    }
}
