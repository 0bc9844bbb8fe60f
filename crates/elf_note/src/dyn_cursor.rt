//! A cursor over the dynamic entries of a table.
ghost use Rattle.std.specs.Prelude.{◌≡◌, ◌==◌, ℕ, ◌<◌, List, length};
ghost use Rattle.elf_model.specs.Prelude.{DT_NULL, d_tag, slice};
ghost use Rattle.elf_record.specs.Dyn.{IsDyn};
ghost use Rattle.elf_table.specs.Prelude.{ShowsRow, TableInBounds, unread_bytes};
ghost use Rattle.elf_note.specs.DynCursors.{AdvancesEntries, KeepsEntries, StartsEntries};
ghost use Rattle.elf_note.specs.Steps.{StepReads};

use elf_record::Dyn;
use elf_record::numbers::DT_NULL;
use elf_source::{Counted, Source};
use elf_table::{Cursor, Fault, Row, Table};
use std::marker::Model;

/// A cursor over the dynamic entries of a table, of a section or of a segment (gABI 5, Dynamic
/// Section). It reads as a cursor over rows does, and yields the rows up to and including the first
/// whose tag is DT_NULL, or all.
#[derive(Drop)]
pub struct DynCursor {
    cursor: Cursor,
    ended: bool,
}

impl Model for DynCursor {
    ghost use Rattle.std.specs.Prelude.{◌≡◌, true, None};
    ghost use Rattle.elf_note.specs.DynCursors.{DynCursorState};

    ghost Value = { DynCursorState };

    ghost view = { λ d. record { cursor = d.cursor; ended = d.ended } };

    ghost invariant = { λ d. (d.cursor.table.entry ≡ 16)
        × (d.ended ≡ true → d.cursor.failed ≡ None) };
}

/// Creates a cursor before the first entry of `table`, whose rows have 16 bytes (gABI 5, Dynamic
/// Section).
pub fn dynamic_rows(table: Table) -> DynCursor
    requires { table.entry ≡ 16 }
    ensures { StartsEntries table result }
{
    DynCursor {
        cursor: Cursor::new(table),
        ended: false,
    }
}

impl DynCursor {
    /// Advances to the next entry and returns whether there is one. After an entry with the tag
    /// DT_NULL there is none. All calls together read no more than the table's bytes, each byte at
    /// most once.
    ///
    /// # Errors
    /// Returns a fault of a read, or the refusal `Budget`, at the next entry's offset. Each later
    /// call returns the same and reads nothing.
    pub fn advance<S: Source>(&mut self, src: &mut Counted<S>) -> Result<bool, Fault>
        requires { TableInBounds src.old.seen.size self.old.cursor.table }
        ensures asks { StepReads src.old src.new (unread_bytes self.old.cursor)
            self.old.cursor.failed result }
        ensures keeps { KeepsEntries S.one_read src.old src.new self.old self.new }
        ensures steps { AdvancesEntries src.old.seen.file self.old self.new result }
    {
        if self.ended {
            return Ok(false);
        }
        if !self.cursor.advance(src)? {
            return Ok(false);
        }
        self.ended = is_null(&entry_in(&self.cursor.row()));
        Ok(true)
    }

    /// Returns the row of the current entry: its index, its file offset and its 16 bytes. After a
    /// fault it has no bytes.
    pub fn row(&self) -> Row<'_>
        requires { 0 < self.now.cursor.index }
        ensures { ShowsRow self.now.cursor result }
    {
        self.cursor.row()
    }
}

impl DynCursor {
    ghost use Rattle.std.specs.Prelude.{⊤};
    ghost use mathlib.Core.Option.{none};
    ghost use denote.Follow.{follows_so};
    ghost use Rattle.std.specs.Borrow.{sem};
    ghost use Rattle.elf_table.specs.Prelude.{TableInBounds, unread_bytes};
    ghost use Rattle.elf_note.specs.DynCursors.{KeepsEntries, StepsEntries};
    ghost use Rattle.elf_note.specs.Steps.{StepReads};
    ghost use Rattle.elf_note.specs.contracts.dyn_cursor.DynCursor.{the_row};

    /// Returns the row of the next entry, borrowed from the cursor's window until the next call, or
    /// `None` after the last entry.
    ///
    /// # Errors
    /// As for [`DynCursor::advance`].
    pub fn next<S: Source>(&mut self, src: &mut Counted<S>) -> Result<Option<Row<'_>>, Fault>
        requires { TableInBounds src.old.seen.size self.old.cursor.table }
        ensures asks { StepReads src.old src.new (unread_bytes self.old.cursor)
            self.old.cursor.failed result }
        ensures* after { sem 𝓛 (follows_so the_row the_row self.entry.ghost_name none (λ _ _. ⊤)
            (λ new. KeepsEntries S.one_read src.old src.new self.old new
            × StepsEntries src.old.seen.file self.old new result)) }
    {
        if !self.advance(src)? {
            return Ok(None);
        }
        Ok(Some(self.row()))
    }
}

/// Decodes the entry in a row of 16 bytes (gABI 5, Dynamic Section).
pub fn entry_in(row: &Row<'_>) -> Dyn
    requires { length row.now.bytes.now ≡ 16 }
    ensures { (file : List ℕ) (at : ℕ) → row.now.bytes.now ≡ slice file at 16 →
        IsDyn file at result }
{
    Dyn::decode(row.bytes.first_chunk().unwrap())
}

/// Returns `true` if an entry ends its array: its tag is DT_NULL (gABI 5, Dynamic Section).
pub fn is_null(entry: &Dyn) -> bool
    ensures { (file : List ℕ) (at : ℕ) → IsDyn file at entry.now →
        result ≡ (d_tag file at == DT_NULL) }
{
    entry.d_tag.cast_unsigned() == DT_NULL
}
