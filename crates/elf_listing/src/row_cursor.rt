//! A cursor over the rows of a table that are listed.
ghost use Rattle.std.specs.Prelude.{◌≡◌, ◌+◌, ◌<◌, ◌≤◌, None, IfErr};
ghost use Rattle.elf_source.specs.Source.{ReadsUpTo};
ghost use Rattle.elf_table.specs.Prelude.{IsReadFault, ShowsRow, TableInBounds, unread_bytes};
ghost use Rattle.elf_listing.specs.RowCursors.{AdvancesRows, reading};

use elf_note::DynCursor;
use elf_source::{Counted, Source};
use elf_table::{Cursor, Fault, Row};

/// A cursor over the rows of a table that are listed.
#[derive(Drop)]
pub enum RowCursor {
    /// Over all rows.
    All(Cursor),
    /// Over dynamic entries, which end early at a terminating entry.
    Entries(DynCursor),
}

impl RowCursor {
    /// Advances to the next row, and returns whether there is one.
    ///
    /// # Errors
    /// As for `Cursor::advance`.
    pub(crate) fn advance<S: Source>(&mut self, src: &mut Counted<S>) -> Result<bool, Fault>
        requires { TableInBounds src.old.seen.size (reading self.old).table }
        ensures reads { ReadsUpTo src.old src.new (unread_bytes (reading self.old)) }
        ensures says { (reading self.old).failed ≡ None →
            IfErr result (IsReadFault src.old src.new (unread_bytes (reading self.old))) }
        ensures account { src.new.asked + unread_bytes (reading self.new)
            ≤ src.old.asked + unread_bytes (reading self.old) }
        ensures steps { AdvancesRows src.old.seen.file self.old self.new result }
    {
        match self {
            RowCursor::All(cursor) => cursor.advance(src),
            RowCursor::Entries(cursor) => cursor.advance(src),
        }
    }

    /// Returns the row that the last step read.
    pub(crate) fn row(&self) -> Row<'_>
        requires { 0 < (reading self.now).index }
        ensures { ShowsRow (reading self.now) result }
    {
        match self {
            RowCursor::All(cursor) => cursor.row(),
            RowCursor::Entries(cursor) => cursor.row(),
        }
    }
}
