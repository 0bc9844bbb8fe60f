//! A cursor over the notes of a table.
ghost use Rattle.std.specs.Prelude.{◌≡◌, ◌≤◌, length};
ghost use Rattle.elf_table.specs.Tables.{TableInBounds};
ghost use Rattle.elf_note.specs.NoteCursors.{AdvancesNote, KeepsNotes, ShowsNote, StartsNotes};
ghost use Rattle.elf_note.specs.Steps.{StepReads};

use crate::note::{FoundNote, SHOWN_DESCRIPTOR, next_note};
use crate::note_row::NoteRow;
use crate::sizes::note_align;
use elf_record::NoteHead;
use elf_source::{Counted, Source};
use elf_table::{Fault, NameBuf, NameEnd, NameLimit, Table, WINDOW_BYTES, Window};
use std::marker::Model;

/// A cursor over the notes of a table (gABI 5, Note Section). It reads at most 4,096 bytes at once,
/// each byte of the table at most once and in order, and never past the table's end. The part of a
/// name or a descriptor that is not shown is skipped. The first bytes of each descriptor are
/// borrowed from the cursor.
#[derive(Drop)]
pub struct NoteCursor {
    table: Table,
    align: u64,
    window: Window<WINDOW_BYTES>,
    found: FoundNote,
    descriptor: [u8; SHOWN_DESCRIPTOR],
    failed: Option<Fault>,
}

impl Model for NoteCursor {
    ghost use Rattle.std.specs.Prelude.{◌≡◌, ◌+◌, ◌^◌, ◌<◌, ◌≤◌, take};
    ghost use Rattle.elf_table.specs.Prelude.{TableInBounds, range_end};
    ghost use Rattle.elf_note.specs.NoteCursors.{NoteCursorState};

    ghost Value = { NoteCursorState };

    ghost view = { λ c. record {
      table = c.table;
      align = c.align;
      ahead = c.window;
      found = c.found;
      descriptor = take c.found.shown c.descriptor;
      failed = c.failed;
    } };

    ghost invariant = { λ c. (0 < c.align) × (c.align ≤ 8) × (c.window.page ≡ 4096)
        × (range_end c.window ≡ c.table.at + c.table.count) × (c.table.at ≤ c.window.at)
        × (c.table.entry ≡ 1) × (c.found.at + 12 < 2 ^ 64) × (c.found.shown ≤ 32) };
}

impl NoteCursor {
    /// Creates a cursor before the first note of `table`, whose rows are single bytes. Notes are
    /// aligned to 8 bytes if `align` is 8, otherwise to 4, counted from the start of the table.
    pub fn new(table: Table, align: u64) -> NoteCursor
        requires { table.entry ≡ 1 }
        ensures { StartsNotes table align result }
    {
        let _ = table.entry();
        NoteCursor {
            table,
            align: note_align(align),
            window: Window::new(table.at(), table.len(), WINDOW_BYTES as u64),
            found: no_note(),
            descriptor: [0; SHOWN_DESCRIPTOR],
            failed: None,
        }
    }

    /// Advances to the next note and returns whether there is one. A table with bytes ends within
    /// the source's length. The note's name, as it is shown with at most `cap` bytes, is then in
    /// `name`. All calls together read no more than the table's bytes, each byte at most once.
    ///
    /// # Errors
    /// Returns the refusal `NoteCut` at the file offset where there is no whole note; otherwise a
    /// fault of a read, or the refusal `Budget`, at the offset of the read. Then no part of the
    /// next note is returned, and the contents of `name` are unspecified. Each later call returns
    /// the same fault and reads nothing.
    pub fn advance<S: Source>(
        &mut self,
        src: &mut Counted<S>,
        cap: NameLimit,
        name: &mut NameBuf,
    ) -> Result<bool, Fault>
        requires { TableInBounds src.old.seen.size self.old.table }
        ensures asks { StepReads src.old src.new self.old.ahead.unread self.old.failed result }
        ensures keeps { KeepsNotes S.one_read src.old src.new self.old self.new }
        ensures steps { AdvancesNote src.old.seen.file cap.bytes self.old self.new name.new result }
    {
        if let Some(fault) = self.failed {
            return Err(fault);
        }
        let desc = &mut self.descriptor;
        match next_note(&mut self.window, src, self.align, cap, name, desc) {
            Ok(Some(found)) => {
                self.found = found;
                Ok(true)
            }
            Ok(None) => Ok(false),
            Err(fault) => {
                self.failed = Some(fault);
                Err(fault)
            }
        }
    }

    /// Returns the current note; before the first step it has no meaning.
    pub fn row(&self) -> NoteRow<'_>
        ensures shows { ShowsNote self.now result }
        ensures few { length result.desc.now ≤ 32 }
    {
        let FoundNote {
            at,
            head,
            name_end,
            desc_at,
            shown,
        } = self.found;
        NoteRow {
            at,
            head,
            name_at: at + 12,
            name_end,
            desc_at,
            desc: &self.descriptor[..shown as usize],
        }
    }
}

impl NoteCursor {
    ghost use Rattle.std.specs.Prelude.{⊤};
    ghost use mathlib.Core.Option.{none};
    ghost use denote.Follow.{follows_so};
    ghost use Rattle.std.specs.Borrow.{sem};
    ghost use Rattle.elf_note.specs.NoteCursors.{KeepsNotes, StepsNote};
    ghost use Rattle.elf_note.specs.Steps.{StepReads};
    ghost use Rattle.elf_note.specs.contracts.note_cursor.NoteCursor.{the_row};

    /// Returns the next note, borrowed from the cursor until the next call, or `None` at the
    /// table's end. Its name is then in `name`.
    ///
    /// # Errors
    /// As for [`NoteCursor::advance`].
    pub fn next<S: Source>(
        &mut self,
        src: &mut Counted<S>,
        cap: NameLimit,
        name: &mut NameBuf,
    ) -> Result<Option<NoteRow<'_>>, Fault>
        requires { TableInBounds src.old.seen.size self.old.table }
        ensures asks { StepReads src.old src.new self.old.ahead.unread self.old.failed result }
        ensures* after { sem 𝓛 (follows_so the_row the_row self.entry.ghost_name none (λ _ _. ⊤)
            (λ new. KeepsNotes S.one_read src.old src.new self.old new
            × StepsNote src.old.seen.file cap.bytes self.old new name.new result)) }
    {
        if !self.advance(src, cap, name)? {
            return Ok(None);
        }
        Ok(Some(self.row()))
    }
}

// Returns the note of a cursor before its first step.
fn no_note() -> FoundNote
    ensures { (result.at ≡ 0) × (result.shown ≡ 0) }
{
    FoundNote {
        at: 0,
        head: NoteHead {
            namesz: 0,
            descsz: 0,
            kind: 0,
        },
        name_end: NameEnd::Whole,
        desc_at: 0,
        shown: 0,
    }
}
