//! The notes of sections and of segments.
ghost use Rattle.std.specs.Prelude.{◌≡◌, ◌≤◌, length};
ghost use Rattle.elf_model.specs.TableKinds.{section_notes, segment_notes};
ghost use Rattle.elf_table.specs.Tables.{TableInBounds};
ghost use Rattle.elf_listing.specs.Notes.{ListsNote, ListsNotes};
ghost use Rattle.elf_listing.specs.Parts.{of_sections, of_segments};

use crate::listed_kind::ListedKind;
use crate::listing::Listing;
use crate::name_lines::is_cut;
use crate::row_places::place_of_note;
use elf_format::{Columns, Json, LinePrefix, Render, Tabular, note_prefix, show_note};
use elf_model::Format;
use elf_note::{NoteCursor, NoteRow};
use elf_record::Parts;
use elf_record::numbers::{PT_NOTE, SHT_NOTE};
use elf_source::{Sink, Source};
use elf_table::{RunFault, Table};

/// The notes of sections, an `N` line each (gABI 5, Note Section).
pub struct SectionNotes;

/// The notes of segments, like those of sections (gABI 5, Note Section).
pub struct SegmentNotes;

impl ListedKind for SectionNotes {
    ghost listed = { λ gnu versions. of_sections section_notes };

    #[tactic(auto, unfolding(elf_model::specs::TableKinds::section_notes))]
    fn part(_gnu: bool, _versions: bool) -> Parts {
        Parts::NOTES
    }

    fn count<S: Source, W: Sink>(listing: &Listing<'_, '_, '_, '_, S, W>) -> u16 {
        listing.file.sections()
    }

    fn header<S: Source, W: Sink>(
        listing: &mut Listing<'_, '_, '_, '_, S, W>,
        index: u16,
    ) -> Result<(), RunFault> {
        let header = listing.file.section(index);
        if header.sh_type != SHT_NOTE {
            return Ok(());
        }
        let at = listing.file.place(index);
        let table = listing.file.bytes(header.sh_offset, header.sh_size, at)?;
        listing.notes(table, header.sh_addralign, index)
    }
}

impl ListedKind for SegmentNotes {
    ghost listed = { λ gnu versions. of_segments segment_notes };

    #[tactic(auto, unfolding(elf_model::specs::TableKinds::segment_notes))]
    fn part(_gnu: bool, _versions: bool) -> Parts {
        Parts::NOTES
    }

    fn count<S: Source, W: Sink>(listing: &Listing<'_, '_, '_, '_, S, W>) -> u16 {
        listing.file.store.segments()
    }

    fn header<S: Source, W: Sink>(
        listing: &mut Listing<'_, '_, '_, '_, S, W>,
        index: u16,
    ) -> Result<(), RunFault> {
        let header = listing.view().segment(index);
        if header.p_type != PT_NOTE {
            return Ok(());
        }
        let place = listing.view().place(index);
        let table = listing.file.bytes(header.p_offset, header.p_filesz, place)?;
        listing.notes(table, header.p_align, index)
    }
}

impl<S: Source, W: Sink> Listing<'_, '_, '_, '_, S, W> {
    /// Shows the notes of a table of single bytes, an `N` line each, up to the first offset that
    /// holds no valid note. `align` is the alignment in the table's header, and `index` is that
    /// header's index (gABI 5, Note Section).
    #[inline(never)]
    fn notes(&mut self, table: Table, align: u64, index: u16) -> Result<(), RunFault>
        requires bytes { table.entry ≡ 1 }
        requires within { TableInBounds self.old.src.now.seen.size table }
        ensures { ListsNotes self.old self.new result table align index }
    {
        let mut cursor = NoteCursor::new(table, align);
        'notes: while cursor.advance(self.src, self.style.cap, &mut self.name)? {
            self.note_row(&cursor.row(), align == 8, index)?;
        }
        Ok(())
    }

    /// Shows a note whose name was read: its `N` line. Notes are aligned to 8 bytes if `is_wide` is
    /// `true`, otherwise to 4.
    fn note_row(&mut self, row: &NoteRow<'_>, is_wide: bool, index: u16) -> Result<(), RunFault>
        requires { length row.now.desc.now ≤ 32 }
        ensures { ListsNote self.old self.new result row.now is_wide index }
    {
        match self.style.format {
            Format::Columns => self.note_line::<Columns>(row, is_wide, index),
            Format::Object => self.note_line::<Json>(row, is_wide, index),
            Format::Table => self.note_line::<Tabular>(row, is_wide, index),
        }
    }

    /// Shows a note in the rendering of the style.
    fn note_line<R: Render>(
        &mut self,
        row: &NoteRow<'_>,
        is_wide: bool,
        index: u16,
    ) -> Result<(), RunFault>
        requires format { R.FORMAT ≡ self.old.style.format }
        requires few { length row.now.desc.now ≤ 32 }
        ensures { ListsNote self.old self.new result row.now is_wide index }
    {
        let place = place_of_note(is_wide, row.at, &row.head);
        if !self.style.place.shows(&place) {
            return Ok(());
        }
        let is_cut = is_cut(row.name_end);
        let name = self.name.bytes();
        let mut front = LinePrefix::new();
        note_prefix::<R>(&mut front, index, &row.head);
        show_note::<R, W>(&mut front, &row.head, name, is_cut, row.desc, self.out)?;
        Ok(())
    }
}
