//! The program headers.
ghost use Rattle.std.specs.Prelude.{◌≡◌, ◌<◌};
ghost use Rattle.elf_listing.specs.HeadersListed.{ListsHeader, ListsSegments};
ghost use Rattle.elf_listing.specs.Parts.{program_headers_part};
ghost use Rattle.elf_listing.specs.RowLayouts.{program_header_layout};
ghost use Rattle.elf_listing.specs.Viewed.{viewed_headers};
ghost use Rattle.elf_options.specs.Permitted.{style_of};

use crate::listed_kind::{ListedKind, list_headers};
use crate::listing::Listing;
use crate::name_versions::{NameVersions, NoVersions};
use crate::row_cursor::RowCursor;
use crate::row_places::place_of_segment;
use crate::row_selection::RowSelection;
use crate::table_rows::{TableRows, list_rows};
use bitflags::Flags;
use elf_format::{Columns, Json, LinePrefix, Render, Tabular, segment_row};
use elf_model::Format;
use elf_record::{Parts, Phdr};
use elf_source::{Sink, Source};
use elf_table::{Cursor, ExecutionView, Row, RunFault, Table};

/// The program headers, a `P` line each (gABI 5, Program Header): those in the store, or the rows
/// of their table.
#[derive(Clone, Copy)]
pub struct ProgramHeaders;

impl ListedKind for ProgramHeaders {
    ghost listed = { λ gnu versions. program_headers_part };

    fn part(_gnu: bool, _versions: bool) -> Parts {
        Parts::SEGMENTS
    }

    fn count<S: Source, W: Sink>(listing: &Listing<'_, '_, '_, '_, S, W>) -> u16 {
        listing.file.store.segments()
    }

    fn header<S: Source, W: Sink>(
        listing: &mut Listing<'_, '_, '_, '_, S, W>,
        index: u16,
    ) -> Result<(), RunFault> {
        match listing.style.format {
            Format::Columns => listing.segment_line::<Columns>(index),
            Format::Object => listing.segment_line::<Json>(index),
            Format::Table => listing.segment_line::<Tabular>(index),
        }
    }
}

impl TableRows for ProgramHeaders {
    ghost layout = { λ rows. program_header_layout };

    fn cursor(&self, table: Table) -> RowCursor {
        RowCursor::All(Cursor::new(table))
    }

    fn row<R: Render, C: RowSelection, V: NameVersions, S: Source, W: Sink>(
        &self,
        listing: &mut Listing<'_, '_, '_, '_, S, W>,
        _front: &mut LinePrefix,
        _versions: &mut V,
        row: &Row<'_>,
    ) -> Result<(), RunFault> {
        let header = Phdr::decode(row.whole());
        if !listing.is_place_shown::<C>(&place_of_segment(row.at, &header)) {
            return Ok(());
        }
        let gnu = listing.style.gnu;
        listing
            .out
            .put(&segment_row::<R>(row.index as u16, &header, gnu))?;
        Ok(())
    }
}

impl<'f, S: Source, W: Sink> Listing<'_, '_, 'f, '_, S, W> {
    /// Shows the program headers, if `parts` has them. Those of a file without sections are in the
    /// store.
    pub(crate) fn program_headers(&mut self, parts: Parts) -> Result<(), RunFault>
        requires { self.old.file.store.now.segments
            ≡ viewed_headers (style_of self.old.style) parts.0 self.old.file.loaded }
        ensures { ListsSegments parts.0 self.old self.new result }
    {
        if !parts.contains(Parts::SEGMENTS) {
            return Ok(());
        }
        if self.file.sections() == 0 {
            return list_headers::<ProgramHeaders, S, W>(self);
        }
        let table = self.file.segments();
        list_rows(self, table, &ProgramHeaders, &mut NoVersions)
    }

    /// Returns the file with its program headers, if they are loaded.
    pub(crate) fn view(&self) -> ExecutionView<'f>
        requires { 0 < self.now.file.store.now.segments }
        ensures loaded { result.loaded ≡ self.now.file.loaded }
        ensures store { result.store.now ≡ self.now.file.store.now }
    {
        ExecutionView {
            loaded: self.file.loaded,
            store: self.file.store,
        }
    }

    /// Shows the row of a program header in the store in the rendering of the style.
    fn segment_line<R: Render>(&mut self, segment: u16) -> Result<(), RunFault>
        requires format { R.FORMAT ≡ self.old.style.format }
        requires below { segment < self.old.file.store.now.segments }
        ensures { ListsHeader program_headers_part self.old self.new result segment }
    {
        let header = self.view().segment(segment);
        let place = self.view().place(segment);
        if !self.style.place.shows(&place_of_segment(place, &header)) {
            return Ok(());
        }
        self.out
            .put(&segment_row::<R>(segment, &header, self.style.gnu))?;
        Ok(())
    }
}
