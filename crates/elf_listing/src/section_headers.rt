//! The section headers.
ghost use Rattle.std.specs.Prelude.{◌≡◌, ◌<◌};
ghost use Rattle.elf_listing.specs.HeadersListed.{ListsHeader};
ghost use Rattle.elf_listing.specs.Parts.{section_headers_part};

use crate::listed_kind::ListedKind;
use crate::listing::Listing;
use crate::row_places::place_of_section;
use elf_format::{Columns, Json, LinePrefix, Render, Tabular, section_prefix};
use elf_model::Format;
use elf_record::Parts;
use elf_source::{Sink, Source};
use elf_table::RunFault;

/// The section headers, an `S` line each with its name, or the name's refusal at the section header
/// (gABI 4, Section Header).
pub struct SectionHeaders;

impl ListedKind for SectionHeaders {
    ghost listed = { λ gnu versions. section_headers_part };

    fn part(_gnu: bool, _versions: bool) -> Parts {
        Parts::SECTIONS
    }

    fn count<S: Source, W: Sink>(listing: &Listing<'_, '_, '_, '_, S, W>) -> u16 {
        listing.file.sections()
    }

    fn header<S: Source, W: Sink>(
        listing: &mut Listing<'_, '_, '_, '_, S, W>,
        index: u16,
    ) -> Result<(), RunFault> {
        match listing.style.format {
            Format::Columns => listing.section_line::<Columns>(index),
            Format::Object => listing.section_line::<Json>(index),
            Format::Table => listing.section_line::<Tabular>(index),
        }
    }
}

impl<S: Source, W: Sink> Listing<'_, '_, '_, '_, S, W> {
    /// Shows the row of a section header in the rendering of the style.
    fn section_line<R: Render>(&mut self, section: u16) -> Result<(), RunFault>
        requires format { R.FORMAT ≡ self.old.style.format }
        requires below { section < self.old.file.store.now.loaded }
        ensures { ListsHeader section_headers_part self.old self.new result section }
    {
        let naming = self.naming();
        let header = self.file.section(section);
        let place = self.file.place(section);
        let names = self.file.names();
        let off = header.sh_name;
        let end = self.read_section_name(names, off, place)?;
        if !self.style.place.shows(&place_of_section(place, &header)) {
            return Ok(());
        }
        let mut front = LinePrefix::new();
        section_prefix::<R>(&mut front, section, &header, naming);
        self.named_line(&mut front, end)
    }
}
