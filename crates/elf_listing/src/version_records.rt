//! The records of symbol versions of sections.
ghost use Rattle.std.specs.Prelude.{◌≡◌, ◌<◌, None};
ghost use Rattle.elf_model.specs.VersionRows.{version_definitions, version_needs};
ghost use Rattle.elf_model.specs.declared.versions.VersionKind.TheVariants.{Need};
ghost use Rattle.elf_table.specs.Tables.{TableInBounds, StringsInBounds};
ghost use Rattle.elf_listing.specs.Choosing.{ShowsRows};
ghost use Rattle.elf_listing.specs.Parts.{of_sections};
ghost use Rattle.elf_listing.specs.Versions.{ListsRecord, ListsRecords, ListsVersions, kind_type};

use crate::listed_kind::ListedKind;
use crate::listing::Listing;
use crate::row_places::place_of_version;
use crate::row_selection::{AllRows, RowSelection, SelectedRows};
use elf_format::{Columns, Json, LinePrefix, Render, Tabular, version_prefix};
use elf_model::Format;
use elf_note::{NameIndex, VersionCursor, VersionRecord};
use elf_record::gnu_numbers::{SHT_GNU_VERDEF, SHT_GNU_VERNEED};
use elf_record::{Parts, VersionKind};
use elf_source::{Sink, Source};
use elf_table::{Names, RunFault};

/// The version definitions of sections, a `V` line each (Linux Standard Base Core, Symbol
/// Versioning).
pub struct Definitions;

/// The needed files of sections and the versions needed of each, like definitions.
pub struct Needs;

impl ListedKind for Definitions {
    ghost listed = { λ gnu versions. of_sections version_definitions };

    #[tactic(auto, unfolding(elf_model::specs::VersionRows::version_definitions))]
    fn part(_gnu: bool, _versions: bool) -> Parts {
        Parts::VERSIONS
    }

    fn count<S: Source, W: Sink>(listing: &Listing<'_, '_, '_, '_, S, W>) -> u16 {
        listing.file.sections()
    }

    #[tactic(auto, unfolding(elf_model::specs::VersionRows::version_definitions))]
    fn header<S: Source, W: Sink>(
        listing: &mut Listing<'_, '_, '_, '_, S, W>,
        index: u16,
    ) -> Result<(), RunFault> {
        listing.versions(index, VersionKind::Definition)
    }
}

impl ListedKind for Needs {
    ghost listed = { λ gnu versions. of_sections version_needs };

    #[tactic(auto, unfolding(elf_model::specs::VersionRows::version_needs))]
    fn part(_gnu: bool, _versions: bool) -> Parts {
        Parts::VERSIONS
    }

    fn count<S: Source, W: Sink>(listing: &Listing<'_, '_, '_, '_, S, W>) -> u16 {
        listing.file.sections()
    }

    #[tactic(auto, unfolding(elf_model::specs::VersionRows::version_needs))]
    fn header<S: Source, W: Sink>(
        listing: &mut Listing<'_, '_, '_, '_, S, W>,
        index: u16,
    ) -> Result<(), RunFault> {
        listing.versions(index, VersionKind::File)
    }
}

impl<S: Source, W: Sink> Listing<'_, '_, '_, '_, S, W> {
    /// Shows the records of a section, if it holds records of the given kind, or the first refusal
    /// of its table, of its string table or of a name, or of what is in the place of a record.
    #[inline(never)]
    fn versions(&mut self, section: u16, kind: VersionKind) -> Result<(), RunFault>
        requires below { section < self.old.file.store.now.loaded }
        requires kind { kind ≡ Need → ⊥ }
        ensures { ListsVersions self.old self.new result section kind }
    {
        let header = self.file.section(section);
        if header.sh_type != section_type(kind) {
            return Ok(());
        }
        if header.sh_size == 0 {
            return Ok(());
        }
        let at = self.file.place(section);
        let table = self.file.bytes(header.sh_offset, header.sh_size, at)?;
        let names = self.file.strings(section)?;
        let mut cursor = VersionCursor::new(self.src, kind, at, table)?;
        self.version_rows(&mut cursor, section, names)
    }

    /// Shows the remaining records of a cursor, a `V` line with its name for each that is selected,
    /// up to the first refused name or invalid record.
    fn version_rows(
        &mut self,
        cursor: &mut VersionCursor,
        section: u16,
        names: Names,
    ) -> Result<(), RunFault>
        requires going { cursor.old.failed ≡ None }
        requires within { TableInBounds self.old.src.now.seen.size cursor.old.held.table }
        requires strings { StringsInBounds self.old.src.now.seen.size names }
        ensures { ListsRecords self.old self.new result cursor.old section names }
    {
        if self.has_selection() {
            return self.version_rows_in::<SelectedRows>(cursor, section, names);
        }
        self.version_rows_in::<AllRows>(cursor, section, names)
    }

    /// Shows the records that the style selects.
    fn version_rows_in<C: RowSelection>(
        &mut self,
        cursor: &mut VersionCursor,
        section: u16,
        names: Names,
    ) -> Result<(), RunFault>
        requires rows { ShowsRows C.SELECTS self.old.style }
        requires going { cursor.old.failed ≡ None }
        requires within { TableInBounds self.old.src.now.seen.size cursor.old.held.table }
        requires strings { StringsInBounds self.old.src.now.seen.size names }
        ensures { ListsRecords self.old self.new result cursor.old section names }
    {
        'records: while let Some(given) = cursor.advance(self.src)? {
            self.version_row::<C>(&given, section, names)?;
        }
        Ok(())
    }

    /// Shows a record: its `V` line with its name, if the row is selected, or the name's refusal at
    /// the structure that holds its index (Linux Standard Base Core, Symbol Versioning).
    fn version_row<C: RowSelection>(
        &mut self,
        given: &VersionRecord,
        section: u16,
        names: Names,
    ) -> Result<(), RunFault>
        requires rows { ShowsRows C.SELECTS self.old.style }
        requires within { StringsInBounds self.old.src.now.seen.size names }
        ensures { ListsRecord self.old self.new result given.now section names }
    {
        match self.style.format {
            Format::Columns => self.version_line::<Columns, C>(given, section, names),
            Format::Object => self.version_line::<Json, C>(given, section, names),
            Format::Table => self.version_line::<Tabular, C>(given, section, names),
        }
    }

    /// Shows the record in the rendering of the style.
    fn version_line<R: Render, C: RowSelection>(
        &mut self,
        given: &VersionRecord,
        section: u16,
        names: Names,
    ) -> Result<(), RunFault>
        requires format { R.FORMAT ≡ self.old.style.format }
        requires rows { ShowsRows C.SELECTS self.old.style }
        requires within { StringsInBounds self.old.src.now.seen.size names }
        ensures { ListsRecord self.old self.new result given.now section names }
    {
        let end = self.read_name(NameIndex {
            names,
            off: u64::from(given.name),
            at: given.named_at,
        })?;
        let place = place_of_version(given);
        if !self.is_row_shown::<C>(&place, end, None, &[]) {
            return Ok(());
        }
        let mut front = LinePrefix::new();
        version_prefix::<R>(
            &mut front,
            section,
            given.kind,
            given.number,
            given.flags,
            given.hash,
        );
        self.named_line(&mut front, end)
    }
}

/// Returns the type of the sections that hold records of the given kind.
pub(crate) fn section_type(kind: VersionKind) -> u32
    ensures { result ≡ kind_type kind }
{
    match kind {
        VersionKind::Definition => SHT_GNU_VERDEF,
        VersionKind::File | VersionKind::Need => SHT_GNU_VERNEED,
    }
}
