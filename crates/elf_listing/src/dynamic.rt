//! The dynamic entries of sections and of segments.
ghost use Rattle.std.specs.Prelude.{◌≡◌};
ghost use Rattle.elf_model.specs.TableKinds.{section_dynamic, segment_dynamic};
ghost use Rattle.elf_listing.specs.Parts.{of_sections, of_segments};
ghost use Rattle.elf_listing.specs.RowLayouts.{dynamic_layout};

use crate::dynamic_string_table::DynamicStringTable;
use crate::listed_kind::ListedKind;
use crate::listing::Listing;
use crate::name_versions::{NameVersions, NoVersions};
use crate::row_cursor::RowCursor;
use crate::row_selection::RowSelection;
use crate::table_rows::{TableRows, list_rows};
use elf_format::{LinePrefix, Render, dynamic_prefix};
use elf_model::RowPlace;
use elf_note::{dynamic_rows, dynamic_strings};
use elf_record::numbers::{PT_DYNAMIC, SHT_DYNAMIC};
use elf_record::sizes::DYNAMIC_BYTES;
use elf_record::{Dyn, Parts};
use elf_source::{Sink, Source};
use elf_table::{Row, RunFault, Table};

/// Dynamic entries, a `D` line each up to and including the first DT_NULL (gABI 5, Dynamic
/// Section).
#[derive(Clone, Copy)]
pub struct DynamicEntries<'f> {
    /// Where to look up their strings.
    pub strings: DynamicStringTable<'f>,
}

/// The dynamic entries of sections.
pub struct SectionDynamic;

/// The dynamic entries of segments. Their strings are where a segment loads them: the entries are
/// read once for the string table's address and size, and once more to be shown.
pub struct SegmentDynamic;

impl<'f> TableRows for DynamicEntries<'f> {
    ghost layout = { λ rows. dynamic_layout rows.strings };

    fn cursor(&self, table: Table) -> RowCursor {
        RowCursor::Entries(dynamic_rows(table))
    }

    fn row<R: Render, C: RowSelection, V: NameVersions, S: Source, W: Sink>(
        &self,
        listing: &mut Listing<'_, '_, '_, '_, S, W>,
        front: &mut LinePrefix,
        _versions: &mut V,
        row: &Row<'_>,
    ) -> Result<(), RunFault> {
        let gnu = listing.style.gnu;
        let entry = Dyn::decode(row.whole());
        let end = listing.read_string::<R>(&entry, &self.strings, row.at)?;
        let place = RowPlace::record(row.at, DYNAMIC_BYTES);
        if !listing.is_place_shown::<C>(&place) {
            return Ok(());
        }
        dynamic_prefix::<R>(front, row.index, &entry, gnu);
        listing.named_line(front, end)
    }
}

impl ListedKind for SectionDynamic {
    ghost listed = { λ gnu versions. of_sections section_dynamic };

    #[tactic(auto, unfolding(elf_model::specs::TableKinds::section_dynamic))]
    fn part(_gnu: bool, _versions: bool) -> Parts {
        Parts::DYNAMIC
    }

    fn count<S: Source, W: Sink>(listing: &Listing<'_, '_, '_, '_, S, W>) -> u16 {
        listing.file.sections()
    }

    fn header<S: Source, W: Sink>(
        listing: &mut Listing<'_, '_, '_, '_, S, W>,
        index: u16,
    ) -> Result<(), RunFault> {
        let header = listing.file.section(index);
        if header.sh_type != SHT_DYNAMIC {
            return Ok(());
        }
        if header.sh_size == 0 {
            return Ok(());
        }
        let table = listing.file.table(index, DYNAMIC_BYTES)?;
        let names = listing.file.strings(index)?;
        let strings = DynamicStringTable::LinkedStringTable(names);
        list_rows(listing, table, &DynamicEntries { strings }, &mut NoVersions)
    }
}

impl ListedKind for SegmentDynamic {
    ghost listed = { λ gnu versions. of_segments segment_dynamic };

    #[tactic(auto, unfolding(elf_model::specs::TableKinds::segment_dynamic))]
    fn part(_gnu: bool, _versions: bool) -> Parts {
        Parts::DYNAMIC
    }

    fn count<S: Source, W: Sink>(listing: &Listing<'_, '_, '_, '_, S, W>) -> u16 {
        listing.file.store.segments()
    }

    fn header<S: Source, W: Sink>(
        listing: &mut Listing<'_, '_, '_, '_, S, W>,
        index: u16,
    ) -> Result<(), RunFault> {
        let view = listing.view();
        if view.segment(index).p_type != PT_DYNAMIC {
            return Ok(());
        }
        let table = view.dynamic(index)?;
        let told = dynamic_strings(table, listing.src)?;
        let strings = DynamicStringTable::Mapped { view, told };
        list_rows(listing, table, &DynamicEntries { strings }, &mut NoVersions)
    }
}
