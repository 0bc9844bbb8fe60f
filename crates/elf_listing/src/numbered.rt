//! The line of the version of a symbol, by its version index.
ghost use Rattle.std.specs.Prelude.{◌≡◌};
ghost use Rattle.elf_listing.specs.Numbered.{FetchesVersion, NumberedWithin};
ghost use Rattle.elf_listing.specs.RowLayouts.{version_layout};
ghost use Rattle.elf_listing.specs.SymbolVersions.{IsUnnamed};

use crate::listing::Listing;
use crate::name_versions::NameVersions;
use crate::row_cursor::RowCursor;
use crate::row_selection::RowSelection;
use crate::table_rows::TableRows;
use elf_format::{LinePrefix, Render, symbol_version_prefix};
use elf_model::RowPlace;
use elf_note::{NameIndex, VersionNameRef, VersionNames};
use elf_record::sizes::SYMBOL_VERSION_BYTES;
use elf_record::{Cause, u16_at, version_number};
use elf_source::{Sink, Source};
use elf_table::{Cursor, Fault, NameEnd, Names, Row, RunFault, Table, refused};

/// Where the names of version indices are.
#[derive(Drop)]
pub struct VersionStrings {
    /// For each version index, the index of its name in one of the string tables.
    pub names: VersionNames,
    /// The string table of the version definitions; empty if there are none.
    pub defined: Names,
    /// The string table of the version needs; empty if there are none.
    pub needed: Names,
}

impl VersionStrings {
    /// Creates an empty value, in which no version index has a name.
    #[inline(never)]
    pub(crate) fn new() -> VersionStrings
        ensures { IsUnnamed result }
    {
        VersionStrings {
            names: VersionNames::new(),
            defined: Names::new(0, 0),
            needed: Names::new(0, 0),
        }
    }
}

/// The version indices of the symbols of a section.
#[derive(Clone, Copy)]
pub struct VersionIndices<'v> {
    /// The index of the section.
    pub section: u16,
    /// Where the names of their version indices are.
    pub numbered: &'v VersionStrings,
}

impl<'v> TableRows for VersionIndices<'v> {
    ghost layout = { version_layout };

    fn cursor(&self, table: Table) -> RowCursor {
        RowCursor::All(Cursor::new(table))
    }

    fn row<R: Render, C: RowSelection, V: NameVersions, S: Source, W: Sink>(
        &self,
        listing: &mut Listing<'_, '_, '_, '_, S, W>,
        front: &mut LinePrefix,
        _versions: &mut V,
        row: &Row<'_>,
    ) -> Result<(), RunFault> {
        let word = u16_at(row.bytes, 0);
        let number = version_number(word);
        let end = listing.read_version(self.numbered, number, row.at)?;
        let place = RowPlace::record(row.at, SYMBOL_VERSION_BYTES);
        if !listing.is_row_shown::<C>(&place, end, None, &[]) {
            return Ok(());
        }
        symbol_version_prefix::<R>(front, self.section, row.index, word);
        listing.named_line(front, end)
    }
}

impl<S: Source, W: Sink> Listing<'_, '_, '_, '_, S, W> {
    /// Reads the name of a version index, which is empty for 0 and 1. A refusal is reported at the
    /// offset `at`.
    #[tactic(auto, unfolding(crate::specs::Numbered::version_told))]
    fn read_version(
        &mut self,
        numbered: &VersionStrings,
        number: u16,
        at: u64,
    ) -> Result<NameEnd, Fault>
        requires { NumberedWithin self.old.src.now.seen.size numbered.now }
        ensures { FetchesVersion self.old self.new result numbered.now number at }
    {
        if number < 2 {
            self.name.clear();
            return Ok(NameEnd::Whole);
        }
        match numbered.names.name(number) {
            VersionNameRef::Nowhere => refused(at, Cause::VersionIndex),
            VersionNameRef::Defined(index) => {
                let off = u64::from(index);
                let names = numbered.defined;
                self.read_name(NameIndex { names, off, at })
            }
            VersionNameRef::Needed(index) => {
                let off = u64::from(index);
                let names = numbered.needed;
                self.read_name(NameIndex { names, off, at })
            }
        }
    }
}
