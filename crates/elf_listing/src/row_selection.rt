//! The selection of rows, by the names of symbols and of versions, and by where rows are.
ghost use Rattle.std.specs.Prelude.{◌≡◌, ◌&&◌, Bool, false as No, true as Yes};
ghost use Rattle.elf_model.specs.Prelude.{NoSuffix, chooses, narrowed, shows_place, shows_symbol};
ghost use Rattle.elf_table.specs.NamesRead.{shown_by};
ghost use Rattle.elf_options.specs.Chosen.{choice_of};
ghost use Rattle.elf_listing.specs.Choosing.{ShowsRows, has_selection};
ghost use Rattle.elf_listing.specs.Suffixed.{suffix_read};

use crate::listing::Listing;
use crate::name_lines::is_cut;
use crate::read_suffix::VersionSuffixEnd;
use elf_model::RowPlace;
use elf_options::VersionSuffix;
use elf_source::{Sink, Source};
use elf_table::NameEnd;

/// Whether rows are selected, known at compile time: if every row is shown, no name is looked up,
/// and no symbol and no place is tested.
pub trait RowSelection {
    /// Whether rows are selected.
    const SELECTS: bool;

    /// Whether rows are selected.
    ghost SELECTS: { Bool };
}

/// Every row.
pub struct AllRows;

impl RowSelection for AllRows {
    const SELECTS: bool = false;

    ghost SELECTS = { No };
}

/// The rows with one of the given names or at the given place, and the symbols that the style
/// shows.
pub struct SelectedRows;

impl RowSelection for SelectedRows {
    const SELECTS: bool = true;

    ghost SELECTS = { Yes };
}

/// What decides whether a symbol is shown, besides its name.
#[derive(Clone, Copy)]
pub struct SymbolClass {
    /// Where it is.
    pub place: RowPlace,
    /// Whether it is defined.
    pub is_defined: bool,
    /// Whether it is of an SHT_DYNSYM section.
    pub is_dynamic: bool,
}

impl<S: Source, W: Sink> Listing<'_, '_, '_, '_, S, W> {
    /// Returns `true` if rows are selected by name or by where they are, or not every symbol is
    /// shown.
    pub(crate) fn has_selection(&self) -> bool
        ensures { result ≡ has_selection self.now.style }
    {
        self.style.choice.by_name || self.style.symbols.is_narrow() || self.style.place.is_placed()
    }

    /// Returns `true` if the row with the name that was read is shown.
    #[tactic(auto, using(crate::proofs::SelectionLaws::every_row))]
    fn is_shown<C: RowSelection>(&self, end: NameEnd) -> bool
        requires { ShowsRows C.SELECTS self.now.style }
        ensures { result ≡ chooses (choice_of self.now.style.choice)
            (shown_by end self.now.name) NoSuffix }
    {
        !C::SELECTS || self.style.choice.shows(self.name.bytes(), is_cut(end))
    }

    /// Returns `true` if the row with the name that was read is shown, with the version after it,
    /// if there is one.
    #[tactic(auto, using(crate::proofs::SelectionLaws::every_row))]
    fn is_versioned_row_shown<C: RowSelection>(
        &self,
        end: NameEnd,
        suffix: Option<VersionSuffixEnd>,
        version: &[u8],
    ) -> bool
        requires { ShowsRows C.SELECTS self.now.style }
        ensures { result ≡ chooses (choice_of self.now.style.choice)
            (shown_by end self.now.name) (suffix_read suffix version.now) }
    {
        let Some(read) = suffix else {
            return self.is_shown::<C>(end);
        };
        if !C::SELECTS {
            return true;
        }
        let suffix = VersionSuffix {
            name: version,
            is_cut: is_cut(read.end),
            is_default: read.is_default,
        };
        let name = self.name.bytes();
        self.style.choice.shows_version(name, is_cut(end), &suffix)
    }

    /// Returns `true` if the rows at a place are shown, whatever their names.
    #[tactic(auto, using(crate::proofs::SelectionLaws::every_place))]
    pub(crate) fn is_place_shown<C: RowSelection>(&self, place: &RowPlace) -> bool
        requires { ShowsRows C.SELECTS self.now.style }
        ensures { result ≡ shows_place self.now.style.place place.now }
    {
        !C::SELECTS || self.style.place.shows(place)
    }

    /// Returns `true` if the row at a place with the name that was read is shown, with the version
    /// after it, if there is one.
    #[tactic(auto, using(elf_model::proofs::FilterLaws::narrowed_chooses))]
    pub(crate) fn is_row_shown<C: RowSelection>(
        &self,
        place: &RowPlace,
        end: NameEnd,
        suffix: Option<VersionSuffixEnd>,
        version: &[u8],
    ) -> bool
        requires { ShowsRows C.SELECTS self.now.style }
        ensures { let shown = shows_place self.now.style.place place.now in
            result ≡ chooses (narrowed shown (choice_of self.now.style.choice))
            (shown_by end self.now.name) (suffix_read suffix version.now) }
    {
        self.is_place_shown::<C>(place) && self.is_versioned_row_shown::<C>(end, suffix, version)
    }

    /// Returns `true` if a symbol is shown, whatever its name and its place.
    #[tactic(auto, using(crate::proofs::SelectionLaws::every_symbol))]
    fn is_class_shown<C: RowSelection>(&self, symbol: &SymbolClass) -> bool
        requires { ShowsRows C.SELECTS self.now.style }
        ensures { result ≡ shows_symbol self.now.style.symbols
            symbol.now.is_defined symbol.now.is_dynamic }
    {
        !C::SELECTS
            || self
                .style
                .symbols
                .shows(symbol.is_defined, symbol.is_dynamic)
    }

    /// Returns `true` if the row of a symbol with the name that was read is shown, with the version
    /// after it, if there is one.
    #[tactic(auto, using(elf_model::proofs::FilterLaws::narrowed_chooses))]
    pub(crate) fn is_symbol_row_shown<C: RowSelection>(
        &self,
        symbol: &SymbolClass,
        end: NameEnd,
        suffix: Option<VersionSuffixEnd>,
        version: &[u8],
    ) -> bool
        requires { ShowsRows C.SELECTS self.now.style }
        ensures { let shown = shows_symbol self.now.style.symbols
            symbol.now.is_defined symbol.now.is_dynamic
            && shows_place self.now.style.place symbol.now.place in
            result ≡ chooses (narrowed shown (choice_of self.now.style.choice))
            (shown_by end self.now.name) (suffix_read suffix version.now) }
    {
        self.is_class_shown::<C>(symbol)
            && self.is_row_shown::<C>(&symbol.place, end, suffix, version)
    }
}
