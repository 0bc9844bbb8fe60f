//! Which rows of a listing are shown.
ghost use Rattle.elf_options.specs.Names.{NeverDescend};

use crate::names::SortedStrings;
use crate::symbol_query::{has_sign, has_sign_first};
use crate::versioned_name::VersionedName;

/// The sign before a version in a text.
const PLAIN_SIGN: &[u8] = b"@";
/// The sign before a default version in a text.
const DEFAULT_SIGN: &[u8] = b"@@";

/// A filter for the rows of a listing that end in the name of a symbol or of a version: every row,
/// or those whose name, with its version, matches one of the caller's texts.
#[derive(Clone, Copy)]
pub struct RowFilter<'a> {
    /// Whether rows are selected by their names.
    pub by_name: bool,
    /// Whether a text may have a version, as [`crate::parse_query`] splits it; otherwise each is a
    /// name.
    pub versions: bool,
    /// The texts, in ascending byte order.
    pub texts: &'a [&'a [u8]],
    pub ghost sorted: { NeverDescend texts.now },
}

/// The version after a name, as it is shown.
#[derive(Clone, Copy)]
pub struct VersionSuffix<'a> {
    /// Its name, or a prefix of it.
    pub name: &'a [u8],
    /// Whether more of its name is cut off.
    pub is_cut: bool,
    /// Whether it is the default version of the name.
    pub is_default: bool,
}

impl<'a> RowFilter<'a> {
    ghost use Rattle.std.specs.Prelude.{◌≡◌, map};
    ghost use Rattle.elf_model.specs.Prelude.{EveryRow, NoSuffix, RowsOf, chooses, has_version, shown_as, wanted_text};
    ghost use Rattle.elf_options.specs.Chosen.{after_of, choice_of};
    ghost use Rattle.elf_options.specs.Names.{texts_of};

    /// Creates the filter that shows every row.
    pub fn every_row() -> RowFilter<'static>
        ensures { choice_of result ≡ EveryRow }
    {
        RowFilter {
            by_name: false,
            versions: false,
            texts: &[],
        }
    }

    /// Creates the filter that shows the rows whose name, with its version, matches one of these
    /// texts, byte for byte: a name, or with `versions` NAME, NAME@VERSION or NAME@@VERSION.
    /// [`crate::sort_strings`] sorts them.
    pub fn rows_of(texts: &'a [&'a [u8]], versions: bool) -> RowFilter<'a>
        requires { NeverDescend texts.now }
        ensures { choice_of result ≡ RowsOf (map (wanted_text versions) (texts_of texts.now)) }
    {
        RowFilter {
            by_name: true,
            versions,
            texts,
        }
    }

    /// Returns `true` if the row of a name without a version is shown.
    ///
    /// A name that is cut off after these bytes matches no text. It compares logarithmically many
    /// texts.
    #[tactic(auto, using(elf_model::proofs::ChoiceLemmas::names_are_chosen, elf_model::proofs::ChoiceLemmas::names_alone_are_chosen, elf_model::proofs::ChoiceLemmas::cut_names_are_none))]
    pub fn shows(&self, name: &[u8], is_cut: bool) -> bool
        ensures { result ≡ chooses (choice_of self.now) (shown_as is_cut name.now) NoSuffix }
    {
        if !self.by_name {
            return true;
        }
        if is_cut {
            return false;
        }
        let is_named = SortedStrings::new(self.texts).has(name);
        if !self.versions {
            return is_named;
        }
        is_named && !has_sign(name)
    }

    /// Returns `true` if the row of a name with a version is shown, by three such searches.
    #[tactic(auto, using(elf_model::proofs::ChoiceLemmas::names_are_chosen, elf_model::proofs::ChoiceLemmas::names_alone_are_chosen, elf_model::proofs::ChoiceLemmas::versions_are_chosen, elf_model::proofs::ChoiceLemmas::cut_names_are_none))]
    pub fn shows_version(&self, name: &[u8], is_cut: bool, version: &VersionSuffix<'_>) -> bool
        ensures { result ≡ chooses (choice_of self.now)
            (shown_as is_cut name.now) (after_of version.now) }
    {
        if self.shows(name, is_cut) {
            return true;
        }
        self.versions && !is_cut && self.has_version(name, version) && !has_sign(name)
    }

    /// Returns `true` if one of the texts is this name with its version.
    fn has_version(&self, name: &[u8], version: &VersionSuffix<'_>) -> bool
        ensures { result ≡ has_version (texts_of self.now.texts.now) name.now
            version.now.is_default (shown_as version.now.is_cut version.now.name.now) }
    {
        if version.is_cut {
            return false;
        }
        let texts = SortedStrings::new(self.texts);
        let plain = VersionedName {
            name,
            sign: PLAIN_SIGN,
            version: version.name,
        };
        if !has_sign_first(version.name) && texts.has_joined(&plain) {
            return true;
        }
        let default = VersionedName {
            name,
            sign: DEFAULT_SIGN,
            version: version.name,
        };
        version.is_default && texts.has_joined(&default)
    }
}
