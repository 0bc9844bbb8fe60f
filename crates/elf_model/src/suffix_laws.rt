//! The laws of the versions after the names of symbols.
ghost use Rattle.elf_model.specs.SuffixLaws.{UnversionedSymbolsArePlain, UnversionedEntriesArePlain, UndefinedHaveNoDefault, SuffixesAreWithinMost};

/// The symbols of a table without a versym section are listed as without versions.
#[tactic(auto, using(crate::proofs::SuffixLaws::unversioned_symbols))]
pub fn unversioned_symbols_are_plain()
    ensures { UnversionedSymbolsArePlain }
{}

/// And so are relocation entries whose symbols are of such a table.
#[tactic(auto, using(crate::proofs::SuffixLaws::unversioned_entries))]
pub fn unversioned_entries_are_plain()
    ensures { UnversionedEntriesArePlain }
{}

/// An undefined symbol has no default version.
#[tactic(auto, using(crate::proofs::SuffixLaws::undefined_default))]
pub fn undefined_have_no_default()
    ensures { UndefinedHaveNoDefault }
{}

/// The versions cost no more than a versym entry and a name for each entry, and one walk.
#[tactic(auto, using(crate::proofs::CostLemmas::suffixes_within_most))]
pub fn suffixes_are_within_most()
    ensures { SuffixesAreWithinMost }
{}
