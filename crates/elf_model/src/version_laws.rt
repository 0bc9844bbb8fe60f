//! The laws of symbol versions.
ghost use Rattle.elf_model.specs.VersionLaws.{RecordsAreBounded, RecordsStand, NumbersAreSmall, RecordIsVisited, RecordIsRefused, NamedIsFirst, UnnamedHasNone, FirstListNamesFirst, RowsAreSymbols, NamesOfNumbersAreShown, CheckedRowsAreCounted};

/// No more records are visited than could be in the table one after another.
#[tactic(auto, using(crate::proofs::VersionLaws::records_are_bounded))]
pub fn records_are_bounded()
    ensures { RecordsAreBounded }
{}

/// Each record that is visited is in its table.
#[tactic(auto, using(crate::proofs::VersionLaws::records_stand))]
pub fn records_stand()
    ensures { RecordsStand }
{}

/// The index of each is one of those that versions may have.
#[tactic(auto, using(crate::proofs::VersionLaws::numbers_are_small))]
pub fn numbers_are_small()
    ensures { NumbersAreSmall }
{}

/// A record whose checks pass is visited, and the walk goes on where it leads.
#[tactic(auto, using(crate::proofs::VersionSteps::record_is_visited))]
pub fn record_is_visited()
    ensures { RecordIsVisited }
{}

/// At a record with a failed check the walk is cut.
#[tactic(auto, using(crate::proofs::VersionSteps::record_is_refused))]
pub fn record_is_refused()
    ensures { RecordIsRefused }
{}

/// The record that names the version of an index is the first that does.
#[tactic(auto, using(crate::proofs::VersionLaws::named_is_first))]
pub fn named_is_first()
    ensures { NamedIsFirst }
{}

/// If there is none, no record names it.
#[tactic(auto, using(crate::proofs::VersionLaws::unnamed_has_none))]
pub fn unnamed_has_none()
    ensures { UnnamedHasNone }
{}

/// A record of the first of two lists that names a version index names it among both.
#[tactic(auto, using(crate::proofs::VersionLaws::first_list_names_first))]
pub fn first_list_names_first()
    ensures { FirstListNamesFirst }
{}

/// Versions of symbols have one row for each symbol, as far as these have entries.
#[tactic(auto, using(crate::proofs::VersionRowLaws::rows_are_symbols))]
pub fn rows_are_symbols()
    ensures { RowsAreSymbols }
{}

/// If the rows of all definitions and needs have no fault, the name of each version index is shown:
/// the rows of the versions of symbols can then be refused only for their indices.
#[tactic(auto, using(crate::proofs::VersionNameLaws::names_are_shown))]
pub fn names_of_numbers_are_shown()
    ensures { NamesOfNumbersAreShown }
{}

/// What a cost counts of the versions of symbols, by any headers, are the rows after the checks of
/// the file.
#[tactic(auto, using(crate::proofs::VersionCheckLaws::checked_rows))]
pub fn checked_rows_are_counted()
    ensures { CheckedRowsAreCounted }
{}
