//! Laws of a loader's lookup, each proved from the definitions.
ghost use Rattle.elf_model.specs.LoaderLaws.{ComparedNumbersAreRecords, ComparingEndsAtTheFirst, FirstEntriesAreAlike, LoaderFoundIsTaken, LoaderCostIsWithinCeiling};
ghost use Rattle.elf_model.specs.LoaderLaws.{NumbersAreNamedAlike, ReadingsAreRecords, WalksStandAtRecords, WalksStandAtTheirEnd};

/// A symbol that is found has the wanted name, is exported, and its version matches.
pub fn loader_found_is_taken()
    ensures { LoaderFoundIsTaken }
{}

/// A lookup reads no more than the ceiling of its file's length, for any bytes.
pub fn loader_cost_is_within_ceiling()
    ensures { LoaderCostIsWithinCeiling }
{}

/// A version index has the same name in a lookup as in a listing.
pub fn numbers_are_named_alike()
    ensures { NumbersAreNamedAlike }
{}

/// The first dynamic entry of a tag is the same in a lookup as in a listing.
pub fn first_entries_are_alike()
    ensures { FirstEntriesAreAlike }
{}

/// The walk of a lookup over a table of versions is at the records that a listing visits.
#[tactic(auto, using(crate::proofs::ReadingLaws::walks_stand_at_records))]
pub fn walks_stand_at_records()
    ensures { WalksStandAtRecords }
{}

/// Such a walk ends after the last of them, or is at what is refused there.
#[tactic(auto, using(crate::proofs::ReadingLaws::walks_stand_at_their_end))]
pub fn walks_stand_at_their_end()
    ensures { WalksStandAtTheirEnd }
{}

/// A lookup reads the version records that a listing visits, and what is refused there.
pub fn readings_are_records()
    ensures { ReadingsAreRecords }
{}

/// Comparing gives the indices of the records under the wanted name, of those that a listing
/// visits.
#[tactic(auto, using(crate::proofs::ReadingLaws::compared_numbers_are_records))]
pub fn compared_numbers_are_records()
    ensures { ComparedNumbersAreRecords }
{}

/// Comparing is refused at the first record that is refused, or whose name has a fault.
#[tactic(auto, using(crate::proofs::ReadingLaws::comparing_ends_at_the_first))]
pub fn comparing_ends_at_the_first()
    ensures { ComparingEndsAtTheFirst }
{}
