//! Laws of lookups in a hash table (gABI 5, Hash Table), each proved from the definitions.
ghost use Rattle.elf_model.specs.HashLaws.{RepeatNeverEnds, LongWalkRepeats, LongWalkNeverEnds, LookupIsBounded, LookupAnswers, LookupIsOne, CycleIsEndless, CycleExactly, ComparedWithinChains};

/// A walk that reaches a word a second time before it ends never ends.
pub fn repeat_never_ends()
    ensures { RepeatNeverEnds }
{}

/// A walk over words below a bound that goes on for as many words reaches one of them a second
/// time.
pub fn long_walk_repeats()
    ensures { LongWalkRepeats }
{}

/// A walk over words below a bound that goes on for as many words goes on forever.
pub fn long_walk_never_ends()
    ensures { LongWalkNeverEnds }
{}

/// The words at which a lookup does not end are above 0 and below the number of chains.
pub fn lookup_is_bounded()
    ensures { LookupIsBounded }
{}

/// What is computed is the result of a lookup: its outcome, and how many names it compares.
pub fn lookup_answers()
    ensures { LookupAnswers }
{}

/// A lookup has no other result.
pub fn lookup_is_one()
    ensures { LookupIsOne }
{}

/// A lookup that goes on for as many words as there are chains, one at least, never ends.
pub fn cycle_is_endless()
    ensures { CycleIsEndless }
{}

/// A lookup is the cycle exactly if it never ends, and its outcome alone shows that.
pub fn cycle_exactly()
    ensures { CycleExactly }
{}

/// A lookup compares no more symbols' names than there are chains.
pub fn compared_within_chains()
    ensures { ComparedWithinChains }
{}
