//! Laws of walks in a gABI hash table (5, Hash Table) for a symbol that answers, each proved from
//! the definitions.
ghost use Rattle.elf_model.specs.SysvWalkLaws.{SysvWalkAnswers, SysvWalkIsOne, SysvWalkIsBounded, SysvFoundAnswers, SysvWalkIsLookup};

/// What is computed is the result of a walk: its outcome, and how many symbols it tries.
pub fn sysv_walk_answers()
    ensures { SysvWalkAnswers }
{}

/// A walk has no other result.
pub fn sysv_walk_is_one()
    ensures { SysvWalkIsOne }
{}

/// A walk tries no more symbols than there are chains, and reads one chain word for each.
pub fn sysv_walk_is_bounded()
    ensures { SysvWalkIsBounded }
{}

/// A symbol that is found answers.
pub fn sysv_found_answers()
    ensures { SysvFoundAnswers }
{}

/// The lookup of a name in a HASH section is the walk for a symbol that has it.
pub fn sysv_walk_is_lookup()
    ensures { SysvWalkIsLookup }
{}
