//! Laws of lookups in a GNU hash table, each proved from the definitions.
ghost use Rattle.elf_model.specs.GnuHashLaws.{GnuLookupAnswers, GnuLookupIsOne, GnuLookupIsBounded, GnuFoundAnswers, GnuFoundIsFirst, GnuAbsentMeansNone};

/// What is computed is the result of a lookup: its outcome, how many symbols it tries and how many
/// words it reads.
pub fn gnu_lookup_answers()
    ensures { GnuLookupAnswers }
{}

/// A lookup has no other result.
pub fn gnu_lookup_is_one()
    ensures { GnuLookupIsOne }
{}

/// A lookup tries no more symbols than it reads chain words, and reads no more of these than there
/// are symbols, and than the table has room for.
pub fn gnu_lookup_is_bounded()
    ensures { GnuLookupIsBounded }
{}

/// A symbol that is found answers, and is in the table under the hash.
pub fn gnu_found_answers()
    ensures { GnuFoundAnswers }
{}

/// Of the symbols that answer, and that are in the table under the hash, the one that is found is
/// the first.
pub fn gnu_found_is_first()
    ensures { GnuFoundIsFirst }
{}

/// If the table has each symbol that answers, and none is found, no symbol answers.
pub fn gnu_absent_means_none()
    ensures { GnuAbsentMeansNone }
{}
