//! The laws of a file whose header locates no section headers.
ghost use Rattle.elf_model.specs.StyleLaws.{ViewIsAsLong, ViewIsSeenInSlices, ViewIsTheFileAfterTheHeader};
ghost use Rattle.elf_model.specs.StyleLaws.{ViewIsTheFileElsewhere, ViewTellsOfNone, ViewIsCheckedAlike, ViewIsItsOwnView};

/// It is as long as the file.
#[tactic(auto, using(crate::proofs::StyleLemmas::view_is_as_long))]
pub fn view_is_as_long()
    ensures { ViewIsAsLong }
{}

/// Its bytes at an offset are those of the file, with zeros where the header locates section
/// headers.
pub fn view_is_seen_in_slices()
    ensures { ViewIsSeenInSlices }
{}

/// After the file header its bytes are the file's.
#[tactic(auto, using(crate::proofs::StyleLemmas::view_after))]
pub fn view_is_the_file_after_the_header()
    ensures { ViewIsTheFileAfterTheHeader }
{}

/// Before e_shoff, and between that and e_shnum, its bytes are the file's.
#[tactic(auto, using(crate::proofs::StyleLemmas::view_elsewhere))]
pub fn view_is_the_file_elsewhere()
    ensures { ViewIsTheFileElsewhere }
{}

/// Its header locates no section headers.
pub fn view_tells_of_none()
    ensures { ViewTellsOfNone }
{}

/// Its header passes the checks that the file's passes, and no others.
#[tactic(auto, using(crate::proofs::StyleLemmas::view_checked_alike))]
pub fn view_is_checked_alike()
    ensures { ViewIsCheckedAlike }
{}

/// Hiding twice is the same as hiding once.
#[tactic(auto, using(crate::proofs::StyleLemmas::view_is_its_own))]
pub fn view_is_its_own()
    ensures { ViewIsItsOwnView }
{}
