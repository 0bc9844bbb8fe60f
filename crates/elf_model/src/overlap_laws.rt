//! The laws of overlapping LOAD segments.
ghost use Rattle.elf_model.specs.OverlapLaws.{NoPageIsShared, OverlapIsListedSecond, OverlapIsListedElsewhere};

/// If the checks pass, each LOAD segment begins after all pages of those before it.
pub fn no_page_is_shared()
    ensures { NoPageIsShared }
{}

/// If one overlaps another, a listing by the program headers is the file header's line and that
/// fault's line.
pub fn overlap_is_listed_second()
    ensures { OverlapIsListedSecond }
{}

/// Any other listing of such a file is like that of other files.
#[tactic(auto, using(crate::proofs::OverlapLemmas::overlap_elsewhere))]
pub fn overlap_is_listed_elsewhere()
    ensures { OverlapIsListedElsewhere }
{}
