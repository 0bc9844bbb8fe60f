//! The laws of which rows are shown.
ghost use Rattle.elf_model.specs.SymbolFilterLaws.{EveryPlaceIsShown, EverySymbolIsShown, NarrowedChooses, SelectionsHideNoFault};

/// Of the same rows, or none, those are shown that are among them.
#[tactic(auto, using(crate::proofs::FilterLaws::narrowed_chooses))]
pub fn narrowed_chooses()
    ensures { NarrowedChooses }
{}

/// If no condition is set, every symbol is shown.
#[tactic(auto, using(crate::proofs::FilterLaws::every_symbol_is_shown))]
pub fn every_symbol_is_shown()
    ensures { EverySymbolIsShown }
{}

/// If no place is given, every row is shown.
#[tactic(auto, using(crate::proofs::PlaceLaws::every_place_is_shown))]
pub fn every_place_is_shown()
    ensures { EveryPlaceIsShown }
{}

/// Whatever rows and symbols are shown, the first fault of a listing is the same, and so is its
/// cost.
pub fn selections_hide_no_fault()
    ensures { SelectionsHideNoFault }
{}
