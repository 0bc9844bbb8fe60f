//! The law of objects that are written with their places.
ghost use Rattle.elf_model.specs.Located.{LocationsAreInPieces};

/// Objects with their places may be written in pieces.
#[tactic(auto, using(crate::proofs::LocatedLaws::in_pieces, crate::proofs::LocatedLaws::end_in_pieces))]
pub fn locations_are_in_pieces()
    ensures { LocationsAreInPieces }
{}
