//! The law of a listing that is written as a table.
ghost use Rattle.elf_model.specs.TableTexts.{TableIsInPieces};

/// A table may be written in pieces.
#[tactic(auto, using(crate::proofs::TableLaws::in_pieces, crate::proofs::TableLaws::end_in_pieces))]
pub fn table_is_in_pieces()
    ensures { TableIsInPieces }
{}
