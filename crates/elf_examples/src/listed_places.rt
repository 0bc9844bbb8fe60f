//! Listings of the rows at a byte or at an address, each computed by the prover.
ghost use Rattle.elf_examples.specs.ListedPlaces.{BothPlacesAreMet, PlacedFaultsAreListed, RowsAtAByteAreListed, RowsOfAFunctionAreListed, RowsOfANoteAreListed, RowsOfASegmentAreListed, RowsOfAnEntryAreListed, SizesOfSymbolsAreKept};

/// Works out listings of the rows at a byte of the file, and at an address.
#[tactic(auto, unfolding(elf_model::proofs::OnLiterals::on_literals))]
pub fn placed_listings()
    ensures rows_at_a_byte_are_listed { RowsAtAByteAreListed }
    ensures rows_of_a_function_are_listed { RowsOfAFunctionAreListed }
    ensures sizes_of_symbols_are_kept { SizesOfSymbolsAreKept }
    ensures rows_of_an_entry_are_listed { RowsOfAnEntryAreListed }
    ensures rows_of_a_segment_are_listed { RowsOfASegmentAreListed }
    ensures rows_of_a_note_are_listed { RowsOfANoteAreListed }
    ensures both_places_are_met { BothPlacesAreMet }
    ensures placed_faults_are_listed { PlacedFaultsAreListed }
{}
