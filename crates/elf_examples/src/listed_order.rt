//! Which of several faults comes first, and a listing with a table of each kind, each computed by
//! the prover.
ghost use Rattle.elf_examples.specs.ListedOrder.{IdentFaultsInOrder, LoadFaultsInOrder, SymbolFaultsInOrder, LinkFaultsComeLater, EveryTableIsListed, NotesAlignFromTheirTable, SectionZeroIsATable, SegmentNotesByFileSize, IdentHasOneValue, HeaderSizesAreOne, SectionsAreCounted, SegmentsEndInside, OtherSegmentsHaveNoRows};

/// Works out which of several faults comes first, and a listing with a table of each kind.
#[tactic(auto, unfolding(elf_model::proofs::OnLiterals::on_literals, crate::proofs::OnExamples::on_examples))]
pub fn fault_order()
    ensures ident_faults_in_order { IdentFaultsInOrder }
    ensures load_faults_in_order { LoadFaultsInOrder }
    ensures symbol_faults_in_order { SymbolFaultsInOrder }
    ensures link_faults_come_later { LinkFaultsComeLater }
    ensures every_table_is_listed { EveryTableIsListed }
    ensures notes_align_from_their_table { NotesAlignFromTheirTable }
    ensures section_zero_is_a_table { SectionZeroIsATable }
    ensures segment_notes_by_file_size { SegmentNotesByFileSize }
    ensures ident_has_one_value { IdentHasOneValue }
    ensures header_sizes_are_one { HeaderSizesAreOne }
    ensures sections_are_counted { SectionsAreCounted }
    ensures segments_end_inside { SegmentsEndInside }
    ensures other_segments_have_no_rows { OtherSegmentsHaveNoRows }
{}
