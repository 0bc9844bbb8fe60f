//! Entries for other sections, of other symbols and at the end of a section, each computed by the
//! prover.
ghost use Rattle.elf_examples.specs.ExamplesPlaces.{OtherSectionIsApplied, SymbolsByTheirIndex, EntriesEndInside, LinkedSymbolsApply, CallsAloneTakeEntries, HeadersAndNamesCost};

/// Works out entries for other sections, of other symbols, and at the end of a section.
#[tactic(auto, unfolding(elf_model::proofs::OnLiterals::on_literals, crate::proofs::OnApplyExamples::on_examples))]
pub fn entry_places()
    ensures other_section_is_applied { OtherSectionIsApplied }
    ensures symbols_by_their_index { SymbolsByTheirIndex }
    ensures entries_end_inside { EntriesEndInside }
    ensures linked_symbols_apply { LinkedSymbolsApply }
    ensures calls_alone_take_entries { CallsAloneTakeEntries }
    ensures headers_and_names_cost { HeadersAndNamesCost }
{}
