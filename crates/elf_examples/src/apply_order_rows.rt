//! The order of a relocation entry's faults, the terms of its type, and the costs of longer names,
//! each computed by the prover.
ghost use Rattle.elf_examples.specs.ExamplesApplyOrder.{EntryFaultsInOrder, TypesTakeTheirTerms, AddressesAreWhole, TypesWithoutASymbol, LaterItemsAreFound, LongNamesCost, LaterFaultsCost, SectionZeroIsApplied};

/// Works out which fault of an entry comes first, the terms of its type, and later costs.
#[tactic(auto, unfolding(elf_model::proofs::OnLiterals::on_literals, crate::proofs::OnApplyExamples::on_examples))]
pub fn entry_faults()
    ensures entry_faults_in_order { EntryFaultsInOrder }
    ensures types_take_their_terms { TypesTakeTheirTerms }
    ensures addresses_are_whole { AddressesAreWhole }
    ensures types_without_a_symbol { TypesWithoutASymbol }
    ensures later_items_are_found { LaterItemsAreFound }
    ensures long_names_cost { LongNamesCost }
    ensures later_faults_cost { LaterFaultsCost }
    ensures section_zero_is_applied { SectionZeroIsApplied }
{}
