//! Listings of relocation entries, each computed by the prover.
ghost use Rattle.elf_examples.specs.ListedRelocations.{OverlappingRelocationsList, RelocationWithoutSymbols, OneCallLists, RelocationSymbolsAreChecked, RelocationTypesOfOtherMachines, AddendsList, RelocationChecksInOrder, LinkToSectionZero, LinkToEmptySymbols, EmptyRelocationsAreNotChecked, LinkToDynamicSymbols, LinksToNoSymbols, EntryWithoutSymbolLists, LinkedSymbolsAreCheckedFirst, EarlierRelocationsAreListed, EmptyRelocationsHaveNoLink, EmptySymbolsHaveNoLink, RelocationsAfterLoadChecks, RelocationNamesAreCut};

/// Works out listings of relocation entries, with their symbols and their checks in order.
#[tactic(auto, unfolding(elf_model::proofs::OnLiterals::on_literals))]
pub fn relocation_listings()
    ensures overlapping_relocations_list { OverlappingRelocationsList }
    ensures relocation_without_symbols { RelocationWithoutSymbols }
    ensures one_call_lists { OneCallLists }
    ensures relocation_symbols_are_checked { RelocationSymbolsAreChecked }
    ensures relocation_types_of_other_machines { RelocationTypesOfOtherMachines }
    ensures addends_list { AddendsList }
    ensures relocation_checks_in_order { RelocationChecksInOrder }
    ensures link_to_section_zero { LinkToSectionZero }
    ensures link_to_empty_symbols { LinkToEmptySymbols }
    ensures empty_relocations_are_not_checked { EmptyRelocationsAreNotChecked }
    ensures link_to_dynamic_symbols { LinkToDynamicSymbols }
    ensures links_to_no_symbols { LinksToNoSymbols }
    ensures entry_without_symbol_lists { EntryWithoutSymbolLists }
    ensures linked_symbols_are_checked_first { LinkedSymbolsAreCheckedFirst }
    ensures earlier_relocations_are_listed { EarlierRelocationsAreListed }
    ensures empty_relocations_have_no_link { EmptyRelocationsHaveNoLink }
    ensures empty_symbols_have_no_link { EmptySymbolsHaveNoLink }
    ensures relocations_after_load_checks { RelocationsAfterLoadChecks }
    ensures relocation_names_are_cut { RelocationNamesAreCut }
{}
