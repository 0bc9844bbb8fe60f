//! Listings of some symbols alone, each computed by the prover.
ghost use Rattle.elf_examples.specs.ListedFilters.{DefinedSymbolsAreListed, DynamicSymbolsAreListed, FilteredFaultsAreListed, NamesAreFiltered, OtherRowsAreNotFiltered};

/// Works out listings of the symbols that are defined, undefined or dynamic.
#[tactic(auto, unfolding(elf_model::proofs::OnLiterals::on_literals))]
pub fn filtered_listings()
    ensures defined_symbols_are_listed { DefinedSymbolsAreListed }
    ensures dynamic_symbols_are_listed { DynamicSymbolsAreListed }
    ensures names_are_filtered { NamesAreFiltered }
    ensures filtered_faults_are_listed { FilteredFaultsAreListed }
    ensures other_rows_are_not_filtered { OtherRowsAreNotFiltered }
{}
