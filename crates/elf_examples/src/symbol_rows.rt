//! Worked examples of what dynamic symbols show, each computed by the prover.
ghost use Rattle.elf_examples.specs.ExamplesSymbols.{CanaryRows, FortifyRows, CountRows, EmptyTableRows, NameFaults, FirstSymbolIsNone, LongNamesMarkNothing};

/// Works out the traits that dynamic symbols show, and how many symbols there are.
#[tactic(auto, unfolding(elf_model::proofs::OnLiterals::on_literals, elf_model::proofs::OnLoader::on_loader, crate::proofs::OnTraits::on_traits))]
pub fn dynamic_symbol_traits()
    ensures canary_rows { CanaryRows }
    ensures fortify_rows { FortifyRows }
    ensures count_rows { CountRows }
    ensures empty_table_rows { EmptyTableRows }
    ensures name_faults { NameFaults }
    ensures first_symbol_is_none { FirstSymbolIsNone }
    ensures long_names_mark_nothing { LongNamesMarkNothing }
{}
