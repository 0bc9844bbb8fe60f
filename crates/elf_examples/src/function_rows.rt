//! Symbols whose type is specific to the system, and compressed sections, each computed by the
//! prover.
ghost use Rattle.elf_examples.specs.ExamplesFunctions.{FunctionsAreEntries, FunctionsWithoutEntries, OtherTypesAreRefused, OthersAreAsBefore, FunctionsInOrder, EntriesWouldHelp, CompressedIsRefused, FunctionsCost};

/// Works out entries whose symbols are indirect functions, and compressed sections.
#[tactic(auto, unfolding(elf_model::proofs::OnLiterals::on_literals, crate::proofs::OnApplyExamples::on_examples))]
pub fn ifunc_symbols()
    ensures functions_are_entries { FunctionsAreEntries }
    ensures functions_without_entries { FunctionsWithoutEntries }
    ensures other_types_are_refused { OtherTypesAreRefused }
    ensures others_are_as_before { OthersAreAsBefore }
    ensures functions_in_order { FunctionsInOrder }
    ensures entries_would_help { EntriesWouldHelp }
    ensures compressed_is_refused { CompressedIsRefused }
    ensures functions_cost { FunctionsCost }
{}
