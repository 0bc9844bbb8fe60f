//! Entries that take a symbol's entry in the global offset table, each computed by the prover.
ghost use Rattle.elf_examples.specs.ExamplesTables.{EntriesAreTaken, EntriesAreOfAnySymbol, EntriesAreSigned, TypesWithoutEntries, SymbolsWithoutEntries, EntryChecksInOrder, OthersTakeNoTable, TableNamesCost};

/// Works out entries that take a symbol's entry in the global offset table.
#[tactic(auto, unfolding(elf_model::proofs::OnLiterals::on_literals, crate::proofs::OnApplyExamples::on_examples))]
pub fn got_entries()
    ensures entries_are_taken { EntriesAreTaken }
    ensures entries_are_of_any_symbol { EntriesAreOfAnySymbol }
    ensures entries_are_signed { EntriesAreSigned }
    ensures types_without_entries { TypesWithoutEntries }
    ensures symbols_without_entries { SymbolsWithoutEntries }
    ensures entry_checks_in_order { EntryChecksInOrder }
    ensures others_take_no_table { OthersTakeNoTable }
    ensures table_names_cost { TableNamesCost }
{}
