//! Worked lookups by version indices, each computed by the prover.
ghost use Rattle.elf_examples.specs.ExamplesNumbers.{WordsDecide, WordsEnd, WordsAreChecked, WithoutWords, DefinitionsAreRead, NumbersHaveNoHighestBit, DefinitionsName, EmptyTables, NeedsNameToo, RecordsLieOver};

/// Works out the version of a symbol, by its versym entry, the definitions and the needs.
#[tactic(auto, unfolding(elf_model::proofs::OnLiterals::on_literals, elf_model::proofs::OnLoader::on_loader))]
pub fn symbol_versions()
    ensures words_decide { WordsDecide }
    ensures words_end { WordsEnd }
    ensures words_are_checked { WordsAreChecked }
    ensures without_words { WithoutWords }
    ensures definitions_are_read { DefinitionsAreRead }
    ensures numbers_have_no_highest_bit { NumbersHaveNoHighestBit }
    ensures definitions_name { DefinitionsName }
    ensures empty_tables { EmptyTables }
    ensures needs_name_too { NeedsNameToo }
    ensures records_lie_over { RecordsLieOver }
{}
