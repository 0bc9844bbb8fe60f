//! Worked bindings of names over files, each computed by the prover.
ghost use Rattle.elf_examples.specs.ExamplesBindings.{FirstDefines, NoneDefines, RefusalsStop, LookupsAsk, SymbolsAsk, EmptyNamesAskForNothing, SymbolsAreRefused, SymbolsAreCounted, OtherSymbolsAsk, WordsOfSymbolsEnd, SymbolsAreRefusedInOrder, HighestBucketsCount};

/// Works out which file defines a name, what a symbol references, and what both read.
#[tactic(auto, unfolding(elf_model::proofs::OnLiterals::on_literals, elf_model::proofs::OnLoader::on_loader, crate::proofs::OnBindings::on_bindings))]
pub fn name_bindings()
    ensures first_defines { FirstDefines }
    ensures none_defines { NoneDefines }
    ensures refusals_stop { RefusalsStop }
    ensures lookups_ask { LookupsAsk }
    ensures symbols_ask { SymbolsAsk }
    ensures empty_names_ask_for_nothing { EmptyNamesAskForNothing }
    ensures symbols_are_refused { SymbolsAreRefused }
    ensures symbols_are_counted { SymbolsAreCounted }
    ensures other_symbols_ask { OtherSymbolsAsk }
    ensures words_of_symbols_end { WordsOfSymbolsEnd }
    ensures symbols_are_refused_in_order { SymbolsAreRefusedInOrder }
    ensures highest_buckets_count { HighestBucketsCount }
{}
