//! Worked lookups in hash tables with other words, each computed by the prover.
ghost use Rattle.elf_examples.specs.ExamplesChains.{CountsAreRefused, CountsAtTheirBounds, ChainsEndWithTheTable, FiltersTellOfNone, BucketsLeadToSymbols, ChainsEndAtOddWords, OtherTables, OtherTablesAsk, OtherTablesAreChecked, NoTableIsFound, TablesLinkToSymbols};

/// Works out lookups by the counts, filters, buckets and chains of a hash table.
#[tactic(auto, unfolding(elf_model::proofs::OnLiterals::on_literals, elf_model::proofs::OnLoader::on_loader))]
pub fn hash_chains()
    ensures counts_are_refused { CountsAreRefused }
    ensures counts_at_their_bounds { CountsAtTheirBounds }
    ensures chains_end_with_the_table { ChainsEndWithTheTable }
    ensures filters_tell_of_none { FiltersTellOfNone }
    ensures buckets_lead_to_symbols { BucketsLeadToSymbols }
    ensures chains_end_at_odd_words { ChainsEndAtOddWords }
    ensures other_tables { OtherTables }
    ensures other_tables_ask { OtherTablesAsk }
    ensures other_tables_are_checked { OtherTablesAreChecked }
    ensures no_table_is_found { NoTableIsFound }
    ensures tables_link_to_symbols { TablesLinkToSymbols }
{}
