//! Worked lookups, each a theorem about the definitions that the prover computes.
ghost use Rattle.elf_examples.specs.ExamplesHash.{KnownHashes, FirstIsFound, SecondIsFound, CycleIsRefused, EndIsAbsent, WrongWordIsRefused, WrongCountsAreRefused, NoTableIsRefused, HashSectionInOrder, HashLinksInOrder, NameFaultsAreRefused, EmptySymbolTable, SectionZeroAsHash, FindCostsAtLeast, TwoBuckets, HashLinkPastSections};

/// Works out lookups by a gABI hash table: chains, cycles, words, counts, names and links.
#[tactic(auto, unfolding(elf_model::proofs::OnLiterals::on_literals, crate::proofs::OnTableExamples::on_examples))]
pub fn hash_lookups()
    ensures known_hashes { KnownHashes }
    ensures first_is_found { FirstIsFound }
    ensures second_is_found { SecondIsFound }
    ensures cycle_is_refused { CycleIsRefused }
    ensures end_is_absent { EndIsAbsent }
    ensures wrong_word_is_refused { WrongWordIsRefused }
    ensures wrong_counts_are_refused { WrongCountsAreRefused }
    ensures no_table_is_refused { NoTableIsRefused }
    ensures hash_section_in_order { HashSectionInOrder }
    ensures hash_links_in_order { HashLinksInOrder }
    ensures name_faults_are_refused { NameFaultsAreRefused }
    ensures empty_symbol_table { EmptySymbolTable }
    ensures section_zero_as_hash { SectionZeroAsHash }
    ensures find_costs_at_least { FindCostsAtLeast }
    ensures two_buckets { TwoBuckets }
    ensures hash_link_past_sections { HashLinkPastSections }
{}
