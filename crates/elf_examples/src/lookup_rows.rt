//! More worked lookups, each a theorem about the definitions that the prover computes.
ghost use Rattle.elf_examples.specs.ExamplesLookups.{LongerHashes, LongChainsAreWalked, MoreChainsThanSymbols, CycleInTheSecondBucket, WordsHaveFourBytes, NoChains, EmptyHashIsChecked, LookupsCheckTheFile, RefusalsCompareNothing, WantedNameIsWritten, OtherHashIsNone, UndefinedIsFound, HashPastTheLastSection, HashInTheLastSection, ThreeBuckets, HashLinkBeforeCounts, HashEntriesAreNotChecked, WideWordsAreRefused, LinkedSymbolsCount};

/// Works out lookups by hash tables with other counts and links, and the checks before them.
#[tactic(auto, unfolding(elf_model::proofs::OnLiterals::on_literals, crate::proofs::OnTableExamples::on_examples))]
pub fn hash_tables()
    ensures longer_hashes { LongerHashes }
    ensures long_chains_are_walked { LongChainsAreWalked }
    ensures more_chains_than_symbols { MoreChainsThanSymbols }
    ensures cycle_in_the_second_bucket { CycleInTheSecondBucket }
    ensures words_have_four_bytes { WordsHaveFourBytes }
    ensures no_chains { NoChains }
    ensures empty_hash_is_checked { EmptyHashIsChecked }
    ensures lookups_check_the_file { LookupsCheckTheFile }
    ensures refusals_compare_nothing { RefusalsCompareNothing }
    ensures wanted_name_is_written { WantedNameIsWritten }
    ensures other_hash_is_none { OtherHashIsNone }
    ensures undefined_is_found { UndefinedIsFound }
    ensures hash_past_the_last_section { HashPastTheLastSection }
    ensures hash_in_the_last_section { HashInTheLastSection }
    ensures three_buckets { ThreeBuckets }
    ensures hash_link_before_counts { HashLinkBeforeCounts }
    ensures hash_entries_are_not_checked { HashEntriesAreNotChecked }
    ensures wide_words_are_refused { WideWordsAreRefused }
    ensures linked_symbols_count { LinkedSymbolsCount }
{}
