//! Worked rows of the versions after the names of symbols, each computed by the prover.
ghost use Rattle.elf_examples.specs.ListedSuffixes.{SymbolsHaveVersions, TextsAskForVersions, FrontsAreNotAskedFor, SignsPartTexts, RowsAreRefused, TablesAreRefused, OtherTablesHaveTheirs, EntriesHaveVersions, ObjectsHaveVersions, FirstNumbersCount, HiddenNumbersAreSmall, SuffixesHaveTheirStrings, RefusalsAreNotChosen, TablesAreRefusedInOrder, EmptyTablesAreNotRefused, FirstSymbolHasNoVersion, ObjectsHaveDefaults, SuffixesAreCounted, CeilingWithVersions};

/// Works out the versions after the names of symbols, their refusals, and their cost.
#[tactic(auto, unfolding(elf_model::proofs::OnLiterals::on_literals, crate::proofs::OnGnuExamples::on_gnu_examples, elf_model::specs::Cost::style_ceiling))]
pub fn version_suffixes()
    ensures symbols_have_versions { SymbolsHaveVersions }
    ensures texts_ask_for_versions { TextsAskForVersions }
    ensures fronts_are_not_asked_for { FrontsAreNotAskedFor }
    ensures signs_part_texts { SignsPartTexts }
    ensures rows_are_refused { RowsAreRefused }
    ensures tables_are_refused { TablesAreRefused }
    ensures other_tables_have_theirs { OtherTablesHaveTheirs }
    ensures entries_have_versions { EntriesHaveVersions }
    ensures objects_have_versions { ObjectsHaveVersions }
    ensures first_numbers_count { FirstNumbersCount }
    ensures hidden_numbers_are_small { HiddenNumbersAreSmall }
    ensures suffixes_have_their_strings { SuffixesHaveTheirStrings }
    ensures refusals_are_not_chosen { RefusalsAreNotChosen }
    ensures tables_are_refused_in_order { TablesAreRefusedInOrder }
    ensures empty_tables_are_not_refused { EmptyTablesAreNotRefused }
    ensures first_symbol_has_no_version { FirstSymbolHasNoVersion }
    ensures objects_have_defaults { ObjectsHaveDefaults }
    ensures suffixes_are_counted { SuffixesAreCounted }
    ensures ceiling_with_versions { CeilingWithVersions }
{}
