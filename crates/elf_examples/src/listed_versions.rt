//! Worked rows of symbol versions, each computed by the prover.
ghost use Rattle.elf_examples.specs.ListedVersions.{NumbersAreRefused, FlagsNameVersions, NeedsHaveTheirStrings, NumberTablesAreRefused, NumberTablesEnd, DefinitionsAreRefused, DefinitionsLeadOn, DefinitionsAreNamed, NeedsAreRefused, NeedsLeadOn, DefinitionsComeFirst, VersionedLibraryLists, LibraryListsWhole, StandardHasNone, HostileLists, NoneWithoutSections, OverlappingAreCut, VersionsCost};

/// Works out the rows of symbol versions, their refusals in order, and their cost.
#[tactic(auto, unfolding(elf_model::proofs::OnLiterals::on_literals, crate::proofs::OnGnuExamples::on_gnu_examples))]
pub fn version_listings()
    ensures numbers_are_refused { NumbersAreRefused }
    ensures flags_name_versions { FlagsNameVersions }
    ensures needs_have_their_strings { NeedsHaveTheirStrings }
    ensures number_tables_are_refused { NumberTablesAreRefused }
    ensures number_tables_end { NumberTablesEnd }
    ensures definitions_are_refused { DefinitionsAreRefused }
    ensures definitions_lead_on { DefinitionsLeadOn }
    ensures definitions_are_named { DefinitionsAreNamed }
    ensures needs_are_refused { NeedsAreRefused }
    ensures needs_lead_on { NeedsLeadOn }
    ensures definitions_come_first { DefinitionsComeFirst }
    ensures library_lists { VersionedLibraryLists }
    ensures library_lists_whole { LibraryListsWhole }
    ensures standard_has_none { StandardHasNone }
    ensures hostile_lists { HostileLists }
    ensures none_without_sections { NoneWithoutSections }
    ensures overlapping_are_cut { OverlappingAreCut }
    ensures versions_cost { VersionsCost }
{}
