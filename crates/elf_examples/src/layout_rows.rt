//! Worked symbols in layouts and requests to apply, each a theorem about the definitions that the
//! prover computes.
ghost use Rattle.elf_examples.specs.ExamplesLayouts.{WeakAloneIsZero, ReservedIndicesAreUnplaced, DefinitionsAreForUndefined, EntriesAreForAll, SectionBytesAreChecked, RequestsCheckTheFile, PlacesAreWhole, BadHeadersCost, OrderOverSections, NoBytesCost, OrderHasEachType, EntriesWithoutAddends, EntriesOfTheSection, OtherTypesAreUnsupported, WeakIsDefined, EntriesPastTheLastSection, AddressesMayBeZero, FirstItemStands, LaterNamesAreCompared, DefinitionsStandAlone, OtherMachinesAreRefused};

/// Works out the values of symbols in a layout, the checks before them, and costs.
#[tactic(auto, unfolding(elf_model::proofs::OnLiterals::on_literals, crate::proofs::OnApplyExamples::on_examples))]
pub fn layout_symbols()
    ensures weak_alone_is_zero { WeakAloneIsZero }
    ensures reserved_indices_are_unplaced { ReservedIndicesAreUnplaced }
    ensures definitions_are_for_undefined { DefinitionsAreForUndefined }
    ensures entries_are_for_all { EntriesAreForAll }
    ensures section_bytes_are_checked { SectionBytesAreChecked }
    ensures requests_check_the_file { RequestsCheckTheFile }
    ensures places_are_whole { PlacesAreWhole }
    ensures bad_headers_cost { BadHeadersCost }
    ensures order_over_sections { OrderOverSections }
    ensures no_bytes_cost { NoBytesCost }
    ensures order_has_each_type { OrderHasEachType }
    ensures entries_without_addends { EntriesWithoutAddends }
    ensures entries_of_the_section { EntriesOfTheSection }
    ensures other_types_are_unsupported { OtherTypesAreUnsupported }
    ensures weak_is_defined { WeakIsDefined }
    ensures entries_past_the_last_section { EntriesPastTheLastSection }
    ensures addresses_may_be_zero { AddressesMayBeZero }
    ensures first_item_stands { FirstItemStands }
    ensures later_names_are_compared { LaterNamesAreCompared }
    ensures definitions_stand_alone { DefinitionsStandAlone }
    ensures other_files_are_refused { OtherMachinesAreRefused }
{}
