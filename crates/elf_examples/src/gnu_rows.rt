//! Worked names of GNU numbers, each computed by the prover.
ghost use Rattle.elf_examples.specs.ExamplesGnu.{SectionTypesOfGnu, SectionTypesElsewhere, SegmentTypesOfGnu, RelocationTypesOfGnu, RelocationTypesElsewhere, DynamicTagsOfGnu, MoreDynamicTagsOfGnu, SymbolTypesOfGnu, BindingsOfGnu, PlacesOfGnu, PlacesElsewhere, FlagsOfGnu, FlagsElsewhere, FlagsWithoutGnu};

/// Works out the names of GNU numbers, and of their neighbors.
#[tactic(auto, unfolding(elf_model::proofs::OnLiterals::on_literals))]
pub fn gnu_names()
    ensures section_types_of_gnu { SectionTypesOfGnu }
    ensures section_types_elsewhere { SectionTypesElsewhere }
    ensures segment_types_of_gnu { SegmentTypesOfGnu }
    ensures relocation_types_of_gnu { RelocationTypesOfGnu }
    ensures relocation_types_elsewhere { RelocationTypesElsewhere }
    ensures dynamic_tags_of_gnu { DynamicTagsOfGnu }
    ensures more_dynamic_tags_of_gnu { MoreDynamicTagsOfGnu }
    ensures symbol_types_of_gnu { SymbolTypesOfGnu }
    ensures bindings_of_gnu { BindingsOfGnu }
    ensures places_of_gnu { PlacesOfGnu }
    ensures places_elsewhere { PlacesElsewhere }
    ensures flags_of_gnu { FlagsOfGnu }
    ensures flags_elsewhere { FlagsElsewhere }
    ensures flags_without_gnu { FlagsWithoutGnu }
{}
