//! Worked records and names, each computed by the prover.
ghost use Rattle.elf_examples.specs.ExamplesFields.{HeaderFieldsStand, SectionFieldsStand, SegmentFieldsStand, SymbolFieldsStand, RelocationFieldsStand, OtherFieldsStand, FieldsHaveWidths, FileTypesHaveNames, SectionTypesHaveNames, SectionFlagsHaveLetters, SegmentTypesHaveNames, PermissionsHaveLetters, SymbolNumbersHaveNames, RelocationTypesHaveNames, DynamicTagsHaveNames, CausesHaveWords, BytesAreEscaped};

/// Works out the fields of records, the names of their numbers, and escaped bytes.
#[tactic(auto, unfolding(elf_model::proofs::OnLiterals::on_literals, crate::proofs::OnTableExamples::on_examples))]
pub fn fields_and_names()
    ensures header_fields_stand { HeaderFieldsStand }
    ensures section_fields_stand { SectionFieldsStand }
    ensures segment_fields_stand { SegmentFieldsStand }
    ensures symbol_fields_stand { SymbolFieldsStand }
    ensures relocation_fields_stand { RelocationFieldsStand }
    ensures other_fields_stand { OtherFieldsStand }
    ensures fields_have_widths { FieldsHaveWidths }
    ensures file_types_have_names { FileTypesHaveNames }
    ensures section_types_have_names { SectionTypesHaveNames }
    ensures section_flags_have_letters { SectionFlagsHaveLetters }
    ensures segment_types_have_names { SegmentTypesHaveNames }
    ensures permissions_have_letters { PermissionsHaveLetters }
    ensures symbol_numbers_have_names { SymbolNumbersHaveNames }
    ensures relocation_types_have_names { RelocationTypesHaveNames }
    ensures dynamic_tags_have_names { DynamicTagsHaveNames }
    ensures causes_have_words { CausesHaveWords }
    ensures bytes_are_escaped { BytesAreEscaped }
{}
