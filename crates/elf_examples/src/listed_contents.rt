//! What a table has in words, each computed by the prover.
ghost use Rattle.elf_examples.specs.ListedContents.{AbiTagsAreSystems, CoreNotesHaveTypes, FlagsAreInATable, FlagsHaveWords, OtherNotesOfATable, OtherPropertiesAreDigits, PropertiesAreWords};

/// Works out the words of flags, alone and in each rendering.
#[tactic(auto, unfolding(elf_model::proofs::OnLiterals::on_literals, crate::proofs::OnTables::on_tables, crate::proofs::OnExamples::on_examples))]
pub fn flags_in_tables()
    ensures flags_have_words { FlagsHaveWords }
    ensures flags_are_in_a_table { FlagsAreInATable }
{}

/// Works out the content of notes, and what is shown of notes without one.
#[tactic(auto, unfolding(elf_model::proofs::OnLiterals::on_literals, crate::proofs::OnTables::on_tables, crate::proofs::OnExamples::on_examples))]
pub fn notes_in_tables()
    ensures abi_tags_are_systems { AbiTagsAreSystems }
    ensures properties_are_words { PropertiesAreWords }
    ensures other_properties_are_digits { OtherPropertiesAreDigits }
    ensures other_notes_of_a_table { OtherNotesOfATable }
    ensures core_notes_have_types { CoreNotesHaveTypes }
{}
