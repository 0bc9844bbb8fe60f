//! Worked results of lookups, each a theorem about the definitions that the prover computes.
ghost use Rattle.elf_examples.specs.ExamplesAnswers.{FoundIsWritten, AbsentIsWritten, RefusalIsWritten, AnswersAreObjects};

/// Works out the text and the status of a lookup: found, absent, refused, and as an object.
#[tactic(auto, unfolding(elf_model::proofs::OnLiterals::on_literals, crate::proofs::OnTableExamples::on_examples))]
pub fn lookup_texts()
    ensures found_is_written { FoundIsWritten }
    ensures absent_is_written { AbsentIsWritten }
    ensures refusal_is_written { RefusalIsWritten }
    ensures answers_are_objects { AnswersAreObjects }
{}
