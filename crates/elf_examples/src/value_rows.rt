//! Worked relocation values, each a theorem about the definitions that the prover computes.
ghost use Rattle.elf_examples.specs.ExamplesValues.{RelativeIsSigned, CallTakesEntry, Bits32, Bits64, Bits16, Bits8, OtherTypes};

/// Works out the values of each relocation type, and those that do not fit.
#[tactic(auto, unfolding(elf_model::proofs::OnLiterals::on_literals, crate::proofs::OnApplyExamples::on_examples))]
pub fn relocation_values()
    ensures relative_is_signed { RelativeIsSigned }
    ensures call_takes_entry { CallTakesEntry }
    ensures bits_32 { Bits32 }
    ensures bits_64 { Bits64 }
    ensures bits_16 { Bits16 }
    ensures bits_8 { Bits8 }
    ensures other_types { OtherTypes }
{}
