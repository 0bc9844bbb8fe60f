//! Worked bytes of sections and of program headers, each a theorem about the definitions that the
//! prover computes.
ghost use Rattle.elf_examples.specs.ExamplesBytes.{SectionsAreWritten, NoBytesAreWritten, SectionsAreRefused, NamesAreFound, NamesAreChecked, SegmentsAreWritten, SegmentsAreRefused, CostsOfBytes};

/// Works out which bytes are written, for what they are refused, and what they cost.
#[tactic(auto, unfolding(elf_model::proofs::OnLiterals::on_literals, crate::proofs::OnBytesExamples::on_examples))]
pub fn written_bytes()
    ensures sections_are_written { SectionsAreWritten }
    ensures no_bytes_are_written { NoBytesAreWritten }
    ensures sections_are_refused { SectionsAreRefused }
    ensures names_are_found { NamesAreFound }
    ensures names_are_checked { NamesAreChecked }
    ensures segments_are_written { SegmentsAreWritten }
    ensures segments_are_refused { SegmentsAreRefused }
    ensures costs_of_bytes { CostsOfBytes }
{}
