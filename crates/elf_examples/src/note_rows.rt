//! Worked examples of note tables, each a theorem about the definitions that the prover computes.
ghost use Rattle.elf_examples.specs.ExamplesNotes.{NoteFills, NoteTail, NoteOfZeros, NotePastEnd, NoteAlignedToEight, NoteAlignedToFour, NoteAlignments, NoteNames, NoteShapes, NoteEmptyDescriptor, LaterNotesStand};

/// Works out where the notes of a table end, their alignment, and their names.
#[tactic(auto, unfolding(elf_model::proofs::OnLiterals::on_literals, crate::proofs::OnTableExamples::on_examples))]
pub fn note_tables()
    ensures note_fills { NoteFills }
    ensures note_tail { NoteTail }
    ensures note_of_zeros { NoteOfZeros }
    ensures note_past_end { NotePastEnd }
    ensures note_aligned_to_eight { NoteAlignedToEight }
    ensures note_aligned_to_four { NoteAlignedToFour }
    ensures note_alignments { NoteAlignments }
    ensures note_names { NoteNames }
    ensures note_shapes { NoteShapes }
    ensures note_empty_descriptor { NoteEmptyDescriptor }
    ensures later_notes_stand { LaterNotesStand }
{}
