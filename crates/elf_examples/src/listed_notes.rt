//! Listings of notes, each computed by the prover.
ghost use Rattle.elf_examples.specs.ListedNotes.{OneNoteLists, ZerosAfterANote, NotesPastTheEnd, NotesAtBothAlignments, LongDescriptorsAreCut, SegmentNotesList, NotesOutsideTheFile, BytesAfterNotes, EmptyNotesAreNotChecked};

/// Works out listings of notes, by sections and by segments.
#[tactic(auto, unfolding(elf_model::proofs::OnLiterals::on_literals))]
pub fn note_listings()
    ensures one_note_lists { OneNoteLists }
    ensures zeros_after_a_note { ZerosAfterANote }
    ensures notes_past_the_end { NotesPastTheEnd }
    ensures notes_at_both_alignments { NotesAtBothAlignments }
    ensures long_descriptors_are_cut { LongDescriptorsAreCut }
    ensures segment_notes_list { SegmentNotesList }
    ensures notes_outside_the_file { NotesOutsideTheFile }
    ensures bytes_after_notes { BytesAfterNotes }
    ensures empty_notes_are_not_checked { EmptyNotesAreNotChecked }
{}
