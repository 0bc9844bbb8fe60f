//! Listings of dynamic entries by their tags, of later notes and of notes in later segments, each
//! computed by the prover.
ghost use Rattle.elf_examples.specs.ListedTags.{OtherTagsHaveNoString, UnnamedTagsHaveNoString, LaterSegmentsList, LaterSegmentsCost, StringsByTheWholeValue, NothingPastTheLastHeader, EndByTheWholeTag, NotesCutLater};

/// Works out listings of dynamic entries by their tags, and of later notes and segments.
#[tactic(auto, unfolding(elf_model::proofs::OnLiterals::on_literals))]
pub fn tag_listings()
    ensures other_tags_have_no_string { OtherTagsHaveNoString }
    ensures unnamed_tags_have_no_string { UnnamedTagsHaveNoString }
    ensures later_segments_list { LaterSegmentsList }
    ensures later_segments_cost { LaterSegmentsCost }
    ensures strings_by_the_whole_value { StringsByTheWholeValue }
    ensures nothing_past_the_last_header { NothingPastTheLastHeader }
    ensures end_by_the_whole_tag { EndByTheWholeTag }
    ensures notes_cut_later { NotesCutLater }
{}
