//! Listings of sections and segments, each computed by the prover.
ghost use Rattle.elf_examples.specs.ListedSections.{SectionNamesList, SectionNamesAreChecked, SectionFlagsList, OneSegmentLists, OtherSegmentsList};

/// Works out listings of sections and segments.
#[tactic(auto, unfolding(elf_model::proofs::OnLiterals::on_literals))]
pub fn section_listings()
    ensures section_names_list { SectionNamesList }
    ensures section_names_are_checked { SectionNamesAreChecked }
    ensures section_flags_list { SectionFlagsList }
    ensures one_segment_lists { OneSegmentLists }
    ensures other_segments_list { OtherSegmentsList }
{}
