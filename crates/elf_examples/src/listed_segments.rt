//! Listings of the notes and dynamic entries that program headers describe, each computed by the
//! prover.
ghost use Rattle.elf_examples.specs.ListedSegments.{SegmentEntriesList, SegmentEntriesCost, UnmappedStringsAreRefused, SegmentStringsAreNames, StringsAreSoughtLate, FirstTagsCount, AddressesDoNotWrap, SegmentEntriesAreChecked, FirstLoadDecides, SegmentsByFileSize, NoSegmentPastTheLast, SegmentTablesInOrder, TwoNotesOfASegment, NoHeadersNoTables, SectionsDecide, StringsInsideTheFile, EmptyStringsAtTheEnd, FirstStringsAreSought, OffsetsDoNotWrap, OtherTypesLoadNothing, EachTableHasItsStrings, SectionsByTheirNumber, SegmentsHaveFourNumbers, SegmentsDespiteSections};

/// Works out listings of the notes and dynamic entries that program headers describe.
#[tactic(auto, unfolding(elf_model::proofs::OnLiterals::on_literals))]
pub fn segment_listings()
    ensures segment_entries_list { SegmentEntriesList }
    ensures segment_entries_cost { SegmentEntriesCost }
    ensures unmapped_strings_are_refused { UnmappedStringsAreRefused }
    ensures segment_strings_are_names { SegmentStringsAreNames }
    ensures strings_are_sought_late { StringsAreSoughtLate }
    ensures first_tags_count { FirstTagsCount }
    ensures addresses_do_not_wrap { AddressesDoNotWrap }
    ensures segment_entries_are_checked { SegmentEntriesAreChecked }
    ensures first_load_decides { FirstLoadDecides }
    ensures segments_by_file_size { SegmentsByFileSize }
    ensures no_segment_past_the_last { NoSegmentPastTheLast }
    ensures segment_tables_in_order { SegmentTablesInOrder }
    ensures two_notes_of_a_segment { TwoNotesOfASegment }
    ensures no_headers_no_tables { NoHeadersNoTables }
    ensures sections_decide { SectionsDecide }
    ensures strings_inside_the_file { StringsInsideTheFile }
    ensures empty_strings_at_the_end { EmptyStringsAtTheEnd }
    ensures first_strings_are_sought { FirstStringsAreSought }
    ensures offsets_do_not_wrap { OffsetsDoNotWrap }
    ensures other_types_load_nothing { OtherTypesLoadNothing }
    ensures each_table_has_its_strings { EachTableHasItsStrings }
    ensures sections_by_their_number { SectionsByTheirNumber }
    ensures segments_have_four_numbers { SegmentsHaveFourNumbers }
    ensures segments_despite_sections { SegmentsDespiteSections }
{}
