//! Listings by the program headers of files whose LOAD segments overlap, each computed by the
//! prover.
ghost use Rattle.elf_examples.specs.ListedOverlaps.{PagesAreShared, OthersTakeNoPages, AddressesRise, PagesDoNotWrap, OverlapsBySegmentsAlone, OverlapsAfterTheLoad};

/// Works out which LOAD segments overlap, and where the refusal comes.
#[tactic(auto, unfolding(elf_model::proofs::OnLiterals::on_literals))]
pub fn load_overlaps()
    ensures pages_are_shared { PagesAreShared }
    ensures others_take_no_pages { OthersTakeNoPages }
    ensures addresses_rise { AddressesRise }
    ensures pages_do_not_wrap { PagesDoNotWrap }
    ensures overlaps_by_segments_alone { OverlapsBySegmentsAlone }
    ensures overlaps_after_the_load { OverlapsAfterTheLoad }
{}
