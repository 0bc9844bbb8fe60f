//! Parts of a listing, alone and together, each computed by the prover.
ghost use Rattle.elf_examples.specs.ListedParts.{PartsAloneList, PartsTogetherList, NoPartsListNothing, AnswersHaveAStatus, AnswersAreOfOneListing};

/// Works out parts of a listing, alone and together, and the status of a listing.
#[tactic(auto, unfolding(elf_model::proofs::OnLiterals::on_literals))]
pub fn listing_parts()
    ensures parts_alone_list { PartsAloneList }
    ensures parts_together_list { PartsTogetherList }
    ensures no_parts_list_nothing { NoPartsListNothing }
    ensures answers_have_a_status { AnswersHaveAStatus }
    ensures answers_are_of_one_listing { AnswersAreOfOneListing }
{}
