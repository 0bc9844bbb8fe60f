//! What listings read at most, and their upper bounds, each computed by the prover.
ghost use Rattle.elf_examples.specs.ListedCosts.{CostsOfWholeListings, CostsOfParts, CostsWithoutSections, CostsOfTheHeaderAlone, CostsOfTablesThatFail, CostsAtTheEnd, CostsOfRelocations, CostsOfLongerNames, ListingCeilings};

/// Works out what listings cost, whole and in parts, with faults, and their upper bounds.
#[tactic(auto, unfolding(elf_model::proofs::OnLiterals::on_literals))]
pub fn listing_costs()
    ensures costs_of_whole_listings { CostsOfWholeListings }
    ensures costs_of_parts { CostsOfParts }
    ensures costs_without_sections { CostsWithoutSections }
    ensures costs_of_the_header_alone { CostsOfTheHeaderAlone }
    ensures costs_of_tables_that_fail { CostsOfTablesThatFail }
    ensures costs_at_the_end { CostsAtTheEnd }
    ensures costs_of_relocations { CostsOfRelocations }
    ensures costs_of_longer_names { CostsOfLongerNames }
    ensures ceilings { ListingCeilings }
{}
