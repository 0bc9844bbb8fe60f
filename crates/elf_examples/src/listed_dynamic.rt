//! Listings of dynamic entries, each computed by the prover.
ghost use Rattle.elf_examples.specs.ListedDynamic.{DynamicEntriesList, DynamicEntriesWithoutAnEnd, DynamicStringsList, DynamicChecksInOrder, EmptyDynamicIsNotChecked};

/// Works out listings of dynamic entries, and their checks in order.
#[tactic(auto, unfolding(elf_model::proofs::OnLiterals::on_literals))]
pub fn dynamic_listings()
    ensures dynamic_entries_list { DynamicEntriesList }
    ensures dynamic_entries_without_an_end { DynamicEntriesWithoutAnEnd }
    ensures dynamic_strings_list { DynamicStringsList }
    ensures dynamic_checks_in_order { DynamicChecksInOrder }
    ensures empty_dynamic_is_not_checked { EmptyDynamicIsNotChecked }
{}
