//! Worked costs of applying, each a theorem about the definitions that the prover computes.
ghost use Rattle.elf_examples.specs.ExamplesApplyCost.{CostsOfWindows, CostsOfLastWindows, CostsByOrder, EntriesThatCount, OrderLeavesOutNone, CostsOfRefusals, CostsWithoutBytes, CostsOfNames};

/// Works out what applying costs: windows, entries in either order, refusals, names.
#[tactic(auto, unfolding(elf_model::proofs::OnLiterals::on_literals, crate::proofs::OnApplyExamples::on_examples))]
pub fn apply_costs()
    ensures costs_of_windows { CostsOfWindows }
    ensures costs_of_last_windows { CostsOfLastWindows }
    ensures costs_by_order { CostsByOrder }
    ensures entries_that_count { EntriesThatCount }
    ensures order_leaves_out_none { OrderLeavesOutNone }
    ensures costs_of_refusals { CostsOfRefusals }
    ensures costs_without_bytes { CostsWithoutBytes }
    ensures costs_of_names { CostsOfNames }
{}
