//! Worked examples of dynamic entries, each a theorem about the definitions that the prover
//! computes.
ghost use Rattle.elf_examples.specs.ExamplesDynamic.{DynamicEndsAtNull, DynamicWithoutNull, DynamicValues};

/// Works out where dynamic entries end, and their values.
#[tactic(auto, unfolding(elf_model::proofs::OnLiterals::on_literals, crate::proofs::OnTableExamples::on_examples))]
pub fn dynamic_entries()
    ensures dynamic_ends_at_null { DynamicEndsAtNull }
    ensures dynamic_without_null { DynamicWithoutNull }
    ensures dynamic_values { DynamicValues }
{}
