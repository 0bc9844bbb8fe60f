//! Worked examples of the stack of a relocatable file, each computed by the prover.
ghost use Rattle.elf_examples.specs.ExamplesStack.{StackByFlag, StackByMachine, StackCosts, StackUnknown};

/// Works out whether the stack of a relocatable file is executable, and what that reads.
#[tactic(auto, unfolding(elf_model::proofs::OnLiterals::on_literals, elf_model::proofs::OnLoader::on_loader, crate::proofs::OnTraits::on_traits))]
pub fn object_stacks()
    ensures stack_by_flag { StackByFlag }
    ensures stack_by_machine { StackByMachine }
    ensures stack_unknown { StackUnknown }
    ensures stack_costs { StackCosts }
{}
