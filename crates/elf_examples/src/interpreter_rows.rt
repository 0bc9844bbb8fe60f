//! Worked examples of the interpreter that a file names, each computed by the prover.
ghost use Rattle.elf_examples.specs.ExamplesInterpreters.{InterpreterIsItsPath, InterpretersAreRefusedInOrder, InterpretersAreOfTheirMachine, InterpreterLineIsShown};

/// Works out the interpreter that a file names, its refusals in order, and its line.
#[tactic(auto, unfolding(elf_model::proofs::OnLiterals::on_literals, elf_model::proofs::OnLoader::on_loader, crate::proofs::OnGnuExamples::on_gnu_examples))]
pub fn interpreters()
    ensures interpreter_is_its_path { InterpreterIsItsPath }
    ensures interpreters_are_refused_in_order { InterpretersAreRefusedInOrder }
    ensures interpreters_are_of_their_machine { InterpretersAreOfTheirMachine }
    ensures interpreter_line_is_shown { InterpreterLineIsShown }
{}
