//! Files among many, each with its state and its line.
ghost use Rattle.elf_examples.specs.ListedChecks.{StatesOfFiles, StatesOfFronts, StatesWithinBudgets, LinesOfStates, LinesOfTheUnnamed};

/// Works out the state of a file among many, within budgets too, and its line.
#[tactic(auto, unfolding(elf_model::proofs::OnLiterals::on_literals, crate::proofs::OnExamples::on_examples))]
pub fn file_states()
    ensures states_of_files { StatesOfFiles }
    ensures states_of_fronts { StatesOfFronts }
    ensures states_within_budgets { StatesWithinBudgets }
    ensures lines_of_states { LinesOfStates }
    ensures lines_of_the_unnamed { LinesOfTheUnnamed }
{}
