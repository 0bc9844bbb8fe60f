//! What a budget allows of a result, of a file's state, and of what a search for a NUL keeps.
ghost use Rattle.elf_examples.specs.ExamplesAllowed.{TheCostSuffices, LessMayEndAnAnswer, StatesOfReports, StatesWithinABudget, BytesBeforeANul, BytesAreSmall};

/// Works out which results and states a budget allows.
pub fn allowed_results()
    ensures the_cost_suffices { TheCostSuffices }
    ensures less_may_end_an_answer { LessMayEndAnAnswer }
    ensures states_of_reports { StatesOfReports }
    ensures states_within_a_budget { StatesWithinABudget }
{}

/// Works out which bytes a search for a NUL keeps, and which numbers are no bytes.
#[tactic(auto, unfolding(elf_model::proofs::OnLiterals::on_literals))]
pub fn kept_bytes()
    ensures bytes_before_a_nul { BytesBeforeANul }
    ensures bytes_are_small { BytesAreSmall }
{}
