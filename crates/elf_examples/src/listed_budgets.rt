//! Where a read budget ends a listing, and where it may not.
ghost use Rattle.elf_examples.specs.ListedBudgets.{BudgetMayEndAListing, BudgetsThatEnd, BudgetsThatSuffice, CutsAreForBudget, EmptyFileIsShort, NothingElseIsAllowed, OtherTextsAreNoCuts, AllowedAnswersAreShown, NothingElseIsShown, OtherAnswersAreNotShown};

/// Works out which budgets end a listing, which do not, and that nothing else ends it.
#[tactic(auto, unfolding(elf_model::proofs::OnLiterals::on_literals))]
pub fn listing_budgets()
    ensures budget_may_end_a_listing { BudgetMayEndAListing }
    ensures budgets_that_end { BudgetsThatEnd }
    ensures budgets_that_suffice { BudgetsThatSuffice }
    ensures cuts_are_for_budget { CutsAreForBudget }
    ensures empty_file_is_short { EmptyFileIsShort }
    ensures nothing_else_is_allowed { NothingElseIsAllowed }
    ensures other_texts_are_no_cuts { OtherTextsAreNoCuts }
    ensures allowed_answers_are_shown { AllowedAnswersAreShown }
    ensures nothing_else_is_shown { NothingElseIsShown }
    ensures other_answers_are_not_shown { OtherAnswersAreNotShown }
{}
