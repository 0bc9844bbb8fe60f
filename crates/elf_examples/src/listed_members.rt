//! Members of archives, each example computed by the prover.
ghost use Rattle.elf_examples.specs.ListedMembers.{DigitsAreDecimal, MarksEndHeaders, NameTablesAreTold, SecondLongNames, FirstTablesDecide, FirstFourBytesTell, StylesAreTheMembers, HeadersAreTheMembers, FaultsEndTheirMember, AllPartsCost, CeilingsOfArchives, BudgetsThatCarryArchives, BudgetsThatEndArchives, CutsOfArchivesAreForBudget};

/// Works out the headers, the names and the listings of members, their costs and budgets.
#[tactic(auto, unfolding(elf_model::proofs::OnLiterals::on_literals, elf_model::specs::Cost::style_ceiling))]
pub fn member_listings()
    ensures digits_are_decimal { DigitsAreDecimal }
    ensures marks_end_headers { MarksEndHeaders }
    ensures name_tables_are_told { NameTablesAreTold }
    ensures second_long_names { SecondLongNames }
    ensures first_tables_decide { FirstTablesDecide }
    ensures first_four_bytes_tell { FirstFourBytesTell }
    ensures styles_are_the_members { StylesAreTheMembers }
    ensures headers_are_the_members { HeadersAreTheMembers }
    ensures faults_end_their_member { FaultsEndTheirMember }
    ensures all_parts_cost { AllPartsCost }
    ensures ceilings_of_archives { CeilingsOfArchives }
    ensures budgets_that_carry_archives { BudgetsThatCarryArchives }
    ensures budgets_that_end_archives { BudgetsThatEndArchives }
    ensures cuts_of_archives_are_for_budget { CutsOfArchivesAreForBudget }
{}
