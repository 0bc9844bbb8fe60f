//! Worked rows of some names, each computed by the prover.
ghost use Rattle.elf_examples.specs.ListedChoices.{NamesAreListed, FrontsAreNotListed, SignsAreBytes, VersionsAreListed, EntriesAreListed, FaultsAreListed, OtherRowsStand, MembersStand, LinesStandBeforeLines, NamesCostAsAllRows};

/// Works out the rows of some names, in listings and in members.
#[tactic(auto, unfolding(elf_model::proofs::OnLiterals::on_literals, crate::proofs::OnGnuExamples::on_gnu_examples))]
pub fn named_rows()
    ensures names_are_listed { NamesAreListed }
    ensures fronts_are_not_listed { FrontsAreNotListed }
    ensures signs_are_bytes { SignsAreBytes }
    ensures versions_are_listed { VersionsAreListed }
    ensures entries_are_listed { EntriesAreListed }
    ensures faults_are_listed { FaultsAreListed }
    ensures other_rows_stand { OtherRowsStand }
    ensures members_stand { MembersStand }
    ensures lines_stand_before_lines { LinesStandBeforeLines }
    ensures names_cost_as_all_rows { NamesCostAsAllRows }
{}
