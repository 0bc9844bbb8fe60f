//! Listings as tables, each computed by the prover.
ghost use Rattle.elf_examples.specs.ListedTables.{ATableHasColumnNames, ChecksAreInATable, NumbersAreShort, RefusalsAreToldInATable};

/// Works out a table of a whole file, of a refusal, of a check, and short numbers.
#[tactic(auto, unfolding(elf_model::proofs::OnLiterals::on_literals, crate::proofs::OnTables::on_tables))]
pub fn tables()
    ensures a_table_has_column_names { ATableHasColumnNames }
    ensures refusals_are_told_in_a_table { RefusalsAreToldInATable }
    ensures checks_are_in_a_table { ChecksAreInATable }
    ensures numbers_are_short { NumbersAreShort }
{}
