//! Worked examples of names in string tables, each a theorem about the definitions that the prover
//! computes.
ghost use Rattle.elf_examples.specs.ExamplesNames.{NameAtCap, NameInsideAnother, NameOutsideTable, NameUnendedOrCut, NameInEmptyTable, NameCompared, NameComparedAtEnd, NameBytes};

/// Works out names in string tables: cut, outside, unended, and compared.
#[tactic(auto, unfolding(elf_model::proofs::OnLiterals::on_literals, crate::proofs::OnTableExamples::on_examples))]
pub fn string_names()
    ensures name_at_cap { NameAtCap }
    ensures name_inside_another { NameInsideAnother }
    ensures name_outside_table { NameOutsideTable }
    ensures name_unended_or_cut { NameUnendedOrCut }
    ensures name_in_empty_table { NameInEmptyTable }
    ensures name_compared { NameCompared }
    ensures name_compared_at_end { NameComparedAtEnd }
    ensures name_bytes { NameBytes }
{}
