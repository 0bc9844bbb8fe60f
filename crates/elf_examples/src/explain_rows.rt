//! What a layout lacks at an entry, computed by the prover.
ghost use Rattle.elf_examples.specs.ExamplesExplain.{NamesAreMissing, SectionsAreMissing, NothingIsMissing, SectionsOfEntries, TellsOfCall, TellsOfOverflow, TellsOfUnnamedOverflow, NoItemNames, ThreadItemHelps, NamesAreToldAsItemsHaveThem};

/// Works out what a layout lacks at an entry, and the text that says so.
#[tactic(auto, unfolding(elf_model::proofs::OnLiterals::on_literals, crate::proofs::OnApplyExamples::on_examples))]
pub fn explanations()
    ensures names_are_missing { NamesAreMissing }
    ensures sections_are_missing { SectionsAreMissing }
    ensures nothing_is_missing { NothingIsMissing }
    ensures sections_of_entries { SectionsOfEntries }
    ensures tells_of_call { TellsOfCall }
    ensures tells_of_overflow { TellsOfOverflow }
    ensures tells_of_unnamed_overflow { TellsOfUnnamedOverflow }
    ensures no_item_names { NoItemNames }
    ensures thread_item_helps { ThreadItemHelps }
    ensures names_are_told_as_items_have_them { NamesAreToldAsItemsHaveThem }
{}
