//! Worked lookups in libraries whose LOAD segments overlap, each computed by the prover.
ghost use Rattle.elf_examples.specs.ExamplesOverlaps.{OverlapsAreRefused, OverlapsBeforeTheEntries};

/// Works out lookups in libraries whose LOAD segments overlap.
#[tactic(auto, unfolding(elf_model::proofs::OnLiterals::on_literals, elf_model::proofs::OnLoader::on_loader))]
pub fn overlapping_loads()
    ensures overlaps_are_refused { OverlapsAreRefused }
    ensures overlaps_before_the_entries { OverlapsBeforeTheEntries }
{}
