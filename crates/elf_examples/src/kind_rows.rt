//! Worked examples of the kinds of files, each computed by the prover.
ghost use Rattle.elf_examples.specs.ExamplesKinds.{SharedKinds, FixedKinds, SectionsDoNotTell, OverlapsWithoutEntries, RefusedFiles, TraitRefusalsInOrder, TraitsCeiling};

/// Works out the kind of a file, its refusals, and what its traits cost at most.
#[tactic(auto, unfolding(elf_model::proofs::OnLiterals::on_literals, elf_model::proofs::OnLoader::on_loader, crate::proofs::OnTraits::on_traits))]
pub fn file_kinds()
    ensures shared_kinds { SharedKinds }
    ensures fixed_kinds { FixedKinds }
    ensures sections_do_not_tell { SectionsDoNotTell }
    ensures overlaps_without_entries { OverlapsWithoutEntries }
    ensures refused_files { RefusedFiles }
    ensures trait_refusals_in_order { TraitRefusalsInOrder }
    ensures traits_ceiling_row { TraitsCeiling }
{}
