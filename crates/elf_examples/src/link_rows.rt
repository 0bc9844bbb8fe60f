//! Worked examples of how a file is linked, each computed by the prover.
ghost use Rattle.elf_examples.specs.ExamplesLinks.{EachTagHasItsText, LinksAreRefusedInOrder, LinksCeiling};

/// Works out how a file is linked, for what that is refused, and what it reads at most.
#[tactic(auto, unfolding(elf_model::proofs::OnLiterals::on_literals, elf_model::proofs::OnLoader::on_loader, crate::proofs::OnGnuExamples::on_gnu_examples))]
pub fn dynamic_links()
    ensures each_tag_has_its_text { EachTagHasItsText }
    ensures links_are_refused_in_order { LinksAreRefusedInOrder }
    ensures links_ceiling_row { LinksCeiling }
{}
