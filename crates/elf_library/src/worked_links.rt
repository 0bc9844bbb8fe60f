//! Worked examples of how a file is linked, each computed by the prover.
ghost use Rattle.elf_library.specs.WorkedLinks.{EntriesAreRefused, FirstTextsCount, NeedsLibc};

/// Proves that a needed library is stored, with no more room than its name takes.
#[tactic(auto, unfolding(elf_model::proofs::OnLiterals::on_literals, elf_model::proofs::OnLoader::on_loader, crate::proofs::OnLinks::on_links))]
pub fn needs_libc()
    ensures { NeedsLibc }
{}

/// Proves that the first text of each tag counts, before the first DT_NULL.
#[tactic(auto, unfolding(elf_model::proofs::OnLiterals::on_literals, elf_model::proofs::OnLoader::on_loader, crate::proofs::OnLinks::on_links))]
pub fn first_texts_count()
    ensures { FirstTextsCount }
{}

/// Proves that texts that cannot be read or stored are refused at their entries.
#[tactic(auto, unfolding(elf_model::proofs::OnLiterals::on_literals, elf_model::proofs::OnLoader::on_loader, crate::proofs::OnLinks::on_links))]
pub fn entries_are_refused()
    ensures { EntriesAreRefused }
{}
