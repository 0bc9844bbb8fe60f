//! Worked lookups by the program headers in files with section headers, and in files of Alpha, each
//! computed by the prover.
ghost use Rattle.elf_examples.specs.ExamplesViews.{SectionsAreNotLookedAt, SegmentsAreChecked, WideWordsOfViewsAreRefused};

/// Works out lookups by the program headers in files that have sections, and of Alpha.
#[tactic(auto, unfolding(elf_model::proofs::OnLiterals::on_literals, elf_model::proofs::OnLoader::on_loader))]
pub fn segment_views()
    ensures sections_are_not_looked_at { SectionsAreNotLookedAt }
    ensures segments_are_checked { SegmentsAreChecked }
    ensures wide_words_are_refused { WideWordsOfViewsAreRefused }
{}
