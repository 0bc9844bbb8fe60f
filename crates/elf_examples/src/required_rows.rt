//! Worked examples of required traits, each computed by the prover.
ghost use Rattle.elf_examples.specs.ExamplesRequired.{RequiredRows, NothingRequired, WordsAreWhole, AlternativesAreWords, ColumnsAreNamed, TraitsAreObjects};

/// Works out which files lack a required trait, and the lines for them.
#[tactic(auto, unfolding(elf_model::proofs::OnLiterals::on_literals, elf_model::proofs::OnLoader::on_loader, crate::proofs::OnTraits::on_traits))]
pub fn required_traits()
    ensures required_rows { RequiredRows }
    ensures nothing_required { NothingRequired }
    ensures words_are_whole { WordsAreWhole }
    ensures alternatives_are_words { AlternativesAreWords }
    ensures columns_are_named { ColumnsAreNamed }
    ensures traits_are_objects { TraitsAreObjects }
{}
