//! Worked splitting of texts, and lookups of long names, each computed by the prover.
ghost use Rattle.elf_examples.specs.ExamplesWanted.{TextsAreParted, EmptyNamesAreNone, LongVersionsAreCut, LongNamesAsk, LoaderCeilings, OtherLookupsFindNoTable, LoaderAnswersAreObjects};

/// Works out the name and the version that a text asks for, and lookups of long names.
#[tactic(auto, unfolding(elf_model::proofs::OnLiterals::on_literals, elf_model::proofs::OnLoader::on_loader, crate::proofs::OnGnuExamples::on_gnu_examples))]
pub fn wanted_symbols()
    ensures texts_are_parted { TextsAreParted }
    ensures empty_names_are_none { EmptyNamesAreNone }
    ensures long_versions_are_cut { LongVersionsAreCut }
    ensures long_names_ask { LongNamesAsk }
    ensures ceilings { LoaderCeilings }
    ensures other_lookups_find_no_table { OtherLookupsFindNoTable }
    ensures loader_answers_are_objects { LoaderAnswersAreObjects }
{}
