//! Worked lookups in files with versym entries and no records, each computed by the prover.
ghost use Rattle.elf_examples.specs.ExamplesWords.{WordsWithoutRecords, UnreadWordsAreUnchecked, EmptyRecordsAreNone, EitherRecordsAreEnough, WordsWithoutRows};

/// Works out lookups in files with versym entries and no records.
#[tactic(auto, unfolding(elf_model::proofs::OnLiterals::on_literals, elf_model::proofs::OnLoader::on_loader))]
pub fn unnamed_versions()
    ensures words_without_records { WordsWithoutRecords }
    ensures unread_words_are_unchecked { UnreadWordsAreUnchecked }
    ensures empty_records_are_none { EmptyRecordsAreNone }
    ensures either_records_are_enough { EitherRecordsAreEnough }
    ensures words_without_rows { WordsWithoutRows }
{}
