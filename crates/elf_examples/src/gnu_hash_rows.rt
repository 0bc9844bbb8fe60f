//! Worked lookups in hash tables that are alone, each computed by the prover.
ghost use Rattle.elf_examples.specs.ExamplesGnuHash.{KnownGnuHashes, ChainsAreWalked, TrialsAreRefused, FilterWordsAlternate, BucketsAreByTheHash, WordsLeadNowhere};

/// Works out the GNU hash function, and lookups in tables that are alone.
#[tactic(auto, unfolding(elf_model::proofs::OnLiterals::on_literals, elf_model::proofs::OnLoader::on_loader, crate::proofs::OnGnuExamples::on_gnu_examples))]
pub fn gnu_hash_tables()
    ensures known_gnu_hashes { KnownGnuHashes }
    ensures chains_are_walked { ChainsAreWalked }
    ensures trials_are_refused { TrialsAreRefused }
    ensures filter_words_alternate { FilterWordsAlternate }
    ensures buckets_are_by_the_hash { BucketsAreByTheHash }
    ensures words_lead_nowhere { WordsLeadNowhere }
{}
