//! Worked lookups in a library with two versions of a function, each computed by the prover.
ghost use Rattle.elf_examples.specs.ExamplesLoader.{LibraryAnswers, LibraryAsks, SegmentsAnswer, SegmentsAsk, HostileAnswers, HostileAsks};

/// Works out lookups in a library, by sections and by segments, and in a hostile one.
#[tactic(auto, unfolding(elf_model::proofs::OnLiterals::on_literals, elf_model::proofs::OnLoader::on_loader))]
pub fn library_lookups()
    ensures library_answers { LibraryAnswers }
    ensures library_asks { LibraryAsks }
    ensures segments_answer { SegmentsAnswer }
    ensures segments_ask { SegmentsAsk }
    ensures hostile_answers { HostileAnswers }
    ensures hostile_asks { HostileAsks }
{}
