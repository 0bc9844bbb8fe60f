//! Worked lookups in a library without section headers, each computed by the prover.
ghost use Rattle.elf_examples.specs.ExamplesRests.{TablesBySegments, RestsEnd, RowsAreRead, FirstRowsCount, EntriesAreChecked, EntriesEnd, SymbolsEndWithTheSegment};

/// Works out lookups by the program headers: the rest of a segment at an address.
#[tactic(auto, unfolding(elf_model::proofs::OnLiterals::on_literals, elf_model::proofs::OnLoader::on_loader))]
pub fn segment_rests()
    ensures tables_by_segments { TablesBySegments }
    ensures rests_end { RestsEnd }
    ensures rows_are_read { RowsAreRead }
    ensures first_rows_count { FirstRowsCount }
    ensures entries_are_checked { EntriesAreChecked }
    ensures entries_end { EntriesEnd }
    ensures symbols_end_with_the_segment { SymbolsEndWithTheSegment }
{}
