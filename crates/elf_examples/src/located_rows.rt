//! Worked rows of relocations that dynamic entries locate, each computed by the prover.
ghost use Rattle.elf_examples.specs.ListedLocated.{BytesAreRefused, LocatedEntriesAreRefused, LocatedCost, TablesAreLocated, LocatedTablesAreRefused, TablesMayOverlap};

/// Works out the rows of four tables, in a file without sections and by the program headers.
#[tactic(auto, unfolding(elf_model::proofs::OnLiterals::on_literals, crate::proofs::OnGnuExamples::on_gnu_examples))]
pub fn located_relocations()
    ensures tables_are_located { TablesAreLocated }
    ensures tables_are_refused { LocatedTablesAreRefused }
    ensures bytes_are_refused { BytesAreRefused }
    ensures entries_are_refused { LocatedEntriesAreRefused }
    ensures tables_may_overlap { TablesMayOverlap }
    ensures located_cost { LocatedCost }
{}
