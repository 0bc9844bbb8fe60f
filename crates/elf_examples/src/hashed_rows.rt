//! Worked rows of symbols that dynamic entries locate, each computed by the prover.
ghost use Rattle.elf_examples.specs.ListedHashed.{GnuTablesCount, HashTableCounts, LocatedSymbolsAreSelected, LocatedSymbolsCost, LookupTablesAreRefused, SymbolsAreLocated};

/// Works out the rows of symbols, in a file without sections and by the program headers.
#[tactic(auto, unfolding(elf_model::proofs::OnLiterals::on_literals, elf_model::proofs::OnLoader::on_loader, crate::proofs::OnGnuExamples::on_gnu_examples))]
pub fn hashed_symbols()
    ensures symbols_are_located { SymbolsAreLocated }
    ensures symbols_are_selected { LocatedSymbolsAreSelected }
    ensures hash_table_counts { HashTableCounts }
    ensures tables_are_refused { LookupTablesAreRefused }
    ensures gnu_tables_count { GnuTablesCount }
    ensures symbols_cost { LocatedSymbolsCost }
{}
