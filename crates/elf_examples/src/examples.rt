//! Worked examples, each a theorem about the definitions that the prover computes.
ghost use Rattle.elf_examples.specs.Examples.{BareHeaderLists, OneSymbolTableHeaderLists};

/// Works out the line of a file header.
#[tactic(auto, unfolding(elf_model::proofs::OnLiterals::on_literals))]
pub fn header_lines()
    ensures bare_header_lists { BareHeaderLists }
    ensures one_symbol_table_header_lists { OneSymbolTableHeaderLists }
{}
