//! Worked examples of the tree of a table, each computed by the prover.
ghost use Rattle.elf_needs.specs.WorkedTrees.{RowsAreIndented, TreesAreOrdered};

/// Proves that each object follows the one that first needed it.
#[tactic(auto, unfolding(crate::proofs::OnTrees::on_trees))]
pub fn trees_are_ordered()
    ensures { TreesAreOrdered }
{}

/// Proves what the rows of a tree are.
#[tactic(auto, unfolding(crate::proofs::OnTrees::on_trees))]
pub fn rows_are_indented()
    ensures { RowsAreIndented }
{}
