//! Worked examples of the paths that are tried for a library, each computed by the prover.
ghost use Rattle.elf_needs.specs.WorkedPaths.{DefaultsAreLeftOut, DirsAreJoined, NamesArePaths, NamesHaveTokens, RpathsGoUp, RunpathsAreOwn, TokensStand};

/// Proves that a name with a slash in it is a path.
#[tactic(auto, unfolding(crate::proofs::OnSearch::on_search))]
pub fn names_are_paths()
    ensures { NamesArePaths }
{}

/// Proves that DT_RPATH counts for what the libraries of an object need.
#[tactic(auto, unfolding(crate::proofs::OnSearch::on_search))]
pub fn rpaths_go_up()
    ensures { RpathsGoUp }
{}

/// Proves that DT_RUNPATH counts for the object alone.
#[tactic(auto, unfolding(crate::proofs::OnSearch::on_search))]
pub fn runpaths_are_own()
    ensures { RunpathsAreOwn }
{}

/// Proves what replaces tokens.
#[tactic(auto, unfolding(crate::proofs::OnSearch::on_search))]
pub fn tokens_stand()
    ensures { TokensStand }
{}

/// Proves that tokens of a name are replaced.
#[tactic(auto, unfolding(crate::proofs::OnSearch::on_search))]
pub fn names_have_tokens()
    ensures { NamesHaveTokens }
{}

/// Proves which needs have no default directories.
#[tactic(auto, unfolding(crate::proofs::OnSearch::on_search))]
pub fn defaults_are_left_out()
    ensures { DefaultsAreLeftOut }
{}

/// Proves how directories and names are joined, with another root too.
#[tactic(auto, unfolding(crate::proofs::OnSearch::on_search))]
pub fn dirs_are_joined()
    ensures { DirsAreJoined }
{}
