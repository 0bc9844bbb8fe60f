//! The result of a walk along a chain.
use crate::answer::SymbolMatch;

/// The first symbol of a chain that matches.
#[derive(Clone, Copy)]
pub struct ChainMatch {
    /// The symbol's index in its table.
    pub index: u64,
    /// The matcher's result for it.
    pub answer: SymbolMatch,
}

/// The result of a walk along a chain, and its cost.
#[derive(Clone, Copy)]
pub struct ChainResult {
    /// The first symbol of the chain that matches, if one does.
    pub found: Option<ChainMatch>,
    /// The number of symbols that were tried.
    pub tried: u64,
    /// The number of chain words that were read; in a SysV hash table it is one for each symbol
    /// that was tried, though the last is not read if that symbol matches.
    pub read: u64,
}
