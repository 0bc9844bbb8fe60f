//! The result of a lookup.
use crate::found::FoundVersion;
use elf_record::Sym;

/// A symbol that is found.
#[derive(Clone, Copy)]
pub struct FoundSymbol {
    /// The index of the symbols' section, or of the program header of the dynamic entries.
    pub section: u16,
    /// The machine of the file (gABI 4, ELF Header), on which the names of some constants of
    /// symbols depend.
    pub machine: u16,
    /// The symbol's index among the symbols.
    pub index: u64,
    /// The symbol.
    pub symbol: Sym,
    /// Its version, if the file has versions.
    pub version: Option<FoundVersion>,
    /// The number of symbols that were tried, at least 1.
    pub tried: u64,
}

/// The result of a lookup, with the number of symbols that were tried: those in the name's chain
/// that have the hash of the wanted name.
#[derive(Clone, Copy)]
pub enum SymbolLookup {
    /// The first symbol of the chain that matches.
    Found(FoundSymbol),
    /// No symbol matches.
    Absent {
        /// The number of symbols that were tried.
        tried: u64,
    },
}
