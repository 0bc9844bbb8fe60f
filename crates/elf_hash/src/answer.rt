//! The result of a matcher for a symbol.
use elf_record::Sym;

/// An entry of the version symbol table (Elf64_Versym) that is read.
#[derive(Clone, Copy)]
pub struct VersymEntry {
    /// The entry: the version index, with the hidden bit.
    pub word: u16,
    /// The file offset of its first byte.
    pub at: u64,
}

/// A symbol that matches.
#[derive(Clone, Copy)]
pub struct SymbolMatch {
    /// The symbol.
    pub symbol: Sym,
    /// The symbol's versym entry, if the matcher reads one.
    pub version: Option<VersymEntry>,
}
