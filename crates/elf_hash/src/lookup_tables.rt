//! The tables that a lookup searches.
use crate::place::HashTableLocation;
use crate::symbols::DynamicSymbols;

/// The tables that a lookup searches: a hash table, and the symbols that it covers. It holds no
/// bytes.
#[derive(Clone, Copy)]
pub struct LookupTables {
    /// The machine of the file (gABI 4, ELF Header), on which the names of some constants of
    /// symbols depend.
    pub machine: u16,
    /// The location of the hash table, with the number of symbols in the symbol table.
    pub hash: HashTableLocation,
    /// The symbols.
    pub symbols: DynamicSymbols,
}
