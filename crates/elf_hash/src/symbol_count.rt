//! The number of symbols of a lookup.
ghost use Rattle.std.specs.Prelude.{◌≡◌, ◌+◌, ◌≤◌, IfOk};
ghost use Rattle.elf_table.specs.Ledger.{CallDid, fault_of_result};
ghost use Rattle.elf_hash.specs.Extents.{CountsSymbols, ReturnsExtent};
ghost use Rattle.elf_hash.specs.LookupTablesFound.{IsLookupTables};
ghost use Rattle.elf_hash.specs.SearchedTables.{IsTable, HashTableInBounds, place_of_table};
ghost use Rattle.elf_hash.specs.Symbols.{IsDynamicSymbols};
ghost use Rattle.elf_model.specs.LoaderScope.{LookupTables as IsScopeOf};

use crate::chain_walk::counts;
use crate::extent::symbol_extent;
use crate::lookup_tables::LookupTables;
use crate::symbols::DynamicSymbols;
use crate::table::HashTable;
use elf_source::{Counted, Source};
use elf_table::Fault;

impl DynamicSymbols {
    /// Returns the number of symbols by their hash table, as [`symbol_extent`] counts them, no more
    /// than fit into the symbol table.
    ///
    /// # Errors
    /// Returns a fault of a read, or the refusal `Budget`, at the offset of the read.
    pub fn extent<S: Source>(&self, src: &mut Counted<S>, table: &HashTable) -> Result<u64, Fault>
        requires within { HashTableInBounds src.old.seen.size table.now }
        requires count { self.now.table.count ≡ (place_of_table table.now).symbols }
        ensures did { CallDid src.old src.new (fault_of_result result)
            (place_of_table table.now).size
            (λ file. (scope : IsScopeOf) → IsTable file scope table.now →
            IsDynamicSymbols file scope.symbols self.now →
            ReturnsExtent file scope src.old src.new result) }
        ensures few { IfOk result (λ count. count ≤ self.now.table.count) }
    {
        symbol_extent(src, table, self.table.at(), self.names.at())
    }
}

impl LookupTables {
    /// Returns the number of symbols that the hash table covers, no more than the symbol table has:
    /// reads its counts, and then its words as [`DynamicSymbols::extent`] does.
    ///
    /// # Errors
    /// Returns those of [`counts`], and of [`DynamicSymbols::extent`].
    pub fn symbol_count<S: Source>(&self, src: &mut Counted<S>) -> Result<u64, Fault>
        requires within { self.now.hash.at + self.now.hash.size ≤ src.old.seen.size }
        requires count { self.now.symbols.table.count ≡ self.now.hash.symbols }
        ensures did { CallDid src.old src.new (fault_of_result result) (16 + self.now.hash.size)
            (λ file. (told : IsScopeOf) → IsLookupTables file told self.now →
            CountsSymbols file told src.old src.new result) }
        ensures few { IfOk result (λ count. count ≤ self.now.symbols.table.count) }
    {
        let table = counts(src, &self.hash)?;
        self.symbols.extent(src, &table)
    }
}
