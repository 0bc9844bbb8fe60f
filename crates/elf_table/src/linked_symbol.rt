//! The symbol that a relocation entry refers to.
ghost use Rattle.std.specs.Prelude.{◌≡◌, ◌<◌, ℕ, List, None, Ok, IfErr, IfOk, IfSome};
ghost use Rattle.elf_table.specs.Cursors.{row_at};
ghost use Rattle.elf_table.specs.Faults.{IsOfCheck};
ghost use Rattle.elf_table.specs.Ledger.{CallDid, fault_of_result};
ghost use Rattle.elf_table.specs.LinkedSymbols.{IsSymbolAmong, LinkedSymbolInBounds, RefersToSymbol, SymbolRead};
ghost use Rattle.elf_table.specs.Relocations.{RefersTo};
ghost use Rattle.elf_table.specs.Tables.{SymbolTableInBounds};

use crate::fault::{Fault, refused};
use crate::names::Names;
use crate::table::Table;
use elf_record::{Cause, Sym};
use elf_source::{Counted, Source};

/// The symbol table that a section links to, with the string table of its names; `None` if the
/// section links to none (gABI 4, Relocation).
pub type LinkedSymbolTable = Option<(Table, Names)>;

/// A symbol of a linked symbol table, which a relocation entry refers to.
#[derive(Clone, Copy)]
pub struct LinkedSymbol {
    /// The symbol table.
    pub table: Table,
    /// The string table of its names.
    pub names: Names,
    /// The symbol's index in the table, which is not 0.
    pub index: u64,
}

/// A symbol that was read.
#[derive(Clone, Copy)]
pub struct SymbolEntry {
    /// The symbol's fields.
    pub fields: Sym,
    /// The string table of its name.
    pub names: Names,
    /// The symbol's file offset.
    pub at: u64,
}

impl LinkedSymbol {
    /// Returns the symbol of an index to which the relocation entry at the file offset `at` refers,
    /// or `None` for symbol 0. No bytes are read (gABI 4, Relocation).
    ///
    /// # Errors
    /// Returns `BadLink` at `at` if the entry's section links to no symbol table, `SymbolIndex` at
    /// `at` if that table has no symbol of the index.
    pub fn find(
        linked: LinkedSymbolTable,
        symbol: u32,
        at: u64,
    ) -> Result<Option<LinkedSymbol>, Fault>
        ensures zero { symbol ≡ 0 → result ≡ Ok None }
        ensures within { (size : ℕ) → IfSome linked (SymbolTableInBounds size) →
            IfOk result (λ found. IfSome found (LinkedSymbolInBounds size)) }
        ensures held { (file : List ℕ) (header : ℕ) → RefersTo file header linked →
            RefersToSymbol file header at symbol result }
        ensures among { IsSymbolAmong linked at symbol result }
        ensures refusal { IfErr result IsOfCheck }
    {
        if symbol == 0 {
            return Ok(None);
        }
        let Some((table, names)) = linked else {
            return refused(at, Cause::BadLink);
        };
        let index = u64::from(symbol);
        if index >= table.len() {
            return refused(at, Cause::SymbolIndex);
        }
        Ok(Some(LinkedSymbol {
            table,
            names,
            index,
        }))
    }

    /// Returns the symbol's file offset, in bytes.
    pub fn at(&self) -> u64
        requires { self.now.index < self.now.table.count }
        ensures { result ≡ row_at self.now.table self.now.index }
    {
        self.table.place(self.index)
    }

    /// Reads the symbol: one read of 24 bytes.
    ///
    /// # Errors
    /// Returns a fault of the read, or the refusal `Budget`, at the symbol's offset.
    pub fn read<S: Source>(&self, src: &mut Counted<S>) -> Result<SymbolEntry, Fault>
        requires { LinkedSymbolInBounds src.old.seen.size self.now }
        ensures did { CallDid src.old src.new (fault_of_result result) 24
            (λ file. SymbolRead file self.now result) }
        ensures names { IfOk result (λ symbol. symbol.names ≡ self.now.names) }
    {
        let fields = self.table.symbol(src, self.index)?;
        Ok(SymbolEntry {
            fields,
            names: self.names,
            at: self.at(),
        })
    }
}
