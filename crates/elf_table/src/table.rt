//! A table of rows of one size.
ghost use Rattle.std.specs.Prelude.{◌≡◌, ◌↔◌, ℕ, ◌+◌, ◌*◌, ◌^◌, ◌<◌, ◌≤◌};
ghost use Rattle.std.specs.Prelude.{List, Some, IsTrue, IfOk, IfErr};
ghost use Rattle.elf_record.specs.Sym.{IsSym};
ghost use Rattle.elf_source.specs.Source.{ReadsUpTo};
ghost use Rattle.elf_table.specs.Cursors.{row_at};
ghost use Rattle.elf_table.specs.Faults.{IsReadFault, IsAt};
ghost use Rattle.elf_table.specs.Tables.{TableInBounds};

use crate::fault::Fault;
use crate::located_read::fill;
use elf_record::Sym;
use elf_source::{Counted, Source};
use std::marker::Model;

/// A table of rows of one size, somewhere in a file. It holds no bytes.
#[derive(Clone, Copy)]
pub struct Table {
    at: u64,
    count: u64,
    entry: u64,
}

impl Model for Table {
    ghost use Rattle.std.specs.Prelude.{◌+◌, ◌*◌, ◌^◌, ◌<◌, ◌≤◌};
    ghost use Rattle.elf_table.specs.Tables.{TableRange};

    ghost Value = { TableRange };

    ghost view = { λ t. record { at = t.at; count = t.count; entry = t.entry } };

    ghost invariant = { λ t.
        (0 < t.entry) × (t.entry ≤ 4096) × (t.at + t.count * t.entry < 2 ^ 64) };

    ghost inverse = { λ t. record { at = t.at; count = t.count; entry = t.entry } };
}

impl Table {
    /// Returns the table of `count` rows of `entry` bytes each, 1 to 4,096, at the file offset
    /// `at`. Its end `at + count * entry` is an offset below 2^64.
    ///
    /// No file is read, and the table is not checked: it may lie past the end of a file. The calls
    /// that read through it, [`Table::symbol`] and those of a `Cursor` over it, require that a
    /// table with rows ends at or below the source's length.
    pub fn new(at: u64, count: u64, entry: u64) -> Table
        requires some { 0 < entry }
        requires small { entry ≤ 4096 }
        requires ends { at + count * entry < 2 ^ 64 }
        ensures { result ≡ record { at = at; count = count; entry = entry } }
    {
        Table { at, count, entry }
    }

    /// Returns the number of rows.
    pub fn len(&self) -> u64
        ensures { result ≡ self.now.count }
    {
        self.count
    }

    /// Returns `true` if there is no row.
    pub fn is_empty(&self) -> bool
        ensures { IsTrue result ↔ (self.now.count ≡ 0) }
    {
        self.len() == 0
    }

    /// Returns the file offset of the first row, in bytes.
    pub fn at(&self) -> u64
        ensures { result ≡ self.now.at }
    {
        self.at
    }

    /// Returns the size of a row in bytes, 1 to 4,096.
    pub fn entry(&self) -> u64
        ensures value { result ≡ self.now.entry }
        ensures some { 0 < self.now.entry }
        ensures small { self.now.entry ≤ 4096 }
        ensures ends { self.now.at + self.now.count * self.now.entry < 2 ^ 64 }
    {
        self.entry
    }

    /// Returns the file offset of the row of an index below `len()`, in bytes.
    pub fn place(&self, index: u64) -> u64
        requires { index < self.now.count }
        ensures { result ≡ row_at self.now index }
    {
        index * self.entry + self.at
    }

    /// Reads the symbol at the index `index`, which is below `len()`, of a table with rows of 24
    /// bytes that ends within the source's length (gABI 4, Symbol Table): one read of 24 bytes.
    ///
    /// # Errors
    /// Returns a fault of the read, or the refusal `Budget`, at the symbol's offset.
    pub fn symbol<S: Source>(&self, src: &mut Counted<S>, index: u64) -> Result<Sym, Fault>
        requires row { (self.now.entry ≡ 24) × (index < self.now.count) }
        requires within { TableInBounds src.old.seen.size self.now }
        ensures reads { ReadsUpTo src.old src.new 24 }
        ensures says { IfErr result (IsReadFault src.old src.new 24) }
        ensures at { IfErr result (IsAt (row_at self.now index)) }
        ensures read { (file : List ℕ) → src.old.seen.file ≡ Some file →
            IfOk result (IsSym file (row_at self.now index)) }
    {
        let mut bytes = [0; 24];
        fill(src, self.place(index), &mut bytes)?;
        Ok(Sym::decode(&bytes))
    }
}
