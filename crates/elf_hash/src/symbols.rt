//! The symbols of a file, with their version tables.
ghost use Rattle.std.specs.Prelude.{◌≡◌, ◌^◌, ◌<◌};
ghost use Rattle.elf_model.specs.declared.versions.VersionKind.TheVariants.{Need};

use elf_record::VersionKind;
use elf_table::{Names, Table};

/// The version symbol table, with one entry for each symbol (Linux Standard Base Core, Symbol
/// Version Table). It holds no bytes.
#[derive(Clone, Copy)]
pub struct VersymTable {
    /// The entries, rows of 2 bytes.
    pub words: Table,
    /// The file offset of the section header or dynamic entry that locates it, to which a refusal
    /// of a symbol without an entry points.
    pub head: u64,
    /// The index of the section, or of the program header of the dynamic entries.
    pub index: u16,
    pub ghost entry: { words.entry ≡ 2 },
}

/// A table of definitions or of needs of versions (Linux Standard Base Core, Symbol Versioning). It
/// holds no bytes.
#[derive(Clone, Copy)]
pub struct VersionRecordTable {
    /// The kind of its first record: a definition, or a needed file.
    pub kind: VersionKind,
    /// The file offset of the section header or dynamic entry that locates it.
    pub head: u64,
    /// Its bytes, rows of 1 byte, fewer than 2^63.
    pub table: Table,
    /// The names of its records.
    pub names: Names,
    pub ghost first: { kind ≡ Need → ⊥ },
    pub ghost bytes: { table.entry ≡ 1 },
    pub ghost small: { table.count < 2 ^ 63 },
}

/// The symbols that a hash table covers, with their version tables. It holds no bytes.
#[derive(Clone, Copy)]
pub struct DynamicSymbols {
    /// The index of their section, or of the program header of the dynamic entries.
    pub index: u16,
    /// The symbols, rows of 24 bytes.
    pub table: Table,
    /// The names of the symbols.
    pub names: Names,
    /// Their version symbol table, if there is one.
    pub words: Option<VersymTable>,
    /// The definitions of versions, if there is a version symbol table and there are definitions.
    pub definitions: Option<VersionRecordTable>,
    /// The needs of versions, if there is a version symbol table and there are needs.
    pub needs: Option<VersionRecordTable>,
    pub ghost rows: { table.entry ≡ 24 },
}
