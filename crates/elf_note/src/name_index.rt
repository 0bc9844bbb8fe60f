//! The location of a name.
use elf_table::Names;

/// An index into a string table, as `st_name` and `sh_name` are, with the entry that holds it
/// (gABI 4, String Table).
#[derive(Clone, Copy)]
pub struct NameIndex {
    /// The string table.
    pub names: Names,
    /// The index of the name's first byte.
    pub off: u64,
    /// The file offset of the entry that holds the index. Refusals of the name point to it.
    pub at: u64,
}
