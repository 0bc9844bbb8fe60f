//! The location of a hash table.
ghost use Rattle.std.specs.Prelude.{◌+◌, ◌^◌, ◌<◌, ◌≤◌};
ghost use Rattle.elf_hash.specs.HashStyles.{hash_style_of};
ghost use Rattle.elf_model.specs.LoaderScope.{least_size};

use crate::hash_style::HashStyle;

/// The location of a hash table in a file, its style, and the number of symbols in its symbol
/// table. It holds no bytes, and its words are not checked.
#[derive(Clone, Copy)]
pub struct HashTableLocation {
    /// The style.
    pub kind: HashStyle,
    /// The file offset of the header or entry that locates the table, to which a refusal of the
    /// whole table points.
    pub head: u64,
    /// The file offset of its first word.
    pub at: u64,
    /// Its size in bytes, at least that of its counts: 16 in a GNU hash table, otherwise 8.
    pub size: u64,
    /// The number of symbols in the symbol table.
    pub symbols: u64,
    pub ghost room: { least_size (hash_style_of kind) ≤ size },
    pub ghost ends: { at + size < 2 ^ 64 },
}
