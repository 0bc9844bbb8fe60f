//! The styles of hash tables.
ghost use Rattle.std.specs.Prelude.{◌≡◌};
ghost use Rattle.elf_model.specs.LoaderScope.{least_size};
ghost use Rattle.elf_hash.specs.HashStyles.{hash_style_of};

/// The style of a hash table.
#[derive(Clone, Copy)]
pub enum HashStyle {
    /// A GNU hash table, in a section of type GNU_HASH or at the dynamic entry GNU_HASH.
    Gnu,
    /// A SysV hash table (gABI 5, Hash Table), in a section or at an entry HASH.
    Sysv,
}

impl HashStyle {
    /// Returns the smallest size in bytes of a table of the style: that of its counts, 16 or 8.
    pub fn min_hash_bytes(self) -> u64
        ensures { result ≡ least_size (hash_style_of self) }
    {
        match self {
            HashStyle::Gnu => 16,
            HashStyle::Sysv => 8,
        }
    }
}
