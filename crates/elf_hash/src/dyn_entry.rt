//! Dynamic entries, each the first with its tag.

/// A dynamic entry (gABI 5, Dynamic Section).
#[derive(Clone, Copy)]
pub struct DynEntry {
    /// Its file offset.
    pub at: u64,
    /// Its value: an address, or a size.
    pub value: u64,
}

/// The first entry with each of the tags that locate a lookup's tables and the relocations, if there
/// is one.
#[derive(Clone, Copy)]
pub struct DynamicTags {
    /// DT_HASH: the SysV hash table.
    pub hash: Option<DynEntry>,
    /// DT_GNU_HASH: the GNU hash table.
    pub gnu_hash: Option<DynEntry>,
    /// DT_SYMTAB: the symbols.
    pub symtab: Option<DynEntry>,
    /// DT_STRTAB: the strings.
    pub strtab: Option<DynEntry>,
    /// DT_STRSZ: the size of the strings.
    pub strsz: Option<DynEntry>,
    /// DT_VERSYM: the version symbol table.
    pub versym: Option<DynEntry>,
    /// DT_VERDEF: the definitions of versions.
    pub verdef: Option<DynEntry>,
    /// DT_VERNEED: the needs of versions.
    pub verneed: Option<DynEntry>,
    /// DT_RELR: the table of relative relocations.
    pub relr: Option<DynEntry>,
    /// DT_RELRSZ: its size in bytes.
    pub relrsz: Option<DynEntry>,
    /// DT_RELRENT: the size of its words.
    pub relrent: Option<DynEntry>,
    /// DT_REL: the relocation entries without addends.
    pub rel: Option<DynEntry>,
    /// DT_RELSZ: their size in bytes.
    pub relsz: Option<DynEntry>,
    /// DT_RELENT: the size of one.
    pub relent: Option<DynEntry>,
    /// DT_RELA: the relocation entries with addends.
    pub rela: Option<DynEntry>,
    /// DT_RELASZ: their size in bytes.
    pub relasz: Option<DynEntry>,
    /// DT_RELAENT: the size of one.
    pub relaent: Option<DynEntry>,
    /// DT_JMPREL: the relocation entries of the procedure linkage table.
    pub jmprel: Option<DynEntry>,
    /// DT_PLTRELSZ: their size in bytes.
    pub pltrelsz: Option<DynEntry>,
    /// DT_PLTREL: their type.
    pub pltrel: Option<DynEntry>,
}
