//! What a layout lacks, and a value that does not fit.
use crate::relocation_types::RelocationBase;

/// An address that a layout may have.
#[derive(Clone, Copy)]
pub enum LayoutAddress {
    /// That of the section of an index.
    Place(u16),
    /// That of a symbol's name for a base.
    Named(RelocationBase),
    /// That of the procedure linkage table entry of a symbol's name, if no definition would do.
    Entry,
}

/// What was missing when a relocation entry was refused.
#[derive(Clone, Copy)]
pub struct MissingAddress {
    /// The number of the entry's relocation type.
    pub kind: u32,
    /// The offset of its symbol's name in the string table; 0 of symbol 0.
    pub name: u32,
    /// The address that the layout does not have.
    pub wanted: LayoutAddress,
}

/// The value of a relocation entry that was refused because it does not fit.
#[derive(Clone, Copy)]
pub struct OverflowedValue {
    /// The number of the entry's relocation type.
    pub kind: u32,
    /// The index of the symbol that it names.
    pub symbol: u32,
    /// The index of the section that is relocated.
    pub section: u16,
    /// The offset in that section at which the value would be stored.
    pub offset: u64,
    /// The value, modulo 2^64.
    pub value: u64,
}
