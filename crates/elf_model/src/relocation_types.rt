//! Relocation types: how a value is computed, and whether it fits.

/// The address of a symbol that a relocation type's formula begins with (x86-64 psABI, Relocation).
#[derive(Clone, Copy)]
pub enum RelocationBase {
    /// S, the symbol's value.
    Symbol,
    /// L, the address of its procedure linkage table entry.
    Linkage,
    /// The address of its global offset table entry, G + GOT.
    Table,
    /// The address of the global offset table entry of its offset from the thread pointer.
    Thread,
}

/// How the value of a relocation type is computed: B is the address for its base, A the addend, P
/// the place of the bytes that are relocated (x86-64 psABI, Relocation).
#[derive(Clone, Copy)]
pub enum Formula {
    /// B + A.
    Absolute,
    /// B + A - P.
    Relative,
}

/// Which values a relocation type allows, of those modulo 2^64.
#[derive(Clone, Copy)]
pub enum ValueRange {
    /// Any.
    Any,
    /// Those that fit its bytes as an unsigned number.
    Unsigned,
    /// Those that fit its bytes in two's complement.
    Signed,
    /// Those that fit its bytes in one of the two ways.
    Either,
}

/// A relocation type that stores a value (x86-64 psABI, Relocation Types).
#[derive(Clone, Copy)]
pub struct RelocationType {
    /// How many bytes it changes: 1, 2, 4 or 8.
    pub width: u32,
    /// The address of the symbol that its formula begins with.
    pub base: RelocationBase,
    /// How its value is computed.
    pub formula: Formula,
    /// Which values it allows.
    pub range: ValueRange,
}
