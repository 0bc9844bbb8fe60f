//! The tables of relocations that dynamic entries locate.

/// What the rows of a table of relocations are (gABI 4, Relocation and Relative Relocation Table).
#[derive(Clone, Copy)]
pub enum RelocationForm {
    /// Relative relocations: words of eight bytes.
    Relative,
    /// Entries without addends, of 16 bytes.
    WithoutAddends,
    /// Entries with addends, of 24 bytes.
    WithAddends,
}

/// A table of relocations that dynamic entries locate (gABI 5, Dynamic Section).
#[derive(Clone, Copy)]
pub enum RelocationTable {
    /// Relative relocations, at DT_RELR.
    Relr,
    /// Entries without addends, at DT_REL.
    Rel,
    /// Entries with addends, at DT_RELA.
    Rela,
    /// The entries of the procedure linkage table, at DT_JMPREL, with or without addends.
    Jmprel,
}
