//! The row of a listing that is at fault.

/// The row that the file offset of a refusal is in.
#[derive(Clone, Copy)]
pub enum FaultRow {
    /// None, or none that is known.
    NoRow,
    /// The file header.
    FileHeader,
    /// The section header of an index.
    SectionHeader(u16),
    /// The program header of an index.
    ProgramHeader(u16),
    /// The entry of a number in the table that the section of an index is; no number if the
    /// entries have several sizes.
    Section(u16, Option<u64>),
    /// The same of a segment.
    Segment(u16, Option<u64>),
}
