//! A member of an archive.

/// Some bytes of a file: the offset of the first, and how many.
#[derive(Clone, Copy)]
pub struct FileRange {
    /// The file offset in bytes.
    pub at: u64,
    /// The number of bytes.
    pub size: u64,
}

/// A member of an archive.
#[derive(Clone, Copy)]
pub struct Member {
    /// Its index among the members, starting at 0.
    pub index: u64,
    /// Its data.
    pub extent: FileRange,
    /// Whether its name has more bytes than are shown.
    pub is_cut: bool,
}
