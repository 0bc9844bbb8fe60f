//! The records of a table of symbol versions.

/// The kind of a symbol version record (Linux Standard Base Core, Symbol Versioning).
///
/// Each has a word of its own in a listing.
#[derive(Clone, Copy)]
pub enum VersionKind {
    /// A version that the file defines.
    Definition,
    /// A file whose versions it needs.
    File,
    /// A version that it needs of a file.
    Need,
}
