//! Where the parts of an index of an archive are.
ghost use Rattle.std.specs.Prelude.{◌<◌, ◌≤◌};

use crate::string_buffer::HeldText;

/// The parts of an index in a buffer: the offsets of the members' headers, of `width` bytes each, and
/// the names, each with a NUL after it; and the file offset of the first offset.
#[derive(Clone, Copy)]
pub(crate) struct IndexParts {
    /// The file offset of the first offset.
    pub at: u64,
    /// How many bytes an offset has.
    pub width: usize,
    /// How many offsets there are.
    pub count: u64,
    /// The offsets.
    pub offsets: HeldText,
    /// The names.
    pub names: HeldText,
    pub ghost narrow: { (0 < width) × (width ≤ 8) },
}

/// An entry by its index, and the index of its name among the bytes of the names.
#[derive(Clone, Copy)]
pub(crate) struct EntryPlace {
    /// The index.
    pub index: u64,
    /// The index of the first byte of its name.
    pub name: usize,
}
