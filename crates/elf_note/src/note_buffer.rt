//! The fixed buffers of a cursor over notes.
use crate::note::{HEAD_BYTES, SHOWN_DESCRIPTOR};

/// The size in bytes of the fixed buffers of a cursor over notes, besides its window: a note
/// header, and the first bytes of a descriptor. The window is as large as that of a cursor over
/// rows, and a cursor over dynamic entries has no other buffer.
pub const NOTES_BUFFER_BYTES: usize = HEAD_BYTES + SHOWN_DESCRIPTOR;
