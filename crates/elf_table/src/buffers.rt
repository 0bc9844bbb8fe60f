//! The fixed buffers for reading a file.
use crate::name_buf::NAME_BYTES;
use crate::window::WINDOW_BYTES;

/// The size in bytes of the fixed buffers for loading a file, iterating over its tables and showing
/// its names, each held once: the file header, a cursor's window, a name. A symbol that is read
/// alone takes 24 more, and a comparison of a name 64, or 4,096 if it is long.
pub const TABLE_BUFFER_BYTES: usize = crate::header_buffer::HEADERS_BUFFER_BYTES
    + WINDOW_BYTES
    + NAME_BYTES;
