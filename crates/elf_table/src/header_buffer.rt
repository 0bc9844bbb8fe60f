//! The fixed buffers for loading a file.
use crate::file_header::FILE_HEADER_BYTES;

/// The size in bytes of the fixed buffers for loading a file: that of the file header. The section
/// headers and the program headers are read directly into the store.
pub const HEADERS_BUFFER_BYTES: usize = FILE_HEADER_BYTES;
