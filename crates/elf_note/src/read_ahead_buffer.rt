//! The fixed buffers for reading ahead.
use crate::read_ahead::{NAMES_BYTES, SYMBOLS_BYTES};

/// The size in bytes of the fixed buffers of a [`crate::ReadAhead`]: the bytes of names, and of
/// symbols.
pub const NAMES_BUFFER_BYTES: usize = NAMES_BYTES + SYMBOLS_BYTES;
