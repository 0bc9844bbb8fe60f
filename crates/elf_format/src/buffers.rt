//! The fixed buffers for a line.
use crate::columns::{DIGIT_BYTES, LINE_BYTES};

/// The size in bytes of the fixed buffers in which a line is built, each once: the line, a field of
/// it (the letters of a section's flags, the type of a relocation entry, what follows a note's
/// name), the digits of a number. A note's line takes 64 bytes more, for the digits of its
/// descriptor.
pub const LINES_BUFFER_BYTES: usize = LINE_BYTES + LINE_BYTES + DIGIT_BYTES;
