//! Which lines are written, and how.
use elf_model::Format;

/// Which lines are written, and how.
#[derive(Clone, Copy)]
pub struct LineOptions {
    /// How a line is written.
    pub format: Format,
    /// Whether only lines are written that make the exit status 1.
    pub problems: bool,
}
