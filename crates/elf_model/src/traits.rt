//! The hardening of a file.

/// The kind of a file (gABI 4, ELF Header; gABI 5, Program Header), by the segments as a loader
/// sees them.
#[derive(Clone, Copy)]
pub enum ProgramKind {
    /// A program at fixed addresses that requests an interpreter.
    Exec,
    /// A program at any address that requests an interpreter.
    Pie,
    /// A program that requests none.
    Static,
    /// A shared object.
    Lib,
    /// A relocatable file.
    Object,
    /// A core file.
    Core,
    /// A file of any other type.
    Other,
}

/// How much of what a loader relocates is read-only afterwards.
#[derive(Clone, Copy)]
pub enum Relro {
    /// All, since every symbol is bound before the program starts.
    Full,
    /// All except what is bound later.
    Partial,
    /// Nothing.
    Absent,
}

/// The dynamic entry with the directories in which a loader searches for libraries first.
#[derive(Clone, Copy)]
pub enum SearchPath {
    /// DT_RUNPATH, which a loader uses even if there is a DT_RPATH.
    Runpath,
    /// DT_RPATH.
    Rpath,
    /// None.
    Absent,
}

/// The traits of the program headers and the dynamic entries of a file.
#[derive(Clone, Copy)]
pub struct SegmentTraits {
    /// What is read-only after relocation.
    pub relro: Relro,
    /// A segment is writable and executable.
    pub pages_writable: bool,
    /// Relocations change a segment that is not writable.
    pub text_patched: bool,
}

/// How a file is hardened.
///
/// Each field is a column of a line, except the two of control flow, which share one.
#[derive(Clone, Copy)]
pub struct Hardening {
    /// The kind of the file.
    pub kind: ProgramKind,
    /// The traits of its segments, if it has program headers.
    pub segments: Option<SegmentTraits>,
    /// The stack is executable, if that is known: by the segments, or of a relocatable file by its
    /// sections.
    pub stack: Option<bool>,
    /// Indirect branches go only to marked targets (x86-64 psABI, Program Property).
    pub ibt: bool,
    /// Returns use a shadow stack (x86-64 psABI, Program Property).
    pub shstk: bool,
    /// A symbol shows that stacks are protected.
    pub canary: bool,
    /// A symbol shows that calls of the C library are checked.
    pub fortify: bool,
    /// Where libraries are searched for first.
    pub path: SearchPath,
}

/// A column of the line of a file's hardening.
#[derive(Clone, Copy)]
pub enum TraitColumn {
    /// The kind of the file.
    Kind,
    /// What is read-only after relocation.
    Relro,
    /// Whether the stack is executable.
    Stack,
    /// Whether a segment is writable and executable.
    Pages,
    /// Whether relocations change a segment that is not writable.
    Text,
    /// The control flow that is checked.
    Cet,
    /// Whether stacks are protected.
    Canary,
    /// Whether calls of the C library are checked.
    Fortify,
    /// Where libraries are searched for first.
    Path,
}
