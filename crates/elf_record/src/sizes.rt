//! The sizes of the fixed-size records in a file, in bytes.

/// The size of a section header (gABI 4, Section Header).
pub const SECTION_HEADER_BYTES: u64 = 64;
/// The size of a program header (gABI 5, Program Header).
pub const PROGRAM_HEADER_BYTES: u64 = 56;
/// The size of a symbol (gABI 4, Symbol Table).
pub const SYMBOL_BYTES: u64 = 24;
/// The size of a relocation entry with an addend (gABI 4, Relocation).
pub const RELOCATION_BYTES: u64 = 24;
/// The size of a relocation entry without an addend (gABI 4, Relocation).
pub const REL_BYTES: u64 = 16;
/// The size of a word of relative relocations (gABI 4, Relative Relocation Table).
pub const RELR_BYTES: u64 = 8;
/// The size of a dynamic entry (gABI 5, Dynamic Section).
pub const DYNAMIC_BYTES: u64 = 16;
/// The size of a symbol's version entry (Linux Standard Base Core, Symbol Versioning).
pub const SYMBOL_VERSION_BYTES: u64 = 2;
/// The size of a version definition (Linux Standard Base Core, Symbol Versioning).
pub const VERSION_DEFINITION_BYTES: u64 = 20;
/// The size of a name of a version definition (Linux Standard Base Core, Symbol Versioning).
pub const VERSION_NAME_BYTES: u64 = 8;
/// The size of a file whose versions are needed, and of such a version (Linux Standard Base Core,
/// Symbol Versioning).
pub const VERSION_NEED_BYTES: u64 = 16;
