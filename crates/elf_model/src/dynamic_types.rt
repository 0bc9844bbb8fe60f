//! The relocation types of programs and shared libraries that a loader applies.

/// What a relocation type of x86-64 stores when a file is loaded (x86-64 psABI, Relocation Types).
#[derive(Clone, Copy, Debug, PartialEq, Eq)]
pub enum DynamicType {
    /// R_X86_64_RELATIVE: the load address and the addend.
    Relative,
    /// R_X86_64_64: the symbol's value and the addend.
    Absolute,
    /// R_X86_64_GLOB_DAT: the symbol's value.
    Address,
    /// R_X86_64_JUMP_SLOT: the symbol's value, as it is called.
    Call,
    /// R_X86_64_32: four bytes of the symbol's value and the addend, if these fit.
    Low,
    /// R_X86_64_PC32: four bytes of the same less the place, if these fit.
    RelativeLow,
    /// R_X86_64_IRELATIVE: what a function returns.
    Resolved,
    /// R_X86_64_DTPMOD64: the id of the object with the thread-local symbol.
    Module,
    /// R_X86_64_DTPOFF64: the symbol's offset in that object's thread-local block.
    BlockOffset,
    /// R_X86_64_TPOFF64: the symbol's offset from the thread pointer.
    ThreadOffset,
    /// R_X86_64_COPY: the bytes of an object of another file.
    Copy,
    /// R_X86_64_TLSDESC: the address of a function, and its argument.
    Descriptor,
}
