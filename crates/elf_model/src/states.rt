//! The states of a file among many, and of a symbol and a version that an object of a program
//! references.
use crate::causes::Refusal;

/// The state of a file among many.
///
/// Each has a word of its own in a check's line.
#[derive(Clone, Copy)]
pub enum FileStatus {
    /// Its listing has no fault.
    Ok,
    /// Its listing ends in this refusal.
    Refused(Refusal),
    /// It does not begin with the magic number (gABI 4, ELF Identification).
    NoElf,
    /// It can't be opened, or a read of it failed.
    Unread,
    /// There was not enough memory to open it.
    Memory,
}

/// The type of a file among many, by its first bytes.
#[derive(Clone, Copy)]
pub enum FileMagic {
    /// An ELF file.
    Elf,
    /// An archive, if archives are read.
    Archive,
    /// An archive whose members are in other files, if archives are read.
    Thin,
    /// A file of any other type.
    Foreign,
    /// The budget ends before the bytes that decide it.
    Undecided,
}

/// The state of a symbol that an object references.
#[derive(Clone, Copy)]
pub enum BindingState {
    /// An object defines it.
    Bound {
        /// The index of the object.
        object: u16,
        /// The index of the symbol there.
        symbol: u64,
    },
    /// No object defines it, and it is weak.
    Weak,
    /// No object defines it.
    Unbound,
    /// No object defines it, and the object of its requested version defines versions, but not that
    /// one.
    NoVersion,
    /// The lookup is refused in an object.
    Refused {
        /// The index of the object.
        object: u16,
    },
}

/// The state of a version that an object needs, if a program does not start for it.
#[derive(Clone, Copy)]
pub enum VersionState {
    /// No object is the file that should have it.
    NoFile,
    /// That object has no versions.
    Bare,
    /// That object has definitions, and not this one.
    NoVersion,
    /// The definitions of that object have a fault before this one.
    Refused,
}
