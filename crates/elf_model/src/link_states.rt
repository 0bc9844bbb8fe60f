//! The states of the symbols of a link, and what a symbol of a file does to them.
use crate::causes::Cause;

/// What a definition of a shared library is, besides its name.
#[derive(Clone, Copy)]
pub enum SharedKind {
    /// A function.
    Function,
    /// In a section that takes memory and has no bytes in the file, with this many bytes.
    NoBits(u64),
    /// Absolute, and no function.
    Absolute,
    /// Any other.
    Other,
}

/// A definition of a shared library.
#[derive(Clone, Copy)]
pub struct SharedDefinition {
    /// Whether it is weak.
    pub weak: bool,
    /// What it is.
    pub kind: SharedKind,
}

/// The state of a key: of a name under which a link finds symbols.
#[derive(Clone, Copy)]
pub enum KeyState {
    /// No symbol has it.
    New,
    /// It is referenced, only weakly.
    Weak,
    /// It is referenced, and not defined.
    Undefined,
    /// It is a common of this many bytes.
    Common(u64),
    /// An object has a weak definition of it.
    WeakDefined,
    /// An object defines it.
    Defined,
    /// A shared library defines it.
    Shared(SharedDefinition),
}

/// What a symbol of a file is to its key.
#[derive(Clone, Copy)]
pub enum SymbolRole {
    /// A weak reference.
    WeakReference,
    /// A reference.
    Reference,
    /// A common of this many bytes.
    Common(u64),
    /// A weak definition.
    WeakDefinition,
    /// A definition.
    Definition,
    /// A definition of a shared library.
    Shared(SharedDefinition),
}

/// What a symbol changes in the state of its key.
#[derive(Clone, Copy)]
pub enum StateChange {
    /// Nothing.
    Stays,
    /// Nothing, and the key is defined once more.
    Multiple,
    /// It becomes a common of this many bytes, and the row that made it stays.
    Enlarged(u64),
    /// It becomes this.
    BecomesState(KeyState),
}

/// How a symbol of a file uses its key.
#[derive(Clone, Copy)]
pub struct SymbolUse {
    /// What it is.
    pub role: SymbolRole,
    /// Whether its visibility is not DEFAULT (gABI 4, Symbol Visibility).
    pub restricted: bool,
    /// Whether it is a reference only because its section is dropped.
    pub dropped: bool,
    /// Whether a shared library has it.
    pub of_library: bool,
    /// The value of an absolute definition.
    pub absolute: Option<u64>,
}

/// What a link knows of a key.
#[derive(Clone, Copy)]
pub struct KeyEntry {
    /// Its state.
    pub state: KeyState,
    /// The row that made the state, unless that was an argument.
    pub row: Option<u32>,
    /// The first row that references it, not weakly.
    pub reference: Option<u32>,
    /// The first row that references it weakly.
    pub weak_reference: Option<u32>,
    /// The value of its definition, if that is absolute.
    pub absolute: Option<u64>,
    /// Whether a symbol or an argument has named it.
    pub is_met: bool,
    /// Whether an object has a symbol of it.
    pub is_own: bool,
    /// Whether it has ever been undefined, or a common of which no symbol was met before.
    pub is_asked: bool,
    /// Whether a symbol of it has been in a dropped section.
    pub is_gone: bool,
    /// Whether an object's symbol of it has a visibility other than DEFAULT.
    pub is_restricted: bool,
    /// Whether a section group of this signature is kept.
    pub is_group: bool,
    /// Whether a link-once section of this name is kept.
    pub is_link_once: bool,
    /// Whether an object has a section of this name that is not dropped.
    pub is_section: bool,
}

/// An entry of the index of an archive: the indexes of the keys of its name, and the member that has
/// it.
#[derive(Clone, Copy)]
pub struct IndexEntry {
    /// The index of its key.
    pub key: u32,
    /// The index of the key without a version, if that is the default one, or `key` again.
    pub default_key: u32,
    /// The member's index among those of the archive.
    pub member: u32,
}

/// A further definition of a key that is defined already.
#[derive(Clone, Copy)]
pub struct FurtherDefinition {
    /// The index of the key.
    pub key: u32,
    /// The row of the file that has it.
    pub row: Option<u32>,
}

/// The kind of a row of a link.
#[derive(Clone, Copy)]
pub enum LinkRowKind {
    /// An object.
    Object,
    /// A shared library.
    Shared,
    /// A shared library that is not needed.
    Unneeded,
    /// A shared library whose name another one of the link has.
    Same,
    /// An archive.
    Archive,
    /// A member of an archive.
    Member,
    /// There is no such file.
    Missing,
    /// A file that is refused.
    Refused,
}

/// Why a member of an archive is taken.
#[derive(Clone, Copy)]
pub struct RowReason {
    /// The index of the key that asks for it.
    pub key: u32,
    /// The row that made the key's state, unless that was an argument.
    pub row: Option<u32>,
}

/// A row of a link: a file, in the order in which files are taken.
#[derive(Clone, Copy)]
pub struct LinkRow {
    /// Its kind.
    pub kind: LinkRowKind,
    /// The index of the input among those of the link.
    pub input: u32,
    /// For a member, the row of its archive.
    pub archive: Option<u32>,
    /// For a member, its index among those of the archive.
    pub member: Option<u32>,
    /// For a member that is taken for a key, why.
    pub reason: Option<RowReason>,
}

/// Why a file of a link is refused.
#[derive(Clone, Copy)]
pub enum LinkCause {
    /// As any file is.
    Refused(Cause),
    /// The file type is not one that a linker takes (gABI 4, ELF Header).
    FileType,
    /// The machine is not x86-64.
    Machine,
    /// The file is a text that is no linker script of the words that are known, or a longer one.
    ScriptFault,
    /// The object has intermediate code instead of machine code.
    Lto,
    /// The archive has members and no index.
    NoIndex,
    /// The archive's index ends before its last name.
    IndexCut,
    /// An entry of the archive's index has an offset where there is no member.
    IndexMember,
    /// There are more keys, or bytes of their names, than are allowed.
    TooManyKeys,
    /// There are more rows, or further definitions, than are allowed.
    TooManyRows,
}

/// A refusal of a file of a link: its cause, and the file offset that it points to.
#[derive(Clone, Copy)]
pub struct LinkRefusal {
    /// The file offset, in bytes, from the first byte of the file that was opened.
    pub at: u64,
    /// Why the file is refused.
    pub cause: LinkCause,
}
