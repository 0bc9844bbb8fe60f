//! The state of an object that a program needs, and how it was found.
use elf_model::Refusal;

/// The state of an object.
#[derive(Clone, Copy)]
pub enum ObjectState {
    /// It was found, and what it needs is known.
    Found,
    /// None of the paths tried for it can be opened.
    Missing,
    /// It was found, and is refused.
    Refused(Refusal),
    /// It was found, and the program needs it and uses none of its symbols.
    Unused,
}

/// How an object was found.
#[derive(Clone, Copy)]
pub enum FoundBy {
    /// Its name has a slash, and is its path.
    Path,
    /// It was there already: it is the interpreter.
    Listed,
    /// In a directory of a DT_RPATH.
    Rpath,
    /// In a directory of the library path that is given.
    LibraryPath,
    /// In a directory of a DT_RUNPATH.
    Runpath,
    /// In the loader's cache.
    Cache,
    /// In a default directory.
    Default,
}

/// What the line of an object has besides its path.
#[derive(Clone, Copy)]
pub struct ObjectRow {
    /// The index of the object.
    pub index: usize,
    /// The index of the object that first needed it; `None` for the program.
    pub needer: Option<u16>,
    /// Its state.
    pub state: ObjectState,
    /// How it was found; `None` for the program, and for an object that is missing.
    pub found_by: Option<FoundBy>,
    /// How many levels below the program it is in the tree of a table; 0 elsewhere.
    pub depth: usize,
}
