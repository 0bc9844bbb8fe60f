//! What the needs of a link for its shared libraries rest on, by keys.
ghost use Rattle.std.specs.Prelude.{◌≡◌, ◌<◌, ℕ, [], IfOk, length};
ghost use Rattle.elf_resolve.specs.KeyMarks.{SetMark, library_noted, mark_of, object_noted, with_default};

use elf_model::{SymbolRole, SymbolUse};
use std::alloc::{AllocError, Global};
use std::marker::Model;

/// What is noted of a key.
#[derive(Clone, Copy)]
pub(crate) struct KeyMark {
    /// Whether an object references it other than weakly, or has a common of it.
    pub is_strong: bool,
    /// Whether a shared library references it other than weakly.
    pub is_library_strong: bool,
    /// The key of its name without the version, if a shared library defines it as the default one.
    pub default_key: Option<u32>,
}

/// A key of which nothing is noted.
const NO_MARK: KeyMark = KeyMark {
    is_strong: false,
    is_library_strong: false,
    default_key: None,
};

/// What is noted of each key, in memory that is allocated once, and used up to the last key of which
/// something is noted.
#[derive(Drop)]
pub(crate) struct KeyMarks {
    marks: Vec<KeyMark>,
    most: usize,
}

impl Model for KeyMarks {
    ghost use Rattle.std.specs.Prelude.{◌≤◌, vec_capacity};
    ghost use Rattle.elf_resolve.specs.KeyMarks.{NotedKeys};

    ghost Value = { NotedKeys };

    ghost view = { λ m. record { marks = m.marks.items; most = m.most } };

    ghost invariant = { λ m. m.most ≤ vec_capacity m.marks };
}

impl KeyMarks {
    /// Creates marks of `keys` keys.
    ///
    /// # Errors
    /// Out of memory.
    pub(crate) fn new(alloc: Global, keys: u32) -> Result<KeyMarks, AllocError>
        ensures { IfOk result (λ made. made ≡ record { marks = []; most = keys }) }
    {
        let most = keys as usize;
        let marks = Vec::with_capacity(alloc, most)?;
        Ok(KeyMarks { marks, most })
    }

    /// Returns what is noted of a key.
    pub(crate) fn get(&self, key: u32) -> KeyMark
        ensures { result ≡ mark_of self.now key }
    {
        match self.marks.get(key as usize) {
            Some(mark) => *mark,
            None => NO_MARK,
        }
    }

    /// Sets what is noted of a key.
    fn set(&mut self, key: u32, mark: KeyMark)
        ensures { SetMark self.old self.new key mark }
    {
        let key = key as usize;
        if key >= self.most {
            return;
        }
        self.reach(key);
        self.marks[key] = mark;
    }

    /// Adds marks up to a key.
    fn reach(&mut self, key: usize)
        requires { key < self.old.most }
        ensures within { key < length self.new.marks }
        ensures most { self.new.most ≡ self.old.most }
        ensures same { (other : ℕ) → mark_of self.new other ≡ mark_of self.old other }
    {
        if self.marks.len() <= key {
            self.marks.resize(key + 1, NO_MARK).unwrap();
        }
    }

    /// Notes a symbol of an object: a reference, if it is not weak, or a common.
    pub(crate) fn note_object(&mut self, key: u32, symbol: SymbolUse)
        ensures { SetMark self.old self.new key (object_noted symbol.role (mark_of self.old key)) }
    {
        if matches!(symbol.role, SymbolRole::Reference | SymbolRole::Common(_)) {
            let mark = self.get(key);
            self.set(
                key,
                KeyMark {
                    is_strong: true,
                    ..mark
                },
            );
        }
    }

    /// Notes that a shared library references a key, not weakly.
    pub(crate) fn note_library(&mut self, key: u32)
        ensures { SetMark self.old self.new key (library_noted (mark_of self.old key)) }
    {
        let mark = self.get(key);
        self.set(
            key,
            KeyMark {
                is_library_strong: true,
                ..mark
            },
        );
    }

    /// Notes the key of the name without the version, of which a shared library's definition made
    /// the state.
    pub(crate) fn set_default(&mut self, key: u32, default_key: Option<u32>)
        ensures { SetMark self.old self.new key
            (with_default default_key (mark_of self.old key)) }
    {
        let mark = self.get(key);
        self.set(
            key,
            KeyMark {
                default_key,
                ..mark
            },
        );
    }
}
