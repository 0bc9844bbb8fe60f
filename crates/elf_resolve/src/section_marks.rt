//! Which sections of an object are dropped.
ghost use Rattle.std.specs.Prelude.{◌≡◌, ◌++◌, ◌<◌, ℕ, List, [], ◌∷◌, false, IfOk, length, slice_index_or};
ghost use Rattle.elf_resolve.specs.SectionMarks.{MarksAlso, MarksDropped};

use std::alloc::{AllocError, Global};
use std::marker::Model;

/// How many sections an object can have.
const MOST_SECTIONS: usize = 65_535;

/// Whether each section of an object is dropped.
#[derive(Drop)]
pub(crate) struct SectionMarks {
    marks: Vec<bool>,
}

impl Model for SectionMarks {
    ghost use Rattle.std.specs.Prelude.{Bool, List, ◌≤◌, vec_capacity};

    ghost Value = { List Bool };

    ghost view = { λ m. m.marks.items };

    ghost invariant = { λ m. 65535 ≤ vec_capacity m.marks };
}

impl SectionMarks {
    /// Creates marks for the sections of any object.
    ///
    /// # Errors
    /// Out of memory.
    pub(crate) fn new(alloc: Global) -> Result<SectionMarks, AllocError>
        ensures { IfOk result (λ marks. marks ≡ []) }
    {
        let marks = Vec::with_capacity(alloc, MOST_SECTIONS)?;
        Ok(SectionMarks { marks })
    }

    /// Begins with an object of `count` sections, of which none is marked.
    pub(crate) fn clear(&mut self, count: u16)
        ensures { MarksDropped count self.new [] }
    {
        self.marks.truncate(0);
        self.marks.resize(count as usize, false).unwrap();
    }

    /// Marks a section as dropped, also one that the object does not have; an index from 65,535 on,
    /// which no symbol has, is ignored.
    pub(crate) fn drop_section(&mut self, section: u32)
        ensures value { MarksAlso self.old self.new section }
        ensures drops { (count : ℕ) (sections : List ℕ) → MarksDropped count self.old sections →
            MarksDropped count self.new (sections ++ section ∷ []) }
    {
        let index = section as usize;
        if index >= MOST_SECTIONS {
            return;
        }
        self.reach(index);
        self.marks[index] = true;
    }

    /// Adds marks up to an index.
    fn reach(&mut self, index: usize)
        requires { index < 65535 }
        ensures within { index < length self.new }
        ensures same { (i : ℕ) → slice_index_or self.new i false ≡ slice_index_or self.old i false }
    {
        if self.marks.len() <= index {
            self.marks.resize(index + 1, false).unwrap();
        }
    }

    /// Returns `true` if a section is dropped.
    pub(crate) fn is_dropped(&self, section: u32) -> bool
        ensures { result ≡ slice_index_or self.now section false }
    {
        match self.marks.get(section as usize) {
            Some(mark) => *mark,
            None => false,
        }
    }
}
