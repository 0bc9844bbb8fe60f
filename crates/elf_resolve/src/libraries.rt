//! The shared libraries of a link.
ghost use Rattle.std.specs.Prelude.{◌≡◌, [], IfErr, IfOk, None, length};
ghost use Rattle.elf_resolve.specs.Taken.{IsLinkFault};

use crate::link_faults::{LinkFault, refused};
use crate::string_buffer::{HeldText, part_of};
use elf_model::LinkCause;
use std::alloc::{AllocError, Global};

/// A shared library of a link.
#[derive(Clone, Copy)]
pub(crate) struct LinkLibrary {
    /// The index of its input.
    pub input: u32,
    /// Its row.
    pub row: u32,
    /// Its DT_SONAME, or its path if it has none.
    pub name: HeldText,
    /// Whether it is taken only if it is needed.
    pub as_needed: bool,
    /// Whether it is part of the link.
    pub is_taken: bool,
}

/// A name that a library needs.
#[derive(Clone, Copy)]
struct NeededLibrary {
    name: HeldText,
    library: usize,
    /// Whether it keeps a library from being needed by others.
    counts: bool,
}

/// The shared libraries of a link, in the order in which they were opened, and the names that they
/// need, in memory that is allocated once.
#[derive(Drop)]
pub(crate) struct LibraryList {
    libraries: Vec<LinkLibrary>,
    needed: Vec<NeededLibrary>,
    texts: Vec<u8>,
    most: usize,
    room: usize,
}

impl LibraryList {
    /// Creates a list for `rows` libraries, and as many names, with 64 bytes for each.
    ///
    /// # Errors
    /// Out of memory.
    pub(crate) fn new(alloc: Global, rows: u32) -> Result<LibraryList, AllocError>
        ensures { IfOk result (λ list. list.libraries.items ≡ []) }
    {
        let most = rows as usize;
        let room = most.saturating_mul(64);
        Ok(LibraryList {
            libraries: Vec::with_capacity(alloc, most)?,
            needed: Vec::with_capacity(alloc, most)?,
            texts: Vec::with_capacity(alloc, room)?,
            most,
            room,
        })
    }

    /// Returns how many libraries there are.
    pub(crate) fn len(&self) -> usize
        ensures { result ≡ length self.now.libraries.items }
    {
        self.libraries.len()
    }

    /// Returns a library.
    pub(crate) fn get(&self, library: usize) -> Option<LinkLibrary> {
        match self.libraries.get(library) {
            Some(library) => Some(*library),
            None => None,
        }
    }

    /// Keeps a name.
    ///
    /// # Errors
    /// `TooManyRows` at a file offset if there is no room for it.
    pub(crate) fn keep(&mut self, name: &[u8], at: u64) -> Result<HeldText, LinkFault>
        ensures limit { IfErr result (IsLinkFault None) }
    {
        let start = self.texts.len();
        let size = name.len();
        if size > self.room.saturating_sub(start) {
            return refused(at, LinkCause::TooManyRows);
        }
        let _ = self.texts.extend_from_slice(name);
        Ok(HeldText { start, size })
    }

    /// Adds a library, and returns its index.
    ///
    /// # Errors
    /// `TooManyRows` at 0 if there is no room for it.
    pub(crate) fn add(&mut self, library: LinkLibrary) -> Result<usize, LinkFault>
        ensures limit { IfErr result (IsLinkFault None) }
    {
        if self.libraries.len() >= self.most {
            return refused(0, LinkCause::TooManyRows);
        }
        let index = self.libraries.len();
        let _ = self.libraries.push(library);
        Ok(index)
    }

    /// Adds a name that the last library needs, by the entry at a file offset.
    ///
    /// # Errors
    /// `TooManyRows` there if there is no room for it.
    pub(crate) fn add_needed(&mut self, name: &[u8], at: u64) -> Result<(), LinkFault>
        ensures limit { IfErr result (IsLinkFault None) }
    {
        if self.needed.len() >= self.most {
            return refused(at, LinkCause::TooManyRows);
        }
        let name = self.keep(name, at)?;
        let library = self.libraries.len().saturating_sub(1);
        let _ = self.needed.push(NeededLibrary {
            name,
            library,
            counts: false,
        });
        Ok(())
    }

    /// Sets that a library is part of the link.
    pub(crate) fn take(&mut self, library: usize) {
        if let Some(library) = self.libraries.get_mut(library) {
            library.is_taken = true;
        }
    }

    /// Returns the bytes of a name.
    fn text(&self, name: HeldText) -> &[u8] {
        part_of(&self.texts, name.start, name.size)
    }

    /// Returns `true` if a library of a name is part of the link.
    pub(crate) fn has(&self, name: HeldText) -> bool {
        let name = self.text(name);
        for library in 0..self.libraries.len() {
            if self.is_taken_as(library, name) {
                return true;
            }
        }
        false
    }

    /// Returns `true` if a library is part of the link and has a name.
    fn is_taken_as(&self, library: usize, name: &[u8]) -> bool {
        match self.libraries.get(library) {
            Some(library) => library.is_taken && self.text(library.name) == name,
            None => false,
        }
    }

    /// Returns `true` if a name is one that a library needs which is part of the link, or not taken
    /// as needed, or is itself so needed by one before it.
    pub(crate) fn is_needed(&mut self, name: HeldText) -> bool {
        let most = self.needed.len();
        for place in 0..most {
            let counts = self.counts(place);
            self.set_counts(place, counts);
        }
        self.is_needed_before(name, most)
    }

    /// Sets whether a needed name counts.
    fn set_counts(&mut self, place: usize, counts: bool) {
        if let Some(needed) = self.needed.get_mut(place) {
            needed.counts = counts;
        }
    }

    /// Returns `true` if a needed name counts, by those before it.
    fn counts(&self, place: usize) -> bool {
        let library = match self.needed.get(place) {
            Some(needed) => self.get(needed.library),
            None => None,
        };
        match library {
            Some(library) => {
                library.is_taken || !library.as_needed || self.is_needed_before(library.name, place)
            }
            None => false,
        }
    }

    /// Returns `true` if a name is among the first `count` needed ones that count.
    fn is_needed_before(&self, name: HeldText, count: usize) -> bool {
        let name = self.text(name);
        for place in 0..count.min(self.needed.len()) {
            if self.counts_as(place, name) {
                return true;
            }
        }
        false
    }

    /// Returns `true` if a needed name counts and is a name.
    fn counts_as(&self, place: usize, name: &[u8]) -> bool {
        match self.needed.get(place) {
            Some(needed) => needed.counts && self.text(needed.name) == name,
            None => false,
        }
    }
}
