//! What a file needs, and where that is stored.
ghost use Rattle.std.specs.Prelude.{◌≡◌, ◌+◌, ◌<◌, ◌≤◌, ◌++◌, ◌∷◌, [], ℕ, IfOk, Some, false, true, nat_lt, length, slice_get, slice_index_or, if◌then◌else◌};
ghost use Rattle.elf_table.specs.Prelude.{CallDid, StringsInBounds, fault_of_result, strings_in};
ghost use Rattle.elf_model.specs.Prelude.{LINK_TEXT_BYTES, shown};
ghost use Rattle.elf_library.specs.Held.{with_text};
ghost use Rattle.elf_library.specs.declared.links.NeededLibrary.{NeededLibrary};
ghost use Rattle.elf_library.specs.Entries.{ReturnsText, has_nodeflib, text_by};

use crate::texts::StringArena;
use elf_record::Cause;
use elf_source::{Counted, Source};
use elf_table::{Fault, NameBuf, NameEnd, NameLimit, Names, refused};
use std::alloc::{AllocError, Global};
use std::marker::Model;

/// How many bytes of a text are read: a longer one is refused.
const TEXT_CAP: NameLimit = NameLimit { bytes: 4096 };

/// The flag of DT_FLAGS_1 of a file whose needs are not searched for in the default directories.
const DF_1_NODEFLIB: u64 = 0x800;

/// A library that a file needs.
#[derive(Clone, Copy)]
pub struct NeededLibrary {
    /// The file offset of the dynamic entry for it.
    pub at: u64,
    /// The index of its name.
    pub name: u32,
}

/// What the dynamic entries of a file say of how it is linked (gABI 5, Dynamic Section). A text is
/// given by its index.
#[derive(Clone, Copy)]
pub struct LinkInfo {
    /// DT_SONAME: its name as a library.
    pub soname: Option<u32>,
    /// DT_RPATH: where libraries are searched.
    pub rpath: Option<u32>,
    /// DT_RUNPATH: the same, in its place.
    pub runpath: Option<u32>,
    /// DT_FLAGS_1, a GNU extension; 0 if there is none.
    pub flags_1: u64,
    /// Whether the file is a program, which is no library: it is of the type EXEC, its DT_FLAGS_1
    /// says so, or it has no dynamic entries.
    pub is_program: bool,
}

impl LinkInfo {
    /// Returns `true` if what the file needs is not searched for in the default directories.
    pub fn has_nodeflib(&self) -> bool
        ensures { result ≡ has_nodeflib self.now.flags_1 }
    {
        self.flags_1 & DF_1_NODEFLIB != 0
    }
}

/// The texts of many files, and what they need, one after the other, in memory that is allocated
/// once.
#[derive(Drop)]
pub struct LinkInfoStore {
    texts: StringArena,
    needs: Vec<NeededLibrary>,
    /// The text as read.
    name: NameBuf,
}

impl Model for LinkInfoStore {
    ghost use Rattle.std.specs.Prelude.{◌≤◌, ◌+◌, length, vec_capacity};
    ghost use Rattle.elf_library.specs.Held.{LinkInfoState};

    ghost Value = { LinkInfoState };

    ghost view = { λ n. record { held = n.texts; needs = n.needs.items } };

    ghost invariant = { λ n. (length n.needs.items ≤ length n.texts.texts)
        × (length n.texts.texts + n.texts.room.texts ≤ vec_capacity n.needs) };
}

impl LinkInfoStore {
    /// Creates room for the given number of texts with the given total of bytes, and as many needs.
    /// Allocates its memory from `alloc`: `bytes`, and 24 for each text.
    ///
    /// # Errors
    /// Out of memory.
    pub fn new(alloc: Global, bytes: u32, texts: u32) -> Result<LinkInfoStore, AllocError>
        ensures { IfOk result (λ store. store ≡ record {
          held = record { texts = []; room = record { bytes = bytes; texts = texts } };
          needs = [];
        }) }
    {
        Ok(LinkInfoStore {
            texts: StringArena::new(alloc, bytes, texts)?,
            needs: Vec::with_capacity(alloc, texts as usize)?,
            name: NameBuf::new(),
        })
    }

    /// Removes all texts and needs. Its memory is kept.
    pub fn clear(&mut self)
        ensures none { (self.new.held.texts ≡ []) × (self.new.needs ≡ []) }
        ensures room { (self.old.held.room.bytes ≤ self.new.held.room.bytes)
            × (self.new.held.room.texts ≡ self.old.held.room.texts + length self.old.held.texts) }
    {
        self.needs.clear();
        self.texts.clear();
    }

    /// Returns the text at an index, or the empty text if there is none.
    pub fn text(&self, index: u32) -> &[u8]
        ensures { result.now ≡ slice_index_or self.now.held.texts index [] }
    {
        self.texts.get(index)
    }

    /// Returns the number of needs of all files.
    pub fn needs(&self) -> usize
        ensures { result ≡ length self.now.needs }
    {
        self.needs.len()
    }

    /// Returns the need at an index, if there is one.
    pub fn need(&self, index: usize) -> Option<NeededLibrary>
        ensures { result ≡ slice_get self.now.needs index }
    {
        match self.needs.get(index) {
            Some(need) => Some(*need),
            None => None,
        }
    }

    /// Reads the text at an index of a string table, for the entry at a file offset, and stores it.
    /// Returns its index.
    ///
    /// # Errors
    /// Those of [`Names::read`], and `TooLong` at the entry if it has more than 4,096 bytes or
    /// there is no room for it.
    pub fn read<S: Source>(
        &mut self,
        src: &mut Counted<S>,
        names: Names,
        off: u64,
        at: u64,
    ) -> Result<u32, Fault>
        requires { StringsInBounds src.old.seen.size names }
        ensures did { CallDid src.old src.new (fault_of_result result) 4160 (λ file. ReturnsText
            (text_by self.old.held.room at (shown (strings_in file names) off LINK_TEXT_BYTES))
            self.old self.new result) }
    {
        match names.read(src, off, at, TEXT_CAP, &mut self.name)? {
            NameEnd::Cut => refused(at, Cause::TooLong),
            NameEnd::Whole => match self.texts.push(self.name.bytes()) {
                Some(text) => Ok(text),
                None => refused(at, Cause::TooLong),
            },
        }
    }

    /// Stores a need, whose name is the text that was stored last. Returns whether there is room
    /// for it.
    pub(crate) fn push_needed(&mut self, need: NeededLibrary) -> bool
        ensures kept { result ≡ nat_lt (length self.old.needs) (length self.old.held.texts) }
        ensures need { self.new ≡ (if result then record {
          held = self.old.held;
          needs = self.old.needs ++ need ∷ [];
        } else self.old) }
    {
        if self.needs.len() >= self.texts.len() {
            return false;
        }
        self.needs.push(need).unwrap();
        true
    }

    /// Gives the need at an index another name, which is stored. Returns whether there is such a
    /// need and room for the name: otherwise nothing changes.
    pub fn rename(&mut self, index: usize, name: &[u8]) -> bool
        ensures none { result ≡ false → self.new ≡ self.old }
        ensures held { result ≡ true → self.new.held ≡ with_text self.old.held name.now }
        ensures same { length self.new.needs ≡ length self.old.needs }
        ensures others { (k : ℕ) → (k ≡ index → ⊥) →
            slice_get self.new.needs k ≡ slice_get self.old.needs k }
        ensures named { result ≡ true → (need : NeededLibrary) →
            slice_get self.old.needs index ≡ Some need →
            slice_get self.new.needs index
            ≡ Some (record { at = need.at; name = length self.old.held.texts }) }
    {
        if index >= self.needs.len() {
            return false;
        }
        let Some(name) = self.texts.push(name) else {
            return false;
        };
        let at = self.needs[index].at;
        self.needs[index] = NeededLibrary { at, name };
        true
    }
}
