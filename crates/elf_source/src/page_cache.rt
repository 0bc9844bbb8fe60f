//! The pages of a file that were read last.
ghost use Rattle.std.specs.Prelude.{◌≡◌, ◌<◌, [], IfOk};
ghost use Rattle.elf_source.specs.Pages.{GivesAny, KeepsPages, ReadsPage};
ghost use Rattle.elf_source.specs.Source.{KeepsSource};

use crate::page::{PAGE_BYTES, Page};
use crate::source::Source;
use std::alloc::{AllocError, Global};
use std::marker::Model;
use std::mem;

/// How many indexes there are for each page.
const INDEXES: usize = 4;

/// How many pages the indexes are for at first. They double each time that as many pages are cached.
const FIRST_PAGES: usize = 64;

/// The pages of a file that were read last, as many as there is room for.
#[derive(Drop)]
pub struct PageCache {
    pages: Vec<Page>,
    // How many pages may be cached.
    most: usize,
    // The index of the page that is replaced next.
    next: usize,
    // The index of a page that is cached, by the remainder of its number in the file. There are
    // `INDEXES` of each page, or more.
    indexes: Vec<u16>,
}

impl Model for PageCache {
    ghost use Rattle.std.specs.Prelude.{List};
    ghost use Rattle.elf_source.specs.Pages.{HeldBytes};

    ghost Value = { List HeldBytes };

    ghost view = { λ c. c.pages.items };
}

impl PageCache {
    /// Creates a cache that stays empty.
    pub fn empty(alloc: Global) -> PageCache
        ensures { result ≡ [] }
    {
        PageCache::over(Vec::new(alloc), Vec::new(alloc), 0)
    }

    /// Creates an empty cache, and allocates the memory of `most` pages of 4,096 bytes and 8 bytes
    /// more for each. It is written to only as far as pages are read.
    ///
    /// # Errors
    /// Out of memory.
    pub fn with_room(alloc: Global, most: u16) -> Result<PageCache, AllocError>
        ensures { IfOk result (λ cache. cache ≡ []) }
    {
        let most = usize::from(most);
        let pages = Vec::with_capacity(alloc, most)?;
        let mut indexes = Vec::with_capacity(alloc, most * INDEXES)?;
        indexes.resize(most.min(FIRST_PAGES) * INDEXES, 0)?;
        Ok(PageCache::over(pages, indexes, most))
    }

    /// Returns the cache, and leaves one that stays empty.
    pub fn take(&mut self) -> PageCache {
        let empty = PageCache::empty(*self.pages.allocator());
        mem::replace(self, empty)
    }

    /// Drops all pages and keeps their memory.
    pub(crate) fn clear(&mut self)
        ensures { self.new ≡ [] }
    {
        self.pages.clear();
        self.next = 0;
    }

    /// Creates a cache of these pages.
    fn over(pages: Vec<Page>, indexes: Vec<u16>, most: usize) -> PageCache
        ensures { result ≡ pages.items }
    {
        PageCache {
            pages,
            most,
            next: 0,
            indexes,
        }
    }

    /// Fills `out` with the bytes at the file offset `at`, if the page that contains it is cached
    /// and has all of them.
    pub(crate) fn give(&self, at: u64, out: &mut [u8]) -> bool
        ensures { GivesAny self.now at out.old out.new result }
    {
        let Some(index) = self.indexes.get(index_place(&self.indexes, at)) else {
            return false;
        };
        match self.pages.get(usize::from(*index)) {
            Some(page) => page.give(at, out),
            None => false,
        }
    }

    /// Reads the page that contains the file offset `at`: as a new page, or in place of the one
    /// that was read first. If there is no memory for it, or the read fails, it is not cached.
    pub(crate) fn load<S: Source>(&mut self, source: &mut S, at: u64)
        requires { at < (S.seen source.old).size }
        ensures keeps { KeepsSource (S.seen source.old) (S.seen source.new) }
        ensures held { ReadsPage (S.seen source.old) self.old self.new }
    {
        let index = self.next_index();
        set_index(&mut self.indexes, at, index);
        if index < self.pages.len() {
            self.pages[index].load(source, at);
        }
    }

    /// Returns the index of the page that is read next: a new one, or the one that was read first.
    fn next_index(&mut self) -> usize
        ensures held { KeepsPages self.old self.new }
    {
        let count = self.pages.len();
        if count < self.most {
            if count >= self.indexes.len() / INDEXES {
                self.add_indexes();
            }
            let _ = self.pages.push(Page::new());
            return count;
        }
        let index = if self.next < count { self.next } else { 0 };
        self.next = index.saturating_add(1);
        index
    }

    /// Doubles how many indexes there are, and sets those of all pages again.
    fn add_indexes(&mut self)
        ensures { self.new ≡ self.old }
    {
        let count = self.indexes.len().saturating_mul(2);
        if self.indexes.resize(count, 0).is_ok() {
            set_indexes(&mut self.indexes, &self.pages);
        }
    }
}

/// Sets the indexes of all pages.
fn set_indexes(indexes: &mut [u16], pages: &[Page]) {
    for index in 0..pages.len() {
        set_index(indexes, pages[index].at(), index);
    }
}

/// Sets the index of the page that contains a file offset.
fn set_index(indexes: &mut [u16], at: u64, index: usize) {
    let place = index_place(indexes, at);
    if let Some(known) = indexes.get_mut(place) {
        *known = u16::try_from(index).unwrap_or(u16::MAX);
    }
}

/// Returns the place of the index of the page that contains a file offset.
fn index_place(indexes: &[u16], at: u64) -> usize {
    (at / PAGE_BYTES as u64) as usize % indexes.len().max(1)
}
