//! A source over another, of which some pages are cached.
ghost use Rattle.std.specs.Prelude.{◌≡◌, ℕ, ◌+◌, ◌≤◌, List, length, take, drop, Some, IfErr, OnOk, ⊤};
ghost use Rattle.elf_source.specs.Source.{KeepsSource, IsSourceFault};

use crate::faults::SourceFault;
use crate::page::PAGE_BYTES;
use crate::page_cache::PageCache;
use crate::source::Source;
use std::marker::Model;

/// A source over another of which the last pages read are cached, 4,096 bytes each. Its file, its
/// length and its failures are the other's.
#[derive(Drop)]
pub struct CachedSource<S: Source> {
    source: S,
    pages: PageCache,
}

impl<S: Source> Model for CachedSource<S> {
    ghost use Rattle.elf_source.specs.Source.{SourceState};
    ghost use Rattle.elf_source.specs.Pages.{AreHeld};

    ghost Value = { SourceState };

    ghost view = { λ p. S.seen p.source };

    ghost invariant = { λ p. AreHeld (S.seen p.source) p.pages };
}

impl<S: Source> CachedSource<S> {
    /// Creates a source over another that caches its pages in `pages`, which is emptied first.
    pub fn new(source: S, mut pages: PageCache) -> Self
        ensures { result ≡ S.seen source }
    {
        pages.clear();
        CachedSource { source, pages }
    }
}

impl<S: Source + Drop> CachedSource<S> {
    /// Returns the pages, for another file.
    pub fn into_pages(self) -> PageCache {
        let CachedSource { source: _, pages } = self;
        pages
    }
}

impl<S: Source> Source for CachedSource<S> {
    ghost seen = { λ s. s };

    ghost one_read = { λ _ _ _ _. ⊤ };

    fn length(&self) -> u64 {
        self.source.length()
    }

    /// Fills `out` from a cached page, or from the other source: if the bytes lie in one page, that
    /// is read and replaces the one that was read first. If that fails, and for other bytes, only
    /// these are read.
    ///
    /// # Errors
    /// Those of the other source.
    fn fill(&mut self, at: u64, out: &mut [u8]) -> Result<(), SourceFault>
        requires { at + length out.old ≤ self.old.size }
        ensures slice { (file : List ℕ) → self.old.file ≡ Some file → OnOk result
            (out.new ≡ take (length out.old) (drop at file)) }
        ensures faults { IfErr result (IsSourceFault self.old self.new) }
        ensures keeps { KeepsSource self.old self.new }
    {
        if self.pages.give(at, out) {
            return Ok(());
        }
        if stands_in_one(at, out.len()) && at < self.source.length() {
            self.pages.load(&mut self.source, at);
            if self.pages.give(at, out) {
                return Ok(());
            }
        }
        self.source.fill(at, out)
    }
}

/// Returns `true` if `count` bytes at a file offset lie in one page.
fn stands_in_one(at: u64, count: usize) -> bool {
    count as u64 <= PAGE_BYTES as u64 - at % PAGE_BYTES as u64
}
