//! A source over a range of another source.
ghost use Rattle.std.specs.Prelude.{◌≡◌, ℕ, ◌+◌, ◌^◌, ◌<◌, ◌≤◌, List, length, take, drop, Some, IfErr, OnOk, ⊤};
ghost use Rattle.elf_source.specs.Source.{KeepsSource, IsSourceFault};
ghost use Rattle.elf_source.specs.Ranges.{IsWholeRange, LiesWithin, Narrows, Widens, file_within, seen_range};

use crate::counted::Counted;
use crate::faults::SourceFault;
use crate::source::Source;
use std::marker::Model;

/// A source over a range of another.
///
/// Its file is that slice of the other's file, and its offset 0 is the start of the range. It is
/// honest if the other is, and its failures are the other's.
#[derive(Drop)]
pub struct RangeSource<S: Source> {
    source: S,
    start: u64,
    size: u64,
    ghost within: { start + size ≤ (S.seen source).size },
    ghost fits: { start + size < 2 ^ 64 },
    ghost sized: { (bytes : List ℕ) →
        file_within (S.seen source).file start size ≡ Some bytes → length bytes ≡ size },
}

impl<S: Source> Model for RangeSource<S> {
    ghost use Rattle.elf_source.specs.Ranges.{RangeOf};

    ghost Value = { RangeOf };

    ghost view = { λ r. record {
      below = S.seen r.source;
      start = r.start;
      size = r.size;
      within = r.within;
      sized = r.sized;
    } };
}

impl<S: Source> RangeSource<S> {
    /// Creates the range of all bytes of `source`.
    pub fn new(source: S) -> Self
        ensures below { result.below ≡ S.seen source }
        ensures start { result.start ≡ 0 }
        ensures size { result.size ≡ (S.seen source).size }
        ensures whole { IsWholeRange (seen_range result) }
        ensures file { (seen_range result).file ≡ (S.seen source).file }
    {
        let size = source.length();
        RangeSource {
            source,
            start: 0,
            size,
        }
    }

    /// Returns the source of which it is a range.
    pub fn into_inner(self) -> S
        ensures { S.seen result ≡ self.below }
    {
        let RangeSource { source, .. } = self;
        source
    }

    /// Returns the length of the parent source in bytes.
    fn whole(&self) -> u64
        ensures value { result ≡ self.now.below.size }
        ensures fits { self.now.below.size < 2 ^ 64 }
    {
        self.source.length()
    }

    /// Sets the range to `size` bytes at offset `start` of the parent source.
    fn set(&mut self, start: u64, size: u64)
        requires within { start + size ≤ self.old.below.size }
        requires fits { start + size < 2 ^ 64 }
        ensures below { self.new.below ≡ self.old.below }
        ensures start { self.new.start ≡ start }
        ensures size { self.new.size ≡ size }
    {
        self.start = start;
        self.size = size;
    }
}

impl<S: Source> Source for RangeSource<S> {
    ghost seen = { seen_range };

    ghost one_read = { λ _ _ _ _. ⊤ };

    fn length(&self) -> u64 {
        self.size
    }

    /// Fills `out` as the other source does, at offset `at` from the start of the range.
    ///
    /// # Errors
    /// Returns the faults of the other source.
    fn fill(&mut self, at: u64, out: &mut [u8]) -> Result<(), SourceFault>
        requires { at + length out.old ≤ self.old.size }
        ensures slice { (file : List ℕ) → (seen_range self.old).file ≡ Some file → OnOk result
            (out.new ≡ take (length out.old) (drop at file)) }
        ensures faults { IfErr result (IsSourceFault (seen_range self.old) (seen_range self.new)) }
        ensures keeps { KeepsSource (seen_range self.old) (seen_range self.new) }
        ensures passes { S.one_read self.old.below (self.old.start + at)
            (length out.old) self.new.below }
    {
        self.source.fill(self.start + at, out)
    }
}

impl<S: Source> Counted<RangeSource<S>> {
    /// Sets the range to `size` bytes at offset `start` of the parent source, and hides nothing of
    /// it. The byte count and the limit do not change.
    pub fn narrow(&mut self, start: u64, size: u64)
        requires { LiesWithin self.old.seen start size }
        ensures { Narrows self.old self.new start size }
    {
        let _whole = self.source.whole();
        self.source.set(start, size);
        self.hides = false;
    }

    /// Sets the range to all bytes of the parent source, and hides nothing of it. The byte count
    /// and the limit do not change.
    pub fn widen(&mut self)
        ensures { Widens self.old self.new }
    {
        let size = self.source.whole();
        self.source.set(0, size);
        self.hides = false;
    }
}
