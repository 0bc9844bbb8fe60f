//! A source whose reads are counted.
ghost use Rattle.std.specs.Prelude.{◌≡◌, ℕ, ◌+◌, ◌-◌, ◌^◌, ◌<◌, ◌≤◌, List, length, take, drop, false, None, Some, IfErr, OnOk};
ghost use Rattle.elf_source.specs.Source.{ReadsUpTo, IsSourceFault, IsAskFault, CountsRead, ReadsSourceOnce, RecordsStop, FillsUnlimited, MasksSectionHeaders, IsReadable, IsWithin, KeepsSource, SetsLimit, SameView, left};

use crate::faults::{AskFault, SourceFault};
use crate::section_header_mask::hide;
use crate::source::Source;
use std::marker::Model;

/// The maximum number of bytes of one read within a limit.
pub const READ_BYTES: usize = 4096;

/// A source, the number of bytes requested of it, the limit on that number, if one is set, and the
/// offset of the last read that failed or that exceeded the limit.
#[derive(Drop)]
pub struct Counted<S: Source> {
    pub(crate) source: S,
    asked: u128,
    most: Option<u128>,
    stopped: u64,
    pub(crate) hides: bool,
    ghost within: { IsWithin asked most },
    ghost fits: { asked < 2 ^ 128 },
}

impl<S: Source> Model for Counted<S> {
    ghost use Rattle.std.specs.Prelude.{refl};
    ghost use Rattle.elf_source.specs.Source.{CountedState, seen_by};

    ghost Value = { CountedState };

    ghost view = { λ c. record {
      seen = seen_by c.hides (S.seen c.source);
      source = S.seen c.source;
      hides = c.hides;
      is_seen = refl;
      asked = c.asked;
      most = c.most;
      stopped = c.stopped;
      within = c.within;
      fits = c.fits;
    } };
}

impl<S: Source> Counted<S> {
    /// Creates a counter over `source` with no limit. Nothing is hidden.
    pub fn new(source: S) -> Self
        ensures seen { result.seen ≡ S.seen source }
        ensures source { result.source ≡ S.seen source }
        ensures shows { result.hides ≡ false }
        ensures asked { result.asked ≡ 0 }
        ensures free { result.most ≡ None }
        ensures stopped { result.stopped ≡ 0 }
    {
        Counted {
            source,
            asked: 0,
            most: None,
            stopped: 0,
            hides: false,
        }
    }

    /// Returns `true` if the fields of a file header that locate section headers are hidden.
    pub fn hides(&self) -> bool
        ensures { result ≡ self.now.hides }
    {
        self.hides
    }

    /// Hides or shows the fields of the file header that locate section headers.
    ///
    /// While they are hidden, reads return zeros for the bytes 40 to 47 (e_shoff) and 60 to 63
    /// (e_shnum, e_shstrndx) of the source (gABI 4, ELF Header). The byte count and the limit do
    /// not change.
    pub fn mask_section_headers(&mut self, hides: bool)
        ensures { MasksSectionHeaders self.old self.new hides }
    {
        self.hides = hides;
    }

    /// Returns the number of bytes requested, failed reads included. It stays at 2^128 - 1.
    pub fn asked(&self) -> u128
        ensures { result ≡ self.now.asked }
    {
        self.asked
    }

    /// Returns the length of the source in bytes.
    pub fn length(&self) -> u64
        ensures value { result ≡ self.now.seen.size }
        ensures fits { self.now.seen.size < 2 ^ 64 }
    {
        self.source.length()
    }

    /// Returns the offset, in bytes, of the last read that failed or that exceeded a limit; 0
    /// before the first.
    pub fn stopped(&self) -> u64
        ensures { result ≡ self.now.stopped }
    {
        self.stopped
    }

    /// Returns the number of bytes that [`Counted::ask`] may still request, if a limit is set.
    pub fn left(&self) -> Option<u64>
        ensures { result ≡ left self.now }
    {
        match self.most {
            None => None,
            Some(most) => Some((most - self.asked) as u64),
        }
    }

    /// Sets how many bytes [`Counted::ask`] may request from now on; None removes the limit.
    pub fn limit(&mut self, bytes: Option<u64>)
        ensures { SetsLimit self.old self.new bytes }
    {
        self.most = match bytes {
            None => None,
            Some(bytes) => Some(self.asked.saturating_add(u128::from(bytes))),
        };
    }

    /// Fills `out`, at most 4,096 bytes, with the bytes at offset `at`, all within the length.
    ///
    /// `asked` rises by the length of `out`, and what is left of a limit falls by as much, also if
    /// the source fails.
    ///
    /// # Errors
    /// - `Budget` if a limit has fewer bytes left than `out` has: nothing is read, and only the
    ///   result of [`Counted::stopped`] changes.
    /// - `Source` with the source's fault: `Device` only if its count of failures rose, `Ended`
    ///   only if it isn't honest.
    ///
    /// After a fault the contents of `out` are unspecified, and the source may be read again.
    pub fn ask(&mut self, at: u64, out: &mut [u8]) -> Result<(), AskFault>
        requires { IsReadable self.old at (length out.old) }
        ensures reads { ReadsUpTo self.old self.new (length out.old) }
        ensures blames { IfErr result (IsAskFault self.old self.new (length out.old)) }
        ensures slice { (file : List ℕ) → self.old.seen.file ≡ Some file → OnOk result
            (out.new ≡ take (length out.old) (drop at file)) }
        ensures asks { CountsRead self.old self.new (length out.old) result }
        ensures stops { RecordsStop self.old self.new at result }
        ensures once { ReadsSourceOnce S.one_read self.old self.new at (length out.old) result }
    {
        let count = out.len();
        if let Some(left) = self.left() {
            if count as u64 > left {
                self.stopped = at;
                return Err(AskFault::Budget);
            }
        }
        self.asked = self.asked.saturating_add(count as u128);
        match self.read(at, out) {
            Ok(()) => Ok(()),
            Err(fault) => Err(AskFault::Source(fault)),
        }
    }

    /// Fills `out` with the bytes at offset `at`, all within the length, regardless of the limit.
    ///
    /// `asked` rises by the length of `out`, also if the source fails; what is left of a limit does
    /// not change.
    ///
    /// # Errors
    /// Returns the source's fault: `Device` only if its count of failures rose, `Ended` only if it
    /// isn't honest. After either the contents of `out` are unspecified, and the source may be read
    /// again.
    pub fn fill(&mut self, at: u64, out: &mut [u8]) -> Result<(), SourceFault>
        requires { at + length out.old ≤ self.old.seen.size }
        ensures fills { FillsUnlimited self.old self.new (length out.old) }
        ensures stops { RecordsStop self.old self.new at result }
        ensures faults { IfErr result (IsSourceFault self.old.seen self.new.seen) }
        ensures slice { (file : List ℕ) → self.old.seen.file ≡ Some file → OnOk result
            (out.new ≡ take (length out.old) (drop at file)) }
        ensures once { S.one_read self.old.source at (length out.old) self.new.source }
    {
        let left = self.left();
        self.most = None;
        self.asked = self.asked.saturating_add(out.len() as u128);
        let answer = self.read(at, out);
        self.limit(left);
        answer
    }

    /// Fills `out` from the source, with zeros for what is hidden; a fault records the offset.
    fn read(&mut self, at: u64, out: &mut [u8]) -> Result<(), SourceFault>
        requires { at + length out.old ≤ self.old.seen.size }
        ensures account { (self.new.asked ≡ self.old.asked) × (self.new.most ≡ self.old.most) }
        ensures keeps { KeepsSource self.old.seen self.new.seen }
        ensures view { SameView self.old self.new }
        ensures length { length out.new ≡ length out.old }
        ensures stops { RecordsStop self.old self.new at result }
        ensures faults { IfErr result (IsSourceFault self.old.seen self.new.seen) }
        ensures slice { (file : List ℕ) → self.old.seen.file ≡ Some file → OnOk result
            (out.new ≡ take (length out.old) (drop at file)) }
        ensures once { S.one_read self.old.source at (length out.old) self.new.source }
    {
        if let Err(fault) = self.source.fill(at, out) {
            self.stopped = at;
            return Err(fault);
        }
        if self.hides {
            hide(at, out);
        }
        Ok(())
    }

    /// Returns the source.
    pub fn into_inner(self) -> S
        ensures { S.seen result ≡ self.source }
    {
        let Counted { source, .. } = self;
        source
    }
}
