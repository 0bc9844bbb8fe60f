//! A source with one read that fails.
ghost use Rattle.std.specs.Prelude.{◌≡◌, ℕ, ◌+◌, ◌≤◌, List, Some, None, length, take, drop, Err, IfErr, OnOk, ⊤};
ghost use Rattle.elf_source.specs.Source.{KeepsSource, IsSourceFault};
ghost use Rattle.elf_source.specs.Failing.{Failing, seen_failing};

use crate::faults::SourceFault;
use crate::source::Source;
use std::marker::Model;

/// A source that passes its reads on to another, except for one that fails.
///
/// It is honest if the other is, and has its file and its size. With each position of the failing
/// read in turn it shows what a caller does if a device fails there, once, and then works again.
#[derive(Drop)]
pub struct FailSource<S: Source> {
    source: S,
    // The number of reads to pass on before the one that fails; None after it.
    due: Option<u64>,
}

impl<S: Source> Model for FailSource<S> {
    ghost Value = { Failing };

    ghost view = { λ s. record { source = S.seen s.source; due = s.due } };
}

impl<S: Source> FailSource<S> {
    /// Creates a source that passes `k` reads on to `source`, fails the next one, and then passes
    /// all on.
    pub fn new(source: S, k: u64) -> Self
        ensures source { result.source ≡ S.seen source }
        ensures due { result.due ≡ Some k }
    {
        FailSource {
            source,
            due: Some(k),
        }
    }
}

impl<S: Source> Source for FailSource<S> {
    ghost seen = { seen_failing };

    ghost one_read = { λ _ _ _ _. ⊤ };

    fn length(&self) -> u64 {
        self.source.length()
    }

    /// Fills `out` as the other source does at offset `at`, or fails if this is the failing read:
    /// then the other source is not read, and `out` does not change.
    ///
    /// # Errors
    /// - `Device` if this is the failing read; the count of failures rises by one.
    /// - Otherwise the fault of the other source.
    fn fill(&mut self, at: u64, out: &mut [u8]) -> Result<(), SourceFault>
        requires { at + length out.old ≤ self.old.source.size }
        ensures slice { (file : List ℕ) → self.old.source.file ≡ Some file → OnOk result
            (out.new ≡ take (length out.old) (drop at file)) }
        ensures faults { IfErr result
            (IsSourceFault (seen_failing self.old) (seen_failing self.new)) }
        ensures keeps { KeepsSource (seen_failing self.old) (seen_failing self.new) }
        ensures fails { self.old.due ≡ Some 0 → (result ≡ Err SourceFault.Device)
            × (self.new.source ≡ self.old.source) × (self.new.due ≡ None) }
        ensures counts { (n : ℕ) → self.old.due ≡ Some (n + 1) → (self.new.due ≡ Some n)
            × S.one_read self.old.source at (length out.old) self.new.source }
        ensures passes { self.old.due ≡ None → (self.new.due ≡ None)
            × S.one_read self.old.source at (length out.old) self.new.source }
    {
        match self.due {
            Some(0) => {
                self.due = None;
                return Err(SourceFault::Device);
            }
            Some(n) => self.due = Some(n - 1),
            None => {}
        }
        self.source.fill(at, out)
    }
}
