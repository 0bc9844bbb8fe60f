//! A source that reads from two files in turn.
ghost use Rattle.std.specs.Prelude.{◌≡◌, ℕ, ◌+◌, ◌≤◌, List, length, take, drop, Ok, Some, None, IfErr, IfSome, OnOk, if◌then◌else◌};
ghost use Rattle.elf_source.specs.Source.{KeepsSource, IsSourceFault};
ghost use Rattle.elf_source.specs.Failing.{Turning, seen_turning};

use crate::faults::SourceFault;
use crate::source::Source;
use std::marker::Model;

/// A source over two files of one length, whose reads return bytes of the two in turn.
///
/// It never fails, and is never honest: no file can be said to be what its reads return. It shows
/// what a caller does if a file changes between two reads.
#[derive(Drop)]
pub struct TurnSource<'a> {
    first: &'a [u8],
    second: &'a [u8],
    // Whether the next read uses the second.
    turned: bool,
    ghost same: { length first.now ≡ length second.now },
}

impl<'a> Model for TurnSource<'a> {
    ghost Value = { Turning };

    ghost view = { λ s. record {
      next = if s.turned then s.second.now else s.first.now;
      other = if s.turned then s.first.now else s.second.now;
    } };
}

impl<'a> TurnSource<'a> {
    /// Creates a source whose first read uses `first`, the next `second`, and so on. Returns None
    /// if their lengths differ.
    pub fn new(first: &'a [u8], second: &'a [u8]) -> Option<TurnSource<'a>>
        ensures given { length first.now ≡ length second.now →
            IfSome result (λ s. (s.next ≡ first.now) × (s.other ≡ second.now)) }
        ensures refused { (length first.now ≡ length second.now → ⊥) → result ≡ None }
    {
        if first.len() != second.len() {
            return None;
        }
        Some(TurnSource {
            first,
            second,
            turned: false,
        })
    }
}

impl<'a> Source for TurnSource<'a> {
    ghost seen = { seen_turning };

    ghost one_read = { λ before _ _ after. after ≡ before };

    fn length(&self) -> u64 {
        self.first.len() as u64
    }

    /// Fills `out` with the bytes at offset `at` of the file whose turn it is. The next read uses
    /// the other.
    fn fill(&mut self, at: u64, out: &mut [u8]) -> Result<(), SourceFault>
        requires { at + length out.old ≤ length self.old.next }
        ensures answers { (result ≡ Ok tt)
            × (out.new ≡ take (length out.old) (drop at self.old.next)) }
        ensures turns { (self.new.next ≡ self.old.other) × (self.new.other ≡ self.old.next) }
        ensures slice { (file : List ℕ) → (seen_turning self.old).file ≡ Some file → OnOk result
            (out.new ≡ take (length out.old) (drop at file)) }
        ensures faults { IfErr result
            (IsSourceFault (seen_turning self.old) (seen_turning self.new)) }
        ensures keeps { KeepsSource (seen_turning self.old) (seen_turning self.new) }
        ensures once { seen_turning self.new ≡ seen_turning self.old }
    {
        let bytes = if self.turned { self.second } else { self.first };
        self.turned = !self.turned;
        let start = at as usize;
        out.copy_from_slice(&bytes[start..start + out.len()]);
        Ok(())
    }
}
