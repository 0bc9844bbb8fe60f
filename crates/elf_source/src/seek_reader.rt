//! A reader over a seekable stream.
ghost use Rattle.std.specs.Prelude.{◌≡◌, ◌≤◌, ◌↔◌, ⊤, pos, length, None, Some, Ok, IfOk, IfErr};
ghost use Rattle.std.specs.IoError.{error_kind};
ghost use Rattle.std.specs.Io.Seek.{MovesTo, SeekMoves};
ghost use Rattle.elf_source.specs.Reader.{StandsAfter, SeeksAndReads};

use crate::faults::ReadAtFault;
use crate::reader::ReadAt;
use std::io::{Error, ErrorKind, Read, Seek, SeekFrom};

/// A reader over anything that reads and seeks.
///
/// It keeps the current position, and seeks only if it differs from the offset. No file of it is
/// known: that it returns what it holds is its user's premise.
#[derive(Drop)]
pub struct SeekReader<R> {
    inner: R,
    // The current position, if known.
    place: Option<u64>,
}

impl<R> SeekReader<R> {
    /// Creates a reader over `inner`, at any position.
    pub fn new(inner: R) -> Self
        ensures inner { result.inner ≡ inner }
        ensures place { result.place ≡ None }
    {
        SeekReader { inner, place: None }
    }
}

impl<R: Seek> SeekReader<R> {
    // Seeks, unless it is there. If that fails the position is unknown.
    fn go(&mut self, at: u64) -> Result<(), ReadAtFault>
        ensures stays { self.old.place ≡ Some at → (result ≡ Ok tt) × (self.new ≡ self.old) }
        ensures seeks { (self.old.place ≡ Some at → ⊥) →
            MovesTo (R.stream_position self.old.inner)
            (R.stream_position self.new.inner) at result }
        ensures fails { IfErr result (λ _. self.new.place ≡ None) }
    {
        if self.place == Some(at) {
            return Ok(());
        }
        self.place = None;
        match self.inner.seek(SeekFrom::Start(at)) {
            Ok(_place) => Ok(()),
            Err(fault) => Err(why(fault)),
        }
    }
}

impl<R: Read + Seek> ReadAt for SeekReader<R> {
    ghost file = { λ _. None };

    /// Nothing is known about which turns of the stream below are interrupted.
    ghost interrupted = { λ _. 0 };

    /// The contract of `read_at` states what a turn changes; this states nothing.
    ghost one_turn = { λ _ _ _ _. ⊤ };

    /// Seeks to the end, with the position of the file below.
    fn end(&mut self) -> Result<u64, ReadAtFault>
        ensures moves { let bytes = R.stream_bytes self.old.inner in
            let from = R.stream_position self.old.inner in
            SeekMoves from (R.stream_position self.new.inner) bytes (SeekFrom.End (pos 0)) result }
        ensures place { self.new.place ≡ None }
    {
        self.place = None;
        match self.inner.seek(SeekFrom::End(0)) {
            Ok(place) => Ok(place),
            Err(fault) => Err(why(fault)),
        }
    }

    /// Seeks, unless it is at the offset, and reads, by the position and bytes of the stream below.
    fn read_at(&mut self, at: u64, out: &mut [u8]) -> Result<usize, ReadAtFault>
        ensures within { IfOk result (λ count. count ≤ length out.old) }
        ensures place { StandsAfter at self.new.place result }
        ensures bytes { SeeksAndReads R.stream_position R.remaining self.old.place self.old.inner
            self.new.inner at out.new result }
    {
        self.go(at)?;
        let answer = match self.inner.read(out) {
            Ok(count) => Ok(count),
            Err(fault) => Err(why(fault)),
        };
        self.place = match answer {
            Ok(0) | Err(ReadAtFault::Failed) => None,
            Ok(count) => at.checked_add(count as u64),
            Err(ReadAtFault::Interrupted) => Some(at),
        };
        answer
    }
}

// Converts a system error to a reader's fault.
pub(crate) fn why(fault: Error) -> ReadAtFault
    ensures { (result ≡ ReadAtFault.Interrupted) ↔ (error_kind fault ≡ ErrorKind.Interrupted) }
{
    if fault.kind() == ErrorKind::Interrupted {
        return ReadAtFault::Interrupted;
    }
    ReadAtFault::Failed
}
