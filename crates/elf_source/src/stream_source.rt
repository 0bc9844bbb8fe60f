//! A source over a reader.
ghost use Rattle.std.specs.Prelude.{◌≡◌, ◌+◌, ◌-◌, ◌^◌, ◌<◌, ◌≤◌, ℕ, List, Some, length, take, drop, IfOk, IfErr, OnOk, Err};
ghost use Rattle.elf_source.specs.Reader.{TurnsWithin};
ghost use Rattle.elf_source.specs.Source.{KeepsSource, IsSourceFault};

use crate::faults::{INTERRUPTED_TURNS, ReadAtFault, SourceFault};
use crate::reader::ReadAt;
use crate::seek_reader::SeekReader;
use crate::source::Source;
use std::io::{Read, Seek};
use std::marker::Model;

/// A source over a reader. Its file is the reader's.
///
/// It is honest if its reader's file is known and its count of failures is below 2^64 - 1. For a
/// reader of the operating system no file is known.
#[derive(Drop)]
pub struct StreamSource<R: ReadAt> {
    reader: R,
    size: u64,
    failures: u64,
    ghost fits: { size < 2 ^ 64 },
    ghost sized: { (bytes : List ℕ) → R.file reader ≡ Some bytes → length bytes ≡ size },
}

impl<R: ReadAt> Model for StreamSource<R> {
    ghost use Rattle.std.specs.Prelude.{None};
    ghost use Rattle.elf_source.specs.Source.{SourceState};
    ghost use Rattle.elf_source.specs.Reader.{Stream};

    ghost Value = { Stream SourceState R };

    ghost view = { λ s. record {
      seen = record {
        size = s.size;
        failures = s.failures;
        file = R.file s.reader;
        sized = s.sized;
        whole = None;
      };
      reader = s.reader;
      interrupted = R.interrupted s.reader;
    } };
}

impl<R: Read + Seek + Drop> StreamSource<SeekReader<R>> {
    /// Creates a source over `reader` and finds its length, once, by a seek to the end.
    ///
    /// # Errors
    /// Returns `Device` if that seek fails, or is interrupted 64 times.
    pub fn new(reader: R) -> Result<Self, SourceFault>
        ensures fresh { IfOk result (λ s. s.seen.failures ≡ 0) }
        ensures device { IfErr result (λ fault. fault ≡ SourceFault.Device) }
    {
        StreamSource::over(SeekReader::new(reader))
    }
}

impl<R: ReadAt + Drop> StreamSource<R> {
    /// Creates a source over a reader and finds its length, once.
    ///
    /// # Errors
    /// Returns `Device` if that fails, or is interrupted 64 times.
    pub fn over(reader: R) -> Result<Self, SourceFault>
        ensures fresh { IfOk result (λ s. s.seen.failures ≡ 0) }
        ensures file { IfOk result (λ s. s.seen.file ≡ R.file reader) }
        ensures few { IfOk result (λ s. s.interrupted ≤ R.interrupted reader + 64) }
        ensures device { IfErr result (λ fault. fault ≡ SourceFault.Device) }
    {
        let mut reader = reader;
        let size = find_end(&mut reader)?;
        Ok(StreamSource {
            reader,
            size,
            failures: 0,
        })
    }
}

impl<R: ReadAt> Source for StreamSource<R> {
    ghost seen = { λ s. s.seen };

    /// A read adds at most one to the failures.
    ghost one_read = { λ before _ _ after. after.failures ≤ before.failures + 1 };

    fn length(&self) -> u64 {
        self.size
    }

    /// Fills `out` with the bytes at offset `at`.
    ///
    /// # Errors
    /// - `Ended` if a turn returns no byte, or once 2^64 - 1 calls have failed with `Device`: then
    ///   nothing is read.
    /// - `Device` if a turn fails, or 64 of them are interrupted in this call.
    fn fill(&mut self, at: u64, out: &mut [u8]) -> Result<(), SourceFault>
        requires { at + length out.old ≤ self.old.seen.size }
        ensures slice { (file : List ℕ) → self.old.seen.file ≡ Some file → OnOk result
            (out.new ≡ take (length out.old) (drop at file)) }
        ensures faults { IfErr result (IsSourceFault self.old.seen self.new.seen) }
        ensures keeps { KeepsSource self.old.seen self.new.seen }
        ensures once { self.new.seen.failures ≤ self.old.seen.failures + 1 }
        // At most 64 turns are interrupted.
        ensures few { self.new.interrupted ≤ self.old.interrupted + 64 }
        // No byte outside the requested range is read.
        ensures turns { TurnsWithin R.one_turn self.old.reader self.new.reader at (length out.old) }
        ensures worn { self.old.seen.failures ≡ 2 ^ 64 - 1 → (result ≡ Err SourceFault.Ended)
            × (self.new ≡ self.old) }
    {
        if self.failures == u64::MAX {
            return Err(SourceFault::Ended);
        }
        let answer = read_all(&mut self.reader, at, out);
        if answer == Err(SourceFault::Device) {
            self.failures += 1;
        }
        answer
    }
}

// Returns the length of a reader.
fn find_end<R: ReadAt>(reader: &mut R) -> Result<u64, SourceFault>
    ensures same { R.file reader.new ≡ R.file reader.old }
    ensures few { R.interrupted reader.new ≤ R.interrupted reader.old + 64 }
    ensures value { (bytes : List ℕ) → R.file reader.old ≡ Some bytes → IfOk result
        (λ size. size ≡ length bytes) }
    ensures device { IfErr result (λ fault. fault ≡ SourceFault.Device) }
{
    for _turn in 0..INTERRUPTED_TURNS {
        match reader.end() {
            Ok(size) => return Ok(size),
            Err(ReadAtFault::Interrupted) => {}
            Err(ReadAtFault::Failed) => return Err(SourceFault::Device),
        }
    }
    Err(SourceFault::Device)
}

// Fills `out` with the bytes at offset `at`. Each turn reads a byte, ends, or is interrupted.
fn read_all<R: ReadAt>(reader: &mut R, at: u64, out: &mut [u8]) -> Result<(), SourceFault>
    requires { at + length out.old < 2 ^ 64 }
    ensures turns { TurnsWithin R.one_turn reader.old reader.new at (length out.old) }
    ensures same { R.file reader.new ≡ R.file reader.old }
    ensures few { R.interrupted reader.new ≤ R.interrupted reader.old + 64 }
    ensures slice { (file : List ℕ) → R.file reader.old ≡ Some file → OnOk result
        (out.new ≡ take (length out.old) (drop at file)) }
    ensures fails { (file : List ℕ) → R.file reader.old ≡ Some file →
        at + length out.old ≤ length file → IfErr result (λ fault. fault ≡ SourceFault.Device) }
{
    let mut got = 0;
    let mut interrupted = 0;
    while got < out.len() {
        match reader.read_at(at + got as u64, &mut out[got..]) {
            Ok(0) => return Err(SourceFault::Ended),
            Ok(count) => got += count,
            Err(ReadAtFault::Interrupted) if interrupted + 1 < INTERRUPTED_TURNS => {
                interrupted += 1;
            }
            Err(_) => return Err(SourceFault::Device),
        }
    }
    Ok(())
}
