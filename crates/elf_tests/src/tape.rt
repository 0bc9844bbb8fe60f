//! A reader of bytes that are never stored.
ghost use Rattle.std.specs.Prelude.{◌≡◌, ◌+◌, ◌%◌, ◌≤◌, length};

use crate::script::{FaultScript, InjectedFault};
use std::io;
use std::io::{Error, ErrorKind, Read, Seek, SeekFrom};
use std::os::unix::fs::FileExt;

/// A reader of the letters from `a` to `z`, repeated, which are never stored, at its position or at
/// an offset. It returns at most a given number of bytes per read. If a call fails, its position
/// has changed afterwards, unless the call was interrupted.
#[derive(Drop)]
pub struct EndlessReader<'a> {
    length: u64,
    at: u64,
    most: usize,
    script: &'a FaultScript,
}

impl<'a> EndlessReader<'a> {
    /// Creates a reader of `length` bytes that returns at most `most` per read, and follows its
    /// script.
    pub fn new(length: u64, most: usize, script: &'a FaultScript) -> Self
        ensures { (result.length ≡ length) × (result.at ≡ 0) × (result.most ≡ most) }
    {
        EndlessReader {
            length,
            at: 0,
            most,
            script,
        }
    }

    // The error of a call that fails so.
    fn fault(&mut self, kind: ErrorKind) -> Error {
        if kind != ErrorKind::Interrupted {
            self.stray();
        }
        Error::from(kind)
    }

    // Changes the position.
    fn stray(&mut self) {
        self.at = self.at.saturating_add(100);
    }

    // Copies the bytes at an offset to the start of `buf`, and returns how many.
    fn give(&self, at: u64, buf: &mut [u8]) -> usize
        ensures { result ≤ length buf.new }
    {
        let left = self.length.saturating_sub(at);
        let count = (buf.len().min(self.most) as u64).min(left) as usize;
        write_from(&mut buf[..count], at);
        count
    }
}

impl<'a> Read for EndlessReader<'a> {
    fn read(&mut self, buf: &mut [u8]) -> io::Result<usize> {
        self.script.ask_to(self.at.saturating_add(buf.len() as u64));
        match self.script.turn() {
            Some(InjectedFault::Fails(kind)) => return Err(self.fault(kind)),
            Some(InjectedFault::Ends) => {
                self.stray();
                return Ok(0);
            }
            None => {}
        }
        let count = self.give(self.at, buf);
        self.at = self.at.saturating_add(count as u64);
        Ok(count)
    }
}

impl<'a> FileExt for EndlessReader<'a> {
    fn read_at(&self, buf: &mut [u8], offset: u64) -> io::Result<usize> {
        self.script.ask_to(offset.saturating_add(buf.len() as u64));
        match self.script.turn() {
            Some(InjectedFault::Fails(kind)) => Err(Error::from(kind)),
            Some(InjectedFault::Ends) => Ok(0),
            None => Ok(self.give(offset, buf)),
        }
    }

    fn write_at(&self, _buf: &[u8], _offset: u64) -> io::Result<usize> {
        Ok(0)
    }
}

impl<'a> Seek for EndlessReader<'a> {
    fn seek(&mut self, to: SeekFrom) -> io::Result<u64> {
        if let Some(InjectedFault::Fails(kind)) = self.script.seek() {
            return Err(self.fault(kind));
        }
        self.at = match to {
            SeekFrom::Start(at) => at,
            SeekFrom::End(_) => self.length,
            SeekFrom::Current(_) => self.at,
        };
        Ok(self.at)
    }
}

// The letter at an offset: another one 2^32 further on.
fn letter_at(at: u64) -> u8
    ensures { result ≡ 97 + at % 26 }
{
    b'a' + (at % 26) as u8
}

// Writes the letters of a tape starting at `at`.
fn write_from(out: &mut [u8], at: u64) {
    let mut place = at;
    for byte in out {
        *byte = letter_at(place);
        place = place.saturating_add(1);
    }
}

/// Returns `true` if these are the letters of a tape starting at offset `at`.
pub fn stands_at(bytes: &[u8], at: u64) -> bool {
    let mut place = at;
    for byte in bytes {
        if *byte != letter_at(place) {
            return false;
        }
        place = place.saturating_add(1);
    }
    true
}
