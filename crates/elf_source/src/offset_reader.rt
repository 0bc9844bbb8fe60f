//! A reader over a file of the operating system.
ghost use Rattle.std.specs.Prelude.{◌≡◌, ◌≤◌, pos, length, IfOk};
ghost use Rattle.std.specs.Io.Seek.{SeekMoves};

use crate::faults::ReadAtFault;
use crate::reader::ReadAt;
use crate::seek_reader::why;
use std::io::{Seek, SeekFrom};
use std::os::unix::fs::FileExt;

/// A reader over a file that is read at offsets.
///
/// Each turn is one system call, and only the length is found by a seek. No file of it is known:
/// that it returns what it holds is its user's premise.
#[derive(Drop)]
pub struct FileReader<F> {
    inner: F,
}

impl<F> FileReader<F> {
    /// Creates a reader over `inner`.
    pub fn new(inner: F) -> Self
        ensures { result.inner ≡ inner }
    {
        FileReader { inner }
    }
}

impl<F: FileExt + Seek> ReadAt for FileReader<F> {
    ghost use Rattle.std.specs.Prelude.{None};

    ghost file = { λ _. None };

    /// Nothing is known about which turns the system interrupts.
    ghost interrupted = { λ _. 0 };

    /// A turn changes nothing, at any offset: only the body states what the system call is passed.
    ghost one_turn = { λ before _ _ after. after ≡ before };

    /// Seeks to the end, with the position of the file below.
    fn end(&mut self) -> Result<u64, ReadAtFault>
        ensures moves { let bytes = F.stream_bytes self.old.inner in
            let from = F.stream_position self.old.inner in
            SeekMoves from (F.stream_position self.new.inner) bytes (SeekFrom.End (pos 0)) result }
    {
        self.inner.seek(SeekFrom::End(0)).map_err(why)
    }

    /// Reads at the offset, once.
    fn read_at(&mut self, at: u64, out: &mut [u8]) -> Result<usize, ReadAtFault>
        ensures within { IfOk result (λ count. count ≤ length out.old) }
        ensures same { self.new ≡ self.old }
    {
        self.inner.read_at(out, at).map_err(why)
    }
}
