//! A sink over bytes in memory.
ghost use Rattle.std.specs.Prelude.{◌≡◌, ◌-◌, ◌<◌, ◌≤◌, ◌↔◌, false, [], Some, min, length, is_err, IsTrue, IsErr, IfOk};
ghost use Rattle.std.specs.Io.KnownBytes.{WriteAppends};
ghost use Rattle.elf_source.specs.Output.{nothing_held};

use crate::faults::SinkFault;
use crate::sink::Sink;
use std::marker::Model;

/// A sink that writes a slice from its start, and knows its bytes.
#[derive(Drop)]
pub struct SliceSink<'a> {
    buffer: &'a mut [u8],
    len: usize,
    failed: bool,
}

impl<'a> Model for SliceSink<'a> {
    ghost use Rattle.std.specs.Prelude.{◌≡◌, ◌-◌, ◌≤◌, IsTrue, length, take};
    ghost use Rattle.elf_source.specs.Output.{FrontSlice};

    ghost Value = { FrontSlice };

    ghost view = { λ s. record {
      written = take s.len s.buffer.now;
      free = length s.buffer.now - s.len;
      failed = s.failed;
    } };

    ghost invariant = { λ s. (s.len ≤ length s.buffer.now)
        × (IsTrue s.failed → s.len ≡ length s.buffer.now) };
}

impl<'a> SliceSink<'a> {
    /// Creates a sink with all of `buffer` free.
    pub fn new(buffer: &'a mut [u8]) -> Self
        ensures written { result.written ≡ [] }
        ensures free { result.free ≡ length buffer.old }
        ensures failed { result.failed ≡ false }
    {
        SliceSink {
            buffer,
            len: 0,
            failed: false,
        }
    }

    /// Returns the bytes taken so far.
    pub fn written(&self) -> &[u8]
        ensures { result.now ≡ self.now.written }
    {
        &self.buffer[..self.len]
    }
}

impl<'a> Sink for SliceSink<'a> {
    ghost taken = { λ s. Some s.written };

    ghost failed = { λ s. s.failed };

    ghost held = { λ _. nothing_held };

    ghost room = { λ _. nothing_held };

    /// Takes as many of `bytes` as fit.
    ///
    /// # Errors
    /// Returns `SinkFault` exactly if no byte is free.
    fn take(&mut self, bytes: &[u8]) -> Result<usize, SinkFault>
        requires { 0 < length bytes.now }
        ensures some { IfOk result (λ count. 0 < count) }
        ensures within { IfOk result (λ count. count ≤ length bytes.now) }
        ensures bytes { WriteAppends
            (Some self.old.written) (Some self.new.written) result bytes.now }
        ensures fails { IsErr result → IsTrue self.new.failed }
        ensures still { IsErr result → nothing_held ≡ nothing_held }
        ensures room { nothing_held ≡ nothing_held }
        ensures for_good { IsTrue self.old.failed → IsErr result }
        ensures tells { self.new.failed ≡ is_err result }
        ensures full { IsErr result ↔ (self.old.free ≡ 0) }
        ensures most { IfOk result (λ count. count ≡ min self.old.free (length bytes.now)) }
        ensures left { self.new.free ≡ self.old.free - length bytes.now }
    {
        let count = bytes.len().min(self.buffer.len() - self.len);
        if count == 0 {
            self.failed = true;
            return Err(SinkFault);
        }
        let end = self.len + count;
        self.buffer[self.len..end].copy_from_slice(&bytes[..count]);
        self.len = end;
        Ok(count)
    }

    fn failed(&self) -> bool {
        self.failed
    }
}
