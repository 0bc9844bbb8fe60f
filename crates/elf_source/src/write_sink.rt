//! A sink over a writer.
ghost use Rattle.std.specs.Prelude.{◌≡◌, ◌<◌, ◌≤◌, false, length, take, IfSome, MatchOption};
ghost use Rattle.std.specs.Io.KnownBytes.{Keeps, Appends};
ghost use Rattle.elf_source.specs.Output.{nothing_held};

use crate::faults::{INTERRUPTED_TURNS, SinkFault};
use crate::sink::Sink;
use std::io::{ErrorKind, Write};
use std::marker::Model;

/// A sink over a writer. Its bytes are known if the writer's are.
#[derive(Drop)]
pub struct WriteSink<W> {
    writer: W,
    failed: bool,
}

impl<W> Model for WriteSink<W> {
    ghost use Rattle.elf_source.specs.Output.{Writing};

    ghost Value = { Writing W };

    ghost view = { λ s. record { writer = s.writer; failed = s.failed } };
}

impl<W: Write> WriteSink<W> {
    /// Creates a sink that writes to `writer`, and hasn't failed.
    pub fn new(writer: W) -> Self
        ensures writer { result.writer ≡ writer }
        ensures failed { result.failed ≡ false }
    {
        WriteSink {
            writer,
            failed: false,
        }
    }

    /// Returns the writer.
    pub fn into_inner(self) -> W
        ensures { result ≡ self.writer }
    {
        let WriteSink { writer, failed: _ } = self;
        writer
    }
}

impl<W: Write> Sink for WriteSink<W> {
    ghost taken = { λ s. W.contents s.writer };

    ghost failed = { λ s. s.failed };

    ghost held = { λ _. nothing_held };

    ghost room = { λ _. nothing_held };

    /// Writes some of `bytes`.
    ///
    /// # Errors
    /// Returns `SinkFault` if the writer takes nothing, fails, or is interrupted 64 times in this
    /// call. After that it isn't written to again.
    fn take(&mut self, bytes: &[u8]) -> Result<usize, SinkFault> {
        if self.failed {
            return Err(SinkFault);
        }
        match write_some(&mut self.writer, bytes) {
            Some(count) => Ok(count),
            None => {
                self.failed = true;
                Err(SinkFault)
            }
        }
    }

    fn failed(&self) -> bool {
        self.failed
    }
}

// Returns the number of bytes that one write took, at least one; None if it failed.
fn write_some<W: Write>(writer: &mut W, bytes: &[u8]) -> Option<usize>
    ensures some { IfSome result (λ count. 0 < count) }
    ensures within { IfSome result (λ count. count ≤ length bytes.now) }
    ensures bytes { MatchOption result (Keeps (W.contents writer.old) (W.contents writer.new))
        (λ count. Appends (W.contents writer.old) (W.contents writer.new) (take count bytes.now)) }
{
    for _turn in 0..INTERRUPTED_TURNS {
        match writer.write(bytes) {
            Ok(0) => return None,
            Ok(count) => return Some(count),
            Err(fault) => {
                if fault.kind() != ErrorKind::Interrupted {
                    return None;
                }
            }
        }
    }
    None
}
