//! A sink that keeps nothing.
ghost use Rattle.std.specs.Prelude.{◌≡◌, false, None, Ok, length};
ghost use Rattle.elf_source.specs.Output.{nothing_held};

use crate::faults::SinkFault;
use crate::sink::Sink;

/// A sink that takes all bytes and keeps none, for a call of which only the result is needed. It
/// never fails.
#[derive(Clone, Copy)]
pub struct NullSink;

impl Sink for NullSink {
    ghost taken = { λ _. None };

    ghost failed = { λ _. false };

    ghost held = { λ _. nothing_held };

    ghost room = { λ _. nothing_held };

    /// Takes all of `bytes`.
    fn take(&mut self, bytes: &[u8]) -> Result<usize, SinkFault> {
        Ok(bytes.len())
    }

    fn failed(&self) -> bool {
        false
    }
}
