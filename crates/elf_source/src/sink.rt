//! The promises of a sink of bytes.
ghost use Rattle.std.specs.Prelude.{◌≡◌, ℕ, ◌<◌, ◌≤◌, Bool, List, Option, length, IsTrue, IsErr, IfOk};
ghost use Rattle.std.specs.Io.KnownBytes.{WriteAppends};

use crate::faults::SinkFault;

/// Takes bytes in order, until it fails permanently.
pub trait Sink {
    /// The bytes taken so far, if the writer below knows them.
    ghost taken: { Self → Option (List ℕ) };

    /// The sink has failed.
    ghost failed: { Self → Bool };

    /// How many of the bytes taken last are held back.
    ghost held: { Self → ℕ };

    /// How many bytes can be held back.
    ghost room: { Self → ℕ };

    /// Takes some of `bytes`, which aren't empty: the first `count` of them at `Ok(count)`.
    ///
    /// The sink may have failed after them, so that no later call takes any.
    ///
    /// # Errors
    /// Returns `SinkFault` if the sink fails or failed before. Then nothing is taken, by this call
    /// or a later one, and as many bytes are held back as before.
    fn take(&mut self, bytes: &[u8]) -> Result<usize, SinkFault>
        requires { 0 < length bytes.now }
        ensures some { IfOk result (λ count. 0 < count) }
        ensures within { IfOk result (λ count. count ≤ length bytes.now) }
        ensures bytes { WriteAppends (taken self.old) (taken self.new) result bytes.now }
        ensures fails { IsErr result → IsTrue (failed self.new) }
        ensures still { IsErr result → held self.new ≡ held self.old }
        ensures room { room self.new ≡ room self.old }
        ensures for_good { IsTrue (failed self.old) → IsErr result };

    /// Returns `true` if the sink has failed.
    fn failed(&self) -> bool
        ensures { result ≡ failed self.now };
}
