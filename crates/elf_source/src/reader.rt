//! The promises of a reader below a stream.
ghost use Rattle.std.specs.Prelude.{◌≡◌, ℕ, ◌≤◌, List, Option, Some, length, IfOk};
ghost use Rattle.elf_source.specs.Reader.{IsTurn, GivesFileBytes};

use crate::faults::ReadAtFault;

/// Bytes that are read at an offset, in turns. A turn may return fewer bytes than requested, and
/// may be interrupted.
///
/// A reader in memory knows its file, and each turn returns the bytes of that file. A reader of the
/// operating system knows none.
pub trait ReadAt {
    /// Its file, if known.
    ghost file: { Self → Option (List ℕ) };

    /// How many of its turns were interrupted.
    ghost interrupted: { Self → ℕ };

    /// One turn at an offset, into a buffer of the given size, leads from its state before to its
    /// state after.
    ghost one_turn: { Self → ℕ → ℕ → Self → Type 0 };

    /// Returns the length in bytes.
    ///
    /// # Errors
    /// Returns an error if the turn was interrupted, or the device failed.
    fn end(&mut self) -> Result<u64, ReadAtFault>
        ensures same { file self.new ≡ file self.old }
        ensures turn { IsTurn (interrupted self.old) (interrupted self.new) result }
        ensures value { (bytes : List ℕ) → file self.old ≡ Some bytes → IfOk result
            (λ size. size ≡ length bytes) };

    /// Reads some bytes at offset `at` into the start of `out`, and returns their number. It is 0
    /// at the end, or if `out` is empty.
    ///
    /// # Errors
    /// Returns an error if the turn was interrupted, or the device failed.
    fn read_at(&mut self, at: u64, out: &mut [u8]) -> Result<usize, ReadAtFault>
        ensures same { file self.new ≡ file self.old }
        ensures turn { IsTurn (interrupted self.old) (interrupted self.new) result }
        ensures once { one_turn self.old at (length out.old) self.new }
        ensures within { IfOk result (λ count. count ≤ length out.old) }
        ensures gives { (bytes : List ℕ) → file self.old ≡ Some bytes → IfOk result
            (GivesFileBytes bytes at out.new) };
}
