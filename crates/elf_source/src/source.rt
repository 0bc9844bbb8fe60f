//! The promises of a source of bytes.
ghost use Rattle.std.specs.Prelude.{◌≡◌, ℕ, ◌+◌, ◌^◌, ◌<◌, ◌≤◌, List, length, take, drop, Some, IfErr, OnOk};
ghost use Rattle.elf_source.specs.Source.{SourceState, KeepsSource, IsSourceFault};

use crate::faults::SourceFault;

/// Bytes that are read at an offset. Its length never changes.
///
/// If its file is known, each read that returns Ok has filled its buffer with the slice of that
/// file, and none changes the file. A source with a known file is honest as long as fewer than 2^64
/// - 1 of its reads failed: none returns `Ended`. If no file is known, nothing is known of what its
/// reads return.
pub trait Source {
    /// Its state: its size, how many of its reads failed, and its file if known.
    ghost seen: { Self → SourceState };

    /// One read at an offset, of the given number of bytes, leads from the state before it to the
    /// state after it.
    ghost one_read: { SourceState → ℕ → ℕ → SourceState → Type 0 };

    /// Returns the length in bytes.
    fn length(&self) -> u64
        ensures value { result ≡ (seen self.now).size }
        ensures fits { (seen self.now).size < 2 ^ 64 };

    /// Fills `out` with the bytes at offset `at`, all within the length.
    ///
    /// # Errors
    /// - `Device` only if the count of failures rose.
    /// - `Ended` only from a source that isn't honest.
    ///
    /// After either the contents of `out` are unspecified, and the source may be read again.
    fn fill(&mut self, at: u64, out: &mut [u8]) -> Result<(), SourceFault>
        requires { at + length out.old ≤ (seen self.old).size }
        ensures slice { (file : List ℕ) → (seen self.old).file ≡ Some file → OnOk result
            (out.new ≡ take (length out.old) (drop at file)) }
        ensures faults { IfErr result (IsSourceFault (seen self.old) (seen self.new)) }
        ensures keeps { KeepsSource (seen self.old) (seen self.new) }
        ensures once { one_read (seen self.old) at (length out.old) (seen self.new) };
}
