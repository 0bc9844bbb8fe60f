//! A sink over memory of the caller.
ghost use Rattle.std.specs.Prelude.{◌≡◌, ◌∷◌, ◌++◌, ◌≤◌, None, Some, IsSome, IsTrue, length, take};
ghost use Rattle.elf_capi.specs.Lent.{spared};
ghost use Rattle.elf_source.specs.Output.{nothing_held};

use elf_source::{Sink, SinkFault};

/// A sink that writes a slice from its start, and keeps one more byte apart: so it is known if a
/// text has more bytes than the slice. Unlike `elf_source::SliceSink` all of it is visible in
/// contracts, and what it took begins with the ghost name of the slice: so calls that preserve what
/// a sink took, and append to it, are known to preserve the slice too, though their contracts name
/// no sink.
pub(crate) struct ProbeSink<'a> {
    /// The memory.
    pub(crate) buffer: &'a mut [u8],
    /// How many bytes of it are written.
    pub(crate) len: usize,
    /// The byte after the memory, if there was one.
    pub(crate) spare: Option<u8>,
    /// Whether a byte did not fit.
    pub(crate) failed: bool,
    pub(crate) ghost within: { len ≤ length buffer.now },
    pub(crate) ghost full: { IsSome spare → len ≡ length buffer.now },
    pub(crate) ghost over: { IsTrue failed → IsSome spare },
}

impl<'a> ProbeSink<'a> {
    /// Creates a sink with all of `buffer` free.
    pub(crate) fn new(buffer: &'a mut [u8]) -> Self
        ensures same { result.buffer.ghost_name ≡ buffer.entry.ghost_name }
        ensures len { result.len ≡ 0 }
        ensures spare { result.spare ≡ None }
    {
        ProbeSink {
            buffer,
            len: 0,
            spare: None,
            failed: false,
        }
    }
}

impl<'a> Sink for ProbeSink<'a> {
    ghost taken = { λ s.
        Some (s.buffer.ghost_name ∷ (take s.len s.buffer.now ++ spared s.spare)) };

    ghost failed = { λ s. s.failed };

    ghost held = { λ _. nothing_held };

    ghost room = { λ _. nothing_held };

    /// Takes as many of `bytes` as there are bytes free, or one if the memory is full.
    ///
    /// # Errors
    /// `SinkFault` exactly if one byte was taken after the memory.
    fn take(&mut self, bytes: &[u8]) -> Result<usize, SinkFault> {
        if self.spare.is_some() {
            self.failed = true;
            return Err(SinkFault);
        }
        let count = bytes.len().min(self.buffer.len() - self.len);
        if count == 0 {
            self.spare = Some(bytes[0]);
            return Ok(1);
        }
        let end = self.len + count;
        self.buffer[self.len..end].copy_from_slice(&bytes[..count]);
        self.len = end;
        Ok(count)
    }

    fn failed(&self) -> bool {
        self.failed
    }
}
