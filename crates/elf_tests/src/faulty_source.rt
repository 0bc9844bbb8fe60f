//! A source that fails.
ghost use Rattle.std.specs.Prelude.{◌≡◌, false};

use elf_source::{Source, SourceFault};

/// A source over bytes in memory that counts what is requested from it, and fails at one of its
/// reads.
#[derive(Drop)]
pub struct FaultySource<'a> {
    /// The bytes that it returns.
    pub bytes: &'a [u8],
    /// The number of the read that fails, counted from 1; 0 if none does.
    pub failing: u32,
    /// Whether that read was made.
    pub has_failed: bool,
    /// How many reads were made.
    pub reads: u32,
    /// How many bytes were requested.
    pub asked: u64,
    /// The size of the largest read in bytes.
    pub largest: usize,
}

impl<'a> FaultySource<'a> {
    /// Creates a source over `bytes` whose read number `failing`, counted from 1, fails. With 0
    /// none does.
    pub fn new(bytes: &'a [u8], failing: u32) -> Self
        ensures bytes { result.bytes.now ≡ bytes.now }
        ensures failing { (result.failing ≡ failing) × (result.has_failed ≡ false) }
        ensures none_yet { (result.reads ≡ 0) × (result.asked ≡ 0) × (result.largest ≡ 0) }
    {
        FaultySource {
            bytes,
            failing,
            has_failed: false,
            reads: 0,
            asked: 0,
            largest: 0,
        }
    }
}

impl<'a> Source for FaultySource<'a> {
    ghost use Rattle.std.specs.Prelude.{⊤, length, if◌then◌else◌};
    ghost use Rattle.elf_source.specs.Source.{unknown};

    ghost seen = { λ s. unknown (length s.bytes.now) (if s.has_failed then 1 else 0) };

    ghost one_read = { λ _ _ _ _. ⊤ };

    fn length(&self) -> u64 {
        self.bytes.len() as u64
    }

    fn fill(&mut self, at: u64, out: &mut [u8]) -> Result<(), SourceFault> {
        self.reads = self.reads.saturating_add(1);
        self.asked = self.asked.saturating_add(out.len() as u64);
        self.largest = self.largest.max(out.len());
        if !self.has_failed && self.reads == self.failing {
            self.has_failed = true;
            return Err(SourceFault::Device);
        }
        let start = at as usize;
        out.copy_from_slice(&self.bytes[start..start + out.len()]);
        Ok(())
    }
}
