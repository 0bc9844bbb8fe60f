//! A source over bytes in memory.
use crate::faults::SourceFault;
use crate::source::Source;
use std::marker::Model;

/// A source over a slice. It is honest, and never fails.
#[derive(Drop)]
pub struct MemorySource<'a> {
    bytes: &'a [u8],
}

impl<'a> Model for MemorySource<'a> {
    ghost use Rattle.std.specs.Prelude.{List, ℕ};

    ghost Value = { List ℕ };

    ghost view = { λ s. s.bytes.now };
}

impl<'a> MemorySource<'a> {
    ghost use Rattle.std.specs.Prelude.{◌≡◌};

    /// Creates a source whose file is `bytes`.
    pub fn new(bytes: &'a [u8]) -> Self
        ensures { result ≡ bytes.now }
    {
        MemorySource { bytes }
    }
}

impl<'a> Source for MemorySource<'a> {
    ghost use Rattle.std.specs.Prelude.{◌≡◌};
    ghost use Rattle.elf_source.specs.Source.{honest};

    ghost seen = { honest };

    ghost one_read = { λ before _ _ after. after ≡ before };

    fn length(&self) -> u64 {
        self.bytes.len() as u64
    }

    fn fill(&mut self, at: u64, out: &mut [u8]) -> Result<(), SourceFault> {
        let start = at as usize;
        out.copy_from_slice(&self.bytes[start..start + out.len()]);
        Ok(())
    }
}
