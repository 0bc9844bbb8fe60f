//! A reader that states its file.
ghost use Rattle.std.specs.Prelude.{◌≡◌, IfErr};
ghost use Rattle.elf_source.specs.Reader.{IsTurn};

use elf_source::{ReadAt, ReadAtFault};

/// A reader of bytes in memory that states its file. It returns at most seven bytes per turn, and
/// each third turn is interrupted.
#[derive(Drop)]
pub struct ChunkedReader<'a> {
    bytes: &'a [u8],
    turns: u64,
    interrupted: u64,
}

impl<'a> ChunkedReader<'a> {
    /// Creates a reader of these bytes.
    pub fn new(bytes: &'a [u8]) -> Self
        ensures bytes { result.bytes.now ≡ bytes.now }
        ensures interrupted { result.interrupted ≡ 0 }
    {
        ChunkedReader {
            bytes,
            turns: 0,
            interrupted: 0,
        }
    }

    // Takes a turn, unless it is interrupted.
    fn turn(&mut self) -> Result<(), ReadAtFault>
        ensures bytes { self.new.bytes ≡ self.old.bytes }
        ensures turn { IsTurn self.old.interrupted self.new.interrupted result }
        ensures interrupted { IfErr result (λ fault. fault ≡ ReadAtFault.Interrupted) }
    {
        self.turns = self.turns.saturating_add(1);
        if self.turns % 3 != 0 {
            return Ok(());
        }
        self.interrupted = self.interrupted.saturating_add(1);
        Err(ReadAtFault::Interrupted)
    }
}

impl<'a> ReadAt for ChunkedReader<'a> {
    ghost use Rattle.std.specs.Prelude.{Some};

    ghost file = { λ r. Some r.bytes.now };

    ghost interrupted = { λ r. r.interrupted };

    /// Its bytes stay the same, wherever a turn reads.
    ghost one_turn = { λ before _ _ after. after.bytes ≡ before.bytes };

    fn end(&mut self) -> Result<u64, ReadAtFault> {
        self.turn()?;
        Ok(self.bytes.len() as u64)
    }

    fn read_at(&mut self, at: u64, out: &mut [u8]) -> Result<usize, ReadAtFault> {
        self.turn()?;
        let start = at as usize;
        if start >= self.bytes.len() {
            return Ok(0);
        }
        let count = out.len().min(7).min(self.bytes.len() - start);
        out[..count].copy_from_slice(&self.bytes[start..start + count]);
        Ok(count)
    }
}
