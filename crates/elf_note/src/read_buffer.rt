//! A buffer of consecutive bytes of a file.
ghost use Rattle.std.specs.Prelude.{◌≡◌, ℕ, ◌+◌, ◌-◌, ◌^◌, ◌<◌, ◌≤◌, [], length, min, IfErr, OnOk};
ghost use Rattle.elf_model.specs.Bytes.{slice};
ghost use Rattle.elf_note.specs.Ahead.{BringsHeld, LosesAt, OnCredit, StaysOf, reach};

use elf_source::{Counted, Source};
use elf_table::{Fault, fill};
use std::marker::Model;

/// How many bytes past the end of the buffer a byte still counts as the next one.
const NEAR: u64 = 64;

/// A buffer of consecutive bytes of a file: those of the last read. If other bytes are needed it
/// reads again, starting at the first of them. A read takes few bytes; it takes twice those of the
/// read before it, up to the capacity, if that one was useful: if bytes were found in the buffer,
/// or those now needed follow it directly.
#[derive(Drop)]
pub(crate) struct ReadBuffer<const N: usize> {
    at: u64,
    held: u64,
    few: u64,
    span: u64,
    served: bool,
    bytes: [u8; N],
}

impl<const N: usize> Model for ReadBuffer<N> {
    ghost use Rattle.std.specs.Prelude.{◌+◌, ◌^◌, ◌<◌, ◌≤◌, take};
    ghost use Rattle.elf_note.specs.Ahead.{BufferedRange};

    ghost Value = { BufferedRange };

    ghost view = { λ s. record { at = s.at; bytes = take s.held s.bytes } };

    ghost invariant = { λ s. (N ≤ 4096) × (s.few ≤ N) × (s.span ≤ N) × (s.held ≤ N)
        × (s.at + s.held < 2 ^ 64) };
}

impl<const N: usize> ReadBuffer<N> {
    /// Creates an empty buffer. A read of bytes that do not follow the last ones takes `few`.
    pub(crate) fn new(few: u64) -> ReadBuffer<N>
        requires { (few ≤ N) × (N ≤ 4096) }
        ensures { result.bytes ≡ [] }
    {
        ReadBuffer {
            at: 0,
            held: 0,
            few,
            span: few,
            served: false,
            bytes: [0; N],
        }
    }

    /// Fills the buffer so that it holds the `count` bytes at the offset `at`. If it does not hold
    /// them it reads them and more, as far as the capacity and the credit allow, and none at or
    /// past the offset `end`. The bytes that are read are taken from `credit`.
    ///
    /// # Errors
    /// Returns a fault of the read, or the refusal `Budget`, at `at`. Then nothing is held.
    pub(crate) fn fill_buf<S: Source>(
        &mut self,
        src: &mut Counted<S>,
        at: u64,
        count: u64,
        end: u64,
        credit: &mut u64,
    ) -> Result<(), Fault>
        requires few { (count ≤ N) × (count ≤ credit.old) }
        requires inside { (at + count ≤ end) × (end ≤ src.old.seen.size) }
        ensures costs { OnCredit src.old src.new credit.old credit.new result 0 (end - at) }
        ensures loses { IfErr result (LosesAt at self.new) }
        ensures agrees { StaysOf src.old.seen.file self.old self.new }
        ensures brings { OnOk result
            (BringsHeld self.new at count src.old.asked src.new.asked credit.old credit.new) }
    {
        if at >= self.at && at + count <= self.at + self.held {
            self.served = true;
            return Ok(());
        }
        let size = self.next_span(at).max(count).min(end - at).min(*credit);
        self.span = size;
        self.at = at;
        self.held = 0;
        self.served = false;
        *credit -= size;
        fill(src, at, &mut self.bytes[..size as usize])?;
        self.held = size;
        Ok(())
    }

    // Returns the number of bytes that a read at an offset is to take.
    fn next_span(&self, at: u64) -> u64
        ensures { result ≤ N }
    {
        let reach = self.at + self.held;
        let follows = self.held > 0 && at >= reach && at - reach <= NEAR;
        if self.served || follows {
            return (2 * self.span).min(N as u64);
        }
        self.few
    }

    /// Returns the bytes that are held at the offset `at` and after, at most `most`.
    pub(crate) fn part(&self, at: u64, most: u64) -> &[u8]
        requires { (self.now.at ≤ at) × (at ≤ reach self.now) }
        ensures size { length result.now ≡ min most (reach self.now - at) }
        ensures part { result.now
            ≡ slice self.now.bytes (at - self.now.at) (min most (reach self.now - at)) }
    {
        let first = at - self.at;
        let end = first + most.min(self.held - first);
        let bytes = &self.bytes[..];
        &bytes[first as usize..end as usize]
    }
}
