//! A sink that passes on whole lines.
ghost use Rattle.std.specs.Prelude.{◌≡◌, ◌+◌, ◌<◌, ◌≤◌, [], Some, length};
ghost use Rattle.std.specs.Io.KnownBytes.{Keeps, append_known};
ghost use Rattle.elf_source.specs.Output.{KeepsPart, nothing_held};
ghost use Rattle.elf_cli.specs.Lines.{AreWholeLines, GivesFront};

use elf_source::{Sink, SinkFault, give};
use std::marker::Model;

/// The byte that ends a line.
const NEWLINE: u8 = b'\n';

/// A sink over another that buffers bytes until the buffer is full. Then the buffered bytes are
/// written up to the end of the last line, or all of them if no line ends in them: so lines that
/// fit the buffer stay whole, and each is written in one piece with those before it. Buffered bytes
/// count as taken.
#[derive(Drop)]
pub struct LineSink<W: Sink> {
    sink: W,
    room: Vec<u8>,
    len: usize,
}

impl<W: Sink> Model for LineSink<W> {
    ghost use Rattle.std.specs.Prelude.{◌-◌, ◌<◌, ◌≤◌, length, take};
    ghost use Rattle.elf_source.specs.Output.{DeferredState};

    ghost Value = { DeferredState };

    ghost view = { λ s. record {
      below = W.taken s.sink;
      held = take s.len s.room.items;
      room = length s.room.items;
      free = length s.room.items - s.len;
      failed = W.failed s.sink;
    } };

    ghost invariant = { λ s. (s.len ≤ length s.room.items) × (0 < length s.room.items) };
}

impl<W: Sink> LineSink<W> {
    /// Creates a sink over `sink` that buffers at most the capacity of `room`, which is not zero,
    /// and is empty.
    pub fn new(sink: W, room: Vec<u8>) -> Self
        requires { 0 < length room.items }
        ensures below { result.below ≡ W.taken sink }
        ensures held { result.held ≡ [] }
        ensures room { result.room ≡ length room.items }
        ensures failed { result.failed ≡ W.failed sink }
    {
        LineSink { sink, room, len: 0 }
    }

    /// Passes on all buffered bytes, as far as the sink below takes them: a prefix of them if that
    /// fails.
    pub fn give_rest(&mut self)
        ensures gives { GivesFront self.old self.new (length self.old.held) }
    {
        let count = self.len;
        self.give_front(count);
    }

    /// Returns the sink below. Buffered bytes are lost.
    pub fn into_inner(self) -> W
        ensures below { W.taken result ≡ self.below }
        ensures failed { W.failed result ≡ self.failed }
    {
        let LineSink { sink, .. } = self;
        sink
    }

    /// Buffers as many of `bytes` as fit, which is at least one.
    fn keep(&mut self, bytes: &[u8]) -> usize
        requires { (0 < length bytes.now) × (0 < self.old.free) }
        ensures failed { self.new.failed ≡ self.old.failed }
        ensures kept { KeepsPart self.old self.new (Some result) bytes.now }
    {
        let count = bytes.len().min(self.room.len() - self.len);
        let end = self.len + count;
        self.room[self.len..end].copy_from_slice(&bytes[..count]);
        self.len = end;
        count
    }

    /// Passes on the first `count` buffered bytes, as far as the sink below takes them. The
    /// remaining bytes move to the start of the buffer.
    fn give_front(&mut self, count: usize)
        requires { count ≤ length self.old.held }
        ensures gives { GivesFront self.old self.new count }
        ensures keeps { Keeps (append_known self.old.below self.old.held)
            (append_known self.new.below self.new.held) }
    {
        let given = give(&mut self.sink, &self.room[..count]);
        self.room.copy_within(given..self.len, 0);
        self.len -= given;
    }
}

impl<W: Sink> Sink for LineSink<W> {
    ghost taken = { λ s. append_known s.below s.held };

    ghost failed = { λ s. s.failed };

    ghost held = { λ _. nothing_held };

    ghost room = { λ _. nothing_held };

    /// Takes some of `bytes`: buffers as many as fit, after the buffered bytes, of which whole
    /// lines are passed on if there is no space left.
    ///
    /// # Errors
    /// `SinkFault` if the sink below fails.
    fn take(&mut self, bytes: &[u8]) -> Result<usize, SinkFault> {
        if self.failed() {
            return Err(SinkFault);
        }
        if self.len == self.room.len() {
            let count = whole_lines(&self.room[..self.len]);
            self.give_front(count);
            if self.failed() {
                return Err(SinkFault);
            }
        }
        Ok(self.keep(bytes))
    }

    fn failed(&self) -> bool {
        self.sink.failed()
    }
}

/// Returns how many of the buffered bytes are passed on: up to the end of the last line, or all if
/// no line ends in them.
fn whole_lines(bytes: &[u8]) -> usize
    ensures within { result ≤ length bytes.now }
    ensures some { 0 < length bytes.now → 0 < result }
    ensures lines { AreWholeLines bytes.now result }
{
    let mut end = bytes.len();
    while end > 0 && bytes[end - 1] != NEWLINE {
        end -= 1;
    }
    if end == 0 { bytes.len() } else { end }
}
