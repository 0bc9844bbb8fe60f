//! A sink that holds lines back until more comes.
ghost use Rattle.std.specs.Prelude.{◌≡◌, ◌-◌, ◌<◌, ◌≤◌, [], false, true, length};
ghost use Rattle.std.specs.Io.KnownBytes.{Keeps, append_known};
ghost use Rattle.elf_source.specs.Output.{FailsOutput, EndsLine, HoldsIf, HoldsLine, KeepsPart};

use crate::faults::{OutFault, SinkFault};
use crate::output::{Out, give};
use crate::sink::Sink;
use std::marker::Model;

/// A sink over another that may hold lines back.
///
/// Held lines count as taken, and the sink below gets them together with the next bytes that are
/// taken. Lines that are still held may be taken back.
#[derive(Drop)]
pub struct DeferredSink<W: Sink> {
    pub(crate) sink: W,
    room: Vec<u8>,
    // The position of the held bytes in the buffer.
    from: usize,
    to: usize,
    broken: bool,
}

/// The number of bytes an output had written before a line that it holds, and with it.
#[derive(Clone, Copy)]
pub struct DeferredLine {
    before: u128,
    start: u128,
}

impl<W: Sink> Model for DeferredSink<W> {
    ghost use Rattle.std.specs.Prelude.{◌≡◌, ◌<◌, ◌≤◌, ◌||◌, drop, length, take, true};
    ghost use Rattle.elf_source.specs.Output.{DeferredState, free_after};

    ghost Value = { DeferredState };

    ghost view = { λ s. record {
      below = W.taken s.sink;
      held = drop s.from (take s.to s.room.items);
      room = length s.room.items;
      free = free_after s.from s.to (length s.room.items);
      failed = s.broken || W.failed s.sink;
    } };

    ghost invariant = { λ s. (s.from ≤ s.to) × (s.to ≤ length s.room.items)
        × (0 < s.from → (s.broken || W.failed s.sink) ≡ true) };
}

impl<W: Sink> DeferredSink<W> {
    /// Creates a sink over `sink` with `room` as its buffer, which holds nothing yet.
    pub fn new(sink: W, room: Vec<u8>) -> Self
        ensures below { result.below ≡ W.taken sink }
        ensures held { result.held ≡ [] }
        ensures room { (result.room ≡ length room.items) × (result.free ≡ length room.items) }
        ensures failed { result.failed ≡ W.failed sink }
    {
        DeferredSink {
            sink,
            room,
            from: 0,
            to: 0,
            broken: false,
        }
    }

    /// Returns the sink below. What is held is lost.
    pub fn into_inner(self) -> W
        ensures below { W.taken result ≡ self.below }
        ensures none { self.room ≡ 0 → self.held ≡ [] }
        ensures failed { W.failed result ≡ true → self.failed ≡ true }
    {
        let DeferredSink { sink, .. } = self;
        sink
    }

    /// Holds a line after what is held, if it and one more byte fit; otherwise changes nothing.
    fn hold(&mut self, line: &[u8]) -> bool
        ensures { HoldsIf result self.old self.new line.now }
    {
        if self.from > 0 || self.room.len() - self.to <= line.len() {
            return false;
        }
        let end = self.to + line.len();
        self.room[self.to..end].copy_from_slice(line);
        self.to = end;
        true
    }

    /// Holds as many of `bytes` as fit; returns None exactly if none fit, or some held bytes were
    /// written.
    fn keep(&mut self, bytes: &[u8]) -> Option<usize>
        requires { 0 < length bytes.now }
        ensures failed { self.new.failed ≡ self.old.failed }
        ensures kept { KeepsPart self.old self.new result bytes.now }
    {
        let count = bytes.len().min(self.room.len() - self.to);
        if self.from > 0 || count == 0 {
            return None;
        }
        let end = self.to + count;
        self.room[self.to..end].copy_from_slice(&bytes[..count]);
        self.to = end;
        Some(count)
    }

    /// Passes what is held to the sink below, as far as it takes it. The whole buffer is free again
    /// if it takes all.
    #[tactic(auto, using(crate::proofs::HoldLaws::Released, crate::proofs::HoldLaws::Released_all))]
    fn release(&mut self)
        ensures keeps { Keeps (append_known self.old.below self.old.held)
            (append_known self.new.below self.new.held) }
        ensures room { self.new.room ≡ self.old.room }
        ensures all { self.new.failed ≡ false →
            (self.new.held ≡ []) × (self.new.free ≡ self.new.room) }
    {
        let held = &self.room[self.from..self.to];
        self.from += give(&mut self.sink, held);
        if self.from == self.to {
            self.from = 0;
            self.to = 0;
        }
    }
}

impl<W: Sink> Sink for DeferredSink<W> {
    ghost taken = { λ s. append_known s.below s.held };

    ghost failed = { λ s. s.failed };

    ghost held = { λ s. length s.held };

    ghost room = { λ s. s.room };

    /// Takes some of `bytes`. If lines are held, they and the bytes that fit after them go to the
    /// sink below in one piece, so that no line is written before a byte after it was taken.
    ///
    /// # Errors
    /// Returns `SinkFault` if the sink below has failed, or this one was made to fail.
    fn take(&mut self, bytes: &[u8]) -> Result<usize, SinkFault> {
        if self.failed() {
            return Err(SinkFault);
        }
        if self.from == self.to {
            return self.sink.take(bytes);
        }
        match self.keep(bytes) {
            Some(count) => {
                self.release();
                Ok(count)
            }
            // Not reached: a held line leaves room for a byte.
            None => {
                self.broken = true;
                Err(SinkFault)
            }
        }
    }

    fn failed(&self) -> bool {
        self.broken || self.sink.failed()
    }
}

impl<W: Sink> Out<DeferredSink<W>> {
    /// Holds a line back, after those that are held. It counts as written.
    ///
    /// # Errors
    /// Returns `OutFault` if the output has failed, or the line and one byte do not fit after the
    /// held lines: then the output fails permanently. Nothing of the line was taken.
    pub fn defer_line(&mut self, line: &[u8]) -> Result<DeferredLine, OutFault>
        ensures { HoldsLine self.old self.new result line.now }
    {
        let before = self.written;
        let start = before.saturating_add(line.len() as u128);
        if self.failed() || start == u128::MAX || !self.sink.hold(line) {
            return Err(self.fail_output());
        }
        self.written = start;
        Ok(DeferredLine { before, start })
    }

    /// Ends a line that was held: it stays if something was written after it, otherwise it is taken
    /// back.
    pub fn end_line(&mut self, line: DeferredLine)
        requires { self.old.written ≡ line.start → line.start - line.before ≤ self.old.held }
        ensures { EndsLine line self.old self.new }
    {
        if self.written == line.start {
            self.sink.to -= line.start.saturating_sub(line.before) as usize;
            self.written = line.before;
        }
    }

    /// Makes the output fail permanently.
    pub fn fail_output(&mut self) -> OutFault
        ensures { FailsOutput self.old self.new result }
    {
        self.sink.broken = true;
        self.fault()
    }
}
