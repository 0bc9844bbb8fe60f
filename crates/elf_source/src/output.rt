//! An output that counts what its sink took.
ghost use Rattle.std.specs.Prelude.{◌≡◌, ◌^◌, ◌<◌, ◌≤◌, false, length, take, IsTrue};
ghost use Rattle.std.specs.Io.KnownBytes.{Appends};
ghost use Rattle.elf_source.specs.Output.{OutPuts};

use crate::faults::{OutFault, SinkFault};
use crate::sink::Sink;
use std::marker::Model;

/// A sink, and the number of bytes it took.
#[derive(Drop)]
pub struct Out<W: Sink> {
    pub(crate) sink: W,
    pub(crate) written: u128,
    ghost fits: { written < 2 ^ 128 },
}

impl<W: Sink> Model for Out<W> {
    ghost use Rattle.elf_source.specs.Output.{OutState};

    ghost Value = { OutState };

    ghost view = { λ o. record {
      taken = W.taken o.sink;
      written = o.written;
      failed = W.failed o.sink;
      held = W.held o.sink;
      room = W.room o.sink;
      fits = o.fits;
    } };
}

impl<W: Sink> Out<W> {
    /// Creates a counter over `sink`.
    pub fn new(sink: W) -> Self
        ensures taken { result.taken ≡ W.taken sink }
        ensures held { result.held ≡ W.held sink }
        ensures room { result.room ≡ W.room sink }
        ensures failed { result.failed ≡ W.failed sink }
        ensures written { result.written ≡ 0 }
    {
        Out { sink, written: 0 }
    }

    /// Returns the number of bytes the sink took. It stays at 2^128 - 1.
    pub fn written(&self) -> u128
        ensures { result ≡ self.now.written }
    {
        self.written
    }

    /// Returns `true` if the sink has failed.
    pub fn failed(&self) -> bool
        ensures { result ≡ self.now.failed }
    {
        self.sink.failed()
    }

    /// Returns the fault of a sink that has failed.
    pub fn fault(&self) -> OutFault
        ensures { result.written ≡ self.now.written }
    {
        OutFault {
            written: self.written,
        }
    }

    /// Passes `bytes` to the sink, in as many turns as it needs. `written` rises by the number of
    /// bytes that it took.
    ///
    /// # Errors
    /// Returns `OutFault` exactly if the sink has failed when the call ends. It took a prefix of
    /// `bytes`, and the fault has the resulting `written`. Each later call, an empty one too,
    /// returns the same and changes nothing.
    pub fn put(&mut self, bytes: &[u8]) -> Result<(), OutFault>
        ensures puts { OutPuts self.old self.new result bytes.now }
        ensures for_good { IsTrue self.old.failed → self.new ≡ self.old }
    {
        if self.failed() {
            return Err(self.fault());
        }
        let count = give(&mut self.sink, bytes);
        self.written = self.written.saturating_add(count as u128);
        if self.sink.failed() {
            return Err(self.fault());
        }
        Ok(())
    }

    /// Returns the sink.
    pub fn into_inner(self) -> W
        ensures taken { W.taken result ≡ self.taken }
        ensures failed { W.failed result ≡ self.failed }
        ensures room { W.room result ≡ self.room }
    {
        let Out { sink, .. } = self;
        sink
    }
}

/// Passes `bytes` to the sink until it has taken all or fails, and counts those that it took.
#[tactic(auto, using(crate::proofs::Known::Appends_turn))]
pub fn give<W: Sink>(sink: &mut W, bytes: &[u8]) -> usize
    ensures within { result ≤ length bytes.now }
    ensures bytes { Appends (W.taken sink.old) (W.taken sink.new) (take result bytes.now) }
    ensures whole { W.failed sink.new ≡ false → result ≡ length bytes.now }
    ensures still { result ≡ 0 → W.held sink.new ≡ W.held sink.old }
    ensures room { W.room sink.new ≡ W.room sink.old }
{
    let mut done = 0;
    while done < bytes.len() {
        match sink.take(&bytes[done..]) {
            Ok(count) => done += count,
            Err(SinkFault) => return done,
        }
    }
    done
}
