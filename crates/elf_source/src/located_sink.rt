//! A sink that writes objects with their locations.
ghost use Rattle.std.specs.Prelude.{◌≡◌, ℕ, ◌<◌, ◌≤◌, None, Some, false, length, get_or, take, IfOk, IsErr, IsTrue};
ghost use Rattle.std.specs.Io.KnownBytes.{Appends};
ghost use Rattle.elf_model.specs.Located.{line_start, location_text};
ghost use Rattle.elf_source.specs.Located.{AddsLocation, IsPartOfLine, HasNoNewline, LocationBuffer, LocatesNext, file_location, known_below, letter_after, row_location};
ghost use Rattle.elf_source.specs.Output.{nothing_held};

use crate::faults::SinkFault;
use crate::holding_sink::DeferredSink;
use crate::location_buffer::LocationText;
use crate::output::{Out, give};
use crate::row_sink::RowSink;
use crate::sink::Sink;
use memchr::memchr;
use std::marker::Model;

/// The position of an object's letter, and that of the byte after the letter's member.
const LETTER_AT: usize = 9;

const LETTER_END: usize = 11;

/// A sink over another, which inserts the location of a row in each object, right after its letter,
/// if it was created with a buffer; otherwise it passes bytes on as they are.
#[derive(Drop)]
pub struct LocatedSink<W: Sink> {
    sink: W,
    buffer: Option<LocationText>,
    place: usize,
    letter: u8,
}

impl<W: Sink> Model for LocatedSink<W> {
    ghost use Rattle.std.specs.Prelude.{◌≤◌};
    ghost use Rattle.elf_source.specs.Located.{LocatedState};

    ghost Value = { LocatedState };

    ghost view = { λ s. record {
      below = W.taken s.sink;
      failed = W.failed s.sink;
      buffer = s.buffer;
      position = record { place = s.place; letter = s.letter };
    } };

    ghost invariant = { λ s. s.place ≤ 12 };
}

impl<W: Sink> LocatedSink<W> {
    /// Creates a sink over `sink` that passes bytes on as they are.
    pub fn plain(sink: W) -> Self
        ensures below { result.below ≡ W.taken sink }
        ensures failed { result.failed ≡ W.failed sink }
        ensures buffer { result.buffer ≡ None }
    {
        LocatedSink {
            sink,
            buffer: None,
            place: 0,
            letter: 0,
        }
    }

    /// Creates a sink over `sink` that inserts locations of at most the capacity of `room`; there is
    /// none yet.
    pub fn new(sink: W, room: Vec<u8>) -> Self
        ensures below { result.below ≡ W.taken sink }
        ensures failed { result.failed ≡ W.failed sink }
        ensures position { result.position ≡ line_start }
    {
        LocatedSink {
            sink,
            buffer: Some(LocationText::new(room)),
            place: 0,
            letter: 0,
        }
    }

    /// Returns the sink below.
    pub fn into_inner(self) -> W
        ensures below { W.taken result ≡ self.below }
        ensures failed { W.failed result ≡ self.failed }
    {
        let LocatedSink { sink, .. } = self;
        sink
    }

    /// Passes on some bytes of an object up to the end of its letter's member.
    ///
    /// # Errors
    /// `SinkFault` if the sink below fails.
    #[inline(always)]
    fn take_letter(&mut self, bytes: &[u8]) -> Result<usize, SinkFault>
        requires some { 0 < length bytes.now }
        requires place { self.old.position.place < 11 }
        ensures some { IfOk result (λ count. (0 < count) × (count ≤ length bytes.now)) }
        ensures fails { IsErr result → IsTrue self.new.failed }
        ensures for_good { IsTrue self.old.failed → IsErr result }
        ensures keeps { self.new.buffer ≡ self.old.buffer }
        ensures adds { (buffer : LocationBuffer) →
            IfOk result (λ count. AddsLocation buffer self.old self.new (take count bytes.now)) }
    {
        let most = bytes.len().min(LETTER_END - self.place);
        let count = self.sink.take(&bytes[..most])?;
        self.letter = self.letter_after(bytes, count);
        self.place += count;
        Ok(count)
    }

    /// Returns the letter of an object after the first `count` of some bytes of it.
    #[inline(always)]
    fn letter_after(&self, bytes: &[u8], count: usize) -> u8
        requires { count ≤ length bytes.now }
        ensures { result ≡ letter_after self.now.position bytes.now count }
    {
        if self.place <= LETTER_AT && LETTER_AT - self.place < count {
            return bytes[LETTER_AT - self.place];
        }
        self.letter
    }

    /// Inserts the location of an object after its letter's member, as far as the sink below takes
    /// it.
    #[inline(always)]
    fn insert(&mut self)
        requires { self.old.position.place ≡ 11 }
        ensures keeps { self.new.buffer ≡ self.old.buffer }
        ensures position { self.new.position
            ≡ record { place = 12; letter = self.old.position.letter } }
        ensures appends { (buffer : LocationBuffer) → self.old.buffer ≡ Some buffer →
            self.new.failed ≡ false → Appends self.old.below self.new.below
            (location_text buffer.location self.old.position.letter) }
    {
        if let Some(buffer) = &self.buffer {
            give(&mut self.sink, buffer.text(self.letter));
        }
        self.place = LETTER_END + 1;
    }

    /// Passes on some bytes after that, up to the end of the line.
    ///
    /// # Errors
    /// `SinkFault` if the sink below fails.
    #[inline(always)]
    fn take_rest(&mut self, bytes: &[u8]) -> Result<usize, SinkFault>
        requires some { 0 < length bytes.now }
        requires place { self.old.position.place ≡ 12 }
        ensures some { IfOk result (λ count. (0 < count) × (count ≤ length bytes.now)) }
        ensures fails { IsErr result → IsTrue self.new.failed }
        ensures for_good { IsTrue self.old.failed → IsErr result }
        ensures keeps { self.new.buffer ≡ self.old.buffer }
        ensures adds { (buffer : LocationBuffer) →
            IfOk result (λ count. AddsLocation buffer self.old self.new (take count bytes.now)) }
    {
        let end = line_end(bytes);
        let count = self.sink.take(&bytes[..end])?;
        if bytes[count - 1] == b'\n' {
            self.place = 0;
        }
        Ok(count)
    }

    /// Passes on some bytes after the letter's member, up to the end of the line; before the first of
    /// them the location is inserted.
    ///
    /// # Errors
    /// `SinkFault` if the sink below fails.
    #[inline(always)]
    fn take_after(&mut self, bytes: &[u8]) -> Result<usize, SinkFault>
        requires some { 0 < length bytes.now }
        requires place { 11 ≤ self.old.position.place }
        ensures some { IfOk result (λ count. (0 < count) × (count ≤ length bytes.now)) }
        ensures fails { IsErr result → IsTrue self.new.failed }
        ensures for_good { IsTrue self.old.failed → IsErr result }
        ensures keeps { self.new.buffer ≡ self.old.buffer }
        ensures adds { (buffer : LocationBuffer) → self.old.buffer ≡ Some buffer →
            IfOk result (λ count. AddsLocation buffer self.old self.new (take count bytes.now)) }
    {
        if self.place == LETTER_END {
            return self.take_first(bytes);
        }
        self.take_rest(bytes)
    }

    /// Inserts the location, and passes on some bytes after it, up to the end of the line.
    ///
    /// # Errors
    /// `SinkFault` if the sink below fails.
    #[inline(always)]
    fn take_first(&mut self, bytes: &[u8]) -> Result<usize, SinkFault>
        requires some { 0 < length bytes.now }
        requires place { self.old.position.place ≡ 11 }
        ensures some { IfOk result (λ count. (0 < count) × (count ≤ length bytes.now)) }
        ensures fails { IsErr result → IsTrue self.new.failed }
        ensures for_good { IsTrue self.old.failed → IsErr result }
        ensures keeps { self.new.buffer ≡ self.old.buffer }
        ensures adds { (buffer : LocationBuffer) → self.old.buffer ≡ Some buffer →
            IfOk result (λ count. AddsLocation buffer self.old self.new (take count bytes.now)) }
    {
        if self.failed() {
            return Err(SinkFault);
        }
        self.insert();
        self.take_rest(bytes)
    }

    /// Takes some of `bytes` and inserts locations: at most those of one line.
    ///
    /// # Errors
    /// `SinkFault` if the sink below fails.
    fn add(&mut self, bytes: &[u8]) -> Result<usize, SinkFault>
        requires { 0 < length bytes.now }
        ensures some { IfOk result (λ count. (0 < count) × (count ≤ length bytes.now)) }
        ensures fails { IsErr result → IsTrue self.new.failed }
        ensures for_good { IsTrue self.old.failed → IsErr result }
        ensures keeps { self.new.buffer ≡ self.old.buffer }
        ensures adds { (buffer : LocationBuffer) → self.old.buffer ≡ Some buffer →
            self.new.failed ≡ false →
            IfOk result (λ count. AddsLocation buffer self.old self.new (take count bytes.now)) }
    {
        if self.place >= LETTER_END {
            return self.take_after(bytes);
        }
        let count = self.take_letter(bytes)?;
        if count == bytes.len() || self.place < LETTER_END {
            return Ok(count);
        }
        match self.take_after(&bytes[count..]) {
            Ok(more) => Ok(count + more),
            Err(SinkFault) => Ok(count),
        }
    }

    /// Sets the location of the rows of a file, if objects have one.
    fn locate_file(&mut self, text: &[u8])
        ensures { LocatesNext self.old self.new (λ buffer. file_location buffer.room text.now) }
    {
        if let Some(buffer) = &mut self.buffer {
            buffer.set_file(text);
        }
    }

    /// Sets the location of the rows of a member of that file, if objects have one.
    fn set_member(&mut self, text: &[u8])
        ensures { LocatesNext self.old self.new
            (λ buffer. row_location buffer.room buffer.location.file text.now) }
    {
        if let Some(buffer) = &mut self.buffer {
            buffer.set_member(text);
        }
    }
}

impl<W: Sink> Sink for LocatedSink<W> {
    ghost taken = { known_below };

    ghost failed = { λ s. s.failed };

    ghost held = { λ _. nothing_held };

    ghost room = { λ _. nothing_held };

    /// Takes some of `bytes`: at most those of one line if locations are inserted.
    ///
    /// # Errors
    /// `SinkFault` if the sink below fails.
    fn take(&mut self, bytes: &[u8]) -> Result<usize, SinkFault> {
        if self.buffer.is_some() {
            self.add(bytes)
        } else {
            self.sink.take(bytes)
        }
    }

    fn failed(&self) -> bool {
        self.sink.failed()
    }
}

impl<W: Sink> RowSink for LocatedSink<W> {
    fn adds_location(&self) -> bool {
        self.buffer.is_some()
    }

    fn locate_member(&mut self, text: &[u8]) {
        self.set_member(text);
    }
}

impl<W: Sink> DeferredSink<LocatedSink<W>> {
    /// Sets the location of the rows of a file, if objects have one.
    fn locate_file(&mut self, text: &[u8])
        ensures { self.new ≡ self.old }
    {
        self.sink.locate_file(text);
    }
}

impl<W: Sink> Out<DeferredSink<LocatedSink<W>>> {
    /// Sets the location of the rows of a file that are written from now on, if objects have one:
    /// text that is inserted in each, except in those of the letters `@` and `C`.
    pub fn locate_file(&mut self, text: &[u8])
        ensures { self.new ≡ self.old }
    {
        self.sink.locate_file(text);
    }
}

/// Returns the length of the line at the beginning of some bytes, with its newline; or of all bytes
/// if no line ends in them.
#[inline(always)]
fn line_end(bytes: &[u8]) -> usize
    requires { 0 < length bytes.now }
    ensures within { (0 < result) × (result ≤ length bytes.now) }
    ensures one { IsPartOfLine bytes.now result }
{
    if has_no_newline(&bytes[..bytes.len() - 1]) {
        return bytes.len();
    }
    match memchr(b'\n', bytes) {
        Some(at) => at + 1,
        None => bytes.len(),
    }
}

/// Returns `true` if no byte is a newline, of at least 64; of fewer it need not.
#[inline(always)]
fn has_no_newline(bytes: &[u8]) -> bool
    ensures { IsTrue result → HasNoNewline bytes.now }
{
    let count = front_without_newline(bytes);
    match bytes.last_chunk::<64>() {
        Some(last) if bytes.len() - count < 64 && has_none(last) => true,
        _ => false,
    }
}

/// Returns the number of bytes at the start that are no newlines, in whole pieces of 64.
#[inline(always)]
fn front_without_newline(bytes: &[u8]) -> usize
    ensures within { result ≤ length bytes.now }
    ensures none { (k : ℕ) → k < result → get_or bytes.now k 0 ≡ 10 → ⊥ }
{
    let mut count = 0;
    while let Some(piece) = bytes[count..].first_chunk::<64>() {
        if !has_none(piece) {
            break;
        }
        count += 64;
    }
    count
}

/// Returns `true` if none of 64 bytes is a newline. Each is tested, so that the compiler can test all
/// of them at once.
#[inline(always)]
fn has_none(piece: &[u8; 64]) -> bool
    ensures { (k : ℕ) → IsTrue result → k < 64 → get_or piece.now k 0 ≡ 10 → ⊥ }
{
    let mut none = true;
    for byte in piece {
        none &= *byte != b'\n';
    }
    none
}
