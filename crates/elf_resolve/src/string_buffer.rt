//! The tables of a file, read whole.
ghost use Rattle.std.specs.Prelude.{◌≡◌, ◌+◌, ◌<◌, ◌≤◌, ◌==◌, ◌^◌, ◌++◌, IfOk, IfSome, IsOk, IsSome, IsTrue, List, [], ◌∷◌, ℕ, Some, drop, length, slice_index, take, vec_capacity};
ghost use Rattle.elf_model.specs.Bytes.{slice};
ghost use Rattle.elf_model.specs.LinkSymbols.{AT};
ghost use Rattle.elf_source.specs.Prelude.{KeepsSource};
ghost use Rattle.elf_resolve.specs.StringBuffers.{ExtendsBy, FindsText, HoldsText, JoinsTexts, KeptTexts, ReadsAll, ReadsText, SplitsName};

use crate::link_faults::{LinkFault, file_refused, refused};
use elf_model::LinkCause;
use elf_record::Cause;
use elf_source::{Counted, READ_BYTES, Source};
use elf_table::{fill, find_nul};
use memchr::memchr;
use std::alloc::{AllocError, Global};
use std::marker::Model;

/// A table, or a name, in a buffer.
#[derive(Clone, Copy)]
pub(crate) struct HeldText {
    /// The index of its first byte.
    pub start: usize,
    /// How many bytes it has.
    pub size: usize,
}

/// An empty text.
pub(crate) const NO_TEXT: HeldText = HeldText { start: 0, size: 0 };

/// The tables of one file, one after the other, in memory that is allocated once.
#[derive(Drop)]
pub(crate) struct StringBuffer {
    bytes: Vec<u8>,
    most: usize,
}

impl Model for StringBuffer {
    ghost use Rattle.std.specs.Prelude.{◌≤◌, length, vec_capacity};
    ghost use Rattle.elf_resolve.specs.StringBuffers.{TableTexts};

    ghost Value = { TableTexts };

    ghost view = { λ b. record { bytes = b.bytes.items; most = b.most } };

    ghost invariant = { λ b.
        (length b.bytes.items ≤ b.most) × (b.most ≤ vec_capacity b.bytes) };
}

impl StringBuffer {
    /// Creates a buffer of at most `size` bytes.
    ///
    /// # Errors
    /// Out of memory.
    pub(crate) fn new(alloc: Global, size: u32) -> Result<StringBuffer, AllocError>
        ensures { IfOk result (λ made. made ≡ record { bytes = []; most = size }) }
    {
        let most = size as usize;
        let bytes = Vec::with_capacity(alloc, most)?;
        Ok(StringBuffer { bytes, most })
    }

    /// Returns how many bytes have tables.
    pub(crate) fn used(&self) -> usize
        ensures { result ≡ length self.now.bytes }
    {
        self.bytes.len()
    }

    /// Forgets the tables after the first `used` bytes.
    pub(crate) fn forget_after(&mut self, used: usize)
        ensures { self.new ≡ record self.old { bytes = take used self.old.bytes } }
    {
        self.bytes.truncate(used);
    }

    /// Reads `size` bytes at a file offset, each once.
    ///
    /// # Errors
    /// `TooManyKeys` at `place` if there is no room for them; those of [`read_all`].
    pub(crate) fn read<S: Source>(
        &mut self,
        src: &mut Counted<S>,
        at: u64,
        size: u64,
        place: u64,
    ) -> Result<HeldText, LinkFault>
        ensures keeps { KeepsSource src.old.seen src.new.seen }
        ensures most { src.new.most ≡ src.old.most }
        ensures stays { KeptTexts self.old self.new }
        ensures reads { (file : List ℕ) → src.old.seen.file ≡ Some file →
            ReadsText file at size self.old self.new result }
        ensures empty { size ≡ 0 → IsOk result }
    {
        let start = self.bytes.len();
        let Some(end) = end_within(start, size, self.most) else {
            return refused(place, LinkCause::TooManyKeys);
        };
        self.bytes.resize(end, 0).unwrap();
        read_all(src, at, &mut self.bytes[start..end])?;
        Ok(HeldText {
            start,
            size: end - start,
        })
    }

    /// Returns the bytes of a text; none if it is not in the buffer.
    pub(crate) fn bytes(&self, text: HeldText) -> &[u8]
        ensures { (is : List ℕ) → HoldsText self.now.bytes text is → result.now ≡ is }
    {
        part_of(&self.bytes, text.start, text.size)
    }

    /// Returns the name at an index of a table (gABI 4, String Table). An empty table has the empty
    /// name at index 0.
    ///
    /// # Errors
    /// Refused at `at`: `NameOutside` if the index is not below the table's size, `NameUnended` if
    /// the table ends before the name.
    pub(crate) fn name(&self, table: HeldText, index: u64, at: u64) -> Result<HeldText, LinkFault>
        ensures { (strings : List ℕ) → HoldsText self.now.bytes table strings →
            FindsText self.now.bytes strings index at result }
    {
        if table.size == 0 && index == 0 {
            return Ok(NO_TEXT);
        }
        let index = index as usize;
        let rest = after(self.bytes(table), index);
        if rest.is_empty() {
            return file_refused(at, Cause::NameOutside);
        }
        match find_nul(rest) {
            Some(size) => Ok(HeldText {
                start: table.start.saturating_add(index),
                size,
            }),
            None => file_refused(at, Cause::NameUnended),
        }
    }

    /// Appends a name, `@` and a version, and returns the text.
    ///
    /// # Errors
    /// `TooManyKeys` at `at` if there is no room for it.
    pub(crate) fn join(
        &mut self,
        name: HeldText,
        version: HeldText,
        at: u64,
    ) -> Result<HeldText, LinkFault>
        ensures stays { KeptTexts self.old self.new }
        ensures joins { (first second : List ℕ) → HoldsText self.old.bytes name first →
            HoldsText self.old.bytes version second →
            JoinsTexts self.old self.new first second result }
    {
        let start = self.bytes.len();
        let size = name.size.saturating_add(1).saturating_add(version.size);
        if size > self.most.saturating_sub(start) {
            return refused(at, LinkCause::TooManyKeys);
        }
        append_part(&mut self.bytes, name);
        append_sign(&mut self.bytes);
        append_part(&mut self.bytes, version);
        Ok(HeldText { start, size })
    }
}

/// Appends a text that is in the same bytes; nothing if it is not.
fn append_part(bytes: &mut Vec<u8>, text: HeldText)
    requires room { length bytes.old.items + text.size ≤ vec_capacity bytes.old }
    ensures capacity { vec_capacity bytes.old ≤ vec_capacity bytes.new }
    ensures stays { ExtendsBy text.size bytes.old.items bytes.new.items }
    ensures appends { (is : List ℕ) → HoldsText bytes.old.items text is →
        bytes.new.items ≡ bytes.old.items ++ is }
{
    let used = bytes.len();
    if text.start > used || text.size > used - text.start {
        return;
    }
    bytes
        .extend_from_within(text.start..text.start + text.size)
        .unwrap();
}

/// Appends the sign of a version.
fn append_sign(bytes: &mut Vec<u8>)
    requires room { length bytes.old.items < vec_capacity bytes.old }
    ensures capacity { vec_capacity bytes.old ≤ vec_capacity bytes.new }
    ensures appends { bytes.new.items ≡ bytes.old.items ++ AT ∷ [] }
{
    bytes.push(b'@').unwrap();
}

/// Returns the index after `size` bytes from an index on, if there are so many of `most`.
fn end_within(start: usize, size: u64, most: usize) -> Option<usize>
    ensures end { IfSome result (λ end. (end ≡ start + size) × (end ≤ most)) }
    ensures empty { start ≤ most → size ≡ 0 → IsSome result }
{
    if start > most || size > (most - start) as u64 {
        return None;
    }
    Some(start + size as usize)
}

/// Returns `size` bytes from an index on; none if there are fewer.
pub(crate) fn part_of(bytes: &[u8], start: usize, size: usize) -> &[u8]
    ensures held { start + size ≤ length bytes.now → result.now ≡ slice bytes.now start size }
    ensures none { length bytes.now < start + size → result.now ≡ [] }
    ensures fits { length bytes.now < 2 ^ 64 }
{
    let used = bytes.len();
    if start > used || size > used - start {
        return b"";
    }
    &bytes[start..start + size]
}

/// Returns the bytes from an index on; none past the end.
pub(crate) fn after(bytes: &[u8], start: usize) -> &[u8]
    ensures { result.now ≡ drop start bytes.now }
{
    match bytes.split_at_checked(start) {
        Some((_, rest)) => rest,
        None => b"",
    }
}

/// Fills `out` with the bytes at a file offset, in reads of at most 4,096 bytes.
///
/// # Errors
/// `TableOutside` at a read that is not within the file; otherwise a read fault, or a refusal for
/// lack of budget, at its offset.
pub(crate) fn read_all<S: Source>(
    src: &mut Counted<S>,
    at: u64,
    out: &mut [u8],
) -> Result<(), LinkFault>
    ensures keeps { KeepsSource src.old.seen src.new.seen }
    ensures most { src.new.most ≡ src.old.most }
    ensures reads { (file : List ℕ) → src.old.seen.file ≡ Some file →
        ReadsAll file at (length out.old) out.new result }
    ensures empty { length out.old ≡ 0 → IsOk result }
{
    let mut done: usize = 0;
    while done < out.len() {
        let count = (out.len() - done).min(READ_BYTES);
        let place = at.saturating_add(done as u64);
        read_piece(src, place, &mut out[done..done + count])?;
        done += count;
    }
    Ok(())
}

/// Fills `out`, at most 4,096 bytes, with the bytes at a file offset.
///
/// # Errors
/// Those of [`read_all`].
fn read_piece<S: Source>(src: &mut Counted<S>, at: u64, out: &mut [u8]) -> Result<(), LinkFault>
    requires { length out.old ≤ 4096 }
    ensures keeps { KeepsSource src.old.seen src.new.seen }
    ensures most { src.new.most ≡ src.old.most }
    ensures fits { src.old.seen.size < 2 ^ 64 }
    ensures reads { (file : List ℕ) → src.old.seen.file ≡ Some file →
        ReadsAll file at (length out.old) out.new result }
{
    let length = src.length();
    if at > length || out.len() as u64 > length - at {
        return file_refused(at, Cause::TableOutside);
    }
    Ok(fill(src, at, out)?)
}

/// Returns the parts of a name `NAME@@VERSION`, if it is one: the first `@` is not its first byte,
/// and another follows.
pub(crate) fn split_version(bytes: &[u8], name: HeldText) -> Option<(HeldText, HeldText)>
    ensures { SplitsName bytes.now name result }
{
    let place = memchr(b'@', bytes)?;
    if place == 0 || !is_sign_after(bytes, place) {
        return None;
    }
    let base = HeldText {
        start: name.start,
        size: place,
    };
    let version = HeldText {
        start: name.start.saturating_add(place + 2),
        size: name.size.saturating_sub(place + 2),
    };
    Some((base, version))
}

/// Returns `true` if the byte after an index is `@`.
fn is_sign_after(bytes: &[u8], place: usize) -> bool
    requires { place < length bytes.now }
    ensures is { result ≡ (slice_index bytes.now (place + 1) == AT) }
    ensures within { IsTrue result → place + 2 < 2 ^ 64 }
{
    place < bytes.len() - 1 && bytes[place + 1] == b'@'
}
