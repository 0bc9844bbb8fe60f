//! A window of a segment.
ghost use Rattle.std.specs.Prelude.{◌≡◌, ◌+◌, ◌-◌, ◌<◌, ◌≤◌, ◌%◌, ◌^◌, length, min, get_or, ℕ, List, Some, IfErr, IfOk, OnOk};
ghost use Rattle.elf_model.specs.Apply.{put};
ghost use Rattle.elf_model.specs.ApplyLaws.{clipped};
ghost use Rattle.elf_model.specs.Bytes.{field, little, slice};
ghost use Rattle.elf_source.specs.Prelude.{KeepsSource};
ghost use Rattle.elf_table.specs.Prelude.{CallReads, IsOfRead, fault_of_result};
ghost use Rattle.elf_image.specs.Items.{copy_bytes};
ghost use Rattle.elf_image.specs.SegmentParts.{IsPartOf, IsWindowOf, KeepsEdges, MeetsWord, PutsBytes};
ghost use Rattle.elf_image.specs.Values.{IsGiven, stored_as};
ghost use Rattle.elf_image.specs.declared.changes.RelocatedBytes.TheVariants.{Based};

use crate::changes::{PlacedBytes, RelocatedBytes};
use crate::image_items::CopyBytes;
use crate::rela_rows::WindowReach;
use elf_record::u64_at;
use elf_source::{Counted, READ_BYTES, Source};
use elf_table::{Fault, fill};

/// The number of bytes before a window, and after it, that a word over its edge has there.
const EDGE_BYTES: usize = 7;

/// A range of a file that is the front of a segment, and the rest of which is zeros.
#[derive(Clone, Copy)]
pub(crate) struct SegmentBytes {
    /// The segment's offset in the file.
    pub(crate) at: u64,
    /// How many bytes of it are in the file.
    pub(crate) size: u64,
}

/// A window of a segment: its bytes, and those at its edges as they are in the file.
#[derive(Drop)]
pub(crate) struct ImageWindow<'w> {
    /// The offset of the window in the segment.
    pub(crate) low: u64,
    pub(crate) bytes: &'w mut [u8],
    pub(crate) before: [u8; EDGE_BYTES],
    pub(crate) after: [u8; EDGE_BYTES],
}

impl<'w> ImageWindow<'w> {
    /// Reads a window of a segment, at an offset of it.
    ///
    /// # Errors
    /// Returns a fault of a read.
    pub(crate) fn read<S: Source>(
        src: &mut Counted<S>,
        segment: SegmentBytes,
        low: u64,
        bytes: &'w mut [u8],
    ) -> Result<ImageWindow<'w>, Fault>
        requires within { segment.at + segment.size ≤ src.old.seen.size }
        requires fits { low + length bytes.old < 2 ^ 64 }
        ensures keeps { KeepsSource src.old.seen src.new.seen }
        ensures costs { CallReads src.old src.new (fault_of_result result)
            (14 + min (segment.size - low) (length bytes.old)) }
        ensures fault { IfErr result IsOfRead }
        ensures long { IfOk result (λ window. length window.bytes.now ≡ length bytes.old) }
        ensures shows { (file : List ℕ) → src.old.seen.file ≡ Some file →
            src.old.seen.size < 2 ^ 64 →
            IfOk result (IsWindowOf (slice file segment.at segment.size) low) }
    {
        let mut before = [0; EDGE_BYTES];
        let mut after = [0; EDGE_BYTES];
        let edge = (EDGE_BYTES as u64).min(low) as usize;
        let high = low + bytes.len() as u64;
        read_part(
            src,
            segment,
            low - edge as u64,
            &mut before[EDGE_BYTES - edge..],
        )?;
        read_part(src, segment, low, bytes)?;
        read_part(src, segment, high, &mut after)?;
        Ok(ImageWindow {
            low,
            bytes,
            before,
            after,
        })
    }

    /// Returns the bytes.
    pub(crate) fn bytes(&self) -> &[u8]
        ensures { result.now ≡ self.now.bytes.now }
    {
        self.bytes
    }

    /// Returns the addresses at which at most 16 bytes may be in the window, of a segment at an
    /// address.
    pub(crate) fn reach(&self, segment: u64) -> WindowReach
        ensures first { result.first ≡ min (segment + self.now.low) (2 ^ 64 - 1) - 15 }
        ensures last { result.last
            ≡ min (min (segment + self.now.low) (2 ^ 64 - 1) + length self.now.bytes.now)
            (2 ^ 64 - 1) }
    {
        let first = segment.saturating_add(self.low);
        WindowReach {
            first: first.saturating_sub(15),
            last: first.saturating_add(self.bytes.len() as u64),
        }
    }

    /// Stores the part of what a relocation stores in this segment that falls into the window. The
    /// base is added to a word as it is in the file: nothing has been stored there before.
    #[tactic(auto, unfolding(elf_model::specs::Bytes::little))]
    pub(crate) fn store(&mut self, change: &PlacedBytes<'_>, base: u64)
        ensures edges { KeepsEdges self.old self.new }
        ensures based { (whole : List ℕ) → change.now.bytes ≡ Based →
            (self.old.low < change.now.place.offset + 8 →
            change.now.place.offset < self.old.low + length self.old.bytes.now →
            MeetsWord whole self.old change.now.place.offset) →
            PutsBytes self.old self.new change.now.place.offset
            (little 8 ((field whole change.now.place.offset 8 + base) % 2 ^ 64)) }
        ensures given { IsGiven change.now.bytes → PutsBytes self.old self.new
            change.now.place.offset (stored_as change.now.bytes) }
    {
        let offset = change.place.offset;
        match &change.bytes {
            RelocatedBytes::Based => {
                let word = self.word(offset);
                self.put(offset, &word.wrapping_add(base).to_le_bytes());
            }
            RelocatedBytes::Value(patch) => self.put(offset, patch.bytes()),
            RelocatedBytes::Pair(first, second) => {
                self.put(offset, &first.to_le_bytes());
                self.put(offset.saturating_add(8), &second.to_le_bytes());
            }
            RelocatedBytes::Copied(bytes) => self.put_copied(offset, bytes),
        }
    }

    /// Returns the word at an offset of the segment, as it is in the file; 0 if it does not meet
    /// the window.
    fn word(&self, offset: u64) -> u64
        ensures { (base : List ℕ) → MeetsWord base self.now offset → result ≡ field base offset 8 }
    {
        let mut bytes = [0; 8];
        for i in 0..8 {
            bytes[i] = self.byte(offset.saturating_add(i as u64));
        }
        u64_at(&bytes, 0)
    }

    /// Returns the byte at an offset of the segment; 0 if it is more than 7 bytes away from the
    /// window.
    fn byte(&self, offset: u64) -> u8
        ensures { (base : List ℕ) (word : ℕ) → MeetsWord base self.now word → word ≤ offset →
            offset < word + 8 → result ≡ get_or base offset 0 }
    {
        let high = self.low.saturating_add(self.bytes.len() as u64);
        if offset >= high {
            return byte_in(&self.after, offset - high);
        }
        if offset >= self.low {
            return self.bytes[(offset - self.low) as usize];
        }
        byte_before(&self.before, self.low - offset)
    }

    /// Stores the part of some bytes that falls into the window.
    fn put(&mut self, offset: u64, bytes: &[u8])
        ensures edges { KeepsEdges self.old self.new }
        ensures puts { PutsBytes self.old self.new offset bytes.now }
    {
        put_bytes(self.bytes, self.low, offset, bytes);
    }

    /// Stores the part of the bytes of a copied object that falls into the window.
    fn put_copied(&mut self, offset: u64, bytes: &CopyBytes<'_>)
        ensures edges { KeepsEdges self.old self.new }
        ensures puts { PutsBytes self.old self.new offset (copy_bytes bytes.now) }
    {
        for i in 0..bytes.len() {
            self.put(offset.saturating_add(i as u64), &[bytes.byte(i)]);
        }
    }
}

/// Stores the part of some bytes at an offset that falls into a window, which begins at the offset
/// `low`.
fn put_bytes(window: &mut [u8], low: u64, offset: u64, bytes: &[u8])
    ensures { low + length window.old < 2 ^ 64 → offset + length bytes.now < 2 ^ 64 →
        window.new
        ≡ put (clipped low (length window.old) (record { at = offset; bytes = bytes.now }))
        window.old }
{
    let first = offset.max(low);
    let end = offset
        .saturating_add(bytes.len() as u64)
        .min(low.saturating_add(window.len() as u64));
    if first < end {
        let part = &bytes[(first - offset) as usize..(end - offset) as usize];
        window[(first - low) as usize..(end - low) as usize].copy_from_slice(part);
    }
}

/// Returns the byte of an index at the edge after a window, 0 for a larger one.
fn byte_in(edge: &[u8; EDGE_BYTES], index: u64) -> u8
    ensures { index < 7 → result ≡ get_or edge.now index 0 }
{
    if index >= EDGE_BYTES as u64 {
        return 0;
    }
    edge[index as usize]
}

/// Returns the byte at the edge before a window, this many bytes before it, at least 1; 0 for one
/// farther away.
fn byte_before(edge: &[u8; EDGE_BYTES], distance: u64) -> u8
    requires { 0 < distance }
    ensures { distance ≤ 7 → result ≡ get_or edge.now (7 - distance) 0 }
{
    if distance > EDGE_BYTES as u64 {
        return 0;
    }
    edge[EDGE_BYTES - distance as usize]
}

/// Reads a part of a segment at an offset of it: the bytes in the file, then zeros.
fn read_part<S: Source>(
    src: &mut Counted<S>,
    segment: SegmentBytes,
    low: u64,
    bytes: &mut [u8],
) -> Result<(), Fault>
    requires { segment.at + segment.size ≤ src.old.seen.size }
    ensures keeps { KeepsSource src.old.seen src.new.seen }
    ensures costs { CallReads src.old src.new (fault_of_result result)
        (min (segment.size - low) (length bytes.old)) }
    ensures fault { IfErr result IsOfRead }
    ensures long { length bytes.new ≡ length bytes.old }
    ensures read { (file : List ℕ) → src.old.seen.file ≡ Some file → src.old.seen.size < 2 ^ 64 →
        OnOk result (IsPartOf (slice file segment.at segment.size) low bytes.new) }
{
    let held = segment.size.saturating_sub(low).min(bytes.len() as u64) as usize;
    if held > 0 {
        read_bytes(src, segment.at.saturating_add(low), &mut bytes[..held])?;
    }
    bytes[held..].fill(0);
    Ok(())
}

/// Reads the bytes at an offset of the file, as many as `bytes` has, at most 4,096 at once.
fn read_bytes<S: Source>(src: &mut Counted<S>, at: u64, bytes: &mut [u8]) -> Result<(), Fault>
    requires { at + length bytes.old ≤ src.old.seen.size }
    ensures keeps { KeepsSource src.old.seen src.new.seen }
    ensures costs { CallReads src.old src.new (fault_of_result result) (length bytes.old) }
    ensures fault { IfErr result IsOfRead }
    ensures long { length bytes.new ≡ length bytes.old }
    ensures read { (file : List ℕ) → src.old.seen.file ≡ Some file → src.old.seen.size < 2 ^ 64 →
        OnOk result (bytes.new ≡ slice file at (length bytes.old)) }
{
    let mut done = 0;
    while done < bytes.len() {
        let count = READ_BYTES.min(bytes.len() - done);
        fill(
            src,
            at.saturating_add(done as u64),
            &mut bytes[done..done + count],
        )?;
        done += count;
    }
    Ok(())
}
