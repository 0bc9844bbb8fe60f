//! The store of headers, over memory borrowed from its caller.
ghost use Rattle.std.specs.Prelude.{◌≡◌, ℕ, ◌+◌, ◌*◌, ◌^◌, if◌then◌else◌, is_ok, ◌<◌, ◌≤◌};
ghost use Rattle.std.specs.Prelude.{List, Some, length, IfErr, OnOk};
ghost use Rattle.elf_model.specs.Prelude.{section_at, segment_at, slice};
ghost use Rattle.elf_record.specs.Prelude.{IsPhdr, IsShdr};
ghost use Rattle.elf_source.specs.Source.{ReadsUpTo};
ghost use Rattle.elf_table.specs.Faults.{IsReadFault, IsOfRead};
ghost use Rattle.elf_table.specs.Slots.{slot_contents, slot_room};
ghost use Rattle.elf_table.specs.Store.{empty, emptied, row, segment_bytes};
ghost use Rattle.elf_table.specs.Store.{AreRowSlices, HoldsSections, HoldsSegments, rows_from};

use crate::fault::Fault;
use crate::slot_memory::{SLOT_BYTES, SlotBuffer, SlotMemory};
use elf_record::{Phdr, Shdr};
use elf_source::{Counted, Source};
use std::marker::Model;

/// The size of a program header in bytes.
const SEGMENT_BYTES: usize = 56;

/// The section headers of one file, 64 bytes each, or its program headers, 56 bytes each,
/// consecutive in borrowed memory, which is written to as far as headers are loaded.
#[derive(Drop)]
pub struct HeaderStore<'a> {
    memory: SlotMemory<'a>,
    slots: u16,
    loaded: u16,
    segments: u16,
}

impl<'a> Model for HeaderStore<'a> {
    ghost use Rattle.std.specs.Prelude.{◌≡◌, ◌*◌, ◌≤◌, length};
    ghost use Rattle.elf_table.specs.Slots.{slot_contents, slot_room};
    ghost use Rattle.elf_table.specs.Store.{StoreState, rows_from};

    ghost Value = { StoreState };

    ghost view = { λ s. record {
      slots = s.slots;
      loaded = s.loaded;
      rows = rows_from (slot_contents s.memory) 0 64 s.loaded;
      segments = s.segments;
      segment_rows = rows_from (slot_contents s.memory) 0 56 s.segments;
    } };

    ghost invariant = { λ s.
        (64 * s.slots ≤ slot_room s.memory) × (64 * s.loaded ≤ length (slot_contents s.memory))
        × (56 * s.segments ≤ length (slot_contents s.memory)) × (s.loaded ≤ s.slots)
        × (s.segments ≤ s.slots) × (1 ≤ s.slots) × (s.slots ≤ 65279) };
}

impl<'a> HeaderStore<'a> {
    /// Creates a store of `headers` slots, 1 to 65,279, with no header loaded, over memory of at
    /// least 64 bytes for each slot. The previous contents of the memory do not matter.
    pub fn over(bytes: &'a mut [u8], headers: u16) -> HeaderStore<'a>
        requires some { 1 ≤ headers }
        requires permitted { headers ≤ 65279 }
        requires room { 64 * headers ≤ length bytes.old }
        ensures { result ≡ empty headers }
    {
        HeaderStore::of(SlotMemory::Whole(bytes), headers)
    }

    /// Creates a store of `headers` slots, at least 1 and at most those of a buffer, with no header
    /// loaded. The buffer is written to as far as headers are loaded.
    pub(crate) fn growing(buffer: &'a mut SlotBuffer, headers: u16) -> HeaderStore<'a>
        requires some { 1 ≤ headers }
        requires room { headers ≤ buffer.old.slots }
        requires permitted { headers ≤ 65279 }
        ensures { result ≡ empty headers }
    {
        HeaderStore::of(SlotMemory::Growing(buffer), headers)
    }

    /// Creates a store of `headers` slots, with no header loaded.
    #[tactic(auto, unfolding(crate::specs::Store::rows_from))]
    fn of(memory: SlotMemory<'a>, headers: u16) -> HeaderStore<'a>
        requires some { 1 ≤ headers }
        requires permitted { headers ≤ 65279 }
        requires room { 64 * headers ≤ slot_room memory }
        ensures { result ≡ empty headers }
    {
        HeaderStore {
            memory,
            slots: headers,
            loaded: 0,
            segments: 0,
        }
    }

    /// Returns the number of slots, 1 to 65,279. No call changes it.
    pub fn slots(&self) -> u16
        ensures value { result ≡ self.now.slots }
        ensures some { 1 ≤ self.now.slots }
        ensures permitted { self.now.slots ≤ 65279 }
    {
        self.slots
    }

    /// Returns the size of the slots in bytes, 64 each.
    pub fn bytes(&self) -> u64
        ensures { result ≡ 64 * self.now.slots }
    {
        64 * u64::from(self.slots)
    }

    /// Returns the number of section headers that are loaded, at most [`HeaderStore::slots`]; 0
    /// while program headers are.
    pub fn loaded(&self) -> u16
        ensures value { result ≡ self.now.loaded }
        ensures within { self.now.loaded ≤ self.now.slots }
        ensures permitted { self.now.slots ≤ 65279 }
    {
        self.loaded
    }

    /// Returns the number of program headers that are loaded, at most [`HeaderStore::slots`]; 0
    /// while section headers are.
    pub fn segments(&self) -> u16
        ensures value { result ≡ self.now.segments }
        ensures within { self.now.segments ≤ self.now.slots }
        ensures permitted { self.now.slots ≤ 65279 }
    {
        self.segments
    }

    /// Returns the section header of an index below [`HeaderStore::loaded`] (gABI 4, Section
    /// Header).
    pub fn section(&self, i: u16) -> Shdr
        requires { i < self.now.loaded }
        ensures fields { IsShdr (row self.now i) 0 result }
        ensures is_at { (file : List ℕ) → HoldsSections file self.now →
            IsShdr file (section_at file i) result }
    {
        Shdr::decode(self.row(i))
    }

    /// Returns the program header of an index below [`HeaderStore::segments`] (gABI 5, Program
    /// Header).
    pub fn segment(&self, i: u16) -> Phdr
        requires { i < self.now.segments }
        ensures fields { IsPhdr (segment_bytes self.now i) 0 result }
        ensures is_at { (file : List ℕ) → HoldsSegments file self.now →
            IsPhdr file (segment_at file i) result }
    {
        Phdr::decode(self.segment_row(i))
    }

    /// Returns the bytes of the section header of an index below [`HeaderStore::loaded`].
    #[tactic(auto, using(crate::proofs::RowsHeld::row_front))]
    fn row(&self, i: u16) -> &[u8; 64]
        requires { i < self.now.loaded }
        ensures { result.now ≡ row self.now i }
    {
        row_of(self.memory.held(), i)
    }

    /// Returns the bytes of the program header of an index below [`HeaderStore::segments`].
    #[tactic(auto, using(crate::proofs::RowsHeld::row_front))]
    fn segment_row(&self, i: u16) -> &[u8; 56]
        requires { i < self.now.segments }
        ensures { result.now ≡ segment_bytes self.now i }
    {
        row_of(self.memory.held(), i)
    }

    /// Loads the section headers of a file, `count` of them at the offset `from`; on a fault none
    /// is loaded. No program header stays loaded.
    pub(crate) fn fill<S: Source>(
        &mut self,
        src: &mut Counted<S>,
        count: u16,
        from: u64,
    ) -> Result<(), Fault>
        requires room { count ≤ self.old.slots }
        requires within { from + 64 * count ≤ src.old.seen.size }
        requires fits { from + 64 * count < 2 ^ 64 }
        ensures slots { self.new.slots ≡ self.old.slots }
        ensures loaded { self.new.loaded ≡ (if is_ok result then count else 0) }
        ensures segments { self.new.segments ≡ 0 }
        ensures reads { ReadsUpTo src.old src.new (64 * count) }
        ensures says { IfErr result (IsReadFault src.old src.new (64 * count)) }
        ensures fault { IfErr result IsOfRead }
        ensures rows { (file : List ℕ) → src.old.seen.file ≡ Some file →
            OnOk result (AreRowSlices file from 64 count self.new.rows) }
    {
        self.forget();
        read_rows(src, &mut self.memory, SLOT_BYTES, count, from)?;
        self.loaded = count;
        Ok(())
    }

    /// Loads the program headers of a file, `count` of them at the offset `from`; on a fault none
    /// is loaded. No section header stays loaded.
    pub(crate) fn fill_segments<S: Source>(
        &mut self,
        src: &mut Counted<S>,
        count: u16,
        from: u64,
    ) -> Result<(), Fault>
        requires room { count ≤ self.old.slots }
        requires within { from + 56 * count ≤ src.old.seen.size }
        requires fits { from + 56 * count < 2 ^ 64 }
        ensures slots { self.new.slots ≡ self.old.slots }
        ensures loaded { self.new.loaded ≡ 0 }
        ensures segments { self.new.segments ≡ (if is_ok result then count else 0) }
        ensures reads { ReadsUpTo src.old src.new (56 * count) }
        ensures says { IfErr result (IsReadFault src.old src.new (56 * count)) }
        ensures fault { IfErr result IsOfRead }
        ensures rows { (file : List ℕ) → src.old.seen.file ≡ Some file →
            OnOk result (AreRowSlices file from 56 count self.new.segment_rows) }
    {
        self.forget();
        read_rows(src, &mut self.memory, SEGMENT_BYTES, count, from)?;
        self.segments = count;
        Ok(())
    }

    /// Unloads the headers.
    #[tactic(auto, unfolding(crate::specs::Store::rows_from))]
    pub(crate) fn forget(&mut self)
        ensures { self.new ≡ emptied self.old }
    {
        self.loaded = 0;
        self.segments = 0;
    }
}

/// Reads `count` rows of `size` bytes at the offset `from` to the start of a store's memory.
#[tactic(auto, using(crate::proofs::RowsHeld::rows_read_ok))]
fn read_rows<S: Source>(
    src: &mut Counted<S>,
    memory: &mut SlotMemory<'_>,
    size: usize,
    count: u16,
    from: u64,
) -> Result<(), Fault>
    requires room { size * count ≤ slot_room memory.old }
    requires within { from + size * count ≤ src.old.seen.size }
    requires fits { from + size * count < 2 ^ 64 }
    ensures most { slot_room memory.new ≡ slot_room memory.old }
    ensures held { size * count ≤ length (slot_contents memory.new) }
    ensures reads { ReadsUpTo src.old src.new (size * count) }
    ensures says { IfErr result (IsReadFault src.old src.new (size * count)) }
    ensures fault { IfErr result IsOfRead }
    ensures rows { (file : List ℕ) → src.old.seen.file ≡ Some file → OnOk result
        (AreRowSlices file from size count (rows_from (slot_contents memory.new) 0 size count)) }
{
    memory.read(src, size * count as usize, from)
}

/// Returns the row of an index, of consecutive rows of `N` bytes.
fn row_of<const N: usize>(bytes: &[u8], i: u16) -> &[u8; N]
    requires { N * i + N ≤ length bytes.now }
    ensures { result.now ≡ slice bytes.now (N * i) N }
{
    let first = N * i as usize;
    bytes[first..first + N].first_chunk().unwrap()
}
