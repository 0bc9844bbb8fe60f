//! The memory of a store of headers.
ghost use Rattle.std.specs.Prelude.{◌≡◌, ℕ, ◌+◌, ◌*◌, ◌^◌, ◌<◌, ◌≤◌, List, Some, length, take};
ghost use Rattle.std.specs.Prelude.{vec_capacity, vec_len, IfErr, IfOk, OnOk};
ghost use Rattle.elf_model.specs.Prelude.{slice};
ghost use Rattle.elf_source.specs.Source.{ReadsUpTo};
ghost use Rattle.elf_table.specs.Faults.{IsReadFault, IsOfRead};
ghost use Rattle.elf_table.specs.Slots.{slot_contents, slot_room};

use crate::fault::Fault;
use crate::located_read::fill;
use elf_source::{Counted, READ_BYTES, Source};
use std::alloc::{AllocError, Global};
use std::marker::Model;

/// The size of a slot, and of a section header, in bytes.
pub(crate) const SLOT_BYTES: usize = 64;

/// Memory for slots of 64 bytes, which is written to as far as it is needed.
#[derive(Drop)]
pub(crate) struct SlotBuffer {
    bytes: Vec<u8>,
    slots: u16,
}

impl Model for SlotBuffer {
    ghost use Rattle.std.specs.Prelude.{◌*◌, ◌≤◌, vec_capacity};
    ghost use Rattle.elf_table.specs.Store.{SlotBytes};

    ghost Value = { SlotBytes };

    ghost view = { λ b. record { bytes = b.bytes.items; slots = b.slots } };

    ghost invariant = { λ b.
        (64 * b.slots ≤ vec_capacity b.bytes) × (1 ≤ b.slots) × (b.slots ≤ 65279) };
}

impl SlotBuffer {
    /// Allocates 64 bytes for each of so many slots, 1 to 65,279.
    ///
    /// # Errors
    /// Returns an error if the allocation fails.
    pub(crate) fn new(alloc: Global, slots: u16) -> Result<SlotBuffer, AllocError>
        requires some { 1 ≤ slots }
        requires permitted { slots ≤ 65279 }
        ensures { IfOk result (λ buffer. buffer.slots ≡ slots) }
    {
        let bytes = Vec::with_capacity(alloc, SLOT_BYTES * slots as usize)?;
        Ok(SlotBuffer { bytes, slots })
    }

    /// Returns the number of slots.
    pub(crate) fn slots(&self) -> u16
        ensures value { result ≡ self.now.slots }
        ensures some { 1 ≤ self.now.slots }
        ensures permitted { self.now.slots ≤ 65279 }
    {
        self.slots
    }

    /// Returns the bytes that were written.
    fn held(&self) -> &[u8]
        ensures { result.now ≡ self.now.bytes }
    {
        &self.bytes
    }

    /// Reads `size` bytes at the offset `from` to the start of the memory.
    fn read<S: Source>(&mut self, src: &mut Counted<S>, size: usize, from: u64) -> Result<(), Fault>
        requires room { size ≤ 64 * self.old.slots }
        requires within { from + size ≤ src.old.seen.size }
        requires fits { from + size < 2 ^ 64 }
        ensures slots { self.new.slots ≡ self.old.slots }
        ensures held { size ≤ length self.new.bytes }
        ensures reads { ReadsUpTo src.old src.new size }
        ensures says { IfErr result (IsReadFault src.old src.new size) }
        ensures fault { IfErr result IsOfRead }
        ensures read { (file : List ℕ) → src.old.seen.file ≡ Some file →
            OnOk result (take size self.new.bytes ≡ slice file from size) }
    {
        reach(&mut self.bytes, size);
        read_front(src, &mut self.bytes, size, from)
    }
}

/// The memory of a store.
#[derive(Drop)]
pub(crate) enum SlotMemory<'a> {
    /// Memory that is lent with all its bytes.
    Whole(&'a mut [u8]),
    /// Memory that is written to as far as it is needed.
    Growing(&'a mut SlotBuffer),
}

impl<'a> SlotMemory<'a> {
    /// Returns the bytes that were written.
    pub(crate) fn held(&self) -> &[u8]
        ensures { result.now ≡ slot_contents self.now }
    {
        match self {
            SlotMemory::Whole(bytes) => bytes,
            SlotMemory::Growing(buffer) => buffer.held(),
        }
    }

    /// Reads `size` bytes at the offset `from` to the start of the memory.
    pub(crate) fn read<S: Source>(
        &mut self,
        src: &mut Counted<S>,
        size: usize,
        from: u64,
    ) -> Result<(), Fault>
        requires room { size ≤ slot_room self.old }
        requires within { from + size ≤ src.old.seen.size }
        requires fits { from + size < 2 ^ 64 }
        ensures most { slot_room self.new ≡ slot_room self.old }
        ensures held { size ≤ length (slot_contents self.new) }
        ensures reads { ReadsUpTo src.old src.new size }
        ensures says { IfErr result (IsReadFault src.old src.new size) }
        ensures fault { IfErr result IsOfRead }
        ensures read { (file : List ℕ) → src.old.seen.file ≡ Some file →
            OnOk result (take size (slot_contents self.new) ≡ slice file from size) }
    {
        match self {
            SlotMemory::Whole(bytes) => read_front(src, bytes, size, from),
            SlotMemory::Growing(buffer) => buffer.read(src, size, from),
        }
    }
}

/// Appends zeros up to a size within the capacity, if there are fewer bytes.
fn reach(bytes: &mut Vec<u8>, size: usize)
    requires { size ≤ vec_capacity bytes.old }
    ensures reaches { size ≤ vec_len bytes.new }
    ensures capacity { vec_capacity bytes.old ≤ vec_capacity bytes.new }
{
    if bytes.len() < size {
        bytes.resize(size, 0).unwrap();
    }
}

/// Reads `size` bytes at the offset `from` to the start of `bytes`.
fn read_front<S: Source>(
    src: &mut Counted<S>,
    bytes: &mut [u8],
    size: usize,
    from: u64,
) -> Result<(), Fault>
    requires room { size ≤ length bytes.old }
    requires within { from + size ≤ src.old.seen.size }
    requires fits { from + size < 2 ^ 64 }
    ensures reads { ReadsUpTo src.old src.new size }
    ensures says { IfErr result (IsReadFault src.old src.new size) }
    ensures fault { IfErr result IsOfRead }
    ensures read { (file : List ℕ) → src.old.seen.file ≡ Some file →
        OnOk result (take size bytes.new ≡ slice file from size) }
{
    let mut done = 0;
    while done < size {
        let count = READ_BYTES.min(size - done);
        fill(src, from + done as u64, &mut bytes[done..done + count])?;
        done += count;
    }
    Ok(())
}
