//! Memory for a store of headers: the only part of this crate that allocates.
ghost use Rattle.std.specs.Prelude.{◌≡◌, ◌≤◌, IfOk};
ghost use Rattle.elf_table.specs.Store.{empty, slots_of};

use crate::slot_memory::SlotBuffer;
use crate::store::HeaderStore;
use elf_record::Ehdr;
use std::alloc::{AllocError, Global};
use std::marker::Model;

/// Memory for the headers of one file, 64 bytes for each slot. It is allocated once, by
/// [`HeaderBuffer::new`], and written to as far as headers are loaded.
#[derive(Drop)]
pub struct HeaderBuffer {
    buffer: SlotBuffer,
}

impl Model for HeaderBuffer {
    ghost use Rattle.std.specs.Prelude.{ℕ};

    ghost Value = { ℕ };

    ghost view = { λ r. r.buffer.slots };
}

impl HeaderBuffer {
    /// Creates a buffer of `headers` slots, 1 to 65,279. Its 64 bytes for each slot are allocated
    /// from `alloc` here, and no other call allocates.
    ///
    /// # Errors
    /// Returns an error if the allocation fails.
    pub fn new(alloc: Global, headers: u16) -> Result<HeaderBuffer, AllocError>
        requires some { 1 ≤ headers }
        requires permitted { headers ≤ 65279 }
        ensures { IfOk result (λ room. room ≡ headers) }
    {
        let buffer = SlotBuffer::new(alloc, headers)?;
        Ok(HeaderBuffer { buffer })
    }

    /// Returns a store over the buffer, with as many slots and no header loaded.
    pub fn store(&mut self) -> HeaderStore<'_>
        ensures { result ≡ empty self.old }
    {
        let slots = self.buffer.slots();
        HeaderStore::growing(&mut self.buffer, slots)
    }

    /// Returns a store over the buffer with as many slots as a file has section headers, or program
    /// headers if these are more, but at most those of the buffer and at least one. No header is
    /// loaded.
    pub fn store_for(&mut self, header: &Ehdr) -> HeaderStore<'_>
        ensures { result ≡ empty (slots_of self.old header.now.e_shnum header.now.e_phnum) }
    {
        let most = self.buffer.slots();
        let slots = most.min(header.e_shnum.max(header.e_phnum)).max(1);
        HeaderStore::growing(&mut self.buffer, slots)
    }
}
