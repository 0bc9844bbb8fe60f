//! At which addresses the entries of a table store, chunk by chunk.
ghost use Rattle.std.specs.Prelude.{◌≡◌, ◌+◌, ◌*◌, ◌<◌, ◌≤◌, ◌⊎◌, ℕ, List, false, get_or};
ghost use Rattle.elf_record.specs.Rela.{IsRela};
ghost use Rattle.elf_image.specs.Chunks.{HoldsChunks, IsWithinChunk};
ghost use Rattle.elf_image.specs.RelaRows.{IsFarEntry};

use crate::rela_rows::WindowReach;
use elf_record::Rela;
use elf_record::gnu_numbers::R_X86_64_IRELATIVE;
use elf_record::numbers::R_X86_64_COPY;

/// The number of entries of a chunk.
const CHUNK_ENTRIES: u64 = 8192;
/// The number of chunks of a table that are noted.
const CHUNKS: usize = 64;

/// The addresses at which the entries of a table store: the lowest and the highest of each of the
/// first 64 chunks of 8,192 entries, as far as they are noted.
#[derive(Clone, Copy)]
pub(crate) struct EntryChunks {
    /// How many entries are noted, from the first one on.
    noted: u64,
    lowest: [u64; CHUNKS],
    highest: [u64; CHUNKS],
}

impl EntryChunks {
    /// Returns chunks of which no entry is noted.
    pub(crate) fn new() -> EntryChunks
        ensures { (file : List ℕ) (at : ℕ) → HoldsChunks file at result }
    {
        EntryChunks {
            noted: 0,
            lowest: [u64::MAX; CHUNKS],
            highest: [0; CHUNKS],
        }
    }

    /// Notes the entry of an index, if all before it are noted and its chunk is one of the first 64.
    pub(crate) fn note(&mut self, index: u64, entry: &Rela)
        ensures { (file : List ℕ) (at : ℕ) → HoldsChunks file at self.old →
            IsRela file (at + 24 * index) entry.now → HoldsChunks file at self.new }
    {
        let chunk = index / CHUNK_ENTRIES;
        if index != self.noted || chunk >= CHUNKS as u64 {
            return;
        }
        let (lowest, highest) = addresses(entry);
        let chunk = chunk as usize;
        self.lowest[chunk] = self.lowest[chunk].min(lowest);
        self.highest[chunk] = self.highest[chunk].max(highest);
        self.noted += 1;
    }

    /// Returns how many entries from an index on are known not to store into a window: the rest of
    /// its chunk, as far as that is noted, or none.
    pub(crate) fn far_from(&self, index: u64, reach: &WindowReach) -> u64
        ensures { (file : List ℕ) (at i : ℕ) → HoldsChunks file at self.now → index ≤ i →
            i < index + result → IsFarEntry file (at + 24 * i) reach.now }
    {
        let chunk = index / CHUNK_ENTRIES;
        if chunk >= CHUNKS as u64 || self.may_store(chunk as usize, reach) {
            return 0;
        }
        let end = (chunk + 1) * CHUNK_ENTRIES;
        end.min(self.noted).saturating_sub(index)
    }

    /// Returns `true` if an entry of a chunk that is noted may store into a window.
    fn may_store(&self, chunk: usize, reach: &WindowReach) -> bool
        requires { chunk < 64 }
        ensures { result ≡ false → (get_or self.now.highest chunk 0 < reach.now.first)
            ⊎ (reach.now.last < get_or self.now.lowest chunk 0) }
    {
        reach.first <= self.highest[chunk] && self.lowest[chunk] <= reach.last
    }
}

/// Returns the lowest and the highest address at which an entry may store; all for one of
/// R_X86_64_COPY, which may store any number of bytes, and one of R_X86_64_IRELATIVE, which has
/// another turn.
fn addresses(entry: &Rela) -> (u64, u64)
    ensures { (file : List ℕ) (rela : ℕ) → IsRela file rela entry.now →
        IsWithinChunk file rela result.0 result.1 }
{
    match entry.kind() {
        R_X86_64_COPY | R_X86_64_IRELATIVE => (0, u64::MAX),
        _ => (entry.r_offset, entry.r_offset),
    }
}
