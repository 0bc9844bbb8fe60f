//! Where the entries of a loader's cache are.
ghost use Rattle.std.specs.Prelude.{◌≡◌, ◌+◌, ◌*◌, ◌<◌, ◌≤◌, ◌^◌, Some, None, IfOk, IfErr, IfSome};
ghost use Rattle.elf_model.specs.LoaderCache.{if_within};
ghost use Rattle.elf_model.specs.Prelude.{is_new_header, is_old_header, loader_cache};
ghost use Rattle.elf_library.specs.CacheReads.{CacheInBounds, IsOldShape, IsShape, ReturnsCacheValue, new_cache_in, old_cache_in};
ghost use Rattle.elf_table.specs.Prelude.{CallDid, IsOfRead, fault_of_result};

use crate::cache_entries::u32_at;
use elf_source::{Counted, Source};
use elf_table::{Fault, fill};
use std::marker::Model;

/// The sizes in bytes of the newer header and of its entries (glibc, `struct cache_file_new`).
const NEW_HEADER_BYTES: usize = 48;

const NEW_ENTRY_BYTES: u64 = 24;

/// Those of the header that glibc before 2.32 writes (`struct cache_file`).
const OLD_HEADER_BYTES: usize = 16;

const OLD_ENTRY_BYTES: u64 = 12;

/// Where the entries of a cache are in its file, and from where the offsets of its texts count.
#[derive(Clone, Copy)]
pub(crate) struct CacheTable {
    entries: u64,
    count: u32,
    entry_size: u64,
    strings: u64,
}

impl Model for CacheTable {
    ghost use Rattle.elf_model.specs.LoaderCache.{LoaderCache};
    ghost use Rattle.std.specs.Prelude.{◌^◌, ◌<◌};

    ghost Value = { LoaderCache };

    ghost view = { λ t. record {
      entries = t.entries;
      count = t.count;
      entry_size = t.entry_size;
      strings = t.strings;
    } };

    ghost inverse = { λ t. record {
      entries = t.entries;
      count = t.count;
      entry_size = t.entry_size;
      strings = t.strings;
    } };
}

impl CacheTable {
    /// Returns the offset of the first entry.
    pub(crate) fn entries(&self) -> u64
        ensures { result ≡ self.now.entries }
    {
        self.entries
    }

    /// Returns how many entries there are.
    pub(crate) fn count(&self) -> u64
        ensures value { result ≡ self.now.count }
        ensures few { self.now.count < 2 ^ 32 }
    {
        u64::from(self.count)
    }

    /// Returns how many bytes an entry has.
    pub(crate) fn entry_size(&self) -> u64
        ensures { result ≡ self.now.entry_size }
    {
        self.entry_size
    }

    /// Returns the offset from which those of the texts count.
    pub(crate) fn strings(&self) -> u64
        ensures { result ≡ self.now.strings }
    {
        self.strings
    }
}

/// Finds where the entries of a cache are, if the file is one: those of the newer header, also if it
/// is after the entries of an older one, at the next multiple of 8.
///
/// # Errors
/// Returns a fault of a read, or the refusal `Budget`.
#[tactic(auto, unfolding(elf_model::specs::LoaderCache::loader_cache))]
pub(crate) fn find_table<S: Source>(src: &mut Counted<S>) -> Result<Option<CacheTable>, Fault>
    ensures did { CallDid src.old src.new (fault_of_result result) 112
        (λ file. ReturnsCacheValue (loader_cache file) result) }
    ensures bounds { IfOk result (λ found. IfSome found (CacheInBounds src.old.seen.size)) }
    ensures fault { IfErr result IsOfRead }
{
    if let Some(found) = new_table(src, 0)? {
        return Ok(within(found, src.length()));
    }
    let Some(old) = old_table(src)? else {
        return Ok(None);
    };
    let Some(old) = within(old, src.length()) else {
        return Ok(None);
    };
    let at = (old.strings + 7) / 8 * 8;
    match new_table(src, at)? {
        Some(found) => Ok(within(found, src.length())),
        None => Ok(Some(old)),
    }
}

/// Returns a table, if its entries are within a file of this length.
fn within(table: CacheTable, size: u64) -> Option<CacheTable>
    ensures { result ≡ if_within size table }
{
    let bytes = u128::from(table.entry_size) * u128::from(table.count);
    if u128::from(table.entries) + bytes > u128::from(size) {
        return None;
    }
    Some(table)
}

/// Reads the newer header at an offset, if there is one; its entries may be outside of the file.
///
/// # Errors
/// Returns a fault of a read, or the refusal `Budget`.
fn new_table<S: Source>(src: &mut Counted<S>, at: u64) -> Result<Option<CacheTable>, Fault>
    ensures did { CallDid src.old src.new (fault_of_result result) 48
        (λ file. ReturnsCacheValue (new_cache_in file at) result) }
    ensures shape { IfOk result (λ found. IfSome found IsShape) }
    ensures fault { IfErr result IsOfRead }
{
    let size = src.length();
    if at > size || size - at < NEW_HEADER_BYTES as u64 {
        return Ok(None);
    }
    let mut header = [0; NEW_HEADER_BYTES];
    fill(src, at, &mut header)?;
    if !is_new_header(&header) {
        return Ok(None);
    }
    Ok(Some(CacheTable {
        entries: at + NEW_HEADER_BYTES as u64,
        count: u32_at(&header, 20),
        entry_size: NEW_ENTRY_BYTES,
        strings: at,
    }))
}

/// Returns `true` if bytes are a newer header, for little-endian files or without a byte order.
#[tactic(auto, unfolding(elf_model::specs::LoaderCache::is_new_header))]
fn is_new_header(header: &[u8; NEW_HEADER_BYTES]) -> bool
    ensures { result ≡ is_new_header header.now }
{
    header.starts_with(b"glibc-ld.so.cache1.1") && (header[28] == 0 || header[28] % 4 == 2)
}

/// Reads the older header, if there is one; its entries may be outside of the file.
///
/// # Errors
/// Returns a fault of a read, or the refusal `Budget`.
fn old_table<S: Source>(src: &mut Counted<S>) -> Result<Option<CacheTable>, Fault>
    ensures did { CallDid src.old src.new (fault_of_result result) 16
        (λ file. ReturnsCacheValue (old_cache_in file) result) }
    ensures shape { IfOk result (λ found. IfSome found IsOldShape) }
    ensures fault { IfErr result IsOfRead }
{
    if src.length() < OLD_HEADER_BYTES as u64 {
        return Ok(None);
    }
    let mut header = [0; OLD_HEADER_BYTES];
    fill(src, 0, &mut header)?;
    if !header.starts_with(b"ld.so-1.7.0") {
        return Ok(None);
    }
    let count = u32_at(&header, 12);
    Ok(Some(CacheTable {
        entries: OLD_HEADER_BYTES as u64,
        count,
        entry_size: OLD_ENTRY_BYTES,
        strings: OLD_HEADER_BYTES as u64 + OLD_ENTRY_BYTES * u64::from(count),
    }))
}
