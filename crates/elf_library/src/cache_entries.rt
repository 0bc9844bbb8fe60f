//! Entries and texts of a loader's cache.
ghost use Rattle.std.specs.Prelude.{◌≡◌, ◌+◌, ◌<◌, ◌≤◌, length, IfOk, IfErr};
ghost use Rattle.elf_model.specs.LoaderCache.{cache_entry};
ghost use Rattle.elf_model.specs.Prelude.{cache_text, field, slice};
ghost use Rattle.elf_library.specs.CacheReads.{CacheInBounds, IsCacheEntry, ReturnsCacheText};
ghost use Rattle.elf_table.specs.Prelude.{CallDid, IsOfRead, fault_of_result};

use crate::cache_table::CacheTable;
use elf_options::NameLimit;
use elf_record::{u64_at, word};
use elf_source::{Counted, Source};
use elf_table::{Fault, NameBuf, Window, fill, search_name};

/// How many bytes of a text are read at once.
const PIECE: usize = 64;
/// How many bytes of a text are read at most.
const TEXT_BYTES: u64 = 4096;

/// An entry (glibc, `struct file_entry_new` and `struct file_entry`).
#[derive(Clone, Copy)]
pub(crate) struct CacheEntry {
    /// For which libraries it is.
    pub flags: u32,
    /// The offset of its name.
    pub key: u32,
    /// The offset of its path.
    pub value: u32,
    /// For which processors it is: 0 for all.
    pub hwcap: u64,
}

/// Returns the number of the four bytes at an index.
pub(crate) fn u32_at(bytes: &[u8], at: usize) -> u32
    requires { at + 4 ≤ length bytes.now }
    ensures { result ≡ field bytes.now at 4 }
{
    let mut four = [0; 4];
    four.copy_from_slice(&bytes[at..at + 4]);
    word(&four)
}

/// Reads the entry of an index.
///
/// # Errors
/// Returns a fault of a read, or the refusal `Budget`.
pub(crate) fn read_entry<S: Source>(
    src: &mut Counted<S>,
    cache: &CacheTable,
    index: u64,
) -> Result<CacheEntry, Fault>
    requires bounds { CacheInBounds src.old.seen.size cache.now }
    requires below { index < cache.now.count }
    ensures did { CallDid src.old src.new (fault_of_result result) 24
        (λ file. IfOk result (IsCacheEntry (cache_entry file cache.now index))) }
    ensures fault { IfErr result IsOfRead }
{
    let at = cache.entries() + cache.entry_size() * index;
    if cache.entry_size() == 24 {
        return read_new_entry(src, at);
    }
    read_old_entry(src, at)
}

/// Reads an entry of the newer shape.
///
/// # Errors
/// Returns a fault of a read, or the refusal `Budget`.
fn read_new_entry<S: Source>(src: &mut Counted<S>, at: u64) -> Result<CacheEntry, Fault>
    requires { at + 24 ≤ src.old.seen.size }
    ensures did { CallDid src.old src.new (fault_of_result result) 24
        (λ file. IfOk result (IsCacheEntry (slice file at 24))) }
    ensures fault { IfErr result IsOfRead }
{
    let mut bytes = [0; 24];
    fill(src, at, &mut bytes)?;
    Ok(CacheEntry {
        flags: u32_at(&bytes, 0),
        key: u32_at(&bytes, 4),
        value: u32_at(&bytes, 8),
        hwcap: u64_at(&bytes, 16),
    })
}

/// Reads an entry of the older shape.
///
/// # Errors
/// Returns a fault of a read, or the refusal `Budget`.
fn read_old_entry<S: Source>(src: &mut Counted<S>, at: u64) -> Result<CacheEntry, Fault>
    requires { at + 12 ≤ src.old.seen.size }
    ensures did { CallDid src.old src.new (fault_of_result result) 24
        (λ file. IfOk result (IsCacheEntry (slice file at 12))) }
    ensures fault { IfErr result IsOfRead }
{
    let mut bytes = [0; 12];
    fill(src, at, &mut bytes)?;
    Ok(CacheEntry {
        flags: u32_at(&bytes, 0),
        key: u32_at(&bytes, 4),
        value: u32_at(&bytes, 8),
        hwcap: 0,
    })
}

/// Reads the text at an offset into `text`: the bytes before its NUL, or before the end of the file,
/// at most 4,096. Returns `false` if the offset is outside of the file; then, and after a fault, the
/// contents of `text` are unspecified.
///
/// # Errors
/// Returns a fault of a read, or the refusal `Budget`.
pub(crate) fn read_text<S: Source>(
    src: &mut Counted<S>,
    cache: &CacheTable,
    off: u32,
    text: &mut NameBuf,
) -> Result<bool, Fault>
    requires bounds { CacheInBounds src.old.seen.size cache.now }
    ensures did { CallDid src.old src.new (fault_of_result result) 4096
        (λ file. ReturnsCacheText (cache_text file cache.now off) text.new result) }
    ensures fault { IfErr result IsOfRead }
{
    let size = src.length();
    let off = u64::from(off);
    if off >= size - cache.strings() {
        return Ok(false);
    }
    let at = cache.strings() + off;
    let want = (size - at).min(TEXT_BYTES);
    let mut window: Window<PIECE> = Window::new(at, want, PIECE as u64);
    text.clear();
    search_name(&mut window, src, want, NameLimit { bytes: 4096 }, text)?;
    Ok(true)
}
