//! The search for a name in a loader's cache (glibc, `search_cache` of `elf/dl-cache.c`).
ghost use Rattle.std.specs.Prelude.{◌≡◌, ◌*◌, ◌<◌, ◌≤◌, ◌-◌, IfErr, IfOk};
ghost use Rattle.elf_model.specs.LoaderCache.{is_same_name};
ghost use Rattle.elf_model.specs.Prelude.{bisected, cached_path, first_path, first_same, key_order, path_in_cache, path_of_entry};
ghost use Rattle.elf_library.specs.CacheReads.{CacheInBounds, IsFoundBelow, ReturnsCacheText, ReturnsCacheValue, ReturnsSameName, cache_cost, cached_path_cost};
ghost use Rattle.elf_table.specs.Prelude.{CallDid, IsOfRead, fault_of_result};

use crate::cache_entries::{read_entry, read_text};
use crate::cache_names::compare_names;
use crate::cache_table::{CacheTable, find_table};
use elf_source::{Counted, Source};
use elf_table::{Fault, NameBuf};
use std::cmp::Ordering;

/// Fewer than 2^32 entries are bisected in this many steps.
const STEPS: u32 = 32;
/// The flags of a library of the C library 6 for x86-64.
const FLAGS: u32 = 0x303;

/// An entry that has the name, found by bisection.
#[derive(Clone, Copy)]
pub(crate) struct SameName {
    /// Its index.
    pub index: u64,
    /// The index after the entries that may have the name.
    pub end: u64,
}

/// Reads the path of a name in a loader's cache into `text`. Returns `false` if there is none, or if
/// the file is no cache; then, and after a fault, the contents of `text` are unspecified.
///
/// # Errors
/// Returns a fault of a read, or the refusal `Budget`.
#[tactic(auto, unfolding(elf_model::specs::LoaderCache::path_in_cache))]
pub fn read_path_in_cache<S: Source>(
    src: &mut Counted<S>,
    name: &[u8],
    text: &mut NameBuf,
) -> Result<bool, Fault>
    ensures did { CallDid src.old src.new (fault_of_result result) (cache_cost src.old.seen.size)
        (λ file. ReturnsCacheText (path_in_cache file name.now) text.new result) }
    ensures fault { IfErr result IsOfRead }
{
    match find_table(src)? {
        Some(cache) => read_cached_path(src, &cache, name, text),
        None => Ok(false),
    }
}

/// Reads the path that a cache has for a name into `text`: of the entries with that name, that of the
/// first one for this machine and for all its processors. Returns `false` if there is none.
///
/// # Errors
/// Returns a fault of a read, or the refusal `Budget`.
#[tactic(auto, unfolding(elf_model::specs::LoaderCache::cached_path))]
fn read_cached_path<S: Source>(
    src: &mut Counted<S>,
    cache: &CacheTable,
    name: &[u8],
    text: &mut NameBuf,
) -> Result<bool, Fault>
    requires bounds { CacheInBounds src.old.seen.size cache.now }
    ensures did { CallDid src.old src.new (fault_of_result result)
        (cached_path_cost cache.now.count)
        (λ file. ReturnsCacheText (cached_path file cache.now name.now) text.new result) }
    ensures fault { IfErr result IsOfRead }
{
    let Some(same) = bisect(src, cache, name, text)? else {
        return Ok(false);
    };
    let first = first_same(src, cache, name, same.index, text)?;
    first_path(src, cache, name, (first, same.end), text)
}

/// Bisects the entries, which are in descending order, for one that has a name.
///
/// # Errors
/// Returns a fault of a read, or the refusal `Budget`.
fn bisect<S: Source>(
    src: &mut Counted<S>,
    cache: &CacheTable,
    name: &[u8],
    text: &mut NameBuf,
) -> Result<Option<SameName>, Fault>
    requires bounds { CacheInBounds src.old.seen.size cache.now }
    ensures did { CallDid src.old src.new (fault_of_result result) (4120 * 32)
        (λ file. ReturnsSameName
        (bisected (key_order file cache.now name.now) 32 0 cache.now.count) result) }
    ensures found { IfOk result (IsFoundBelow cache.now.count) }
    ensures fault { IfErr result IsOfRead }
{
    let mut low = 0;
    let mut high = cache.count();
    for _step in 0..STEPS {
        if low >= high {
            return Ok(None);
        }
        let middle = (low + high - 1) / 2;
        match compare_key(src, cache, name, middle, text)? {
            None => return Ok(None),
            Some(Ordering::Less) => low = middle + 1,
            Some(Ordering::Equal) => {
                return Ok(Some(SameName {
                    index: middle,
                    end: high,
                }));
            }
            Some(Ordering::Greater) => high = middle,
        }
    }
    Ok(None)
}

/// Returns the index of the first entry that has a name, of those next to each other up to one that
/// has it.
///
/// # Errors
/// Returns a fault of a read, or the refusal `Budget`.
fn first_same<S: Source>(
    src: &mut Counted<S>,
    cache: &CacheTable,
    name: &[u8],
    index: u64,
    text: &mut NameBuf,
) -> Result<u64, Fault>
    requires bounds { CacheInBounds src.old.seen.size cache.now }
    requires below { index < cache.now.count }
    ensures did { CallDid src.old src.new (fault_of_result result) (4120 * index)
        (λ file. ReturnsCacheValue (first_same (key_order file cache.now name.now) index) result) }
    ensures first { IfOk result (λ first. first ≤ index) }
    ensures fault { IfErr result IsOfRead }
{
    let mut first = index;
    while first > 0 {
        if !has_name(src, cache, name, first - 1, text)? {
            return Ok(first);
        }
        first -= 1;
    }
    Ok(0)
}

/// Reads the first path of the entries from one index to before another into `text`, as long as
/// they have a name. Returns `false` if none of them has a path.
///
/// # Errors
/// Returns a fault of a read, or the refusal `Budget`.
fn first_path<S: Source>(
    src: &mut Counted<S>,
    cache: &CacheTable,
    name: &[u8],
    among: (u64, u64),
    text: &mut NameBuf,
) -> Result<bool, Fault>
    requires bounds { CacheInBounds src.old.seen.size cache.now }
    requires ordered { among.0 ≤ among.1 }
    requires below { among.1 ≤ cache.now.count }
    ensures did { CallDid src.old src.new (fault_of_result result) (8240 * (among.1 - among.0))
        (λ file. ReturnsCacheText (first_path file cache.now (key_order file cache.now name.now)
        among.0 (among.1 - among.0)) text.new result) }
    ensures fault { IfErr result IsOfRead }
{
    for index in among.0..among.1 {
        if !has_name(src, cache, name, index, text)? {
            return Ok(false);
        }
        if read_path(src, cache, index, text)? {
            return Ok(true);
        }
    }
    Ok(false)
}

/// Returns `true` if the entry of an index has a name.
///
/// # Errors
/// Returns a fault of a read, or the refusal `Budget`.
fn has_name<S: Source>(
    src: &mut Counted<S>,
    cache: &CacheTable,
    name: &[u8],
    index: u64,
    text: &mut NameBuf,
) -> Result<bool, Fault>
    requires bounds { CacheInBounds src.old.seen.size cache.now }
    requires below { index < cache.now.count }
    ensures did { CallDid src.old src.new (fault_of_result result) 4120
        (λ file. ReturnsCacheValue
        (is_same_name (key_order file cache.now name.now index)) result) }
    ensures fault { IfErr result IsOfRead }
{
    let order = compare_key(src, cache, name, index, text)?;
    Ok(is_same_name(order))
}

/// Returns `true` if the order of two names says that they are the same.
fn is_same_name(order: Option<Ordering>) -> bool
    ensures { result ≡ is_same_name order }
{
    matches!(order, Some(Ordering::Equal))
}

/// Compares a name with the key of an entry. Returns `None` if the key is outside of the file. The
/// contents of `text` are then unspecified.
///
/// # Errors
/// Returns a fault of a read, or the refusal `Budget`.
#[tactic(auto, unfolding(elf_model::specs::LoaderCache::key_order))]
fn compare_key<S: Source>(
    src: &mut Counted<S>,
    cache: &CacheTable,
    name: &[u8],
    index: u64,
    text: &mut NameBuf,
) -> Result<Option<Ordering>, Fault>
    requires bounds { CacheInBounds src.old.seen.size cache.now }
    requires below { index < cache.now.count }
    ensures did { CallDid src.old src.new (fault_of_result result) 4120
        (λ file. ReturnsCacheValue (key_order file cache.now name.now index) result) }
    ensures fault { IfErr result IsOfRead }
{
    let entry = read_entry(src, cache, index)?;
    if !read_text(src, cache, entry.key, text)? {
        return Ok(None);
    }
    Ok(Some(compare_names(name, text.bytes())))
}

/// Reads the path of an entry into `text`, if the entry is for this machine and for all its
/// processors. Returns `false` if there is none.
///
/// # Errors
/// Returns a fault of a read, or the refusal `Budget`.
#[tactic(auto, unfolding(elf_model::specs::LoaderCache::path_of_entry))]
fn read_path<S: Source>(
    src: &mut Counted<S>,
    cache: &CacheTable,
    index: u64,
    text: &mut NameBuf,
) -> Result<bool, Fault>
    requires bounds { CacheInBounds src.old.seen.size cache.now }
    requires below { index < cache.now.count }
    ensures did { CallDid src.old src.new (fault_of_result result) 4120
        (λ file. ReturnsCacheText (path_of_entry file cache.now index) text.new result) }
    ensures fault { IfErr result IsOfRead }
{
    let entry = read_entry(src, cache, index)?;
    if entry.flags != FLAGS || entry.hwcap != 0 {
        return Ok(false);
    }
    read_text(src, cache, entry.value, text)
}
