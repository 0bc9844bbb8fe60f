//! The words of the filter of a GNU hash table that are kept.
ghost use Rattle.std.specs.Prelude.{◌≡◌, ◌+◌, ◌/◌, ◌%◌, ◌^◌, ◌<◌, ◌≤◌, ◌&&◌, [], None, IfSome, IsTrue};
ghost use Rattle.elf_hash.specs.HashStyles.{hash_style_of};
ghost use Rattle.elf_model.specs.LoaderScope.{GnuTable};
ghost use Rattle.elf_model.specs.GnuHash.{is_set};
ghost use Rattle.elf_library.specs.Filters.{ExcludesHash, IsFilterOf, IsHashOf, filter_bytes};
ghost use Rattle.elf_options.specs.Wants.{query_of};
ghost use Rattle.elf_table.specs.Ledger.{CallDid, fault_of_result};

use crate::ready::has_nul;
use elf_hash::{HashStyle, HashTableLocation, gnu_hash, read_word};
use elf_options::SymbolQuery;
use elf_record::u64_at;
use elf_source::{Counted, Source};
use elf_table::{Fault, fill};
use std::marker::Model;

/// The most bytes of a filter that are kept.
const FILTER_BYTES: usize = 4096;

/// The first words of the filter of a GNU hash table, as many as are kept, and how a hash selects a
/// word and its second bit.
#[derive(Drop)]
pub(crate) struct KeptFilter {
    count: u32,
    shift: u32,
    held: usize,
    bytes: [u8; FILTER_BYTES],
}

impl Model for KeptFilter {
    ghost use Rattle.std.specs.Prelude.{◌<◌, ◌≤◌, take};
    ghost use Rattle.elf_library.specs.Filters.{FilterWords};

    ghost Value = { FilterWords };

    ghost view = { λ f. record { count = f.count; shift = f.shift; bytes = take f.held f.bytes } };

    ghost invariant = { λ f. (f.held ≤ 4096) × (0 < f.count) × (f.shift < 32) };
}

impl KeptFilter {
    /// Creates a filter of which no word is kept.
    pub(crate) fn new() -> KeptFilter
        ensures { result.bytes ≡ [] }
    {
        KeptFilter {
            count: 1,
            shift: 0,
            held: 0,
            bytes: [0; FILTER_BYTES],
        }
    }

    /// Keeps the first words of the filter of the hash table at a location, unless `keeps` is
    /// `false`, a read fails, or its counts have no filter. Otherwise none is kept.
    pub(crate) fn load_if<S: Source>(
        &mut self,
        keeps: bool,
        src: &mut Counted<S>,
        place: &HashTableLocation,
    )
        requires { place.now.at + place.now.size ≤ src.old.seen.size }
        ensures { CallDid src.old src.new None filter_bytes
            (λ file. IsFilterOf file place.now self.new) }
    {
        self.held = 0;
        if keeps {
            match self.load(src, place) {
                Ok(()) | Err(_) => {}
            }
        }
    }

    /// Keeps the first words of the filter of the hash table at a location; none if a read fails,
    /// or if its counts have no filter.
    ///
    /// # Errors
    /// A fault of a read.
    fn load<S: Source>(
        &mut self,
        src: &mut Counted<S>,
        place: &HashTableLocation,
    ) -> Result<(), Fault>
        requires { place.now.at + place.now.size ≤ src.old.seen.size }
        ensures { CallDid src.old src.new (fault_of_result result) filter_bytes
            (λ file. IsFilterOf file place.now self.new) }
    {
        self.held = 0;
        if !is_gnu(place.kind) || place.size < 16 {
            return Ok(());
        }
        let count = read_word(src, place.at + 8)?;
        let shift = read_word(src, place.at + 12)?;
        if count == 0 || shift >= 32 {
            return Ok(());
        }
        let size = kept_bytes(place.size - 16, count);
        fill(src, place.at + 16, &mut self.bytes[..size])?;
        self.count = count;
        self.shift = shift;
        self.held = size;
        Ok(())
    }

    /// Returns `true` if a word that is kept excludes a hash.
    pub(crate) fn excludes(&self, hash: u32) -> bool
        ensures { IsTrue result → ExcludesHash self.now hash }
    {
        let at = 8 * (hash / 64 % self.count) as usize;
        if at + 8 > self.held {
            return false;
        }
        !may_contain(u64_at(&self.bytes, at), self.shift, hash)
    }
}

/// Returns `true` if a hash table is a GNU hash table.
fn is_gnu(style: HashStyle) -> bool
    ensures { IsTrue result → hash_style_of style ≡ GnuTable }
{
    match style {
        HashStyle::Gnu => true,
        HashStyle::Sysv => false,
    }
}

/// Returns how many bytes of a filter of `count` words are kept, if the table has `size` bytes from
/// its first word on.
fn kept_bytes(size: u64, count: u32) -> usize
    ensures fits { result ≤ 4096 }
    ensures inside { result ≤ size }
{
    size.min(8 * u64::from(count)).min(FILTER_BYTES as u64) as usize
}

/// Returns `true` if a word of a filter has both bits of a hash.
fn may_contain(word: u64, shift: u32, hash: u32) -> bool
    requires { shift < 32 }
    ensures { result ≡ (is_set word (hash % 64) && is_set word (hash / 2 ^ shift % 64)) }
{
    is_set(word, hash % 64) && is_set(word, (hash >> shift) % 64)
}

/// Returns `true` if a bit of a word is set.
fn is_set(word: u64, bit: u32) -> bool
    requires { bit < 64 }
    ensures { result ≡ is_set word bit }
{
    (word >> bit) % 2 == 1
}

/// Returns the hash of a name, by which a filter may exclude it before its version is looked at;
/// `None` if the name of the wanted version has a NUL.
pub fn filter_hash(wanted: &SymbolQuery<'_>) -> Option<u32>
    ensures { IfSome result (IsHashOf (query_of wanted.now)) }
{
    if has_nul(&wanted.asked) {
        return None;
    }
    Some(gnu_hash(wanted.name))
}
