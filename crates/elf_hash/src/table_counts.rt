//! The counts of a hash table.
ghost use Rattle.std.specs.Prelude.{◌≡◌, ◌+◌, ◌*◌, ◌<◌, ◌≤◌, ◌==◌, ◌||◌, nat_lt, not, count_ones};
ghost use Rattle.std.specs.Prelude.{IfOk, MatchBool};
ghost use Rattle.elf_table.specs.Ledger.{CallDid, fault_of_result};
ghost use Rattle.elf_hash.specs.Counts.{HasGnuCounts, HasSysvCounts};
ghost use Rattle.elf_model.specs.Chains.{HashTable as Place};

use crate::gnu_table::GnuHashTable;
use crate::place::HashTableLocation;
use crate::sysv_table::SysvHashTable;
use crate::word_reads::read_word;
use elf_record::Cause;
use elf_source::{Counted, Source};
use elf_table::{Fault, refused};

/// Reads the four counts of a GNU hash table.
///
/// # Errors
/// Returns `HashShape` at the entry of the table if there is no bucket, if the number of the
/// filter's words is no power of two, if the shift leaves no bits of a hash, or if the filter and
/// the buckets do not fit into the table. Otherwise returns a fault of a read.
pub(crate) fn gnu_counts<S: Source>(
    src: &mut Counted<S>,
    place: &HashTableLocation,
) -> Result<GnuHashTable, Fault>
    requires room { 16 ≤ place.now.size }
    requires lies { place.now.at + place.now.size ≤ src.old.seen.size }
    ensures did { CallDid src.old src.new (fault_of_result result) 16
        (λ file. (at : Place) → HasGnuCounts file at place.now result) }
    ensures same { IfOk result (λ table. table.place ≡ place.now) }
{
    let nbucket = read_word(src, place.at)?;
    let first = read_word(src, place.at + 4)?;
    let nbloom = read_word(src, place.at + 8)?;
    let shift = read_word(src, place.at + 12)?;
    if has_no_gnu_shape(nbucket, nbloom, shift, place.size) {
        return refused(place.head, Cause::HashShape);
    }
    Ok(GnuHashTable {
        place: *place,
        nbucket,
        first,
        nbloom,
        shift,
    })
}

/// Returns `true` if these counts are not those of a GNU hash table of `size` bytes.
fn has_no_gnu_shape(nbucket: u32, nbloom: u32, shift: u32, size: u64) -> bool
    ensures is { result ≡ (nbucket == 0 || not (count_ones nbloom == 1) || not (nat_lt shift 32)
        || nat_lt size (16 + 8 * nbloom + 4 * nbucket)) }
    ensures fits { MatchBool result (Unit {0}) ((0 < nbucket) × (0 < nbloom) × (shift < 32)
        × (16 + 8 * nbloom + 4 * nbucket ≤ size)) }
{
    nbucket == 0
        || nbloom.count_ones() != 1
        || shift >= 32
        || 16 + 8 * u64::from(nbloom) + 4 * u64::from(nbucket) > size
}

/// Reads the two counts of a SysV hash table.
///
/// # Errors
/// Returns `HashShape` at the entry of the table if there is no bucket, or if the words that the
/// counts require do not fit into the table. Otherwise returns a fault of a read.
pub(crate) fn sysv_counts<S: Source>(
    src: &mut Counted<S>,
    place: &HashTableLocation,
) -> Result<SysvHashTable, Fault>
    requires lies { place.now.at + place.now.size ≤ src.old.seen.size }
    ensures did { CallDid src.old src.new (fault_of_result result) 8
        (λ file. (at : Place) → HasSysvCounts file at place.now result) }
    ensures same { IfOk result (λ table. table.place ≡ place.now) }
{
    let nbucket = read_word(src, place.at)?;
    let nchain = read_word(src, place.at + 4)?;
    if has_no_shape(nbucket, nchain, place.size) {
        return refused(place.head, Cause::HashShape);
    }
    Ok(SysvHashTable {
        place: *place,
        nbucket,
        nchain,
    })
}

/// Returns `true` if there is no bucket, or the words that these counts require do not fit into
/// `size` bytes.
fn has_no_shape(nbucket: u32, nchain: u32, size: u64) -> bool
    ensures is { result ≡ (nbucket == 0 || nat_lt size (8 + 4 * nbucket + 4 * nchain)) }
    ensures fits { MatchBool result (Unit {0})
        ((0 < nbucket) × (8 + 4 * nbucket + 4 * nchain ≤ size)) }
{
    nbucket == 0 || 8 + 4 * u64::from(nbucket) + 4 * u64::from(nchain) > size
}
