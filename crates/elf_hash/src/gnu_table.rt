//! A GNU hash table.
ghost use Rattle.std.specs.Prelude.{◌≡◌, ◌+◌, ◌-◌, ◌*◌, ◌/◌, ◌%◌, ◌<◌, ◌≤◌, ◌&&◌, nat_lt, not, IsTrue};

use crate::place::HashTableLocation;
use elf_table::Table;

/// A GNU hash table whose filter and buckets lie within its bytes: four counts of four bytes each,
/// the filter's words, eight bytes each, then a word for each bucket and a chain word for each
/// symbol starting at the first that it covers, four bytes each. It holds the counts, as they were
/// read once, and no other word.
#[derive(Clone, Copy)]
pub struct GnuHashTable {
    pub(crate) place: HashTableLocation,
    pub(crate) nbucket: u32,
    pub(crate) first: u32,
    pub(crate) nbloom: u32,
    pub(crate) shift: u32,
    pub(crate) ghost some: { 0 < nbucket },
    pub(crate) ghost filters: { 0 < nbloom },
    pub(crate) ghost small: { shift < 32 },
    pub(crate) ghost fits: { 16 + 8 * nbloom + 4 * nbucket ≤ place.size },
}

impl GnuHashTable {
    /// Returns the file offset of the filter's word for a hash.
    pub(crate) fn filter_at(&self, hash: u32) -> u64
        ensures value { result ≡ self.now.place.at + (16 + 8 * (hash / 64 % self.now.nbloom)) }
        ensures inside { result + 8 ≤ self.now.place.at + self.now.place.size }
    {
        self.place.at + (16 + 8 * u64::from(hash / 64 % self.nbloom))
    }

    /// Returns the file offset of the word of a hash's bucket, which is the index of the first
    /// symbol.
    pub(crate) fn bucket_at(&self, hash: u32) -> u64
        ensures value { result ≡
            self.now.place.at + (16 + 8 * self.now.nbloom + 4 * (hash % self.now.nbucket)) }
        ensures inside { result + 4 ≤ self.now.place.at + self.now.place.size }
    {
        let bucket = hash % self.nbucket;
        self.place.at + (16 + 8 * u64::from(self.nbloom) + 4 * u64::from(bucket))
    }

    /// Returns the words of the buckets, rows of four bytes.
    pub(crate) fn buckets(&self) -> Table
        ensures value { result ≡ record {
          at = self.now.place.at + (16 + 8 * self.now.nbloom);
          count = self.now.nbucket;
          entry = 4;
        } }
        ensures inside { result.at + result.count * 4 ≤ self.now.place.at + self.now.place.size }
    {
        let at = self.place.at + (16 + 8 * u64::from(self.nbloom));
        Table::new(at, u64::from(self.nbucket), 4)
    }

    /// Returns the number of bytes before the chain words.
    pub(crate) fn before_chains(&self) -> u64
        ensures value { result ≡ 16 + 8 * self.now.nbloom + 4 * self.now.nbucket }
        ensures fits { result ≤ self.now.place.size }
    {
        16 + 8 * u64::from(self.nbloom) + 4 * u64::from(self.nbucket)
    }

    /// Returns `true` if a symbol index is at or above the first and below the number of symbols,
    /// and its chain word lies within the table.
    pub(crate) fn has(&self, index: u64) -> bool
        ensures is { result
            ≡ (not (nat_lt index self.now.first) && nat_lt index self.now.place.symbols
            && not (nat_lt self.now.place.size (16 + 8 * self.now.nbloom + 4 * self.now.nbucket
            + 4 * (index - self.now.first) + 4))) }
        ensures lies { IsTrue result → (self.now.first ≤ index) × (index < self.now.place.symbols)
            × (16 + 8 * self.now.nbloom + 4 * self.now.nbucket + 4 * (index - self.now.first) + 4
            ≤ self.now.place.size) }
    {
        let first = u64::from(self.first);
        index >= first && index < self.place.symbols && self.has_words(index - first)
    }

    /// Returns `true` if the chain word at the index `distance` after the first lies within the
    /// table.
    fn has_words(&self, distance: u64) -> bool
        ensures is { result ≡ not (nat_lt self.now.place.size
            (16 + 8 * self.now.nbloom + 4 * self.now.nbucket + 4 * distance + 4)) }
        ensures lies { IsTrue result →
            16 + 8 * self.now.nbloom + 4 * self.now.nbucket + 4 * distance + 4
            ≤ self.now.place.size }
    {
        distance < (self.place.size - self.before_chains()) / 4
    }

    /// Returns the file offset of the chain word of a symbol.
    pub(crate) fn chain_at(&self, index: u64) -> u64
        requires first { self.now.first ≤ index }
        requires inside { 16 + 8 * self.now.nbloom + 4 * self.now.nbucket + 4
            * (index - self.now.first) + 4
            ≤ self.now.place.size }
        ensures value { result ≡ self.now.place.at
            + (16 + 8 * self.now.nbloom + 4 * self.now.nbucket + 4 * (index - self.now.first)) }
    {
        self.place.at + (self.before_chains() + 4 * (index - u64::from(self.first)))
    }
}
