//! A SysV hash table.
ghost use Rattle.std.specs.Prelude.{◌≡◌, ◌+◌, ◌*◌, ◌%◌, ◌<◌, ◌≤◌};

use crate::place::HashTableLocation;

/// A SysV hash table (gABI 5, Hash Table) whose words lie within its bytes: two counts, a word for
/// each bucket, a word for each chain, four bytes each. It holds the counts, as they were read
/// once, and no other word.
#[derive(Clone, Copy)]
pub struct SysvHashTable {
    pub(crate) place: HashTableLocation,
    pub(crate) nbucket: u32,
    pub(crate) nchain: u32,
    pub(crate) ghost some: { 0 < nbucket },
    pub(crate) ghost fits: { 8 + 4 * nbucket + 4 * nchain ≤ place.size },
}

impl SysvHashTable {
    /// Returns the file offset of the word of a hash's bucket, which is the index of the first
    /// symbol.
    pub(crate) fn bucket_at(&self, hash: u32) -> u64
        ensures value { result ≡ self.now.place.at + (8 + 4 * (hash % self.now.nbucket)) }
        ensures inside { result + 4 ≤ self.now.place.at + self.now.place.size }
    {
        self.place.at + (8 + 4 * u64::from(hash % self.nbucket))
    }

    /// Returns the file offset of the word of a symbol's chain, which is the index of the next
    /// symbol.
    pub(crate) fn chain_at(&self, index: u32) -> u64
        requires { index < self.now.nchain }
        ensures { result ≡ self.now.place.at + (8 + 4 * self.now.nbucket + 4 * index) }
    {
        self.place.at + (8 + 4 * u64::from(self.nbucket) + 4 * u64::from(index))
    }
}
