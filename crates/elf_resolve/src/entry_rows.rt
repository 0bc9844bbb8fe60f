//! The rows of the archives that have the entries of all indexes.
ghost use Rattle.std.specs.Prelude.{◌≡◌, ℕ};
ghost use Rattle.std.specs.List.{slice_get};
ghost use Rattle.elf_resolve.specs.EntryRows.{AreConsecutive, row_of_archive, row_with_entry};

use crate::archives::{ArchiveTables, OpenedArchive};

impl ArchiveTables {
    /// Returns the row of the archive that has an entry.
    pub(crate) fn row_of_entry(&self, entry: usize) -> Option<u32>
        ensures { (from count : ℕ) → AreConsecutive from self.now.archives.items count →
            result ≡ row_with_entry self.now.archives.items entry }
    {
        let index = archive_after(&self.archives, entry);
        match self.archives.get(index) {
            Some(archive) => Some(archive.row),
            None => None,
        }
    }
}

/// Returns the index of the first archive whose entries end after a place.
fn archive_after(archives: &[OpenedArchive], place: usize) -> usize
    ensures { (from count : ℕ) → AreConsecutive from archives.now count →
        row_of_archive (slice_get archives.now result) ≡ row_with_entry archives.now place }
{
    archives.partition_point(|archive| archive.entries.1 <= place)
}
