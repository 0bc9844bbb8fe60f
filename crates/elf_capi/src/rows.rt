//! A position in a table of a file in memory.
ghost use Rattle.std.specs.Prelude.{◌≡◌, ◌<◌, min};
ghost use Rattle.elf_capi.specs.Rows.{rows_left, rows_from_first};

use elf_table::{Names, Table};

/// A position in a table: plain numbers, which a caller may store anywhere and copy. Each step
/// checks them again, so that no numbers are invalid.
#[repr(C)]
#[derive(Clone, Copy)]
pub struct RowPosition {
    /// The file offset of the table's first byte.
    pub at: u64,
    /// How many entries there are.
    pub count: u64,
    /// The index of the next entry.
    pub index: u64,
    /// The size of an entry in bytes.
    pub entry: u64,
    /// The file offset of the string table that belongs to it; 0 if there is none.
    pub strings_at: u64,
    /// The size of that string table in bytes; 0 if there is none.
    pub strings_len: u64,
}

impl RowPosition {
    /// Returns a position before the first row of a table, with its string table.
    pub(crate) fn of(table: Table, names: Names) -> RowPosition
        ensures { result ≡ rows_from_first table names }
    {
        RowPosition {
            at: table.at(),
            count: table.len(),
            index: 0,
            entry: table.entry(),
            strings_at: names.at(),
            strings_len: names.size(),
        }
    }

    /// Returns how many entries of `entry` bytes are next in a file of `size` bytes, at most
    /// `room`.
    pub fn next(&self, size: usize, entry: u64, room: usize) -> usize
        requires { 0 < entry }
        ensures { result ≡ min (rows_left size self.now entry) room }
    {
        if self.entry != entry || self.index >= self.count {
            return 0;
        }
        let first = u128::from(self.at) + u128::from(entry) * u128::from(self.index);
        let bytes = (size as u128).saturating_sub(first);
        let within = bytes / u128::from(entry);
        let left = u128::from(self.count - self.index);
        within.min(left).min(room as u128) as usize
    }
}
