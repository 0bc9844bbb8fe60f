//! Rows of one size, and steps over them.
ghost use Rattle.std.specs.Prelude.{◌≡◌, ◌+◌, ◌*◌, ◌<◌, ◌≤◌, ℕ, List, length, slice_index_or};
ghost use Rattle.elf_capi.specs.Rows.{ReadsNext};

use crate::rows::RowPosition;

/// A row of a table whose entries have one size.
pub trait TableRow: Copy {
    /// The size of an entry in bytes.
    const BYTES: u64;

    /// The size of an entry in bytes.
    ghost BYTES: { ℕ };

    /// The entry at an offset of a file.
    ghost is_at: { List ℕ → ℕ → Self → Type 0 };

    /// Returns the entry at an offset of a file.
    fn read(file: &[u8], at: usize) -> Self
        requires { at + BYTES ≤ length file.now }
        ensures { is_at file.now at result };

    /// An entry has bytes.
    ghost some: { 0 < BYTES };
}

/// Reads the next rows to the start of `out`, as many as there are and as fit, steps over them, and
/// returns how many.
pub fn next_rows<R: TableRow>(file: &[u8], rows: &mut RowPosition, out: &mut [R]) -> usize
    ensures { ReadsNext R.BYTES R.is_at file.now rows.old rows.new (length out.old) out.new
        result }
{
    let count = rows.next(file.len(), R::BYTES, out.len());
    if count > 0 {
        let first = rows.at + R::BYTES * rows.index;
        read_rows(file, first as usize, count, out);
        rows.index += count as u64;
    }
    count
}

/// Reads the given number of rows at the offset `first` to the start of `out`.
fn read_rows<R: TableRow>(file: &[u8], first: usize, count: usize, out: &mut [R])
    requires within { first + R.BYTES * count ≤ length file.now }
    requires room { count ≤ length out.old }
    ensures { (k : ℕ) (none : R) → k < count →
        R.is_at file.now (first + R.BYTES * k) (slice_index_or out.new k none) }
{
    let mut done = 0;
    while done < count {
        out[done] = R::read(file, first + R::BYTES as usize * done);
        done += 1;
    }
}
