//! The dynamic entries of a table that are listed.
ghost use Rattle.std.specs.Prelude.{◌≡◌, ◌==◌, ◌+◌, ◌*◌, ◌<◌, ◌≤◌, length};
ghost use Rattle.elf_model.specs.Prelude.{DT_NULL, d_tag};
ghost use Rattle.elf_capi.specs.ListedEntries.{CountsListed, ListsWithin, all_listed};

use crate::rows::RowPosition;
use crate::table_row::TableRow;
use elf_note::is_null;
use elf_record::{Cause, Dyn, Refusal};

/// Returns, of rows that are all entries of a table, those that are listed: up to and including the
/// first DT_NULL, or all.
pub(crate) fn listed_rows(file: &[u8], all: RowPosition) -> RowPosition
    requires { 0 < all.count → all.at + all.count * 16 ≤ length file.now }
    ensures { result ≡ all_listed file.now all }
{
    let mut rows = all;
    match listed_count(file, all.at, all.count, all.count) {
        Some(count) => rows.count = count,
        // No more are listed than there are.
        None => (),
    }
    rows
}

/// Returns the same, if at most `most` entries have to be read.
///
/// # Errors
/// `Budget` if more have to be read, at the first of those.
pub(crate) fn listed_within(
    file: &[u8],
    all: RowPosition,
    most: u64,
) -> Result<RowPosition, Refusal>
    requires { 0 < all.count → all.at + all.count * 16 ≤ length file.now }
    ensures { ListsWithin file.now all most result }
{
    let mut rows = all;
    match listed_count(file, all.at, all.count, most) {
        Some(count) => {
            rows.count = count;
            Ok(rows)
        }
        None => Err(Refusal {
            at: all.at + 16 * most,
            cause: Cause::Budget,
        }),
    }
}

/// Returns how many of the `count` entries at offset `at` are listed, or `None` if more than
/// `most`.
fn listed_count(file: &[u8], at: u64, count: u64, most: u64) -> Option<u64>
    requires { 0 < count → at + count * 16 ≤ length file.now }
    ensures { CountsListed file.now at count most result }
{
    let mut done = 0;
    while done < count {
        if done == most {
            return None;
        }
        if ends_at(file, (at + 16 * done) as usize) {
            return Some(done + 1);
        }
        done += 1;
    }
    Some(count)
}

/// Returns `true` if the entry at an offset of the file ends its array.
fn ends_at(file: &[u8], at: usize) -> bool
    requires { at + 16 ≤ length file.now }
    ensures { result ≡ (d_tag file.now at == DT_NULL) }
{
    is_null(&Dyn::read(file, at))
}
