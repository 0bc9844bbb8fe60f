//! The dynamic entries of a segment that are listed.
ghost use Rattle.std.specs.Prelude.{◌≡◌, IfOk, IfSome, length};
ghost use Rattle.elf_table.specs.Prelude.{TableInBounds, strings};
ghost use Rattle.elf_capi.specs.ListedEntries.{ReadsListed};
ghost use Rattle.elf_capi.specs.Rows.{rows_from_first};
ghost use Rattle.elf_capi.specs.SegmentDynamic.{FindsEntries, ReadsSegmentDynamic};

use crate::dynamic_table::{listed_rows, listed_within};
use crate::header::find_segment;
use crate::rows::RowPosition;
use elf_record::Refusal;
use elf_record::numbers::PT_DYNAMIC;
use elf_record::sizes::DYNAMIC_BYTES;
use elf_table::{Fault, Names, Table, checked_rows};

/// Returns a position before the first dynamic entry of a segment of a file in memory, up to and
/// including the first DT_NULL.
///
/// Returns `None` if it has no such segment, or one of another type than DYNAMIC. The position has
/// no string table: [`find_mapped`](crate::mapped_bytes::find_mapped) locates the one whose address and size
/// the entries have (gABI 5, Dynamic Section).
///
/// # Errors
/// - The first check that fails of those that a listing makes before it reads the headers, with the
///   maximum number of headers allowed.
/// - Then, at the program header and of a segment that has bytes in the file: `SizeNotWhole` if
///   p_filesz is not a multiple of 16, `TableOutside` if the segment extends past the end of the
///   file.
pub fn segment_dynamic(file: &[u8], segment: u16) -> Result<Option<RowPosition>, Refusal>
    ensures { ReadsSegmentDynamic file.now segment result }
{
    match segment_table(file, segment)? {
        Some(table) => Ok(Some(listed_rows(file, all_rows(table)))),
        None => Ok(None),
    }
}

/// Returns the same as [`segment_dynamic`], if at most `most` entries have to be read to know which
/// are listed.
///
/// # Errors
/// As for [`segment_dynamic`], and then `Budget` if more have to be read, at the first of those.
pub fn segment_dynamic_within(
    file: &[u8],
    segment: u16,
    most: u64,
) -> Result<Option<RowPosition>, Refusal>
    ensures { ReadsListed (ReadsSegmentDynamic file.now segment) most result }
{
    match segment_table(file, segment)? {
        Some(table) => {
            let rows = listed_within(file, all_rows(table), most)?;
            Ok(Some(rows))
        }
        None => Ok(None),
    }
}

/// Returns all entries of a segment of type DYNAMIC, listed or not, or `None` if there is no such
/// segment.
///
/// # Errors
/// As for [`segment_dynamic`].
fn segment_table(file: &[u8], segment: u16) -> Result<Option<Table>, Refusal>
    ensures finds { FindsEntries file.now segment result }
    ensures within { IfOk result (λ found. IfSome found (λ table.
        TableInBounds (length file.now) table × (table.entry ≡ 16))) }
{
    let Some((place, header)) = find_segment(file, segment)? else {
        return Ok(None);
    };
    if header.p_type != PT_DYNAMIC {
        return Ok(None);
    }
    let (at, bytes) = (header.p_offset, header.p_filesz);
    match checked_rows(at, bytes, DYNAMIC_BYTES, file.len() as u64, place) {
        Ok(table) => Ok(Some(table)),
        Err(Fault::Refused(refusal)) => Err(refusal),
        Err(Fault::Source { .. }) => unreachable!(),
    }
}

/// Returns a position before the first of some entries, without a string table.
fn all_rows(table: Table) -> RowPosition
    ensures { result ≡ rows_from_first table (strings 0 0) }
{
    RowPosition::of(table, Names::new(0, 0))
}
