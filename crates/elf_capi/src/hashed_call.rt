//! The dynamic symbols of a file in memory, as a loader sees them.
ghost use Rattle.std.specs.Prelude.{◌≤◌, IfSome, length};
ghost use Rattle.elf_model.specs.Style.{looked_at};
ghost use Rattle.elf_capi.specs.Hashed.{hashed_cost};
ghost use Rattle.elf_capi.specs.HashedRows.{ReadsHashed};

use crate::counts::short;
use crate::file_source::file_within;
use crate::hashed_symbols::hashed_rows;
use crate::rows::RowPosition;
use elf_record::Refusal;
use elf_table::{Fault, HeaderStore};

/// Finds them within a read budget, if there is one: with `by_segments` by the program headers even
/// if there are section headers. `asked` is set to the number of bytes requested.
///
/// # Errors
/// Those of [`hashed_rows`].
pub fn open_hashed(
    file: &[u8],
    store: &mut HeaderStore,
    budget: Option<u64>,
    by_segments: bool,
    asked: &mut u64,
) -> Result<Option<RowPosition>, Refusal>
    ensures reads { ReadsHashed (looked_at by_segments file.now) store.old.slots budget
        (length file.now) result }
    ensures cost { asked.new ≤ hashed_cost (looked_at by_segments file.now) store.old.slots }
    ensures budget { IfSome budget (λ bytes. asked.new ≤ bytes) }
{
    let mut src = file_within(file, budget);
    src.mask_section_headers(by_segments);
    let found = hashed_rows(&mut src, store);
    *asked = short(src.asked());
    let _ = src.into_inner();
    match found {
        Ok(rows) => Ok(Some(rows)),
        Err(Fault::Refused(refusal)) => Err(refusal),
        Err(Fault::Source { .. }) => unreachable!(),
    }
}
