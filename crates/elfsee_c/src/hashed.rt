//! The export that opens the dynamic symbols of a file in memory, as a loader sees them.
ghost use Rattle.std.specs.Prelude.{◌≡◌, ◌≤◌, IfSome, length};
ghost use Rattle.elf_capi.specs.Prelude.{HasHashed, OpensHashed, budget_of, by_flags, hashed_cost, headers_of};

use elf_capi::{CallEnd, CallerLimits, RowPosition, checked_limits, open_hashed, report_opened};
use elf_record::Refusal;
use elf_table::HeaderStore;

/// By the program headers even if there are section headers.
const BY_SEGMENTS: u32 = 1;

/// Finds the symbols that the hash table of a file in memory covers, among which a loader looks up
/// names, and sets `rows` before the first.
///
/// They are found by the section headers, or if there are none, or `flags` is 1, by the program
/// headers and their dynamic entries (gABI 5, Dynamic Section). Only the hash table gives their
/// number. `room` holds the file's headers during the call.
///
/// Returns 0 if they were found, 1 if the file is refused or the budget is exhausted, and 4 if the
/// limits, the room or the flags are out of range.
#[unsafe(no_mangle)]
pub extern "C" fn elfsee_hashed_symbols(
    file: &[u8],
    limits: &CallerLimits,
    flags: u32,
    room: &mut [u8],
    rows: &mut RowPosition,
    end: &mut CallEnd,
) -> u32
    ensures { HasHashed file.now limits.now (length room.old) flags
        result rows.old rows.new end.new }
{
    let mut asked = 0;
    let opened = open_in(file, limits, flags, room, &mut asked);
    let status = report_opened(opened, rows, end);
    end.asked = asked;
    status
}

/// Finds them; returns `None` for a call with a number out of range. The number of bytes requested
/// is written to `asked`.
fn open_in(
    file: &[u8],
    limits: &CallerLimits,
    flags: u32,
    room: &mut [u8],
    asked: &mut u64,
) -> Option<Result<Option<RowPosition>, Refusal>>
    requires { asked.old ≡ 0 }
    ensures opens { OpensHashed file.now limits.now (length room.old) flags result }
    ensures cost { asked.new ≤ hashed_cost (by_flags flags file.now)
        (headers_of limits.now (length room.old)) }
    ensures budget { IfSome (budget_of limits.now) (λ bytes. asked.new ≤ bytes) }
{
    let limits = checked_limits(limits, room.len())?;
    if flags > BY_SEGMENTS {
        return None;
    }
    let mut store = HeaderStore::over(room, limits.headers);
    let by_segments = flags == BY_SEGMENTS;
    Some(open_hashed(file, &mut store, limits.budget, by_segments, asked))
}
