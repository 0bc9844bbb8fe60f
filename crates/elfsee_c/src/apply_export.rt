//! The export that writes a section of a file in memory with its relocations applied.
ghost use Rattle.std.specs.Prelude.{◌≡◌, ◌≤◌, length};
ghost use Rattle.elf_capi.specs.Applied.{AppliesInMemory, IsApplied};

use elf_capi::{
    ApplyCall, ApplyInput, CallEnd, CallOutcome, CallStatus, CallerLimits, checked_limits,
    layout_from, report_status, short, write_section,
};
use elf_layout::{Addresses, Layout};
use elf_table::HeaderStore;

/// The largest index of a section.
const LAST_INDEX: u32 = 65_535;

/// Writes the bytes of a section of a file in memory, with its relocations applied, into memory of
/// the caller. `room` holds the file's headers during the call.
///
/// Returns 0 if it was written, 1 if it is refused or the budget is exhausted, 3 if the section has
/// more bytes than `out`, 4 if the limits, the room, the section's index or an item are out of
/// range, there are too many items, or one occurs twice.
#[unsafe(no_mangle)]
pub extern "C" fn elfsee_apply(
    file: &[u8],
    limits: &CallerLimits,
    job: &ApplyCall<'_>,
    room: &mut [u8],
    out: &mut [u8],
    end: &mut CallEnd,
) -> u32
    ensures { IsApplied file.now limits.now job.now (length room.old) result out.old out.new
        end.new }
{
    let told = apply_to(file, limits, job, room, out, end);
    report_status(told, end)
}

/// Writes the section, and returns how that ended. The counts are written to `end`.
fn apply_to(
    file: &[u8],
    limits: &CallerLimits,
    job: &ApplyCall<'_>,
    room: &mut [u8],
    out: &mut [u8],
    end: &mut CallEnd,
) -> CallStatus
    ensures applies { AppliesInMemory file.now limits.now job.now (length room.old) out.old out.new
        end.new result }
    ensures within { end.new.written ≤ length out.new }
    ensures clear { (end.new.cause ≡ 0) × (end.new.at ≡ 0) × (end.new.none ≡ 0) }
{
    end.clear();
    let Some(limits) = checked_limits(limits, room.len()) else {
        return CallStatus::BadCall;
    };
    let mut layout = Layout::new();
    if job.section > LAST_INDEX || !layout_from(job.items, &mut layout) {
        return CallStatus::BadCall;
    }
    let mut store = HeaderStore::over(room, limits.headers);
    let addresses = Addresses::fixed(&layout);
    let wanted = ApplyInput {
        section: job.section as u16,
        layout: &addresses,
        budget: limits.budget,
    };
    let mut outcome = CallOutcome {
        told: CallStatus::BadCall,
        asked: 0,
    };
    let written = write_section(file, &mut store, &wanted, out, &mut outcome);
    end.asked = short(outcome.asked);
    end.written = match outcome.told {
        CallStatus::Refused(_) => 0,
        _ => written as u64,
    };
    outcome.told
}
