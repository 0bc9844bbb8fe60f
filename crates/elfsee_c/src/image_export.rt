//! The exports that write the image of a segment of a file in memory, and what it lacks.
ghost use Rattle.std.specs.Prelude.{◌≡◌, ◌≤◌, length};
ghost use Rattle.elf_capi.specs.LentLayouts.{CountsWritten};
ghost use Rattle.elf_capi.specs.Images.{HasLacking, ImagesInMemory, ReturnsImage, ReadsLacking};

use elf_capi::{
    CallEnd, CallOutcome, CallStatus, CallerImageItems, CallerLimits, ImageInput, LackingInput,
    LackingRow, checked_limits, next_lacking, report_lacking, report_status, short, write_segment,
};
use elf_image::ImageRequest;
use elf_record::Refusal;
use elf_table::HeaderStore;

/// The smallest window, in bytes.
const WINDOW_BYTES: usize = 16;

/// Writes the bytes that a LOAD segment of a file in memory has after a loader has relocated the
/// file, into memory of the caller: as many as p_memsz of the program header (gABI 5, Program
/// Loading).
///
/// The items are sorted; if an entry lacks one, the image is refused, or with `partial` the entry
/// changes nothing. `room` holds the file's headers during the call, and `window` a part of the
/// segment: the larger it is, the fewer times the entries are read. All entries are checked before
/// the first byte is written.
///
/// Returns 0 if it was written, 1 if it is refused or the budget is exhausted, 3 if the segment has
/// more bytes than `out`, 4 if the limits, the room or the items are out of range, an item is not
/// above the one before it, or the window has fewer than 16 bytes.
#[unsafe(no_mangle)]
pub extern "C" fn elfsee_image(
    file: &[u8],
    limits: &CallerLimits,
    segment: u16,
    items: &CallerImageItems<'_>,
    room: &mut [u8],
    window: &mut [u8],
    out: &mut [u8],
    end: &mut CallEnd,
) -> u32
    ensures { ReturnsImage file.now limits.now segment items.now (length room.old)
        (length window.old) result out.old out.new end.new }
{
    let told = image_in(file, limits, segment, items, room, window, out, end);
    report_status(told, end)
}

/// Writes the image, and returns how that ended. The counts are written to `end`.
fn image_in(
    file: &[u8],
    limits: &CallerLimits,
    segment: u16,
    items: &CallerImageItems<'_>,
    room: &mut [u8],
    window: &mut [u8],
    out: &mut [u8],
    end: &mut CallEnd,
) -> CallStatus
    ensures images { ImagesInMemory file.now limits.now segment items.now (length room.old)
        (length window.old) out.old out.new end.new result }
    ensures written { CountsWritten end.new result }
    ensures within { end.new.written ≤ length out.new }
    ensures clear { (end.new.cause ≡ 0) × (end.new.at ≡ 0) × (end.new.none ≡ 0) }
{
    end.clear();
    let Some(limits) = checked_limits(limits, room.len()) else {
        return CallStatus::BadCall;
    };
    let Some(lent) = items.lend() else {
        return CallStatus::BadCall;
    };
    if window.len() < WINDOW_BYTES {
        return CallStatus::BadCall;
    }
    let mut store = HeaderStore::over(room, limits.headers);
    let request = ImageRequest {
        segment,
        items: &lent,
        leaves: items.partial == 1,
        most: u64::MAX,
    };
    let wanted = ImageInput {
        request,
        budget: limits.budget,
    };
    let mut outcome = CallOutcome {
        told: CallStatus::BadCall,
        asked: 0,
    };
    let written = write_segment(file, &mut store, &wanted, window, out, &mut outcome);
    end.asked = short(outcome.asked);
    end.written = written as u64;
    outcome.told
}

/// Reads the next entries of a file in memory that lack an item to the start of `out`, as many as
/// there are and as fit, in the order in which a loader applies them, and adds to `index` how many.
///
/// `index` says how many are skipped: 0 at first. `partial` of the items does not matter. Each
/// call goes through the entries from the first, so a large `out` is best. `room` holds the file's
/// headers during the call.
///
/// Returns 0 if there is at least one, 1 if the file or an entry up to the last one is refused, or
/// the budget is exhausted, 2 if there is none, or no room in `out`, 4 if the limits, the room or
/// the items are out of range, or an item is not above the one before it.
#[unsafe(no_mangle)]
pub extern "C" fn elfsee_next_lacking(
    file: &[u8],
    limits: &CallerLimits,
    items: &CallerImageItems<'_>,
    room: &mut [u8],
    index: &mut u64,
    out: &mut [LackingRow],
    end: &mut CallEnd,
) -> u32
    ensures { HasLacking limits.now items.now (length room.old) (length out.old)
        result index.old index.new end.new }
{
    let mut asked = 0;
    let found = lacking_in(file, limits, items, room, *index, out, &mut asked);
    let status = report_lacking(found, index, end);
    end.asked = asked;
    status
}

/// Reads them; returns `None` for a call with a number out of range. The number of bytes requested
/// is written to `asked`.
fn lacking_in(
    file: &[u8],
    limits: &CallerLimits,
    items: &CallerImageItems<'_>,
    room: &mut [u8],
    passed: u64,
    out: &mut [LackingRow],
    asked: &mut u64,
) -> Option<Result<usize, Refusal>>
    requires { asked.old ≡ 0 }
    ensures { ReadsLacking limits.now items.now (length room.old) (length out.old)
        asked.new result }
{
    let limits = checked_limits(limits, room.len())?;
    let lent = items.lend()?;
    let mut store = HeaderStore::over(room, limits.headers);
    let wanted = LackingInput {
        items: &lent,
        passed,
        budget: limits.budget,
    };
    Some(next_lacking(file, &mut store, &wanted, out, asked))
}
