//! The check of one file.
ghost use Rattle.std.specs.Prelude.{◌≡◌, ◌≤◌, ◌^◌};
ghost use Rattle.elf_walk.specs.CheckedFile.{ChecksFile, FindsElf, FindsState};
ghost use Rattle.elf_walk.specs.CheckedFile.{check_ceiling, check_cost, elf_cost};
ghost use Rattle.elf_walk.specs.Unshown.{ShowsNoRows};

use crate::short::{read_short_file_status, refused_state, short_file_status};
use elf_listing::show;
use elf_model::{FileMagic, FileStatus, PlaceFilter};
use elf_record::Parts;
use elf_source::{Counted, NullSink, Out, Source};
use elf_table::{Caps, HeaderStore, ListingStyle, RunFault};

/// How many bytes a file header has.
const HEADER_BYTES: u64 = 64;

/// Returns the caps of a listing of which only the first fault is used: rows are not formatted, as
/// those at the last offset are shown alone, which no file has.
pub(crate) fn without_rows<'n>(caps: Caps<'n>) -> Caps<'n>
    ensures { ShowsNoRows caps.entry result }
{
    let place = PlaceFilter {
        at: Some(u64::MAX),
        address: None,
    };
    Caps {
        style: ListingStyle {
            place,
            ..caps.style
        },
        ..caps
    }
}

/// Checks one file: reads its listing, the parts that `parts` has, and returns the state given by
/// the first fault, or that there is none.
///
/// Nothing is written. The store has a slot for each header that the caps allow; its previous
/// contents and those of the source do not matter, and at most 2^127 bytes were requested from the
/// source. If the caps have a budget, no more is read; on return no limit is set.
pub fn check<S: Source>(
    src: &mut Counted<S>,
    store: &mut HeaderStore,
    caps: Caps,
    parts: Parts,
) -> FileStatus
    requires { (store.old.slots ≡ caps.limits.headers) × (src.old.asked ≤ 2 ^ 127) }
    ensures { ChecksFile store.old.slots store.new.slots caps.entry parts.0 src.old src.new result
        FindsState check_cost check_ceiling }
{
    check_rows(src, store, without_rows(caps), parts)
}

/// Checks one file as [`check`] does, by the rows that the caps show.
fn check_rows<S: Source>(
    src: &mut Counted<S>,
    store: &mut HeaderStore,
    caps: Caps,
    parts: Parts,
) -> FileStatus
    requires { (store.old.slots ≡ caps.limits.headers) × (src.old.asked ≤ 2 ^ 127) }
    ensures { ChecksFile store.old.slots store.new.slots caps.entry parts.0 src.old src.new result
        FindsState check_cost check_ceiling }
{
    if src.length() < HEADER_BYTES {
        return read_short_file_status(src, caps.limits.budget);
    }
    let mut out = Out::new(NullSink);
    let listed = show(src, store, caps, parts, &mut out);
    let _sink = out.into_inner();
    match listed {
        Ok(()) => FileStatus::Ok,
        Err(RunFault::Refused(refusal)) => refused_state(refusal),
        Err(RunFault::Source { .. }) => FileStatus::Unread,
        // Unreachable: the sink never fails.
        Err(RunFault::Out(_)) => FileStatus::Unread,
    }
}

/// Checks one file that begins with the magic number, as [`check`] does; of one that is too short
/// for a file header nothing is read.
pub fn check_elf<S: Source>(
    src: &mut Counted<S>,
    store: &mut HeaderStore,
    caps: Caps,
    parts: Parts,
) -> FileStatus
    requires { (store.old.slots ≡ caps.limits.headers) × (src.old.asked ≤ 2 ^ 127) }
    ensures { ChecksFile store.old.slots store.new.slots caps.entry parts.0 src.old src.new result
        FindsElf elf_cost check_ceiling }
{
    let size = src.length();
    if size < HEADER_BYTES {
        src.limit(None);
        return short_file_status(size, FileMagic::Elf);
    }
    check(src, store, caps, parts)
}
