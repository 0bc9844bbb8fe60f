//! The check of an archive with its members.
ghost use Rattle.std.specs.Prelude.{◌≡◌, ◌≤◌, ◌^◌};
ghost use Rattle.elf_archive.specs.FirstFault.{BeginsArchive, cost_after_magic};
ghost use Rattle.elf_archive.specs.Listed.{IsAll};
ghost use Rattle.elf_model.specs.ArchiveCost.{archive_ceiling};
ghost use Rattle.elf_walk.specs.CheckedFile.{ChecksFile};
ghost use Rattle.elf_walk.specs.Members.{FindsArchive};

use crate::check_file::without_rows;
use elf_archive::find_fault;
use elf_model::FileStatus;
use elf_record::Parts;
use elf_source::{Counted, RangeSource, Source};
use elf_table::{Caps, HeaderStore, RunFault};

/// Checks one archive whose magic string was read: reads its members, and the listing of each that
/// is an ELF file, the parts that `parts` has, up to the first fault, and returns the state given
/// by it, or that there is none.
///
/// The offset of a member's fault is from the archive's first byte, saturating at 64 bits. Nothing
/// is written. The source is a range of all bytes of the archive, with nothing masked, and is one
/// again on return. The store has a slot for each header that the caps allow, and at most 2^127
/// bytes were requested from the source. If the caps have a budget, it is what the magic string
/// left, one over all members; on return no limit is set.
pub fn check_archive<S: Source>(
    src: &mut Counted<RangeSource<S>>,
    store: &mut HeaderStore,
    caps: Caps,
    parts: Parts,
) -> FileStatus
    requires small { (store.old.slots ≡ caps.limits.headers) × (src.old.asked ≤ 2 ^ 127) }
    requires whole { IsAll src.old }
    requires begins { BeginsArchive src.old.seen }
    ensures { ChecksFile store.old.slots store.new.slots caps.entry parts.0 src.old src.new result
        FindsArchive cost_after_magic archive_ceiling }
{
    check_member_rows(src, store, without_rows(caps), parts)
}

/// Checks one archive as [`check_archive`] does, by the rows that the caps show.
fn check_member_rows<S: Source>(
    src: &mut Counted<RangeSource<S>>,
    store: &mut HeaderStore,
    caps: Caps,
    parts: Parts,
) -> FileStatus
    requires small { (store.old.slots ≡ caps.limits.headers) × (src.old.asked ≤ 2 ^ 127) }
    requires whole { IsAll src.old }
    requires begins { BeginsArchive src.old.seen }
    ensures { ChecksFile store.old.slots store.new.slots caps.entry parts.0 src.old src.new result
        FindsArchive cost_after_magic archive_ceiling }
{
    match find_fault(src, store, caps, parts) {
        Ok(()) => FileStatus::Ok,
        Err(RunFault::Refused(refusal)) => FileStatus::Refused(refusal),
        Err(RunFault::Source { .. }) => FileStatus::Unread,
        // Unreachable: nothing is written.
        Err(RunFault::Out(_)) => FileStatus::Unread,
    }
}
