//! The check of a file by its type, if members are checked.
ghost use Rattle.std.specs.Prelude.{◌≡◌, ◌≤◌, ◌^◌, None};
ghost use Rattle.elf_archive.specs.FirstFault.{BeginsArchive};
ghost use Rattle.elf_archive.specs.Listed.{IsAll};
ghost use Rattle.elf_model.specs.ArchiveCost.{archive_ceiling};
ghost use Rattle.elf_model.specs.declared.states.FileMagic.TheVariants.{Archive};
ghost use Rattle.elf_walk.specs.CheckedFile.{ChecksFile};
ghost use Rattle.elf_walk.specs.Members.{FindsBySort, FindsSorted};
ghost use Rattle.elf_walk.specs.Members.{cost_by, sorted_ceiling, sorted_cost, unlisted_state};

use crate::check_file::check_elf;
use crate::line_prefixes::find_file_type;
use crate::members::check_archive;
use crate::short::UNDECIDED;
use elf_model::{Cause, FileMagic, FileStatus, Refusal};
use elf_record::Parts;
use elf_source::{Counted, RangeSource, Source};
use elf_table::{Caps, HeaderStore};

/// Checks one file by the type that its first bytes identify: an ELF file as [`check_elf`] does, an
/// archive with its members as [`check_archive`] does; a thin archive is refused, and a file of
/// another type is not an ELF file.
///
/// These bytes count towards the budget, and those of an archive are not read again. If the budget
/// ends before them, the file is refused for lack of budget. The source and the store are as for
/// `check_archive`.
pub fn check_sorted<S: Source>(
    src: &mut Counted<RangeSource<S>>,
    store: &mut HeaderStore,
    caps: Caps,
    parts: Parts,
) -> FileStatus
    requires small { (store.old.slots ≡ caps.limits.headers) × (src.old.asked ≤ 2 ^ 126) }
    requires whole { IsAll src.old }
    ensures { ChecksFile store.old.slots store.new.slots caps.entry parts.0 src.old src.new result
        FindsSorted (sorted_cost caps.entry) sorted_ceiling }
{
    let mut limits = caps.limits;
    let sort = match find_file_type(src, true, &mut limits.budget) {
        Ok(sort) => sort,
        Err(_) => return FileStatus::Unread,
    };
    let left = Caps {
        limits,
        style: caps.style,
    };
    check_by_type(src, store, left, parts, sort)
}

/// Checks one file of a type. No limit is set before, nor on return.
fn check_by_type<S: Source>(
    src: &mut Counted<RangeSource<S>>,
    store: &mut HeaderStore,
    caps: Caps,
    parts: Parts,
    sort: FileMagic,
) -> FileStatus
    requires small { (store.old.slots ≡ caps.limits.headers) × (src.old.asked ≤ 2 ^ 127) }
    requires whole { IsAll src.old }
    requires begins { sort ≡ Archive → BeginsArchive src.old.seen }
    requires free { src.old.most ≡ None }
    ensures { ChecksFile store.old.slots store.new.slots caps.entry parts.0 src.old src.new result
        (FindsBySort sort) (cost_by sort) archive_ceiling }
{
    match sort {
        FileMagic::Elf => check_elf(src, store, caps, parts),
        FileMagic::Archive => check_archive(src, store, caps, parts),
        FileMagic::Thin | FileMagic::Foreign | FileMagic::Undecided => unlisted_state(sort),
    }
}

/// Returns the state of a file of which nothing is listed, by its type.
fn unlisted_state(sort: FileMagic) -> FileStatus
    ensures { result ≡ unlisted_state sort }
{
    match sort {
        FileMagic::Undecided => FileStatus::Refused(UNDECIDED),
        FileMagic::Thin => FileStatus::Refused(Refusal {
            at: 0,
            cause: Cause::Thin,
        }),
        FileMagic::Elf | FileMagic::Archive | FileMagic::Foreign => FileStatus::NoElf,
    }
}
