//! The state of a file that is too short for a file header, and of one that is refused.
ghost use Rattle.std.specs.Prelude.{◌≡◌, ◌+◌, ◌<◌, ◌≤◌, ◌^◌, ℕ, List, IfSome, None, Some, if◌then◌else◌};
ghost use Rattle.elf_model.specs.Prelude.{is_not_elf};
ghost use Rattle.elf_model.specs.declared.states.FileStatus.TheVariants.{NoElf, Refused};
ghost use Rattle.elf_source.specs.Source.{KeepsSource};
ghost use Rattle.elf_model.specs.Checking.{short_file_status};
ghost use Rattle.elf_walk.specs.Checked.{FailsRead, FindsShort};

use crate::line_prefixes::find_file_type;
use elf_model::{Cause, FileMagic, FileStatus, Refusal};
use elf_source::{Counted, Source};

/// The refusal of a file whose type is not decided within the budget.
pub const UNDECIDED: Refusal = Refusal {
    at: 0,
    cause: Cause::Budget,
};

/// Returns the state of a file with fewer bytes than a file header, by its type, which is decided
/// within the budget. On return no limit is set.
pub fn read_short_file_status<S: Source>(src: &mut Counted<S>, budget: Option<u64>) -> FileStatus
    requires short { src.old.seen.size < 64 }
    requires few { src.old.asked ≤ 2 ^ 127 }
    ensures keeps { KeepsSource src.old.seen src.new.seen }
    ensures free { src.new.most ≡ None }
    ensures read { FailsRead src.old src.new result }
    ensures asks { src.new.asked ≤ src.old.asked + 4 }
    ensures within { IfSome budget (λ bytes. src.new.asked ≤ src.old.asked + bytes) }
    ensures state { (file : List ℕ) → src.old.seen.file ≡ Some file →
        FindsShort budget file result }
{
    let size = src.length();
    let mut left = budget;
    match find_file_type(src, false, &mut left) {
        Ok(magic) => short_file_status(size, magic),
        Err(_) => FileStatus::Unread,
    }
}

/// Returns the state of a file of `size` bytes that is too short for a file header, by its type.
pub fn short_file_status(size: u64, magic: FileMagic) -> FileStatus
    ensures { result ≡ short_file_status size magic }
{
    match magic {
        FileMagic::Elf => FileStatus::Refused(Refusal {
            at: size,
            cause: Cause::Short,
        }),
        FileMagic::Undecided => FileStatus::Refused(UNDECIDED),
        FileMagic::Archive | FileMagic::Thin | FileMagic::Foreign => FileStatus::NoElf,
    }
}

/// Returns the state of a file large enough for a file header, by its refusal.
pub fn refused_state(refusal: Refusal) -> FileStatus
    ensures { result ≡ (if is_not_elf refusal.cause then NoElf else Refused refusal) }
{
    match refusal.cause {
        Cause::NotElf => FileStatus::NoElf,
        _ => FileStatus::Refused(refusal),
    }
}
