//! The exit status that a file requires.
ghost use Rattle.std.specs.Prelude.{◌≡◌};
ghost use Rattle.elf_walk.specs.Statuses.{state_status};

use elf_model::FileStatus;

/// Returns the exit status that a file's state requires: 0 if it has no fault or is of another
/// type, 1 if it is refused, 3 if it could not be read or there was no memory.
pub fn status(state: FileStatus) -> u8
    ensures { result ≡ state_status state }
{
    match state {
        FileStatus::Ok | FileStatus::NoElf => 0,
        FileStatus::Refused(_) => 1,
        FileStatus::Unread | FileStatus::Memory => 3,
    }
}
