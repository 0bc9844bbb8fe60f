//! Paths that cannot be opened.
ghost use Rattle.std.specs.Prelude.{◌≡◌};
ghost use Rattle.elf_model.specs.declared.states.FileStatus.TheVariants.{Memory, Unread};
ghost use Rattle.std.specs.IoError.{error_kind};

use elf_model::FileStatus;
use std::io::{Error, ErrorKind};

/// Returns the state of a path that cannot be examined or opened: lack of memory is reported as
/// such.
pub fn unopened(error: &Error) -> FileStatus
    ensures memory { error_kind error.now ≡ ErrorKind.OutOfMemory → result ≡ Memory }
    ensures unread { (error_kind error.now ≡ ErrorKind.OutOfMemory → ⊥) → result ≡ Unread }
{
    if error.kind() == ErrorKind::OutOfMemory {
        return FileStatus::Memory;
    }
    FileStatus::Unread
}
