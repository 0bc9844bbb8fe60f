//! Why a path cannot be opened.
ghost use Rattle.std.specs.Prelude.{◌≡◌};
ghost use Rattle.elf_library.specs.OpenFailures.{is_no_file};

use std::io::ErrorKind;

/// Returns whether a path that cannot be opened for this reason is skipped: there is no file, or
/// none that this process may open. Otherwise the system has a fault, or lacks something, as room
/// for one more open file.
pub(crate) fn is_no_file(kind: ErrorKind) -> bool
    ensures { result ≡ is_no_file kind }
{
    matches!(
        kind,
        ErrorKind::NotFound
            | ErrorKind::NotADirectory
            | ErrorKind::PermissionDenied
            | ErrorKind::FilesystemLoop
            | ErrorKind::InvalidFilename
    )
}
