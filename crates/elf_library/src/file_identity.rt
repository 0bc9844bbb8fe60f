//! Which file a path leads to.
ghost use Rattle.std.specs.Prelude.{◌≡◌};
ghost use Rattle.elf_library.specs.FileIdentities.{is_file};

use std::fs::Metadata;
use std::os::unix::fs::MetadataExt;

/// The permissions to execute a file, of its owner, its group and others.
const EXECUTE_BITS: u32 = 0o111;

/// Which file a path leads to: its device, and its number there.
#[derive(Clone, Copy)]
pub struct FileIdentity {
    /// The device.
    pub device: u64,
    /// The number.
    pub number: u64,
}

/// What a file is besides its bytes.
#[derive(Clone, Copy)]
pub struct FileAttributes {
    /// Which file it is, if that is known.
    pub identity: Option<FileIdentity>,
    /// Whether anyone may execute it.
    pub is_executable: bool,
}

/// Nothing is known of a file.
pub(crate) const NO_ATTRIBUTES: FileAttributes = FileAttributes {
    identity: None,
    is_executable: false,
};

/// Returns what the system says of a file. No file of a disk has the number 0.
pub(crate) fn file_attributes(found: &Metadata) -> FileAttributes {
    let number = found.ino();
    let identity = if number == 0 {
        None
    } else {
        Some(FileIdentity {
            device: found.dev(),
            number,
        })
    };
    FileAttributes {
        identity,
        is_executable: found.mode() & EXECUTE_BITS != 0,
    }
}

/// Returns `true` if the file that is known of something is the given one.
pub fn is_file(known: Option<FileIdentity>, file: FileIdentity) -> bool
    ensures { result ≡ is_file known file }
{
    match known {
        Some(known) => known.device == file.device && known.number == file.number,
        None => false,
    }
}
