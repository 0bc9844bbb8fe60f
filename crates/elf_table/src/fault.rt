//! Why a call that reads a file's structure stops.
ghost use Rattle.std.specs.Prelude.{◌≡◌, Err, Some};

use elf_record::{Cause, Refusal};
use elf_source::SourceFault;
use thiserror::Error;

/// Why a file's structure could not be read.
#[derive(Clone, Copy, Debug, PartialEq, Eq, Error)]
pub enum Fault {
    /// The file is refused, or the read budget has too few bytes left for a read.
    #[error("refused")]
    Refused(Refusal),
    /// The source failed at a read.
    #[error("the source failed")]
    Source {
        /// Why it failed.
        fault: SourceFault,
        /// The offset of the read, in bytes.
        at: u64,
    },
}

/// Returns the refusal for a cause at a file offset as an error.
pub fn refused<T>(at: u64, cause: Cause) -> Result<T, Fault>
    ensures { result ≡ Err (Fault.Refused (record { at = at; cause = cause })) }
{
    Err(Fault::Refused(Refusal { at, cause }))
}

/// Returns the refusal for a cause at a file offset, as the failure of a check.
pub fn refusal_at(at: u64, cause: Cause) -> Option<Refusal>
    ensures { result ≡ Some (record { at = at; cause = cause }) }
{
    Some(Refusal { at, cause })
}
