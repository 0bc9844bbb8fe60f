//! Why arguments are no request.
ghost use Rattle.elf_cli.specs.Faults.{IsFaultOf};

use clap::error::ErrorKind;
use thiserror::Error;

/// Why arguments are no request.
#[derive(Debug, Drop, Error)]
pub enum RequestFault {
    /// The arguments are invalid, or help was requested: the text to print.
    #[error("bad words")]
    Words(clap::Error),
    /// The arguments give a name that cannot be looked up.
    #[error("bad name")]
    BadName,
    /// The argument is neither the index nor the name of a section.
    #[error("bad section")]
    BadSection,
    /// The arguments ask for the rows of more than 64 names.
    #[error("too many names")]
    NamesFull,
    /// The first layout item that is refused is malformed.
    #[error("bad item")]
    BadItem,
    /// The first layout item that is refused is one more of its type than a layout holds.
    #[error("layout-full")]
    LayoutFull,
    /// The first layout item that is refused has the type and the index or name of an earlier one.
    #[error("layout-repeat")]
    LayoutRepeat,
    /// The first of the traits required of a file that is not a valid one.
    #[error("unknown trait")]
    UnknownTrait(String),
    /// Out of memory for the request.
    #[error("out of memory")]
    Memory,
}

impl From<clap::Error> for RequestFault {
    ghost from_gives = { IsFaultOf };

    fn from(error: clap::Error) -> RequestFault {
        if error.kind() == ErrorKind::OutOfMemory {
            return RequestFault::Memory;
        }
        RequestFault::Words(error)
    }
}
