//! Why a call that reads and writes stops.
use crate::fault::Fault;
use elf_record::Refusal;
use elf_source::{OutFault, SourceFault};
use thiserror::Error;

/// Why a call that reads a file and writes what it finds stopped before its end.
#[derive(Clone, Copy, Debug, PartialEq, Eq, Error)]
pub enum RunFault {
    /// The file or the request is refused, or the read budget has too few bytes left.
    #[error("refused")]
    Refused(Refusal),
    /// The source failed at a read.
    #[error("the source failed")]
    Source {
        /// Why it failed.
        fault: SourceFault,
        /// The offset of the read, in bytes.
        at: u64,
    },
    /// The output failed.
    #[error("the output failed")]
    Out(OutFault),
}

impl From<Fault> for RunFault {
    ghost use Rattle.std.specs.Prelude.{◌≡◌};
    ghost use Rattle.elf_table.specs.Stops.{stop_of};

    ghost from_gives = { λ fault stop. stop ≡ stop_of fault };

    fn from(fault: Fault) -> RunFault {
        match fault {
            Fault::Refused(refusal) => RunFault::Refused(refusal),
            Fault::Source { fault, at } => RunFault::Source { fault, at },
        }
    }
}

impl From<OutFault> for RunFault {
    ghost use Rattle.std.specs.Prelude.{◌≡◌};
    ghost use Rattle.elf_table.specs.declared.run_fault.RunFault.TheVariants.{Out};

    ghost from_gives = { λ fault stop. stop ≡ Out fault };

    fn from(fault: OutFault) -> RunFault {
        RunFault::Out(fault)
    }
}
