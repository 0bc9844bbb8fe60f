//! The result of a listing, or of writing a section with its relocations applied, for a caller.
ghost use Rattle.std.specs.Prelude.{◌≡◌};
ghost use Rattle.elf_capi.specs.Ends.{ReturnsNone};
ghost use Rattle.elf_capi.specs.Told.{IsStatus, status_from};

use crate::end::CallEnd;
use elf_record::Refusal;
use elf_table::RunFault;

/// What a call that writes to memory did.
#[derive(Clone, Copy)]
pub enum CallStatus {
    /// All of it was written.
    Done,
    /// The file or the request is refused, or the read budget is exhausted.
    Refused(Refusal),
    /// The memory is too small for it.
    Full,
    /// A number is out of range.
    BadCall,
}

/// Returns the status for the result of a call, and for whether there were more bytes than fit the
/// memory. A fault of a source in memory, or one of an output that is not full, does not occur.
pub fn status_from<T>(answer: &Result<T, RunFault>, full: bool) -> CallStatus
    ensures { result ≡ status_from answer.now full }
{
    match answer {
        _ if full => CallStatus::Full,
        Ok(_) => CallStatus::Done,
        Err(RunFault::Refused(refusal)) => CallStatus::Refused(*refusal),
        Err(RunFault::Source { .. } | RunFault::Out(_)) => CallStatus::Full,
    }
}

/// Writes it as numbers, and returns the status: 0, 1, 3 or 4.
pub fn report_status(told: CallStatus, end: &mut CallEnd) -> u32
    requires { ReturnsNone end.old × (end.old.none ≡ 0) }
    ensures status { IsStatus result end.new told }
    ensures written { end.new.written ≡ end.old.written }
    ensures asked { end.new.asked ≡ end.old.asked }
{
    match told {
        CallStatus::Done => 0,
        CallStatus::Refused(refusal) => {
            end.refuse(refusal);
            1
        }
        CallStatus::Full => 3,
        CallStatus::BadCall => 4,
    }
}
