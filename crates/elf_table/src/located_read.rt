//! Reads whose faults name their offset.
ghost use Rattle.std.specs.Prelude.{◌≡◌, ℕ, List, length, Some, IfErr, OnOk};
ghost use Rattle.elf_model.specs.Bytes.{slice};
ghost use Rattle.elf_source.specs.Source.{IsReadable, ReadsUpTo};
ghost use Rattle.elf_table.specs.Faults.{FillsOnce, IsReadFault, IsAt};

use crate::fault::Fault;
use elf_record::{Cause, Refusal};
use elf_source::{AskFault, Counted, Source};

/// Fills `out`, at most 4,096 bytes, with the bytes at the offset `at`, all within the source's
/// length: one read.
///
/// # Errors
/// Returns the refusal `Budget`, or the source's fault; both point to `at`. Then the contents of
/// `out` are unspecified.
pub fn fill<S: Source>(src: &mut Counted<S>, at: u64, out: &mut [u8]) -> Result<(), Fault>
    requires { IsReadable src.old at (length out.old) }
    ensures reads { ReadsUpTo src.old src.new (length out.old) }
    ensures says { IfErr result (IsReadFault src.old src.new (length out.old)) }
    ensures at { IfErr result (IsAt at) }
    ensures once { FillsOnce S.one_read src.old.source src.new.source at (length out.old) result }
    ensures read { (file : List ℕ) → src.old.seen.file ≡ Some file →
        OnOk result (out.new ≡ slice file at (length out.old)) }
{
    match src.ask(at, out) {
        Ok(()) => Ok(()),
        Err(AskFault::Source(fault)) => Err(Fault::Source { fault, at }),
        Err(AskFault::Budget) => Err(Fault::Refused(Refusal {
            at,
            cause: Cause::Budget,
        })),
    }
}
