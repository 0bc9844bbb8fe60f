//! The line that says why a call stopped.
ghost use Rattle.elf_source.specs.Growth.{OutGrows};
ghost use Rattle.elf_listing.specs.Reports.{ReturnsStop, ReturnsStopIn};

use elf_format::show_refusal_in;
use elf_model::{FaultRow, Format};
use elf_source::{Out, Sink};
use elf_table::RunFault;

/// Writes the line of a refusal that stopped a call and whose row is not known, as
/// [`show_stop_in`] does.
pub fn show_stop<W: Sink>(stop: RunFault, format: Format, out: &mut Out<W>) -> RunFault
    ensures grows { OutGrows out.old out.new }
    ensures tells { ReturnsStop format out.old out.new stop result }
{
    show_stop_in(stop, FaultRow::NoRow, format, out)
}

/// Writes the line of a refusal that stopped a call, in a table with the row that it is in, and
/// nothing for any other fault.
///
/// Returns the fault; or the output's fault if the line could not be written in full, with a prefix
/// of it written.
pub(crate) fn show_stop_in<W: Sink>(
    stop: RunFault,
    row: FaultRow,
    format: Format,
    out: &mut Out<W>,
) -> RunFault
    ensures grows { OutGrows out.old out.new }
    ensures tells { ReturnsStopIn row format out.old out.new stop result }
{
    let RunFault::Refused(refusal) = stop else {
        return stop;
    };
    match show_refusal_in(refusal, row, format, out) {
        Ok(()) => stop,
        Err(fault) => RunFault::Out(fault),
    }
}
