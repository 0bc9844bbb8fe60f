//! The version of the program.
ghost use Rattle.elf_cli.specs.Version.{VersionEnds, version_line};
ghost use Rattle.elf_source.specs.Output.{OutPuts};

use crate::exit_lines::{ExitLine, OUT_OF_MEMORY};
use crate::outputs::{OUTPUT_BYTES, end_answer};
use elf_source::{Out, OutFault, Sink, WriteSink};
use elf_table::RunFault;
use std::io::{self, BufWriter, Write};

/// The version line: the program's name and three numbers.
const VERSION: &str = "elfsee 0.1.0\n";

/// Allocates the output, and writes the version line to standard output.
///
/// # Errors
/// Out of memory; nothing is written then.
pub fn report_version<R: Print + AllocGlobal>(rt: &R) -> Result<ExitLine, ExitLine> {
    match BufWriter::with_capacity(rt.alloc(), OUTPUT_BYTES, io::writer(rt)) {
        Ok(output) => Ok(version_into(output)),
        Err(_) => Err(OUT_OF_MEMORY),
    }
}

/// Writes the version line, and the rest of the output.
fn version_into<W: Write + Drop>(output: BufWriter<W>) -> ExitLine
    ensures { VersionEnds result.0 result.1.now }
{
    let mut out = Out::new(WriteSink::new(output));
    let answer = match write_version(&mut out) {
        Ok(()) => Ok(0),
        Err(fault) => Err(RunFault::Out(fault)),
    };
    let (ending, _output) = end_answer(&answer, out.into_inner().into_inner());
    ending
}

/// Writes the version line.
///
/// # Errors
/// A fault of the output: it took a prefix of the line.
pub(crate) fn write_version<W: Sink>(out: &mut Out<W>) -> Result<(), OutFault>
    ensures { OutPuts out.old out.new result version_line }
{
    out.put(VERSION.as_bytes())
}
