//! How programs flush their output.
ghost use Rattle.std.specs.Prelude.{◌≡◌, true, false};
ghost use Rattle.std.specs.Io.Buffered.{writer_buffer, writer_inner};
ghost use Rattle.elf_cli.specs.Endings.{ProgramEnds, EndsRun, PutsRest, wants_rest, wants_rest_of};

use crate::exit_lines::{ExitLine, READ_FAULT, WRITE_FAULT, outcome};
use crate::line_sink::LineSink;
use elf_source::{Out, Sink, WriteSink};
use elf_table::RunFault;
use std::io::{BufWriter, Write};

/// How many bytes of output are buffered before they are written.
pub const OUTPUT_BYTES: usize = 65_536;

/// How many bytes a pipe takes atomically, with none of another program between them (`PIPE_BUF` of
/// Linux's pipe(7)).
pub const PIPE_BYTES: usize = 4_096;

/// How many bytes for standard error are buffered before they are written.
pub const ERROR_LINE_BYTES: usize = 4_096;

/// How a run ended, before the rest of its output is written.
#[derive(Clone, Copy)]
pub enum RunEnd {
    /// With this exit status.
    Status(u8),
    /// By a fault that is reported in any case.
    Told(ExitLine),
    /// By a fault of the output.
    Unwritten,
}

/// Writes the rest of the output, and returns how the program ends: as `outcome` says, or, if the
/// source had no fault, by a fault of the output, exactly if the returned sink has failed. After
/// such a fault nothing more is written.
pub fn end_answer<W: Write + Drop>(
    answer: &Result<u8, RunFault>,
    output: BufWriter<W>,
) -> (ExitLine, WriteSink<W>)
    ensures ends { ProgramEnds answer.now result.1.failed result.0.0 result.0.1.now }
    ensures rest { PutsRest (wants_rest answer.now) result.1.failed (writer_buffer output)
        (W.contents (writer_inner output)) (W.contents result.1.writer) }
{
    let wanted = !matches!(answer, Err(RunFault::Out(_)));
    let rest = write_rest(output, wanted);
    let ending = match answer {
        Err(RunFault::Source { .. }) => READ_FAULT,
        Err(_) | Ok(_) if rest.failed() => WRITE_FAULT,
        Err(_) | Ok(_) => outcome(answer),
    };
    (ending, rest)
}

/// Writes the rest of the output of a run that reports faults of its own: its status is kept unless
/// the returned sink has failed, and a fault of the run's own is reported in any case.
pub fn end_run<W: Write + Drop>(ended: RunEnd, output: BufWriter<W>) -> (ExitLine, WriteSink<W>)
    ensures ends { EndsRun ended result.1.failed result.0.0 result.0.1.now }
    ensures rest { PutsRest (wants_rest_of ended) result.1.failed (writer_buffer output)
        (W.contents (writer_inner output)) (W.contents result.1.writer) }
{
    let rest = write_rest(output, is_rest_wanted(ended));
    (ending_of(ended, rest.failed()), rest)
}

/// Writes the rest of an output of whole lines, like `end_run`. Returns the sink below it.
pub fn end_lines<W: Sink>(ended: RunEnd, output: LineSink<W>) -> (ExitLine, W)
    ensures ends { EndsRun ended (W.failed result.1) result.0.0 result.0.1.now }
    ensures rest { wants_rest_of ended ≡ true →
        PutsRest true (W.failed result.1) output.held output.below (W.taken result.1) }
    ensures none { wants_rest_of ended ≡ false → W.taken result.1 ≡ output.below }
{
    let mut output = output;
    if is_rest_wanted(ended) {
        output.give_rest();
    }
    let sink = output.into_inner();
    (ending_of(ended, sink.failed()), sink)
}

/// Returns `true` if the rest of an output is to be written: not after a fault of the output.
fn is_rest_wanted(ended: RunEnd) -> bool
    ensures { result ≡ wants_rest_of ended }
{
    match ended {
        RunEnd::Unwritten => false,
        RunEnd::Status(_) | RunEnd::Told(_) => true,
    }
}

/// Returns how the program ends, by how its run did, and by whether the output failed.
fn ending_of(ended: RunEnd, failed: bool) -> ExitLine
    ensures { EndsRun ended failed result.0 result.1.now }
{
    match ended {
        RunEnd::Status(_) if failed => WRITE_FAULT,
        RunEnd::Status(status) => (status, ""),
        RunEnd::Told(ending) => ending,
        RunEnd::Unwritten => WRITE_FAULT,
    }
}

/// Writes the rest of an output, to its end or the first fault, if that is wanted.
///
/// The output is taken apart, since dropping it would try once more to write what failed. The sink
/// below must not buffer. Returns a sink over it, which has failed exactly if not all was written.
pub fn write_rest<W: Write + Drop>(output: BufWriter<W>, wanted: bool) -> WriteSink<W>
    ensures { PutsRest wanted result.failed (writer_buffer output)
        (W.contents (writer_inner output)) (W.contents result.writer) }
{
    let (writer, rest) = output.into_parts();
    let mut out = Out::new(WriteSink::new(writer));
    if wanted {
        let _ = out.put(&rest);
    }
    out.into_inner()
}
