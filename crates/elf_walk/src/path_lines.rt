//! The line of a path, deferred, and the path as the location of rows.
ghost use Rattle.std.specs.Prelude.{◌≡◌};
ghost use Rattle.elf_model.specs.FileLists.{path_line};
ghost use Rattle.elf_archive.specs.Listed.{HoldsOrBreaks};

use elf_archive::DEFERRED_LINE_BYTES;
use elf_format::{show_path, show_path_location};
use elf_model::Format;
use elf_source::{DeferredLine, DeferredSink, LocatedSink, Out, OutFault, Sink, SliceSink};

/// Room for the lines that a list defers at most, the line of a path and of a member, and one more
/// byte; and for the location of a row.
pub const HELD_BYTES: usize = 2 * DEFERRED_LINE_BYTES;

/// Defers the line of a path.
///
/// # Errors
/// A fault of the output, with nothing of the line taken: it failed before, or fails permanently
/// since the line does not fit it, which that of a path of at most 4,096 bytes does.
#[inline(never)]
pub fn defer_path_line<W: Sink>(
    path: &[u8],
    format: Format,
    out: &mut Out<DeferredSink<LocatedSink<W>>>,
) -> Result<DeferredLine, OutFault>
    ensures holds { HoldsOrBreaks out.old out.new result (path_line format path.now) }
{
    let mut buffer = [0; DEFERRED_LINE_BYTES];
    let mut line = Out::new(SliceSink::new(&mut buffer));
    let shown = show_path(path, format, &mut line);
    let sink = line.into_inner();
    match shown {
        Ok(()) => out.defer_line(sink.written()),
        Err(_) => Err(out.fail_output()),
    }
}

/// Sets the location of a file's rows, if objects have one: its path.
#[inline(never)]
pub fn locate_file<W: Sink>(path: &[u8], out: &mut Out<DeferredSink<LocatedSink<W>>>)
    ensures { out.new ≡ out.old }
{
    if !out.adds_location() {
        return;
    }
    let mut buffer = [0; DEFERRED_LINE_BYTES];
    let mut text = Out::new(SliceSink::new(&mut buffer));
    let shown = show_path_location(path, &mut text);
    let sink = text.into_inner();
    if shown.is_ok() {
        out.locate_file(sink.written());
    }
}
