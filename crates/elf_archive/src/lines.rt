//! The line of a member, written at once or deferred.
ghost use Rattle.std.specs.Prelude.{◌≡◌, ◌-◌, ◌≤◌};
ghost use Rattle.elf_model.specs.Archive.{member_line};
ghost use Rattle.elf_source.specs.Output.{EndsLine, OutPuts};
ghost use Rattle.elf_archive.specs.Listed.{AnswersAfter, HoldsOrBreaks};
ghost use Rattle.elf_archive.specs.Members.{member_of};

use crate::member::{FileRange, Member};
use elf_format::{
    Columns, Json, LinePrefix, Tabular, member_prefix, show_member_location, show_named,
};
use elf_model::Format;
use elf_source::{DeferredLine, DeferredSink, Out, OutFault, RowSink, Sink, SliceSink};
use elf_table::{NameBuf, RunFault};

/// The maximum number of bytes of a deferred line: a name of 4,096 bytes, each escaped in at most
/// five, and the text around it.
pub const DEFERRED_LINE_BYTES: usize = 20_992;

/// Writes the `A` line of a member with the shown bytes of its name.
///
/// # Errors
/// A fault of the output, with a prefix of the line written.
pub(crate) fn show_member<W: Sink>(
    member: &Member,
    name: &NameBuf,
    format: Format,
    out: &mut Out<W>,
) -> Result<(), OutFault>
    ensures puts { OutPuts out.old out.new result
        (member_line format (member_of member.now name.now)) }
{
    let FileRange { at, size } = member.extent;
    let mut front = LinePrefix::new();
    match format {
        Format::Columns => member_prefix::<Columns>(&mut front, member.index, at, size),
        Format::Object => member_prefix::<Json>(&mut front, member.index, at, size),
        Format::Table => member_prefix::<Tabular>(&mut front, member.index, at, size),
    }
    show_named(&mut front, name.bytes(), member.is_cut, out)
}

/// Defers the `A` line of a member.
///
/// # Errors
/// A fault of the output, with nothing of the line taken: it failed before, or fails permanently
/// since the line does not fit it.
#[inline(never)]
pub(crate) fn defer_member_line<W: Sink>(
    member: &Member,
    name: &NameBuf,
    format: Format,
    out: &mut Out<DeferredSink<W>>,
) -> Result<DeferredLine, OutFault>
    ensures holds { HoldsOrBreaks out.old out.new result
        (member_line format (member_of member.now name.now)) }
{
    let mut buffer = [0; DEFERRED_LINE_BYTES];
    let mut line = Out::new(SliceSink::new(&mut buffer));
    let shown = show_member(member, name, format, &mut line);
    let sink = line.into_inner();
    match shown {
        Ok(()) => out.defer_line(sink.written()),
        Err(_) => Err(out.fail_output()),
    }
}

/// Sets the location of a member's rows, if objects have one: its name.
#[inline(never)]
pub(crate) fn locate_member<W: RowSink>(
    member: &Member,
    name: &NameBuf,
    out: &mut Out<DeferredSink<W>>,
)
    ensures { out.new ≡ out.old }
{
    if !out.adds_location() {
        return;
    }
    let mut buffer = [0; DEFERRED_LINE_BYTES];
    let mut text = Out::new(SliceSink::new(&mut buffer));
    let shown = show_member_location(name.bytes(), member.is_cut, &mut text);
    let sink = text.into_inner();
    if shown.is_ok() {
        out.locate_member(sink.written());
    }
}

/// Ends a line that was deferred before a listing, and returns how that ended: the line is kept if
/// something was written after it, otherwise it is discarded.
///
/// # Errors
/// Those of the listing, with the current count of the output.
pub fn end_listed<W: Sink>(
    line: DeferredLine,
    listed: Result<bool, RunFault>,
    out: &mut Out<DeferredSink<W>>,
) -> Result<bool, RunFault>
    requires { out.old.written ≡ line.start → line.start - line.before ≤ out.old.held }
    ensures line { EndsLine line out.old out.new }
    ensures listed { AnswersAfter listed out.new result }
{
    out.end_line(line);
    match listed {
        Err(RunFault::Out(_)) => Err(RunFault::Out(out.fault())),
        other => other,
    }
}
