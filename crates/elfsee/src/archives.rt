//! The listing of an archive.
ghost use Rattle.std.specs.Prelude.{◌≡◌, ◌⊎◌, IfErr, length};
ghost use Rattle.elf_cli.specs.Prelude.{ProgramEnds};
ghost use Rattle.elfsee.specs.Ends.{EndsRunOver, EndsWithoutFile, EndsWithoutMemory, RunsArchive};
ghost use Rattle.elfsee.specs.Naming.{EndsWithoutNames};

use crate::names::{caps_by_names, read_list, sorted_names};
use elf_archive::show_archive;
use elf_cli::{
    CANNOT_OPEN, CommandArgs, ExitLine, allocate, allocate_pages, end_answer, open_by_pages,
};
use elf_format::TableWriter;
use elf_record::Parts;
use elf_requests::archive_status;
use elf_source::{Counted, DeferredSink, Out, RangeSource, Source, WriteSink};
use elf_table::{Caps, HeaderStore};
use std::io::{self, BufWriter, Write};
use std::os::unix::fs::FileExt;
use std::rt::Files;

/// Lists the requested archive, or those of its rows that have one of some names. The names are
/// read and sorted before it is opened.
///
/// # Errors
/// Out of memory, the archive cannot be opened, or its names cannot be read.
#[inline(never)]
pub fn list_archive<R: Files + Print + AllocGlobal>(
    rt: &R,
    asked: &CommandArgs<'_>,
) -> Result<ExitLine, ExitLine>
where
    R::File: FileExt,
    ensures { IfErr result (λ ending. EndsWithoutNames ending.0 ending.1.now
        ⊎ (EndsWithoutMemory ending.0 ending.1.now ⊎ EndsWithoutFile ending.0 ending.1.now)) }
{
    let Some(file) = asked.file else {
        return Err(CANNOT_OPEN);
    };
    if !asked.selects_rows() {
        return list_with(rt, file, asked.parts, &asked.caps);
    }
    let mut list = Vec::new(rt.alloc());
    if let Err(ending) = read_list(rt, asked.name_list, &mut list) {
        return Err(ending);
    }
    match sorted_names(rt.alloc(), &asked.names, asked.caps.style.versions, &list) {
        Ok(texts) => list_with(rt, file, asked.parts, &caps_by_names(&asked.caps, &texts)),
        Err(ending) => Err(ending),
    }
}

/// Allocates the buffers, opens the archive, and lists parts of it by these caps.
///
/// # Errors
/// Out of memory, or the archive cannot be opened.
fn list_with<R: Files + Print + AllocGlobal>(
    rt: &R,
    file: &str,
    parts: Parts,
    caps: &Caps<'_>,
) -> Result<ExitLine, ExitLine>
where
    R::File: FileExt,
    ensures { IfErr result (λ ending.
        EndsWithoutMemory ending.0 ending.1.now ⊎ EndsWithoutFile ending.0 ending.1.now) }
{
    let lines = TableWriter::new(io::writer(rt), caps.style.format);
    let (mut room, output) = match allocate(rt.alloc(), caps.limits.headers, lines) {
        Ok(buffers) => buffers,
        Err(ending) => return Err(ending),
    };
    let pages = match allocate_pages(rt.alloc(), caps.limits.budget) {
        Ok(pages) => pages,
        Err(ending) => return Err(ending),
    };
    match open_by_pages(rt, file, pages) {
        Ok(source) => {
            let held = Vec::new(rt.alloc());
            let store = room.store();
            let (ending, _output) = write_archive(*caps, parts, source, store, output, held);
            Ok(ending)
        }
        Err(ending) => Err(ending),
    }
}

/// Lists parts of an archive by these caps, each member with its line, and writes the rest of the
/// output. `held` is empty: no line is deferred. Returns how the program ends, and the sink.
fn write_archive<S: Source + Drop, W: Write + Drop>(
    caps: Caps<'_>,
    parts: Parts,
    source: S,
    mut store: HeaderStore<'_>,
    output: BufWriter<W>,
    held: Vec<u8>,
) -> (ExitLine, WriteSink<W>)
    requires slots { store.slots ≡ caps.limits.headers }
    requires none { length held.items ≡ 0 }
    ensures { EndsRunOver W.contents (RunsArchive caps.entry parts.0) ProgramEnds
        (S.seen source) output result.0.0 result.0.1.now result.1 }
{
    let mut src = Counted::new(RangeSource::new(source));
    let mut out = Out::new(DeferredSink::new(WriteSink::new(output), held));
    let listed = show_archive(&mut src, &mut store, caps, parts, true, &mut out);
    let sink = out.into_inner().into_inner();
    end_answer(&archive_status(listed), sink.into_inner())
}
