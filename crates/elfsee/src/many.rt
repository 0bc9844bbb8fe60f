//! Commands over many files: `check` and `traits`.
ghost use Rattle.std.specs.Prelude.{◌≡◌, ◌<◌, IfErr, IfOk, IfSome, length};
ghost use Rattle.elfsee.specs.Ends.{EndsFiles, EndsWithoutMemory, StopsFiles, end_after, visit_end, list_end};

use elf_cli::{
    CANNOT_OPEN, CommandArgs, ExitLine, LineSink, OUT_OF_MEMORY, OUTPUT_BYTES, PIPE_BYTES,
    READ_FAULT, RunEnd, WRITE_FAULT, allocate_pages, end_lines,
};
use elf_format::TableWriter;
use elf_model::Format;
use elf_requests::CommandRequest;
use elf_source::{DeferredSink, LocatedSink, Out, OutFault, PageCache, Sink, WriteSink};
use elf_table::{HeaderBuffer, HeaderStore};
use elf_walk::{
    CheckFiles, CheckOptions, DirWalk, FileRun, FileVisitor, ListFault, TraitOptions, TraitReport,
    visit_list, visit_path,
};
use std::fs;
use std::io::{self, Input, Stderr};
use std::os::unix::fs::{FileExt, FileTypeExt};
use std::rt::Files;

/// How many bytes of a list of paths are read at once.
const LIST_BYTES: usize = 65_536;

/// Checks all requested files, and writes a line for each. Progress is shown on a terminal, if
/// there is one.
///
/// # Errors
/// Out of memory.
#[inline(never)]
pub fn check_many<R: Files + Print + Input + AllocGlobal>(
    rt: &R,
    asked: &CommandArgs<'_>,
    terminal: Option<Stderr>,
) -> Result<ExitLine, ExitLine>
where
    R::File: FileExt,
    ensures { IfErr result (λ ending. EndsWithoutMemory ending.0 ending.1.now) }
{
    let Ok(mut room) = HeaderBuffer::new(rt.alloc(), asked.caps.limits.headers) else {
        return Err(OUT_OF_MEMORY);
    };
    let checks = new_checks(asked, room.store());
    let buffers = LineBuffers {
        held: Vec::new(rt.alloc()),
        location: None,
    };
    let format = asked.caps.style.format;
    let files = VisitedPaths {
        paths: &asked.paths,
        list: asked.list,
        budget: asked.caps.limits.budget,
    };
    ending_line(visit_files(rt, files, checks, buffers, format, terminal))
}

/// Prints how all requested files are hardened. Progress is shown on a terminal, if there is one.
///
/// # Errors
/// Out of memory.
#[inline(never)]
pub fn report_traits<R: Files + Print + Input + AllocGlobal>(
    rt: &R,
    asked: &CommandRequest<'_>,
    terminal: Option<Stderr>,
) -> Result<ExitLine, ExitLine>
where
    R::File: FileExt,
    ensures { IfErr result (λ ending. EndsWithoutMemory ending.0 ending.1.now) }
{
    let Ok(mut room) = HeaderBuffer::new(rt.alloc(), asked.args.caps.limits.headers) else {
        return Err(OUT_OF_MEMORY);
    };
    let lines = new_trait_lines(asked, room.store());
    let buffers = LineBuffers {
        held: Vec::new(rt.alloc()),
        location: None,
    };
    let format = asked.args.caps.style.format;
    let files = VisitedPaths {
        paths: &asked.args.paths,
        list: asked.args.list,
        budget: asked.args.caps.limits.budget,
    };
    let ended = visit_files(rt, files, lines, buffers, format, terminal);
    ending_line(ended)
}

/// Creates a check for a request.
fn new_checks<'a>(asked: &CommandArgs<'_>, store: HeaderStore<'a>) -> CheckFiles<'a>
    requires { store.slots ≡ asked.now.caps.limits.headers }
    ensures caps { result.caps ≡ asked.now.caps }
    ensures parts { result.parts ≡ asked.now.parts }
    ensures members { result.members ≡ asked.now.members }
{
    let rule = CheckOptions {
        caps: asked.caps,
        parts: asked.parts,
        members: asked.members,
    };
    CheckFiles::new(store, rule)
}

/// Creates the trait lines for a request.
fn new_trait_lines<'a>(asked: &'a CommandRequest<'a>, store: HeaderStore<'a>) -> TraitReport<'a>
    requires { store.slots ≡ asked.now.args.caps.limits.headers }
    ensures limits { result.limits ≡ asked.now.args.caps.limits }
    ensures format { result.format ≡ asked.now.args.caps.style.format }
    ensures required { result.required.now ≡ asked.now.required.items }
{
    let rule = TraitOptions {
        limits: asked.args.caps.limits,
        format: asked.args.caps.style.format,
        required: &asked.required,
    };
    TraitReport::new(store, rule)
}

/// How a visit of many files ended.
#[derive(Clone, Copy)]
pub enum FilesEnd {
    /// All files were visited: the exit status.
    Status(u8),
    /// There is not enough memory.
    NoMemory,
    /// The list of paths cannot be opened.
    NotOpened,
    /// The list of paths cannot be read.
    Unread,
    /// The output failed.
    Unwritten,
}

/// The paths that are visited.
#[derive(Clone, Copy)]
pub struct VisitedPaths<'p> {
    /// The paths of files and directories.
    pub paths: &'p [&'p str],
    /// The path of a file with more paths, each ended by NUL; `-` is standard input.
    pub list: Option<&'p str>,
    /// How many bytes may be read of each file; without a limit it is read by pages.
    pub budget: Option<u64>,
}

/// The buffers of lines.
#[derive(Drop)]
pub struct LineBuffers {
    /// Where bytes of the output may be deferred.
    pub held: Vec<u8>,
    /// Where the location of a row is, if each object has it.
    pub location: Option<Vec<u8>>,
}

/// What visiting files takes of memory, besides the buffers of lines and headers.
#[derive(Drop)]
struct VisitRoom {
    walk: DirWalk,
    entries: Vec<u8>,
    kept: Vec<u8>,
    pages: PageCache,
}

/// Allocates what visiting files takes, if there is memory for it.
fn allocate_room<R: Files + AllocGlobal>(rt: &R, budget: Option<u64>) -> Option<VisitRoom>
    ensures { IfSome result (λ room. 0 < length room.kept.items) }
{
    let walk = DirWalk::new(rt.alloc()).ok()?;
    let entries = vec![in rt.alloc(); 0u8; LIST_BYTES].ok()?;
    let kept = vec![in rt.alloc(); 0u8; kept_bytes(rt)].ok()?;
    let pages = allocate_pages(rt.alloc(), budget).ok()?;
    Some(VisitRoom {
        walk,
        entries,
        kept,
        pages,
    })
}

/// Allocates the other buffers, except those for headers, and visits all requested files.
pub fn visit_files<R: Files + Print + Input + AllocGlobal, A: FileVisitor + Drop>(
    rt: &R,
    files: VisitedPaths<'_>,
    each: A,
    buffers: LineBuffers,
    format: Format,
    terminal: Option<Stderr>,
) -> FilesEnd
where
    R::File: FileExt,
{
    let Some(room) = allocate_room(rt, files.budget) else {
        return FilesEnd::NoMemory;
    };
    let VisitRoom {
        mut walk,
        mut entries,
        kept,
        pages,
    } = room;
    let lines = TableWriter::new(io::writer(rt), format);
    let output = LineSink::new(WriteSink::new(lines), kept);
    let LineBuffers { held, location } = buffers;
    let mut many = FileRun::new(
        Out::new(DeferredSink::new(located(output, location), held)),
        each,
        format,
        terminal,
        pages,
    );
    let ended = visit_all(rt, files, &mut many, &mut walk, &mut entries);
    end_many(ended, many).0
}

/// Returns a sink over `output` that adds locations to rows, if there is a buffer for them.
fn located<W: Sink>(output: W, location: Option<Vec<u8>>) -> LocatedSink<W> {
    match location {
        Some(room) => LocatedSink::new(output, room),
        None => LocatedSink::plain(output),
    }
}

/// Returns the exit status and the line on standard error, by how a visit ended.
///
/// # Errors
/// Out of memory.
pub fn ending_line(ended: FilesEnd) -> Result<ExitLine, ExitLine>
    ensures ends { IfOk result (λ ending. EndsFiles ended ending.0 ending.1.now) }
    ensures memory { IfErr result (λ ending. EndsWithoutMemory ending.0 ending.1.now) }
{
    match ended {
        FilesEnd::Status(status) => Ok((status, "")),
        FilesEnd::NoMemory => Err(OUT_OF_MEMORY),
        FilesEnd::NotOpened => Ok(CANNOT_OPEN),
        FilesEnd::Unread => Ok(READ_FAULT),
        FilesEnd::Unwritten => Ok(WRITE_FAULT),
    }
}

/// Returns how many bytes of output are buffered before whole lines of them are written: if
/// standard output is a pipe, or cannot be examined, as many as a pipe takes atomically, so that
/// lines of several processes do not mix.
fn kept_bytes<R: Files>(rt: &R) -> usize
    ensures { 0 < result }
{
    match fs::metadata(rt, "/dev/stdout") {
        Ok(found) if !found.file_type().is_fifo() => OUTPUT_BYTES,
        _ => PIPE_BYTES,
    }
}

/// Writes the rest of the output, unless it failed. Returns how the visit ended, and the sink below
/// the output.
fn end_many<W: Sink + Drop, A: FileVisitor + Drop>(
    ended: Result<u8, FilesEnd>,
    many: FileRun<LineSink<W>, Stderr, A>,
) -> (FilesEnd, W)
    ensures { result.0 ≡ end_after (W.failed result.1) (visit_end ended) }
{
    let ended = visit_end(ended);
    let located = many.into_out().into_inner().into_inner();
    let output = located.into_inner();
    let (_, sink) = end_lines(run_end(ended), output);
    (end_after(ended, sink.failed()), sink)
}

/// Returns how a visit ended, by its status, or how it stopped.
fn visit_end(ended: Result<u8, FilesEnd>) -> FilesEnd
    ensures { result ≡ visit_end ended }
{
    match ended {
        Ok(status) => FilesEnd::Status(status),
        Err(ended) => ended,
    }
}

/// Returns how a visit ended, by whether the output failed that was written after it.
fn end_after(ended: FilesEnd, failed: bool) -> FilesEnd
    ensures { result ≡ end_after failed ended }
{
    match ended {
        FilesEnd::Status(_) if failed => FilesEnd::Unwritten,
        ended => ended,
    }
}

/// Returns how a run ended before the rest of its output is written, which is not written if the
/// output failed.
fn run_end(ended: FilesEnd) -> RunEnd {
    match ended {
        FilesEnd::Status(status) => RunEnd::Status(status),
        FilesEnd::NoMemory => RunEnd::Told(OUT_OF_MEMORY),
        FilesEnd::NotOpened => RunEnd::Told(CANNOT_OPEN),
        FilesEnd::Unread => RunEnd::Told(READ_FAULT),
        FilesEnd::Unwritten => RunEnd::Unwritten,
    }
}

/// Visits the requested paths, then those of the list, and returns the exit status.
///
/// # Errors
/// How the visit ended if the list or the output failed.
fn visit_all<R: Files + Input, W: Sink, A: FileVisitor + Drop>(
    rt: &R,
    files: VisitedPaths<'_>,
    many: &mut FileRun<W, Stderr, A>,
    walk: &mut DirWalk,
    entries: &mut [u8],
) -> Result<u8, FilesEnd>
where
    R::File: FileExt,
    ensures { IfErr result StopsFiles }
{
    if let Err(OutFault { .. }) = visit_paths(rt, many, walk, files.paths) {
        return Err(FilesEnd::Unwritten);
    }
    if let Some(list) = files.list {
        visit_listed(rt, many, walk, list, entries)?;
    }
    match many.end() {
        Ok(status) => Ok(status),
        Err(OutFault { .. }) => Err(FilesEnd::Unwritten),
    }
}

/// Visits files and directories.
///
/// # Errors
/// The output failed.
fn visit_paths<R: Files, W: Sink, A: FileVisitor + Drop>(
    rt: &R,
    many: &mut FileRun<W, Stderr, A>,
    walk: &mut DirWalk,
    paths: &[&str],
) -> Result<(), OutFault>
where
    R::File: FileExt,
{
    for path in paths {
        visit_path(rt, many, walk, path)?;
    }
    Ok(())
}

/// Visits the paths of a list; `-` is standard input.
///
/// # Errors
/// How the visit ended if the list or the output failed.
fn visit_listed<R: Files + Input, W: Sink, A: FileVisitor + Drop>(
    rt: &R,
    many: &mut FileRun<W, Stderr, A>,
    walk: &mut DirWalk,
    list: &str,
    entries: &mut [u8],
) -> Result<(), FilesEnd>
where
    R::File: FileExt,
    ensures { IfErr result StopsFiles }
{
    if list == "-" {
        return listed(visit_list(rt, many, walk, &mut rt.reader(), entries));
    }
    match fs::open(rt, list) {
        Ok(mut file) => listed(visit_list(rt, many, walk, &mut file, entries)),
        Err(_) => Err(FilesEnd::NotOpened),
    }
}

/// Returns the result of reading a list, or how the visit ended if it was not read to its end.
fn listed(answer: Result<(), ListFault>) -> Result<(), FilesEnd>
    ensures { result ≡ list_end answer }
{
    match answer {
        Ok(()) => Ok(()),
        Err(ListFault::Read) => Err(FilesEnd::Unread),
        Err(ListFault::Out(_)) => Err(FilesEnd::Unwritten),
    }
}
