//! What a program needs.
ghost use Rattle.std.specs.Prelude.{◌≡◌, ◌||◌, if◌then◌else◌, unwrap_or};
ghost use Rattle.elfsee.specs.Needs.{EndsNeeds};

use crate::needs_of_files::list_needs_of_files;
use elf_cli::{
    CANNOT_OPEN, CommandArgs, ExitLine, OUT_OF_MEMORY, READ_FAULT, RunEnd, allocate, end_run, open,
};
use elf_format::TableWriter;
use elf_library::{FileSource, LibraryCache, NeedsFault, SystemFiles};
use elf_needs::{
    DependencyWalk, LineOptions, Listed, MOST_OBJECTS, NeedsBuffers, NeedsOptions, OpenFiles,
    OpenObjects, RootedFiles, SearchDirs, default_dirs, system_cache,
};
use elf_source::{FileReader, Out, OutFault, Sink, Source, StreamSource, WriteSink, opened_path};
use elf_table::HeaderStore;
use std::alloc::Global;
use std::fs;
use std::io::{self, BufWriter, ErrorKind, Input, Seek, Stderr, Write};
use std::os::unix::fs::FileExt;
use std::path::PathBuf;
use std::rt::Files;

/// How many paths may be tried, unless the arguments say so.
const MOST_TRIES: u64 = 100_000;

/// Lists the objects that programs need and, if requested, which object each of their symbols is
/// bound to: of one file, or of each of many.
///
/// # Errors
/// Out of memory, or the only program cannot be opened.
#[inline(never)]
pub fn report_needs<R: Files + Print + Input + AllocGlobal>(
    rt: &R,
    asked: &CommandArgs<'_>,
    terminal: Option<Stderr>,
) -> Result<ExitLine, ExitLine>
where
    R::File: FileExt,
{
    let files = RootedFiles::new(rt, asked.root, rt.alloc());
    match only_file(&files, asked) {
        Some(file) => list_needs(&files, asked, file),
        None => list_needs_of_files(&files, asked, terminal),
    }
}

/// Returns the path of the file whose needs alone are requested; `None` if there is a list of paths
/// or another path, or a directory at it. It is not inlined: the stack of its caller would hold the
/// buffers of paths while files are read.
#[inline(never)]
fn only_file<'a, R: Files>(rt: &R, files: &CommandArgs<'a>) -> Option<&'a str> {
    if files.list.is_some() || files.paths.len() != 1 {
        return None;
    }
    let file = *files.paths.first()?;
    match fs::metadata(rt, opened_path(file)) {
        Ok(found) if found.is_dir() => None,
        _ => Some(file),
    }
}

/// A program whose needs are listed, before any of its file is read.
#[derive(Drop)]
struct OpenProgram<'p, F: FileExt + Seek + Drop> {
    /// Its path.
    path: &'p str,
    /// The path with all links resolved, by which its directory is found.
    real: PathBuf<Global>,
    /// Its file.
    source: FileSource<F>,
    /// The loader's cache that is searched, if there is one.
    cache: Option<LibraryCache<FileSource<F>>>,
}

/// Opens the program, allocates the buffers, and lists what the program needs.
///
/// # Errors
/// Out of memory, or the program cannot be opened.
fn list_needs<R: Files + Print + AllocGlobal>(
    rt: &R,
    asked: &CommandArgs<'_>,
    path: &str,
) -> Result<ExitLine, ExitLine>
where
    R::File: FileExt,
{
    let program = match open_all(rt, asked, path) {
        Ok(program) => program,
        Err(ending) => return Err(ending),
    };
    let rooms = match allocate_rooms::<R>(rt, asked) {
        Ok(rooms) => rooms,
        Err(ending) => return Err(ending),
    };
    let lines = TableWriter::new(io::writer(rt), asked.caps.style.format);
    match allocate(rt.alloc(), asked.caps.limits.headers, lines) {
        Ok((mut headers, output)) => {
            Ok(needs_into(rt, asked, program, headers.store(), rooms, output))
        }
        Err(ending) => Err(ending),
    }
}

/// Opens the program at a path, and the loader's cache.
///
/// # Errors
/// Out of memory, or one of them cannot be opened.
fn open_all<'p, R: Files + AllocGlobal>(
    rt: &R,
    asked: &CommandArgs<'_>,
    path: &'p str,
) -> Result<OpenProgram<'p, R::File>, ExitLine>
where
    R::File: FileExt,
{
    let real = match rt.canonicalize(rt.alloc(), opened_path(path)) {
        Ok(real) => real,
        Err(error) if error.kind() == ErrorKind::OutOfMemory => return Err(OUT_OF_MEMORY),
        Err(_) => return Err(CANNOT_OPEN),
    };
    let source = match open_program(rt, path) {
        Ok(source) => source,
        Err(ending) => return Err(ending),
    };
    match loader_cache(rt, asked) {
        Ok(cache) => Ok(OpenProgram {
            path,
            real,
            source,
            cache,
        }),
        Err(ending) => Err(ending),
    }
}

/// Allocates the buffers of a walk, and room for the objects that it keeps open.
///
/// # Errors
/// Out of memory.
pub fn allocate_rooms<R: Files + AllocGlobal>(
    rt: &R,
    asked: &CommandArgs<'_>,
) -> Result<(NeedsBuffers, OpenFiles<R::File>), ExitLine>
where
    R::File: FileExt,
{
    let Ok(room) = NeedsBuffers::new(rt.alloc()) else {
        return Err(OUT_OF_MEMORY);
    };
    match OpenObjects::new(rt.alloc(), MOST_OBJECTS, asked.symbols || asked.unused) {
        Ok(opened) => Ok((room, opened)),
        Err(_) => Err(OUT_OF_MEMORY),
    }
}

/// Lists the objects that an open program needs to an output.
fn needs_into<R: Files + AllocGlobal, W: Write + Drop>(
    rt: &R,
    asked: &CommandArgs<'_>,
    program: OpenProgram<'_, R::File>,
    store: HeaderStore<'_>,
    rooms: (NeedsBuffers, OpenFiles<R::File>),
    output: BufWriter<W>,
) -> ExitLine
where
    R::File: FileExt,
{
    let (room, mut opened) = rooms;
    let OpenProgram {
        path,
        real,
        source,
        cache,
    } = program;
    let mut system = SystemFiles::new(rt, cache);
    let object = system.program(source, real.as_str().as_bytes());
    let out = Out::new(WriteSink::new(output));
    let default = last_dirs(rt, asked);
    let mut walk = DependencyWalk::new(&settings(asked, default), store, room, out);
    let listed = walk.list(
        &mut system,
        object,
        path.as_bytes(),
        real.as_str().as_bytes(),
        &mut opened,
    );
    let listed = list_after(&mut walk, listed, asked.symbols, asked.unused, &mut opened);
    end_run(ended(listed), walk.into_out().into_inner().into_inner()).0
}

/// Opens the file at a path. It is not inlined: the stack of its caller would hold the buffer of the
/// path while files are read.
///
/// # Errors
/// The file cannot be opened.
#[inline(never)]
pub fn open_program<R: Files>(
    rt: &R,
    path: &str,
) -> Result<StreamSource<FileReader<R::File>>, ExitLine>
where
    R::File: FileExt,
{
    open(rt, path)
}

/// Writes what follows the lines of the objects, if all are listed: the versions that they need and
/// that are not there and, if requested, which object each symbol is bound to, and which libraries
/// the program does not use. Returns the exit status.
///
/// # Errors
/// Those of listing the objects; a read or the output failed.
pub fn list_after<S: Source + Drop, W: Sink>(
    walk: &mut DependencyWalk<'_, '_, W>,
    listed: Result<Listed, NeedsFault>,
    symbols: bool,
    unused: bool,
    opened: &mut OpenObjects<S>,
) -> Result<u8, NeedsFault> {
    let Listed { status, whole } = listed?;
    if !whole {
        return Ok(status);
    }
    let Listed { status, whole } = walk.check_versions(opened)?;
    let status = if symbols && whole {
        walk.bind(opened)?
    } else {
        status
    };
    if unused && whole {
        return walk.list_unused(opened);
    }
    Ok(status)
}

/// Opens the loader's cache that is searched, if there is one.
///
/// # Errors
/// A cache that is given cannot be opened, or the system's for a fault of the system.
pub fn loader_cache<R: Files>(
    rt: &R,
    asked: &CommandArgs<'_>,
) -> Result<Option<LibraryCache<StreamSource<FileReader<R::File>>>>, ExitLine>
where
    R::File: FileExt,
{
    if asked.no_cache {
        return Ok(None);
    }
    if let Some(path) = asked.cache {
        return match open(rt, path) {
            Ok(source) => Ok(Some(LibraryCache::new(source))),
            Err(ending) => Err(ending),
        };
    }
    match system_cache(rt, asked.root.as_bytes()) {
        Ok(cache) => Ok(cache),
        Err(NeedsFault::Read) => Err(READ_FAULT),
        Err(NeedsFault::Open | NeedsFault::Out(_)) => Err(CANNOT_OPEN),
    }
}

/// Returns the directories that are searched last: those that are given, or those of the system.
pub fn last_dirs<'a, R: Files>(rt: &R, asked: &CommandArgs<'a>) -> &'a [u8] {
    match asked.default {
        Some(text) => text.as_bytes(),
        None => default_dirs(rt, asked.root.as_bytes()),
    }
}

/// Returns the settings of a walk, with the directories that are searched last.
pub fn settings<'a>(asked: &CommandArgs<'a>, default: &'a [u8]) -> NeedsOptions<'a>
    ensures library { result.directories.library.now ≡ asked.now.library_path.now }
    ensures default { result.directories.default.now ≡ default.now }
    ensures root { result.directories.root.now ≡ asked.now.root.now }
    ensures budget { result.budget ≡ asked.now.caps.limits.budget }
    ensures tries { result.tries ≡ unwrap_or asked.now.max_tries 100000 }
    ensures format { result.lines.format ≡ asked.now.caps.style.format }
    ensures problems { result.lines.problems ≡ asked.now.problems }
{
    NeedsOptions {
        directories: SearchDirs {
            library: asked.library_path.as_bytes(),
            default,
            root: asked.root.as_bytes(),
        },
        budget: asked.caps.limits.budget,
        tries: asked.max_tries.unwrap_or(MOST_TRIES),
        lines: LineOptions {
            format: asked.caps.style.format,
            problems: asked.problems,
        },
    }
}

/// Returns how a run ended, by the result of a walk.
fn ended(listed: Result<u8, NeedsFault>) -> RunEnd
    ensures { EndsNeeds listed result }
{
    match listed {
        Ok(status) => RunEnd::Status(status),
        Err(NeedsFault::Read) => RunEnd::Told(READ_FAULT),
        Err(NeedsFault::Open) => RunEnd::Told(CANNOT_OPEN),
        Err(NeedsFault::Out(OutFault { .. })) => RunEnd::Unwritten,
    }
}
