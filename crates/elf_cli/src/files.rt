//! The files that programs open, and the buffers for reading one.
ghost use Rattle.std.specs.Prelude.{◌≡◌, ◌≤◌, ◌⊎◌, IfErr, IfOk, codes};

use crate::exit_lines::{CANNOT_OPEN, ExitLine, OUT_OF_MEMORY, READ_FAULT};
use crate::outputs::OUTPUT_BYTES;
use elf_source::{CachedSource, FileReader, PageCache, StreamSource, opened_path};
use elf_table::HeaderBuffer;
use std::alloc::Global;
use std::fs;
use std::io::{BufWriter, Write};
use std::os::unix::fs::{FileExt, FileTypeExt};
use std::rt::Files;

/// How many pages of a file are cached: 32 MiB.
const FILE_PAGES: u16 = 8192;

/// How many are cached if there is no memory for these: 4 MiB.
const FEWER_PAGES: u16 = 1024;

/// Allocates memory for so many headers of a file, and the buffer of an output.
///
/// # Errors
/// How the program ends if it is out of memory.
pub fn allocate<W: Write + Drop>(
    alloc: Global,
    headers: u16,
    output: W,
) -> Result<(HeaderBuffer, BufWriter<W>), ExitLine>
    requires some { 1 ≤ headers }
    requires permitted { headers ≤ 65279 }
    ensures headers { IfOk result (λ buffers. buffers.0 ≡ headers) }
    ensures refused { IfErr result (λ ending. (ending.0 ≡ 3)
        × (ending.1.now ≡ codes "elfsee: out of memory")) }
{
    let Ok(room) = HeaderBuffer::new(alloc, headers) else {
        return Err(OUT_OF_MEMORY);
    };
    match BufWriter::with_capacity(alloc, OUTPUT_BYTES, output) {
        Ok(output) => Ok((room, output)),
        Err(_) => Err(OUT_OF_MEMORY),
    }
}

/// Allocates the pages of a file that are cached: 8,192, or 1,024 if there is no memory for these.
/// With a read budget there are none, since each byte that is read of the file counts.
///
/// # Errors
/// How the program ends if it is out of memory.
pub fn allocate_pages(alloc: Global, budget: Option<u64>) -> Result<PageCache, ExitLine>
    ensures { IfErr result (λ ending. (ending.0 ≡ 3)
        × (ending.1.now ≡ codes "elfsee: out of memory")) }
{
    if budget.is_some() {
        return Ok(PageCache::empty(alloc));
    }
    if let Ok(pages) = PageCache::with_room(alloc, FILE_PAGES) {
        return Ok(pages);
    }
    match PageCache::with_room(alloc, FEWER_PAGES) {
        Ok(pages) => Ok(pages),
        Err(_) => Err(OUT_OF_MEMORY),
    }
}

/// Opens a file that can be read at an offset; for `-` that on standard input. Directories, pipes
/// and sockets are not opened, so that opening does not block, unless another process puts a pipe
/// at the path after it was looked at: the standard library can't open without blocking.
///
/// # Errors
/// How the program ends where there is no such file, or where its size can't be found.
pub fn open<R: Files>(rt: &R, path: &str) -> Result<StreamSource<FileReader<R::File>>, ExitLine>
where
    R::File: FileExt,
    ensures { IfErr result (λ ending. (ending.0 ≡ 3)
        × ((ending.1.now ≡ codes "elfsee: cannot open")
        ⊎ (ending.1.now ≡ codes "elfsee: read fault"))) }
{
    let path = opened_path(path);
    let Ok(found) = fs::metadata(rt, path) else {
        return Err(CANNOT_OPEN);
    };
    let kind = found.file_type();
    if kind.is_dir() || kind.is_fifo() || kind.is_socket() {
        return Err(CANNOT_OPEN);
    }
    let Ok(file) = fs::open(rt, path) else {
        return Err(CANNOT_OPEN);
    };
    match StreamSource::over(FileReader::new(file)) {
        Ok(source) => Ok(source),
        Err(_) => Err(READ_FAULT),
    }
}

/// Opens a file as [`open`] does; what is read of it is cached in `pages`.
///
/// # Errors
/// Those of [`open`].
pub fn open_by_pages<R: Files>(
    rt: &R,
    path: &str,
    pages: PageCache,
) -> Result<CachedSource<StreamSource<FileReader<R::File>>>, ExitLine>
where
    R::File: FileExt,
    ensures { IfErr result (λ ending. (ending.0 ≡ 3)
        × ((ending.1.now ≡ codes "elfsee: cannot open")
        ⊎ (ending.1.now ≡ codes "elfsee: read fault"))) }
{
    match open(rt, path) {
        Ok(source) => Ok(CachedSource::new(source, pages)),
        Err(ending) => Err(ending),
    }
}
