//! Segments as a loader leaves them, and what their images lack.
ghost use Rattle.std.specs.Prelude.{◌≤◌, length};
ghost use Rattle.elf_hash.specs.Loading.{FitsSource};

use crate::layouts::{read_list, told};
use elf_cli::{
    CANNOT_OPEN, CommandArgs, ExitLine, OUT_OF_MEMORY, allocate, allocate_pages, end_answer,
    open_by_pages,
};
use elf_format::show_lacking_entry;
use elf_image::{
    ImageItems, ImageRequest, ItemList, ItemListFault, MissingEntries, load_image, write_image,
};
use elf_layout::{LayoutFileFault, TextEnd};
use elf_listing::show_stop;
use elf_model::Format;
use elf_source::{Counted, Out, Sink, Source, WriteSink};
use elf_table::{Fault, HeaderStore, Loaded, RunFault};
use std::alloc::Global;
use std::io::{self, BufWriter, Stderr, Write};
use std::os::unix::fs::FileExt;
use std::rt::Files;
use std::str;

/// How many bytes of a segment are held at once.
const WINDOW_BYTES: usize = 1 << 20;
/// How many bytes of a segment are written, unless the arguments say so.
const MOST_BYTES: u64 = 1 << 32;
/// The argument is not the index of a program header.
const BAD_SEGMENT: ExitLine = (2, "elfsee: bad segment");
/// The argument is not an item.
const BAD_ITEM: ExitLine = (2, "elfsee: bad item");
/// Two items of one type have the same index or address.
const REPEAT: ExitLine = (2, "elfsee: layout-repeat");

/// What is written of a file.
#[derive(Clone, Copy)]
enum Wanted {
    /// The image of the segment of a program header.
    Segment(u16),
    /// The entries that lack an item.
    Missing,
}

/// Writes a segment of the requested file as a loader leaves it, or the entries that lack an item.
/// The items of a list are read and sorted before the file is opened.
///
/// # Errors
/// Out of memory, the file or the list cannot be read, or an argument or a line is not an item, or
/// repeats one.
#[inline(never)]
pub fn write_images<R: Files + Print + AllocGlobal>(
    rt: &R,
    asked: &CommandArgs<'_>,
    errors: Stderr,
) -> Result<ExitLine, ExitLine>
where
    R::File: FileExt,
{
    let wanted = parse_wanted(asked)?;
    let mut bytes = Vec::new(rt.alloc());
    let end = match asked.layout {
        None => TextEnd::Whole,
        Some(list) => match read_list(rt, list, &mut bytes) {
            Ok(end) => end,
            Err(fault) => return Err(told(rt.alloc(), errors, fault)),
        },
    };
    let Ok(text) = str::from_utf8(&bytes) else {
        return Err(told(rt.alloc(), errors, LayoutFileFault::Read));
    };
    match gather(rt.alloc(), first_item(asked), &asked.items, text, end) {
        Ok(list) => write_listed(rt, asked, wanted, list, errors),
        Err(fault) => Err(refused_items(rt, errors, fault)),
    }
}

/// Sorts the items of a list, and writes what is wanted by them.
///
/// # Errors
/// Two items of one type have the same index or address; otherwise as for [`write_with`].
fn write_listed<R: Files + Print + AllocGlobal>(
    rt: &R,
    asked: &CommandArgs<'_>,
    wanted: Wanted,
    mut list: ItemList<'_>,
    errors: Stderr,
) -> Result<ExitLine, ExitLine>
where
    R::File: FileExt,
{
    match list.lend() {
        Ok(items) => write_with(rt, asked, wanted, &items),
        Err(fault) => Err(refused_items(rt, errors, fault)),
    }
}

/// Returns what is written.
fn parse_wanted(asked: &CommandArgs<'_>) -> Result<Wanted, ExitLine> {
    if asked.missing {
        return Ok(Wanted::Missing);
    }
    match asked.image_index {
        Some(index) if index <= 65_535 => Ok(Wanted::Segment(index as u16)),
        _ => Err(BAD_SEGMENT),
    }
}

/// Gathers the items of the arguments, `word` before the others, and of the lines of a text.
fn gather<'a>(
    alloc: Global,
    word: Option<&'a str>,
    words: &[&'a str],
    text: &'a str,
    end: TextEnd,
) -> Result<ItemList<'a>, ItemListFault> {
    let mut list = ItemList::new(alloc);
    if let Some(word) = word {
        list.push_words(&[word])?;
    }
    list.push_words(words)?;
    list.push_lines(text, end)?;
    Ok(list)
}

/// Returns the argument in the place of the segment if it is an item: if no segment is given.
fn first_item<'a>(asked: &CommandArgs<'a>) -> Option<&'a str> {
    if asked.missing { asked.image } else { None }
}

/// Returns how the program ends if the items have a fault.
fn refused_items<R: AllocGlobal>(rt: &R, errors: Stderr, fault: ItemListFault) -> ExitLine {
    match fault {
        ItemListFault::BadWord => BAD_ITEM,
        ItemListFault::BadLine(line) => { told(rt.alloc(), errors, LayoutFileFault::BadItem(line)) }
        ItemListFault::Repeat => REPEAT,
        ItemListFault::Memory => OUT_OF_MEMORY,
    }
}

/// Allocates the buffers, opens the file, and writes what is wanted of it.
///
/// # Errors
/// Out of memory, or the file cannot be opened.
fn write_with<R: Files + Print + AllocGlobal>(
    rt: &R,
    asked: &CommandArgs<'_>,
    wanted: Wanted,
    items: &ImageItems<'_>,
) -> Result<ExitLine, ExitLine>
where
    R::File: FileExt,
{
    let Some(path) = asked.file else {
        return Err(CANNOT_OPEN);
    };
    let limits = asked.caps.limits;
    let (mut room, output) = match allocate(rt.alloc(), limits.headers, io::writer(rt)) {
        Ok(buffers) => buffers,
        Err(ending) => return Err(ending),
    };
    let Ok(mut window) = vec![in rt.alloc(); 0u8; WINDOW_BYTES] else {
        return Err(OUT_OF_MEMORY);
    };
    let pages = match allocate_pages(rt.alloc(), limits.budget) {
        Ok(pages) => pages,
        Err(ending) => return Err(ending),
    };
    match open_by_pages(rt, path, pages) {
        Ok(source) => {
            let job = ImageJob {
                wanted,
                items,
                leaves: asked.leave,
                most: asked.max_write.unwrap_or(MOST_BYTES),
                budget: limits.budget,
            };
            Ok(write_job(&job, source, room.store(), &mut window, output))
        }
        Err(ending) => Err(ending),
    }
}

/// What is written of a file, by which items, and its limits.
#[derive(Clone, Copy)]
struct ImageJob<'a> {
    wanted: Wanted,
    items: &'a ImageItems<'a>,
    leaves: bool,
    most: u64,
    budget: Option<u64>,
}

/// Writes what is wanted of a file, and the rest of the output. Returns how the program ends.
#[inline(never)]
fn write_job<S: Source + Drop, W: Write + Drop>(
    job: &ImageJob<'_>,
    source: S,
    mut store: HeaderStore<'_>,
    window: &mut [u8],
    output: BufWriter<W>,
) -> ExitLine
    requires { 16 ≤ length window.old }
{
    let mut src = Counted::new(source);
    src.limit(job.budget);
    let mut out = Out::new(WriteSink::new(output));
    let answer = match answer_job(job, &mut src, &mut store, window, &mut out) {
        Ok(()) => Ok(0),
        Err(stop) => Err(show_stop(stop, Format::Columns, &mut out)),
    };
    let (ending, _output) = end_answer(&answer, out.into_inner().into_inner());
    ending
}

/// Writes what is wanted of a file.
///
/// # Errors
/// A refusal of the file, or a fault of the source or of the output.
fn answer_job<S: Source, W: Sink>(
    job: &ImageJob<'_>,
    src: &mut Counted<S>,
    store: &mut HeaderStore<'_>,
    window: &mut [u8],
    out: &mut Out<W>,
) -> Result<(), RunFault>
    requires { 16 ≤ length window.old }
{
    match job.wanted {
        Wanted::Segment(segment) => {
            let request = ImageRequest {
                segment,
                items: job.items,
                leaves: job.leaves,
                most: job.most,
            };
            write_image(src, store, &request, window, out)
        }
        Wanted::Missing => {
            src.mask_section_headers(true);
            write_missing(job, src, store, out)
        }
    }
}

/// Writes a line for each entry that lacks an item, once all entries were checked.
///
/// # Errors
/// A refusal of the file, with nothing written, or a fault of the source or of the output.
fn write_missing<S: Source, W: Sink>(
    job: &ImageJob<'_>,
    src: &mut Counted<S>,
    store: &mut HeaderStore<'_>,
    out: &mut Out<W>,
) -> Result<(), RunFault> {
    check_entries(job, src, store)?;
    write_entries(job, src, store, out)
}

/// Checks all entries.
///
/// # Errors
/// A refusal of the file, or a fault of the source.
fn check_entries<S: Source>(
    job: &ImageJob<'_>,
    src: &mut Counted<S>,
    store: &mut HeaderStore<'_>,
) -> Result<(), Fault> {
    let loaded = load_image(src, store)?;
    count_entries(job, src, loaded, store)
}

/// Goes through all entries of a loaded file that lack an item.
///
/// # Errors
/// A refusal of the file, or a fault of the source.
fn count_entries<S: Source>(
    job: &ImageJob<'_>,
    src: &mut Counted<S>,
    loaded: Loaded,
    store: &HeaderStore<'_>,
) -> Result<(), Fault>
    requires { FitsSource src.old.seen.size store.now loaded }
{
    let mut missing = MissingEntries::open(src, store, loaded, job.items)?;
    'entries: while missing.next(src)?.is_some() {}
    Ok(())
}

/// Writes a line for each entry that lacks an item.
///
/// # Errors
/// A refusal of the file, or a fault of the source or of the output.
fn write_entries<S: Source, W: Sink>(
    job: &ImageJob<'_>,
    src: &mut Counted<S>,
    store: &mut HeaderStore<'_>,
    out: &mut Out<W>,
) -> Result<(), RunFault> {
    let loaded = load_image(src, store)?;
    write_lines(job, src, loaded, store, out)
}

/// Writes a line for each entry of a loaded file that lacks an item.
///
/// # Errors
/// A refusal of the file, or a fault of the source or of the output.
fn write_lines<S: Source, W: Sink>(
    job: &ImageJob<'_>,
    src: &mut Counted<S>,
    loaded: Loaded,
    store: &HeaderStore<'_>,
    out: &mut Out<W>,
) -> Result<(), RunFault>
    requires { FitsSource src.old.seen.size store.now loaded }
{
    let mut missing = MissingEntries::open(src, store, loaded, job.items)?;
    'entries: while let Some(entry) = missing.next(src)? {
        show_lacking_entry(
            entry.at,
            entry.place,
            entry.kind,
            entry.symbol,
            entry.cause,
            out,
        )?;
    }
    Ok(())
}
