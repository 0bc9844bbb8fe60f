//! Applies a section with the items of a file.
ghost use Rattle.std.specs.Prelude.{◌≡◌, [], Ok, Err, IfErr, IfOk};
ghost use Rattle.elf_model.specs.Placing.{Layout as Given};
ghost use Rattle.elf_layout.specs.Listed.{AreReordered, AreSorted, Gathers};
ghost use Rattle.elfsee.specs.Layouts.{EndsItems, EndsBadLine, PlacesIn};

use crate::answer_request;
use elf_cli::{ExitLine, OUT_OF_MEMORY};
use elf_layout::{Addresses, BorrowedLayout, Items, Layout, LayoutFileFault, TextEnd, read_text};
use elf_requests::{ApplyWithLayout, Request, Task};
use std::alloc::Global;
use std::io::{ErrorKind, Stderr, Write};
use std::os::unix::fs::FileExt;
use std::rt::Files;
use std::{fs, str};

/// How many bytes of the file of items are read at once.
const PIECE_BYTES: usize = 65_536;

/// Applies a section with the items of a file after those given by arguments. The file is read and
/// its items are sorted, in memory bounded by its size, before the object file is opened.
///
/// # Errors
/// The file of items cannot be read, or a line of it is not an item, or repeats one: standard error
/// names the line. Otherwise as for [`answer_request`].
pub fn apply_laid<R: Files + Print + AllocGlobal>(
    rt: &R,
    asked: &ApplyWithLayout<'_>,
    errors: Stderr,
) -> Result<ExitLine, ExitLine>
where
    R::File: FileExt,
{
    let Task::Apply {
        section,
        layout,
        explain,
    } = asked.request.task
    else {
        return answer_request(rt, &asked.request, errors);
    };
    let mut bytes = Vec::new(rt.alloc());
    let end = match read_list(rt, asked.list, &mut bytes) {
        Ok(end) => end,
        Err(fault) => return Err(told(rt.alloc(), errors, fault)),
    };
    let Ok(text) = str::from_utf8(&bytes) else {
        return Err(told(rt.alloc(), errors, LayoutFileFault::Read));
    };
    let items = match sorted_items(rt.alloc(), layout, text, end) {
        Ok(items) => items,
        Err(fault) => return Err(told(rt.alloc(), errors, fault)),
    };
    match items.lend(text) {
        Ok(lent) => apply_lent(rt, &asked.request, section, explain, &lent, errors),
        Err(fault) => Err(told(rt.alloc(), errors, fault)),
    }
}

/// Reads the text of a file of items.
///
/// # Errors
/// The file cannot be read, is too large, or out of memory for it.
pub fn read_list<R: Files + AllocGlobal>(
    rt: &R,
    path: &str,
    text: &mut Vec<u8>,
) -> Result<TextEnd, LayoutFileFault>
    requires { text.old.items ≡ [] }
{
    let mut file = match fs::open(rt, path) {
        Ok(file) => file,
        Err(fault) if fault.kind() == ErrorKind::OutOfMemory => return Err(LayoutFileFault::Memory),
        Err(_) => return Err(LayoutFileFault::Read),
    };
    let Ok(mut room) = vec![in rt.alloc(); 0u8; PIECE_BYTES] else {
        return Err(LayoutFileFault::Memory);
    };
    read_text(&mut file, &mut room, text)
}

/// Returns the items of a layout and of the lines of a text, sorted.
fn sorted_items<'a>(
    alloc: Global,
    layout: &'a Layout,
    text: &'a str,
    end: TextEnd,
) -> Result<Items<'a>, LayoutFileFault>
    ensures sorted { IfOk result AreSorted }
    ensures same { IfOk result (λ items. (given : Given)
        × Gathers layout.now text.now end (Ok given) × AreReordered given items) }
    ensures refused { IfErr result (λ fault. Gathers layout.now text.now end (Err fault)) }
{
    let mut items = match Items::gather(alloc, layout, text, end) {
        Ok(items) => items,
        Err(fault) => return Err(fault),
    };
    items.sort();
    Ok(items)
}

/// Applies a section of the requested file in a borrowed layout.
fn apply_lent<R: Files + Print + AllocGlobal>(
    rt: &R,
    asked: &Request<'_>,
    section: u16,
    explain: bool,
    lent: &BorrowedLayout<'_>,
    errors: Stderr,
) -> Result<ExitLine, ExitLine>
where
    R::File: FileExt,
{
    let addresses = Addresses::lent(lent);
    let request = placed(asked, section, &addresses, explain);
    answer_request(rt, &request, errors)
}

/// Returns a request for the file of another request: to apply one of its sections with these
/// addresses.
fn placed<'a>(
    asked: &Request<'a>,
    section: u16,
    addresses: &'a Addresses<'a>,
    explain: bool,
) -> Request<'a>
    ensures file { result.file ≡ asked.now.file }
    ensures limits { result.limits ≡ asked.now.limits }
    ensures task { PlacesIn section addresses.now explain result.task }
{
    Request {
        file: asked.file,
        limits: asked.limits,
        task: Task::Place {
            section,
            addresses,
            explain,
        },
    }
}

/// Returns how the program ends if the items of a file have a fault. A message for the line is
/// written to `errors`; if it cannot be, the status alone reports it.
pub fn told(alloc: Global, errors: Stderr, fault: LayoutFileFault) -> ExitLine
    ensures { EndsItems fault result.0 result.1.now }
{
    match fault {
        LayoutFileFault::Read => (2, "elfsee: cannot read layout"),
        LayoutFileFault::TooLarge => (2, "elfsee: layout too large"),
        LayoutFileFault::BadItem(line) => report_line(alloc, errors, "bad item", line),
        LayoutFileFault::Repeats(line) => report_line(alloc, errors, "layout-repeat", line),
        LayoutFileFault::Memory => OUT_OF_MEMORY,
    }
}

/// Writes a message for a line, and returns how the program ends.
fn report_line(alloc: Global, mut errors: Stderr, what: &str, line: u64) -> ExitLine
    ensures { EndsBadLine result.0 result.1.now }
{
    let Ok(text) = format!(in alloc; "elfsee: {what} in line {line}\n") else {
        return OUT_OF_MEMORY;
    };
    let _ = errors.write_all(text.as_bytes());
    (2, "")
}
