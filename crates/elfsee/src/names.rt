//! The names whose rows are shown, and the listing of a file by them.
ghost use Rattle.std.specs.Prelude.{◌≡◌, ◌++◌, [], IfErr, IfOk};
ghost use Rattle.std.specs.List.Sorted.{IsPermutation};
ghost use Rattle.elf_options.specs.Prelude.{NeverDescend, listed_names, named_style, style_of, texts_of};
ghost use Rattle.elfsee.specs.Naming.{EndsNames, EndsWithoutNames, ShowsRowsOf};

use crate::answer_request;
use elf_cli::{CommandArgs, ExitLine, OUT_OF_MEMORY};
use elf_options::{NamesFault, gather_names, read_names, style_with_names};
use elf_requests::{Request, Task};
use elf_table::Caps;
use std::alloc::Global;
use std::fs;
use std::io::{ErrorKind, Stderr};
use std::os::unix::fs::FileExt;
use std::rt::Files;

/// Lists those rows of a file that have one of some names. The names are read and sorted, in memory
/// bounded by their number and their bytes, before the file is opened.
///
/// # Errors
/// The list of names cannot be read, or has a line that cannot be looked up. Otherwise as for
/// [`answer_request`].
#[inline(never)]
pub fn show_chosen<R: Files + Print + AllocGlobal>(
    rt: &R,
    asked: &CommandArgs<'_>,
    errors: Stderr,
) -> Result<ExitLine, ExitLine>
where
    R::File: FileExt,
{
    let mut list = Vec::new(rt.alloc());
    if let Err(ending) = read_list(rt, asked.name_list, &mut list) {
        return Err(ending);
    }
    match sorted_names(rt.alloc(), &asked.names, asked.caps.style.versions, &list) {
        Ok(names) => answer_request(rt, &request_by_names(asked.file, asked, &names), errors),
        Err(ending) => Err(ending),
    }
}

/// Reads the text of the list of names, if one is requested, into `text`, which is empty.
///
/// # Errors
/// The list cannot be read, is too large, or out of memory for it.
pub fn read_list<R: Files>(rt: &R, list: Option<&str>, text: &mut Vec<u8>) -> Result<(), ExitLine>
    requires { text.old.items ≡ [] }
    ensures { IfErr result (λ ending. EndsWithoutNames ending.0 ending.1.now) }
{
    let Some(path) = list else {
        return Ok(());
    };
    let mut file = match fs::open(rt, path) {
        Ok(file) => file,
        Err(fault) if fault.kind() == ErrorKind::OutOfMemory => return Err(OUT_OF_MEMORY),
        Err(_) => return Err(lacking(NamesFault::Read)),
    };
    match read_names(&mut file, text) {
        Ok(()) => Ok(()),
        Err(fault) => Err(lacking(fault)),
    }
}

/// Returns the names of the arguments and those of the list's text, sorted by their bytes; each may
/// have a version, or none may.
///
/// # Errors
/// A line of the list cannot be looked up, or out of memory for the names.
pub fn sorted_names<'a>(
    alloc: Global,
    names: &[&'a str],
    versions: bool,
    text: &'a [u8],
) -> Result<Vec<&'a [u8]>, ExitLine>
    ensures names { IfOk result (λ sorted.
        IsPermutation (texts_of names.now ++ listed_names text.now) (texts_of sorted.items)) }
    ensures sorted { IfOk result (λ names. NeverDescend names.items) }
    ensures refused { IfErr result (λ ending. EndsWithoutNames ending.0 ending.1.now) }
{
    match gather_names(alloc, names, text, versions) {
        Ok(names) => Ok(names),
        Err(fault) => Err(lacking(fault)),
    }
}

/// Returns these caps, with the rows of these names alone, which are sorted by their bytes.
pub fn caps_by_names<'n>(caps: &Caps<'_>, names: &'n [&'n [u8]]) -> Caps<'n>
    requires { NeverDescend names.now }
    ensures limits { result.limits ≡ caps.now.limits }
    ensures style { style_of result.style
        ≡ named_style (texts_of names.now) (style_of caps.now.style) }
{
    Caps {
        limits: caps.limits,
        style: style_with_names(caps.style, names),
    }
}

/// Returns the request for those rows of the file's listing that have one of these names, which are
/// sorted by their bytes.
fn request_by_names<'a>(
    file: Option<&'a str>,
    asked: &CommandArgs<'_>,
    names: &'a [&'a [u8]],
) -> Request<'a>
    requires { NeverDescend names.now }
    ensures file { result.file ≡ file.entry }
    ensures limits { result.limits ≡ asked.now.caps.limits }
    ensures task { ShowsRowsOf (texts_of names.now) asked.now.parts
        asked.now.caps.style result.task }
{
    let Caps { limits, style } = caps_by_names(&asked.caps, names);
    Request {
        file,
        limits,
        task: Task::Show {
            parts: asked.parts,
            style,
        },
    }
}

/// Returns how the program ends if there are no names.
fn lacking(fault: NamesFault) -> ExitLine
    ensures { EndsNames fault result.0 result.1.now }
{
    match fault {
        NamesFault::Read => (2, "elfsee: cannot read names"),
        NamesFault::TooLarge => (2, "elfsee: names too large"),
        NamesFault::BadName => (2, "elfsee: bad name"),
        NamesFault::NoNames => (2, "elfsee: no names"),
        NamesFault::Memory => OUT_OF_MEMORY,
    }
}
