//! The listings of many files.
ghost use Rattle.std.specs.Prelude.{◌≡◌, ◌⊎◌, IfErr};
ghost use Rattle.elf_options.specs.Prelude.{NeverDescend, named_style, style_of, texts_of};
ghost use Rattle.elfsee.specs.Ends.{EndsWithoutMemory};
ghost use Rattle.elfsee.specs.Naming.{EndsWithoutNames};

use crate::many::{LineBuffers, VisitedPaths, ending_line, visit_files};
use crate::names::{caps_by_names, read_list, sorted_names};
use elf_cli::{CommandArgs, ExitLine, OUT_OF_MEMORY};
use elf_model::Format;
use elf_table::HeaderBuffer;
use elf_walk::{HELD_BYTES, ListFiles, ListOptions};
use std::alloc::{AllocError, Global};
use std::io::{Input, Stderr};
use std::os::unix::fs::FileExt;
use std::rt::Files;

/// Lists all requested files, or those of their rows that have one of some names. The names are
/// read and sorted before the first file is opened. Progress is shown on a terminal, if there is
/// one.
///
/// # Errors
/// Out of memory, or the names cannot be read.
#[inline(never)]
pub fn list_files<R: Files + Print + Input + AllocGlobal>(
    rt: &R,
    asked: &CommandArgs<'_>,
    terminal: Option<Stderr>,
) -> Result<ExitLine, ExitLine>
where
    R::File: FileExt,
    ensures { IfErr result (λ ending. EndsWithoutNames ending.0 ending.1.now
        ⊎ EndsWithoutMemory ending.0 ending.1.now) }
{
    if !asked.selects_rows() {
        return list_with(rt, asked, &rule_of(asked), terminal);
    }
    let mut list = Vec::new(rt.alloc());
    if let Err(ending) = read_list(rt, asked.name_list, &mut list) {
        return Err(ending);
    }
    match sorted_names(rt.alloc(), &asked.names, asked.caps.style.versions, &list) {
        Ok(texts) => list_with(rt, asked, &rule_by_names(asked, &texts), terminal),
        Err(ending) => Err(ending),
    }
}

/// Returns the list rule of a request.
fn rule_of(asked: &CommandArgs<'_>) -> ListOptions<'static>
    ensures caps { result.caps ≡ asked.now.caps }
    ensures parts { result.parts ≡ asked.now.parts }
    ensures members { result.members ≡ asked.now.members }
{
    ListOptions {
        caps: asked.caps,
        parts: asked.parts,
        members: asked.members,
    }
}

/// Returns the list rule of a request, for the rows of these names, which are sorted by their
/// bytes.
fn rule_by_names<'n>(asked: &CommandArgs<'_>, names: &'n [&'n [u8]]) -> ListOptions<'n>
    requires { NeverDescend names.now }
    ensures limits { result.caps.limits ≡ asked.now.caps.limits }
    ensures style { style_of result.caps.style
        ≡ named_style (texts_of names.now) (style_of asked.now.caps.style) }
    ensures parts { result.parts ≡ asked.now.parts }
    ensures members { result.members ≡ asked.now.members }
{
    ListOptions {
        caps: caps_by_names(&asked.caps, names),
        parts: asked.parts,
        members: asked.members,
    }
}

/// Allocates the buffers, and lists files by a rule.
///
/// # Errors
/// Out of memory.
fn list_with<R: Files + Print + Input + AllocGlobal>(
    rt: &R,
    files: &CommandArgs<'_>,
    rule: &ListOptions<'_>,
    terminal: Option<Stderr>,
) -> Result<ExitLine, ExitLine>
where
    R::File: FileExt,
    ensures { IfErr result (λ ending. EndsWithoutMemory ending.0 ending.1.now) }
{
    let Ok(mut room) = HeaderBuffer::new(rt.alloc(), rule.caps.limits.headers) else {
        return Err(OUT_OF_MEMORY);
    };
    let Ok(held) = vec![in rt.alloc(); 0u8; HELD_BYTES] else {
        return Err(OUT_OF_MEMORY);
    };
    let Ok(location) = location_room(rt.alloc(), rule.caps.style.format) else {
        return Err(OUT_OF_MEMORY);
    };
    let buffers = LineBuffers { held, location };
    let lists = ListFiles::new(room.store(), *rule);
    let files = VisitedPaths {
        paths: &files.paths,
        list: files.list,
        budget: rule.caps.limits.budget,
    };
    let ended = visit_files(rt, files, lists, buffers, rule.caps.style.format, terminal);
    ending_line(ended)
}

/// Allocates the buffer for the location of a row, if lines are objects: then each has it.
///
/// # Errors
/// Out of memory.
fn location_room(alloc: Global, format: Format) -> Result<Option<Vec<u8>>, AllocError> {
    match format {
        Format::Object => Ok(Some(vec![in alloc; 0u8; HELD_BYTES]?)),
        Format::Columns | Format::Table => Ok(None),
    }
}
