//! What each of many programs needs.
ghost use Rattle.std.specs.Prelude.{◌≡◌};

use crate::many::{LineBuffers, VisitedPaths, ending_line, visit_files};
use crate::needs::{allocate_rooms, last_dirs, loader_cache, settings};
use crate::needs_report::{NeedsReport, NeedsRule};
use elf_cli::{CommandArgs, ExitLine, OUT_OF_MEMORY};
use elf_library::SystemFiles;
use elf_table::HeaderBuffer;
use std::io::{Input, Stderr};
use std::os::unix::fs::FileExt;
use std::rt::Files;

/// Lists the objects that each of many programs needs, in memory that is allocated once. Progress
/// is shown on a terminal, if there is one.
///
/// # Errors
/// Out of memory.
#[inline(never)]
pub fn list_needs_of_files<R: Files + Print + Input + AllocGlobal>(
    rt: &R,
    asked: &CommandArgs<'_>,
    terminal: Option<Stderr>,
) -> Result<ExitLine, ExitLine>
where
    R::File: FileExt,
{
    let Ok(headers) = HeaderBuffer::new(rt.alloc(), asked.caps.limits.headers) else {
        return Err(OUT_OF_MEMORY);
    };
    let rooms = match allocate_rooms::<R>(rt, asked) {
        Ok(rooms) => rooms,
        Err(ending) => return Err(ending),
    };
    let cache = match loader_cache(rt, asked) {
        Ok(cache) => cache,
        Err(ending) => return Err(ending),
    };
    let system = SystemFiles::new(rt, cache);
    let report = NeedsReport::new(
        rt,
        system,
        rule_of(asked, last_dirs(rt, asked)),
        headers,
        rooms,
    );
    let buffers = LineBuffers {
        held: Vec::new(rt.alloc()),
        location: None,
    };
    let format = asked.caps.style.format;
    let files = VisitedPaths {
        paths: &asked.paths,
        list: asked.list,
        budget: asked.caps.limits.budget,
    };
    let ended = visit_files(rt, files, report, buffers, format, terminal);
    ending_line(ended)
}

/// Returns the rule by which a request lists the needs of each file, with the directories that are
/// searched last.
fn rule_of<'a>(asked: &CommandArgs<'a>, default: &'a [u8]) -> NeedsRule<'a>
    ensures limits { result.limits ≡ asked.now.caps.limits }
    ensures format { result.options.lines.format ≡ asked.now.caps.style.format }
    ensures problems { result.options.lines.problems ≡ asked.now.problems }
    ensures symbols { result.symbols ≡ asked.now.symbols }
    ensures unused { result.unused ≡ asked.now.unused }
{
    NeedsRule {
        limits: asked.caps.limits,
        options: settings(asked, default),
        symbols: asked.symbols,
        unused: asked.unused,
    }
}
