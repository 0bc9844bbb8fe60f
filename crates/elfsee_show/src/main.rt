//! The commands `show`, `sample` and `version` of elfsee alone, built before the whole program.
#![tactic(auto)]

ghost use Rattle.std.specs.Prelude.{◌≡◌};

use elf_cli::{
    CommandArgs, CommandName, ExitLine, allocate, allocate_pages, end_answer, exit, open_by_pages,
    parse_show, read_words, report_refused, report_version,
};
use elf_fixtures::sample;
use elf_format::TableWriter;
use elf_listing::show;
use elf_source::{Counted, MemorySource, Out, Source, WriteSink};
use elf_table::HeaderStore;
use std::io::{self, BufWriter, Stderr, Write};
use std::os::unix::fs::FileExt;
use std::process::ExitCode;
use std::rt::{Env, Files};

fn main(rt: HostRuntime) -> ExitCode {
    exit(&rt, run(&rt, rt.stderr()))
}

/// Lists what the arguments request, or prints the version, or writes to `errors` what is wrong.
fn run<R: Env + Files + Print + AllocGlobal>(rt: &R, errors: Stderr) -> Result<ExitLine, ExitLine>
where
    R::File: FileExt,
{
    let words = read_words(rt)?;
    let args = match parse_show(rt.alloc(), words.as_slice()) {
        Ok(args) => args,
        Err(fault) => return Err(report_refused(rt.alloc(), &fault, words.as_slice(), errors)),
    };
    if let CommandName::Version = args.command {
        return report_version(rt);
    }
    let lines = TableWriter::new(io::writer(rt), args.caps.style.format);
    let (mut room, output) = allocate(rt.alloc(), args.caps.limits.headers, lines)?;
    let pages = allocate_pages(rt.alloc(), args.caps.limits.budget)?;
    match args.file {
        Some(path) => Ok(list(&args, open_by_pages(rt, path, pages)?, room.store(), output)),
        None => Ok(list(&args, MemorySource::new(sample()), room.store(), output)),
    }
}

/// Lists a file and writes the rest of the output. It is not inlined: its caller's stack would hold
/// the buffers of a listing twice, once for each type of source.
#[inline(never)]
fn list<S: Source + Drop, W: Write + Drop>(
    args: &CommandArgs<'_>,
    source: S,
    mut store: HeaderStore<'_>,
    output: BufWriter<W>,
) -> ExitLine
    requires { store.slots ≡ args.now.caps.limits.headers }
{
    let mut src = Counted::new(source);
    let mut out = Out::new(WriteSink::new(output));
    let listed = show(&mut src, &mut store, args.caps, args.parts, &mut out);
    end_answer(&listed.map(|()| 0), out.into_inner().into_inner()).0
}
