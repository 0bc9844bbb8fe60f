//! elfsee lists ELF64 files, safely and in bounded memory.
#![tactic(auto)]

mod archives;
mod images;
mod input_kinds;
mod layouts;
mod link_inputs;
mod link_texts;
mod linker_options;
mod linker_scripts;
mod linker_words;
mod lists;
mod many;
mod missing_reason;
mod names;
mod needs;
mod needs_of_files;
mod needs_report;
mod resolve;
mod script_inputs;
mod task_end;

ghost use Rattle.std.specs.Prelude.{◌≡◌, ◌⊎◌, IfErr, IfOk, map, string_bytes};
ghost use Rattle.elf_requests.specs.Prelude.{RunsTask, WordsAsk};
ghost use Rattle.elf_cli.specs.Prelude.{EndsWords};
ghost use Rattle.elf_cli.specs.declared.faults.RequestFault.{RequestFault};
ghost use Rattle.elfsee.specs.Ends.{AnswersFile, EndsRunOver, EndsTask, EndsWithoutFile, EndsWithoutMemory, told_refusal};

use archives::list_archive;
use elf_cli::{
    CommandName, ExitLine, OUT_OF_MEMORY, allocate, allocate_pages, end_answer, exit,
    open_by_pages, read_words, report_explanations, report_refused, report_version,
};
use elf_fixtures::sample;
use elf_format::TableWriter;
use elf_layout::Layout;
use elf_model::Format;
use elf_record::Refusal;
use elf_requests::{CommandRequest, ParsedCommand, Request, Task, request, run};
use elf_source::{Counted, MemorySource, Out, PageCache, Sink, Source, WriteSink};
use elf_table::{HeaderStore, RunFault};
use images::write_images;
use layouts::apply_laid;
use lists::list_files;
use many::{check_many, report_traits};
use missing_reason::report_missing_reason;
use names::show_chosen;
use needs::report_needs;
use resolve::report_link;
use std::alloc::Global;
use std::io::{self, BufWriter, Input, IsTerminal, Stderr, Write};
use std::os::unix::fs::FileExt;
use std::process::ExitCode;
use std::random::RandomSource;
use std::rt::{Env, Files};
use task_end::task_ending;

fn main(rt: HostRuntime) -> ExitCode {
    let errors = rt.stderr();
    // If the lines go to a terminal, they show the progress of the check.
    let terminal = if errors.is_terminal() && !rt.stdout().is_terminal() {
        Some(errors)
    } else {
        None
    };
    exit(&rt, answer(&rt, errors, terminal))
}

/// Parses the arguments, and carries out what they request. Messages for wrong arguments, and help,
/// are written to `errors`, and so are messages for the lines of a file of items; the progress of a
/// check of many files is shown on a terminal, if there is one that does not get the lines.
fn answer<R: Env + Files + Print + Input + RandomSource + AllocGlobal>(
    rt: &R,
    errors: Stderr,
    terminal: Option<Stderr>,
) -> Result<ExitLine, ExitLine>
where
    R::File: FileExt,
{
    let words = read_words(rt)?;
    let mut layout = match make_layout(rt.alloc()) {
        Ok(layout) => layout,
        Err(ending) => return Err(ending),
    };
    match read_request(rt.alloc(), words.as_slice(), &mut *layout, errors) {
        Ok(asked) => carry_out(rt, &asked, errors, terminal),
        Err(ending) => Err(ending),
    }
}

/// Carries out a request.
fn carry_out<R: Files + Print + Input + RandomSource + AllocGlobal>(
    rt: &R,
    asked: &ParsedCommand<'_>,
    errors: Stderr,
    terminal: Option<Stderr>,
) -> Result<ExitLine, ExitLine>
where
    R::File: FileExt,
{
    match asked {
        ParsedCommand::File(request) => answer_request(rt, request, errors),
        ParsedCommand::Laid(laying) => apply_laid(rt, laying, errors),
        ParsedCommand::Command(asked) => carry_out_command(rt, asked, errors, terminal),
    }
}

/// Carries out a command by all its arguments. Those of one file come here if they list the rows of
/// some names.
fn carry_out_command<R: Files + Print + Input + RandomSource + AllocGlobal>(
    rt: &R,
    asked: &CommandRequest<'_>,
    errors: Stderr,
    terminal: Option<Stderr>,
) -> Result<ExitLine, ExitLine>
where
    R::File: FileExt,
{
    let args = &asked.args;
    match args.command {
        CommandName::Check => check_many(rt, args, terminal),
        CommandName::List => list_files(rt, args, terminal),
        CommandName::Traits => report_traits(rt, asked, terminal),
        CommandName::Needs => report_needs(rt, args, terminal),
        CommandName::Resolve => report_link(rt, args, errors),
        CommandName::Archive => list_archive(rt, args),
        CommandName::Image => write_images(rt, args, errors),
        CommandName::Explain => report_explanations(rt, &args.causes, errors),
        CommandName::Version => report_version(rt),
        CommandName::Show
        | CommandName::Sample
        | CommandName::Find
        | CommandName::Apply
        | CommandName::Bytes => show_chosen(rt, args, errors),
    }
}

/// Allocates an empty layout: on the stack it would take a third of it.
fn make_layout(alloc: Global) -> Result<Box<Layout>, ExitLine>
    ensures { IfErr result (λ ending. EndsWithoutMemory ending.0 ending.1.now) }
{
    match Box::new(alloc, Layout::new()) {
        Ok(layout) => Ok(layout),
        Err(_) => Err(OUT_OF_MEMORY),
    }
}

/// Allocates the buffers, opens the file, and carries out the request.
fn answer_request<R: Files + Print + AllocGlobal>(
    rt: &R,
    request: &Request<'_>,
    errors: Stderr,
) -> Result<ExitLine, ExitLine>
where
    R::File: FileExt,
    ensures { IfErr result (λ ending.
        EndsWithoutMemory ending.0 ending.1.now ⊎ EndsWithoutFile ending.0 ending.1.now) }
{
    let pages = match allocate_pages(rt.alloc(), request.limits.budget) {
        Ok(pages) => pages,
        Err(ending) => return Err(ending),
    };
    let lines = TableWriter::new(io::writer(rt), format_of(&request.task));
    let (mut room, output) = match allocate(rt.alloc(), request.limits.headers, lines) {
        Ok(buffers) => buffers,
        Err(ending) => return Err(ending),
    };
    match answer_into(rt, request, room.store(), pages, output, errors) {
        Ok((ending, _output)) => Ok(ending),
        Err(ending) => Err(ending),
    }
}

/// Returns the format of the lines of a task; a section has none.
fn format_of(task: &Task<'_>) -> Format {
    match task {
        Task::Show { style, .. } => style.format,
        Task::Find { format, .. } | Task::Resolve { format, .. } => *format,
        Task::Apply { .. } | Task::Place { .. } | Task::Bytes { .. } => Format::Columns,
    }
}

/// Opens the file, and carries out the request; what is read of the file is cached in `pages`.
/// Returns how the program ends, and the sink.
///
/// # Errors
/// The file cannot be opened.
fn answer_into<R: Files + AllocGlobal, W: Write + Drop>(
    rt: &R,
    request: &Request<'_>,
    store: HeaderStore<'_>,
    pages: PageCache,
    output: BufWriter<W>,
    errors: Stderr,
) -> Result<(ExitLine, WriteSink<W>), ExitLine>
where
    R::File: FileExt,
    requires { store.slots ≡ request.now.limits.headers }
    ensures ran { IfOk result (λ ended. AnswersFile W.contents
        (RunsTask request.now.limits request.now.task) (EndsTask request.now.task)
        request.now.file output ended.0.0 ended.0.1.now ended.1) }
    ensures unopened { IfErr result (λ ending. EndsWithoutFile ending.0 ending.1.now) }
{
    let alloc = rt.alloc();
    match request.file {
        Some(path) => match open_by_pages(rt, path, pages) {
            Ok(source) => Ok(write_answer(alloc, request, source, store, output, errors)),
            Err(ending) => Err(ending),
        },
        None => {
            let source = MemorySource::new(sample());
            Ok(write_answer(alloc, request, source, store, output, errors))
        }
    }
}

/// Parses the request, and reports wrong arguments.
fn read_request<'a>(
    alloc: Global,
    words: &'a [String],
    layout: &'a mut Layout,
    errors: Stderr,
) -> Result<ParsedCommand<'a>, ExitLine>
    ensures asked { IfOk result (WordsAsk (map string_bytes words.now)) }
    ensures refused { IfErr result (λ ending. (fault : RequestFault)
        × EndsWords fault ending.0 ending.1.now) }
{
    match request(alloc, words, layout) {
        Ok(asked) => Ok(asked),
        Err(fault) => Err(report_refused(alloc, &fault, words, errors)),
    }
}

/// Carries out a request and writes the rest of the output; if the line of a refusal was written,
/// reports what would help, or which value does not fit. Returns how the program ends, and the
/// sink. It is not inlined: the stack of its caller would hold the buffers of a listing twice, once
/// for each type of source.
#[inline(never)]
fn write_answer<S: Source + Drop, W: Write + Drop>(
    alloc: Global,
    request: &Request<'_>,
    source: S,
    mut store: HeaderStore<'_>,
    output: BufWriter<W>,
    errors: Stderr,
) -> (ExitLine, WriteSink<W>)
    requires { store.slots ≡ request.now.limits.headers }
    ensures { EndsRunOver W.contents (RunsTask request.now.limits request.now.task)
        (EndsTask request.now.task) (S.seen source) output
        result.0.0 result.0.1.now result.1 }
{
    let mut src = Counted::new(source);
    let mut out = Out::new(WriteSink::new(output));
    let answer = run(request, &mut src, &mut store, &mut out);
    let (ending, output) = end_answer(&answer, out.into_inner().into_inner());
    if let Some(refusal) = refusal_told(&answer, &output) {
        report_missing_reason(alloc, request, refusal, &mut src, &mut store, errors);
    }
    let ending = task_ending(&request.task, &answer, output.failed(), ending);
    (ending, output)
}

/// Returns the refusal of a run, if its line was written: not after a fault of the output.
fn refusal_told<W: Write>(answer: &Result<u8, RunFault>, output: &WriteSink<W>) -> Option<Refusal>
    ensures { result ≡ told_refusal answer.now output.now.failed }
{
    match answer {
        Err(RunFault::Refused(refusal)) if !output.failed() => Some(*refusal),
        _ => None,
    }
}
