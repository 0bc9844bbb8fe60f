//! Where the symbols of a link come from.
ghost use Rattle.std.specs.Prelude.{◌≡◌, ℕ, List, Some, None, map};
ghost use Rattle.std.specs.Io.Buffered.{writer_inner};
ghost use Rattle.elf_model.specs.LinkArchives.{files_as_inputs, names_of_files};
ghost use Rattle.elf_model.specs.LinkInputs.{LinkInputs, linked};
ghost use Rattle.elf_model.specs.LinkLines.{FileNames};
ghost use Rattle.elf_resolve.specs.Plans.{IsStaticPlan, planned_files, plan_steps};
ghost use Rattle.elf_resolve.specs.ReadBudgets.{KeepsToBudget};
ghost use Rattle.elf_resolve.specs.ResolvedInputs.{IsFresh};
ghost use Rattle.elf_resolve.specs.StaticLinks.{AreKeysListed, AreRowsNamed};
ghost use Rattle.elfsee.specs.Links.{AnswersLink, ResolvesLink, WritesLink, failure_of, lines_end};

use crate::link_inputs::FoundInputs;
use crate::linker_words::{LinkerWords, WordFault, read_linker_words};
use bumpalo::Bump;
use elf_cli::{
    CANNOT_OPEN, CommandArgs, ERROR_LINE_BYTES, ExitLine, OUT_OF_MEMORY, OUTPUT_BYTES, READ_FAULT,
    WRITE_FAULT, write_rest,
};
use elf_format::{LinePrefix, line_of, show_named};
use elf_model::Format;
use elf_resolve::{
    BudgetedFiles, InputFiles, LinkCaps, LinkFault, LinkLines, LinkPlan, Resolver, show_link,
};
use elf_source::{Out, OutFault, Sink, WriteSink};
use std::alloc::Global;
use std::hash::RandomState;
use std::io::{self, BufWriter, Stderr, Write};
use std::os::unix::fs::FileExt;
use std::random::RandomSource;
use std::rt::Files;

/// How many names of symbols are allowed, how many bytes of them, how many entries of indexes, and
/// how many files and members, unless the arguments say so.
const MOST_KEYS: u32 = 262_144;

const MOST_BYTES: u32 = 16_777_216;

const MOST_ENTRIES: u32 = 262_144;

const MOST_ROWS: u32 = 16_384;

/// How the program ends if no argument is an input.
const NO_INPUT: ExitLine = (2, "elfsee: no input files");

/// Prints where a linker would take the symbols of a link from.
///
/// # Errors
/// No argument is an input; out of memory, or a file cannot be opened or read.
#[inline(never)]
pub fn report_link<R: Files + Print + RandomSource + AllocGlobal>(
    rt: &R,
    asked: &CommandArgs<'_>,
    errors: Stderr,
) -> Result<ExitLine, ExitLine>
where
    R::File: FileExt,
{
    match read_linker_words(rt.alloc(), &asked.words) {
        Ok(words) if !words.has_input() => Err(NO_INPUT),
        Ok(words) => match resolve_words(rt, asked, &words) {
            Ok(status) => Ok((status, "")),
            Err(failure) => Err(ending_of(failure)),
        },
        Err(WordFault::Memory) => Err(OUT_OF_MEMORY),
        Err(WordFault::Refused(word)) => Err(report_word(rt.alloc(), word, errors)),
    }
}

/// Why a link has no lines, or not all.
#[derive(Clone, Copy)]
pub(crate) enum LinkFailure {
    /// Out of memory.
    Memory,
    /// A file cannot be opened.
    Open,
    /// A file cannot be read.
    Read,
    /// The output cannot be written.
    Write,
}

/// Returns how the program ends by a failure.
fn ending_of(failure: LinkFailure) -> ExitLine {
    match failure {
        LinkFailure::Memory => OUT_OF_MEMORY,
        LinkFailure::Open => CANNOT_OPEN,
        LinkFailure::Read => READ_FAULT,
        LinkFailure::Write => WRITE_FAULT,
    }
}

/// Writes the message for an argument of a linker that is refused, and returns how the program ends.
fn report_word(alloc: Global, word: &str, errors: Stderr) -> ExitLine {
    let Ok(errors) = BufWriter::with_capacity(alloc, ERROR_LINE_BYTES, errors) else {
        return OUT_OF_MEMORY;
    };
    let mut out = Out::new(WriteSink::new(errors));
    let mut front = LinePrefix {
        line: line_of(b"elfsee: word "),
        format: Format::Columns,
        key: b"",
    };
    let _ = show_named(&mut front, word.as_bytes(), false, &mut out);
    let _ = write_rest(out.into_inner().into_inner(), true);
    (2, "")
}

/// Returns the limits that the arguments set.
fn caps_of(asked: &CommandArgs<'_>) -> LinkCaps {
    let limits = asked.caps.limits;
    LinkCaps {
        headers: limits.headers,
        keys: limit_of(asked.keys, MOST_KEYS),
        key_bytes: limit_of(asked.key_bytes, MOST_BYTES),
        index: limit_of(asked.index, MOST_ENTRIES),
        rows: limit_of(asked.rows, MOST_ROWS),
    }
}

/// Returns the limit that an argument sets, or that without it.
fn limit_of(asked: Option<u64>, most: u32) -> u32 {
    match asked {
        Some(number) => u32::try_from(number).unwrap_or(u32::MAX),
        None => most,
    }
}

/// Finds the inputs of a link, resolves it and writes its lines. Returns the status.
///
/// # Errors
/// Out of memory, a file cannot be opened or read, or the output cannot be written.
fn resolve_words<R: Files + Print + RandomSource + AllocGlobal>(
    rt: &R,
    asked: &CommandArgs<'_>,
    words: &LinkerWords<'_>,
) -> Result<u8, LinkFailure>
where
    R::File: FileExt,
{
    let mut found = FoundInputs::new(rt, rt.alloc(), caps_of(asked).rows);
    let Ok(plan) = found.find_all(rt.alloc(), words) else {
        return Err(LinkFailure::Memory);
    };
    let mut files = BudgetedFiles::new(found, asked.caps.limits.budget);
    resolve_plan(rt, asked, &words.asked, &plan, &mut files)
}

/// Allocates what the limits allow, resolves a link by its plan, and writes its lines. Returns the
/// status.
///
/// # Errors
/// Those of [`resolve_words`].
fn resolve_plan<R: Print + RandomSource + AllocGlobal, F: InputFiles>(
    rt: &R,
    asked: &CommandArgs<'_>,
    names: &[&str],
    plan: &LinkPlan,
    files: &mut BudgetedFiles<F>,
) -> Result<u8, LinkFailure> {
    let caps = caps_of(asked);
    let Ok(hasher) = RandomState::new(rt) else {
        return Err(LinkFailure::Read);
    };
    let Ok(output) = BufWriter::with_capacity(rt.alloc(), OUTPUT_BYTES, io::writer(rt)) else {
        return Err(LinkFailure::Memory);
    };
    let Ok(memory) = Bump::try_with_capacity(rt.alloc(), caps.key_bytes as usize) else {
        return Err(LinkFailure::Memory);
    };
    let Ok(mut link) = Resolver::new(rt.alloc(), hasher, &caps, plan.steps.len(), &memory) else {
        return Err(LinkFailure::Memory);
    };
    write_link(&mut link, files, names, plan, lines_of(asked), output).0
}

/// Returns how the lines are written.
fn lines_of(asked: &CommandArgs<'_>) -> LinkLines {
    LinkLines {
        format: asked.caps.style.format,
        problems: asked.problems,
    }
}

/// Takes the inputs of a new link, and writes its lines and the rest of the output. Returns the
/// status, and the sink. Nothing is written if a file cannot be opened or read.
///
/// # Errors
/// Out of memory, a file cannot be opened or read, or the output cannot be written.
fn write_link<F: InputFiles, W: Write + Drop>(
    link: &mut Resolver<'_>,
    files: &mut BudgetedFiles<F>,
    asked: &[&str],
    plan: &LinkPlan,
    style: LinkLines,
    output: BufWriter<W>,
) -> (Result<u8, LinkFailure>, WriteSink<W>)
    ensures answers { (inputs : LinkInputs) (path : ℕ → List ℕ) → IsFresh link.old →
        IsStaticPlan (F.file files.old.files) plan.now → plan_steps inputs ≡ plan.now.steps.items →
        ((input : ℕ) → F.text files.old.files input ≡ Some (path input)) → link.new.end ≡ None →
        let all = planned_files (F.file files.old.files) plan.now link.old.room.headers in
        AnswersLink (ResolvesLink W.contents style (names_of_files all path) plan.now.output
        (linked (files_as_inputs all) (map (λ name. name.now) asked.now) inputs)
        link.new output result.0 result.1)
        (W.contents (writer_inner output)) (W.contents result.1.writer) result.0 }
    ensures spends { KeepsToBudget files.old.budget files.new.budget }
{
    match link.resolve(files, asked, plan) {
        Ok(()) => write_lines(link, &files.files, style, output),
        Err(fault) => (Err(failure_of(fault)), write_rest(output, false)),
    }
}

/// Returns why a link has no lines.
#[tactic(auto, unfolding(crate::specs::Links::failure_of))]
fn failure_of(fault: LinkFault) -> LinkFailure
    ensures { result ≡ failure_of fault }
{
    match fault {
        LinkFault::Open => LinkFailure::Open,
        LinkFault::Memory => LinkFailure::Memory,
        LinkFault::Read | LinkFault::Refused(_) => LinkFailure::Read,
    }
}

/// Writes the lines of a link, and the rest of the output. Returns the status, and the sink.
///
/// # Errors
/// The output cannot be written.
fn write_lines<F: InputFiles, W: Write + Drop>(
    link: &Resolver<'_>,
    files: &F,
    style: LinkLines,
    output: BufWriter<W>,
) -> (Result<u8, LinkFailure>, WriteSink<W>)
    ensures { (names : FileNames) → (link.now.end ≡ None → AreKeysListed link.now) →
        AreRowsNamed (F.text files.now) names link.now →
        WritesLink W.contents style names link.now output result.0 result.1 }
{
    let mut out = Out::new(WriteSink::new(output));
    let shown = show_link(link, files, style, &mut out);
    let rest = write_rest(out.into_inner().into_inner(), shown.is_ok());
    (lines_end(&shown, rest.failed()), rest)
}

/// Returns how a link ends whose lines were written, by whether the output failed.
///
/// # Errors
/// The output cannot be written.
#[tactic(auto, unfolding(crate::specs::Links::lines_end))]
fn lines_end(shown: &Result<u8, OutFault>, failed: bool) -> Result<u8, LinkFailure>
    ensures { result ≡ lines_end shown.now failed }
{
    match shown {
        Ok(status) if !failed => Ok(*status),
        Ok(_) | Err(_) => Err(LinkFailure::Write),
    }
}
