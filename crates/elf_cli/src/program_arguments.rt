//! The arguments of a program, and the messages for wrong ones.
ghost use Rattle.std.specs.Prelude.{◌≡◌, ◌≢◌, ◌⊎◌, All, IfErr, IfOk, [], codes, string_bytes};
ghost use Rattle.elf_source.specs.Output.{OutPuts};
ghost use Rattle.elf_cli.specs.Endings.{EndsWords, unknown_trait_line};
ghost use Rattle.elf_cli.specs.Marked.{byte_beside, told_beside};
ghost use Rattle.elf_cli.specs.declared.faults.RequestFault.TheVariants.{Memory};

use crate::command_args::read_args;
use crate::exit_lines::{BAD_WORDS, ExitLine, NOT_UTF8, OUT_OF_MEMORY, refused};
use crate::faults::RequestFault;
use crate::other_tools::show_tip;
use crate::outputs::{ERROR_LINE_BYTES, write_rest};
use crate::parser::parse_arguments;
use crate::usage_errors::request_fault;
use crate::usage_faults::usage_fault;
use clap::{ArgMatches, error};
use elf_format::{LinePrefix, line_of, show_escaped_text, show_named};
use elf_model::Format;
use elf_source::{Out, OutFault, Sink, WriteSink};
use std::alloc::{AllocError, Global};
use std::env;
use std::io::{BufWriter, ErrorKind, Stderr};
use std::rt::Env;

/// The message for a required trait that is not a valid one, before it.
const UNKNOWN_TRAIT: &[u8] = b"elfsee: unknown trait: ";

/// A newline of an argument, escaped.
const NEWLINE: &str = "\\x0a";

/// Returns the arguments after the program's name.
///
/// # Errors
/// How the program ends if they are not valid UTF-8, or if out of memory.
pub fn read_words<R: Env + AllocGlobal>(rt: &R) -> Result<Vec<String>, ExitLine>
    ensures told { IfErr result (λ ending. (ending.1.now ≡ codes "elfsee: out of memory")
        ⊎ (ending.1.now ≡ codes "elfsee: words are not UTF-8")) }
{
    let mut words = match env::args(rt) {
        Ok(words) => words,
        Err(fault) if fault.kind() == ErrorKind::OutOfMemory => return Err(OUT_OF_MEMORY),
        Err(_) => return Err(NOT_UTF8),
    };
    let _program = words.next();
    match words.collect(rt.alloc()) {
        Ok(words) => Ok(words),
        Err(_) => Err(OUT_OF_MEMORY),
    }
}

/// Reports why arguments are no request, and returns how the program ends: by the fault, or as for
/// lack of memory if there is none for the message. The message for wrong arguments, or for a
/// required trait that is not a valid one, and help are written to `errors`.
pub fn report_refused(
    alloc: Global,
    fault: &RequestFault,
    words: &[String],
    errors: Stderr,
) -> ExitLine
    ensures { EndsWords fault.now result.0 result.1.now
        ⊎ EndsWords Memory result.0 result.1.now }
{
    match fault {
        RequestFault::Words(told) => report_words(alloc, told, words, errors),
        RequestFault::UnknownTrait(word) => report_trait(alloc, word.as_str(), errors),
        _ => refused(fault),
    }
}

/// Writes the message for wrong arguments, or help, with each byte of an argument escaped so that
/// no terminal acts on it, and returns how the program ends. If it cannot be written, the status
/// alone reports it.
fn report_words(alloc: Global, told: &clap::Error, words: &[String], errors: Stderr) -> ExitLine
    ensures { ((result.0 ≡ 2) × (result.1.now ≡ []))
        ⊎ ((result.0 ≡ 3) × (result.1.now ≡ codes "elfsee: out of memory")) }
{
    match report_clap_error(alloc, told, words, errors) {
        Ok(()) => BAD_WORDS,
        Err(AllocError) => OUT_OF_MEMORY,
    }
}

/// Writes the message for a required trait that is not a valid one, and returns how the program
/// ends. If it cannot be written, the status alone reports it.
fn report_trait(alloc: Global, word: &str, errors: Stderr) -> ExitLine
    ensures { ((result.0 ≡ 2) × (result.1.now ≡ []))
        ⊎ ((result.0 ≡ 3) × (result.1.now ≡ codes "elfsee: out of memory")) }
{
    let Ok(errors) = BufWriter::with_capacity(alloc, ERROR_LINE_BYTES, errors) else {
        return OUT_OF_MEMORY;
    };
    let mut out = Out::new(WriteSink::new(errors));
    let _ = show_unknown_trait(word, &mut out);
    let _ = write_rest(out.into_inner().into_inner(), true);
    BAD_WORDS
}

/// Writes the message for a required trait that is not a valid one, which is escaped as names are.
///
/// # Errors
/// A fault of the output, with a prefix of the message written.
fn show_unknown_trait<W: Sink>(word: &str, out: &mut Out<W>) -> Result<(), OutFault>
    ensures { OutPuts out.old out.new result (unknown_trait_line word.now) }
{
    let mut front = LinePrefix {
        line: line_of(UNKNOWN_TRAIT),
        format: Format::Columns,
        key: b"",
    };
    show_named(&mut front, word.as_bytes(), false, out)
}

/// Writes the message for wrong arguments, or help. If it cannot be written, nothing is reported.
///
/// # Errors
/// Out of memory for the text; nothing is written then.
fn report_clap_error(
    alloc: Global,
    told: &clap::Error,
    words: &[String],
    errors: Stderr,
) -> Result<(), AllocError> {
    let text = format!(in alloc; "{told}")?;
    let marked = marked_text(alloc, words)?;
    let Ok(errors) = BufWriter::with_capacity(alloc, ERROR_LINE_BYTES, errors) else {
        return Err(AllocError);
    };
    let mut out = Out::new(WriteSink::new(errors));
    let _ = show_marked(text.as_bytes(), marked.as_bytes(), &mut out);
    if told.kind() == error::ErrorKind::UnknownArgument {
        let _ = show_tip(words, &mut out);
    }
    let _ = write_rest(out.into_inner().into_inner(), true);
    Ok(())
}

/// Returns the message for the same arguments with each newline replaced by a carriage return: so
/// newlines of arguments can be distinguished from those between lines. Empty if no argument has
/// one, or nothing is wrong.
///
/// # Errors
/// Out of memory for the text.
fn marked_text(alloc: Global, words: &[String]) -> Result<String, AllocError>
    ensures { All (λ word. All (λ byte. byte ≢ 10) (string_bytes word)) words.now →
        IfOk result (λ text. string_bytes text ≡ []) }
{
    if !words.iter().any(|word| word.as_str().contains('\n')) {
        return Ok(String::new(alloc));
    }
    let mut others: Vec<String> = Vec::new(alloc);
    for word in words {
        let other = marked_word(alloc, word.as_str())?;
        if others.push(other).is_err() {
            return Err(AllocError);
        }
    }
    match parse_arguments(alloc, others.as_slice()) {
        Ok(matches) => usage_text(alloc, &matches),
        Err(RequestFault::Words(told)) => format!(in alloc; "{told}"),
        Err(_) => Err(AllocError),
    }
}

/// Returns the message for arguments that the command line accepts; empty if they have no fault
/// with a message of its own.
///
/// # Errors
/// Out of memory for the text.
fn usage_text(alloc: Global, matches: &ArgMatches<'_>) -> Result<String, AllocError> {
    let Ok(args) = read_args(alloc, matches) else {
        return Err(AllocError);
    };
    let Some(fault) = usage_fault(&args) else {
        return Ok(String::new(alloc));
    };
    match request_fault(alloc, &args, fault) {
        RequestFault::Words(told) => format!(in alloc; "{told}"),
        _ => Ok(String::new(alloc)),
    }
}

/// Returns an argument with each newline replaced by a carriage return.
///
/// # Errors
/// Out of memory for it.
fn marked_word(alloc: Global, word: &str) -> Result<String, AllocError> {
    let mut other = String::new(alloc);
    for letter in word.chars() {
        other.push(if letter == '\n' { '\r' } else { letter })?;
    }
    Ok(other)
}

/// Writes the message for wrong arguments, using the message in which their newlines are replaced:
/// a newline that is replaced there too is an argument's, and is escaped. If that message has
/// another length, each newline is written as it is.
///
/// # Errors
/// A fault of the output, with a prefix of the text written.
fn show_marked<W: Sink>(text: &[u8], marked: &[u8], out: &mut Out<W>) -> Result<(), OutFault>
    ensures { OutPuts out.old out.new result (told_beside text.now marked.now) }
{
    if text.len() != marked.len() {
        return show_escaped_text(text, out);
    }
    for i in 0..text.len() {
        show_byte(text[i], marked[i], out)?;
    }
    out.put(&[])
}

/// Writes a byte of a text: as it is if it is a newline, and so is the byte at its place in the
/// other text; otherwise escaped as in a name.
///
/// # Errors
/// A fault of the output, with a prefix of the byte's text written.
#[tactic(auto, unfolding(crate::specs::Marked::byte_beside))]
fn show_byte<W: Sink>(byte: u8, mark: u8, out: &mut Out<W>) -> Result<(), OutFault>
    ensures { OutPuts out.old out.new result (byte_beside byte mark) }
{
    if byte == b'\n' && mark != b'\n' {
        return out.put(NEWLINE.as_bytes());
    }
    show_escaped_text(&[byte], out)
}
