//! How a program ends.
ghost use Rattle.std.specs.Prelude.{◌≡◌, IfErr, IfOk};
ghost use Rattle.std.specs.Process.{exit_status as status_of};
ghost use Rattle.elf_cli.specs.Endings.{error_line, exit_status, refused_line, refused_status};

use crate::faults::RequestFault;
use elf_table::RunFault;
use std::process::ExitCode;

/// An exit status, and a line for standard error, which is empty if there is nothing to report.
pub type ExitLine = (u8, &'static str);

/// The arguments are invalid, or help was requested: the message is printed on its own.
pub(crate) const BAD_WORDS: ExitLine = (2, "");

/// The arguments are not valid UTF-8.
pub(crate) const NOT_UTF8: ExitLine = (2, "elfsee: words are not UTF-8");

/// Out of memory.
pub const OUT_OF_MEMORY: ExitLine = (3, "elfsee: out of memory");

/// The file cannot be opened.
pub const CANNOT_OPEN: ExitLine = (3, "elfsee: cannot open");

/// The file cannot be read.
pub const READ_FAULT: ExitLine = (3, "elfsee: read fault");

/// The output cannot be written.
pub const WRITE_FAULT: ExitLine = (3, "elfsee: write fault");

/// The argument is not a name that can be looked up.
const BAD_NAME: ExitLine = (2, "elfsee: bad name");

/// The argument is neither the index nor the name of a section.
const BAD_SECTION: ExitLine = (2, "elfsee: bad section");

/// The argument is not a layout item.
const BAD_ITEM: ExitLine = (2, "elfsee: bad item");

/// There are more items of one type than a layout holds.
const LAYOUT_FULL: ExitLine = (2, "elfsee: layout-full");

/// There is another item of the same type with the same index or name.
const LAYOUT_REPEAT: ExitLine = (2, "elfsee: layout-repeat");

/// More names are given than allowed.
const NAMES_FULL: ExitLine = (2, "elfsee: too many names");

/// Returns the exit status of a run, which is 1 for a refusal, and its line on standard error,
/// which is empty for a status of 0 or 1.
pub fn outcome(answer: &Result<u8, RunFault>) -> ExitLine
    ensures status { result.0 ≡ exit_status answer.now }
    ensures line { result.1.now ≡ error_line answer.now }
{
    match answer {
        Ok(status) => (*status, ""),
        Err(RunFault::Refused(_)) => (1, ""),
        Err(RunFault::Source { .. }) => READ_FAULT,
        Err(RunFault::Out(_)) => WRITE_FAULT,
    }
}

/// Returns the exit status for arguments that are no request, and the line on standard error, which
/// is empty for `Words` and `UnknownTrait`: the fault has what their message says.
pub(crate) fn refused(fault: &RequestFault) -> ExitLine
    ensures status { result.0 ≡ refused_status fault.now }
    ensures line { result.1.now ≡ refused_line fault.now }
{
    match fault {
        RequestFault::Words(_) | RequestFault::UnknownTrait(_) => BAD_WORDS,
        RequestFault::BadName => BAD_NAME,
        RequestFault::BadSection => BAD_SECTION,
        RequestFault::NamesFull => NAMES_FULL,
        RequestFault::BadItem => BAD_ITEM,
        RequestFault::LayoutFull => LAYOUT_FULL,
        RequestFault::LayoutRepeat => LAYOUT_REPEAT,
        RequestFault::Memory => OUT_OF_MEMORY,
    }
}

/// Prints the line of an exit on standard error, if it has one, and returns its exit status. If
/// standard error cannot be written either, the status alone reports it.
pub fn exit<R: Eprint>(rt: &R, ending: Result<ExitLine, ExitLine>) -> ExitCode
    ensures ok { IfOk ending.entry (λ ending. status_of result ≡ ending.0) }
    ensures err { IfErr ending.entry (λ ending. status_of result ≡ ending.0) }
{
    let (status, line) = match ending {
        Ok(ending) => ending,
        Err(ending) => ending,
    };
    if !line.is_empty() {
        let _ = eprintln!(rt; "{line}");
    }
    ExitCode::from(status)
}
