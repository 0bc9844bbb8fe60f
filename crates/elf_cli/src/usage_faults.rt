//! What is wrong with arguments that the command line accepts.
ghost use Rattle.std.specs.Prelude.{◌≡◌};
ghost use Rattle.clap.specs.Walk.{texts};
ghost use Rattle.elf_model.specs.Prelude.{VERSIONS, has};
ghost use Rattle.elf_cli.specs.UsageFaults.{are_names, has_named_rows, has_two_filters, is_name, is_of_many_files};
ghost use Rattle.elf_cli.specs.UsageFaults.{has_two_ranges, is_of_bytes, section_is_missing};
ghost use Rattle.elf_cli.specs.UsageFaults.{usage_fault, file_is_missing, gnu_option_is_missing, path_is_missing, takes_file};

use crate::command_args::{CommandArgs, CommandName};
use elf_model::SymbolFilter;
use elf_options::is_valid_row_name;
use elf_record::Parts;

/// How many names may be given as arguments.
const MOST_NAMES: usize = 64;

/// What is wrong with arguments that the command line accepts.
#[derive(Clone, Copy, Drop)]
pub enum UsageFault {
    /// One of the names of parts is that of no part.
    UnknownPart,
    /// Both JSON objects and a table are requested.
    TwoFormats,
    /// Both the defined symbols alone and the undefined ones alone are requested.
    TwoFilters,
    /// The byte whose rows are shown is no number.
    BadByte,
    /// The address whose rows are shown is no number.
    BadAddress,
    /// There are more than 64 names.
    NamesFull,
    /// One of the names cannot be looked up.
    BadName,
    /// `--gnu` is missing: only GNU listings have symbol versions, and only a loader's lookup finds
    /// the tables by the program headers.
    NoGnu,
    /// Rows are selected by name, and the shown bytes of a name are limited.
    NamesLimited,
    /// Rows are selected by name in parts of which one has no such rows.
    NoRows,
    /// There is neither a path nor a list of paths.
    NoPath,
    /// There is no file.
    NoFile,
    /// There is neither a section nor a program header whose bytes are to be written.
    NoSection,
    /// There are both.
    TwoRanges,
}

/// Returns the first fault of the arguments of a command, if they have one.
pub fn usage_fault(args: &CommandArgs<'_>) -> Option<UsageFault>
    ensures { result ≡ usage_fault args.now }
{
    if args.unknown_part().is_some() {
        return Some(UsageFault::UnknownPart);
    }
    if args.two_formats {
        return Some(UsageFault::TwoFormats);
    }
    if has_two_filters(args.caps.style.symbols) {
        return Some(UsageFault::TwoFilters);
    }
    if args.has_bad_byte() {
        return Some(UsageFault::BadByte);
    }
    if args.has_bad_address() {
        return Some(UsageFault::BadAddress);
    }
    if args.names.len() > MOST_NAMES {
        return Some(UsageFault::NamesFull);
    }
    if !are_names(&args.names, args.caps.style.versions) {
        return Some(UsageFault::BadName);
    }
    if gnu_option_is_missing(args) {
        return Some(UsageFault::NoGnu);
    }
    if args.selects_rows() && args.limits_names {
        return Some(UsageFault::NamesLimited);
    }
    if args.selects_rows() && !has_named_rows(args.parts) {
        return Some(UsageFault::NoRows);
    }
    if path_is_missing(args) {
        return Some(UsageFault::NoPath);
    }
    if file_is_missing(args) {
        return Some(UsageFault::NoFile);
    }
    if section_is_missing(args) {
        return Some(UsageFault::NoSection);
    }
    if has_two_ranges(args) {
        return Some(UsageFault::TwoRanges);
    }
    None
}

/// Returns `true` if a filter shows the defined symbols alone and the undefined ones alone.
fn has_two_filters(symbols: SymbolFilter) -> bool
    ensures { result ≡ has_two_filters symbols }
{
    symbols.defined && symbols.undefined
}

/// Returns `true` if `--gnu` is required and not given.
fn gnu_option_is_missing(args: &CommandArgs<'_>) -> bool
    ensures { result ≡ gnu_option_is_missing args.now }
{
    if args.caps.style.gnu {
        return false;
    }
    match args.command {
        CommandName::Find => args.caps.style.by_segments,
        _ => args.caps.style.versions || has_versions(args.parts),
    }
}

/// Returns `true` if symbol versions are among the parts.
fn has_versions(parts: Parts) -> bool
    ensures { result ≡ has parts.0 VERSIONS }
{
    parts.0 & Parts::VERSIONS.0 == Parts::VERSIONS.0
}

/// Returns `true` if a command of many files has neither a path nor a list of paths.
fn path_is_missing(args: &CommandArgs<'_>) -> bool
    ensures { result ≡ path_is_missing args.now }
{
    is_of_many_files(args.command) && args.paths.is_empty() && args.list.is_none()
}

/// Returns `true` if a command of one file has none.
fn file_is_missing(args: &CommandArgs<'_>) -> bool
    ensures { result ≡ file_is_missing args.now }
{
    takes_file(args.command) && args.file.is_none()
}

/// Returns `true` if a command reads many files.
fn is_of_many_files(command: CommandName) -> bool
    ensures { result ≡ is_of_many_files command }
{
    match command {
        CommandName::Check | CommandName::List | CommandName::Traits | CommandName::Needs => true,
        _ => false,
    }
}

/// Returns `true` if a command reads the file that its arguments name.
fn takes_file(command: CommandName) -> bool
    ensures { result ≡ takes_file command }
{
    match command {
        CommandName::Show
        | CommandName::Find
        | CommandName::Apply
        | CommandName::Bytes
        | CommandName::Image
        | CommandName::Archive => true,
        _ => false,
    }
}

/// Returns `true` if neither a section nor a program header is given whose bytes are to be written.
fn section_is_missing(args: &CommandArgs<'_>) -> bool
    ensures { result ≡ section_is_missing args.now }
{
    is_of_bytes(args.command) && args.wanted.is_none() && args.segment.is_none()
}

/// Returns `true` if both are given.
fn has_two_ranges(args: &CommandArgs<'_>) -> bool
    ensures { result ≡ has_two_ranges args.now }
{
    is_of_bytes(args.command) && args.wanted.is_some() && args.segment.is_some()
}

/// Returns `true` if a command writes the bytes of a section or of a program header.
fn is_of_bytes(command: CommandName) -> bool
    ensures { result ≡ is_of_bytes command }
{
    match command {
        CommandName::Bytes => true,
        _ => false,
    }
}

/// Returns `true` if these are parts whose rows are selected by name, at least one.
fn has_named_rows(parts: Parts) -> bool
    ensures { result ≡ has_named_rows parts.0 }
{
    let named = Parts::SYMBOLS.0 | Parts::RELOCS.0 | Parts::VERSIONS.0;
    parts.0 > 0 && parts.0 | named == named
}

/// Returns `true` if all arguments are names that can be looked up.
fn are_names(mut words: &[&str], versions: bool) -> bool
    ensures { result ≡ are_names versions (texts words.entry.now) }
{
    while let [word, rest @ ..] = words {
        if !is_name(word, versions) {
            return false;
        }
        words = rest;
    }
    true
}

/// Returns `true` if an argument is a name that can be looked up and, if a name may have a version,
/// has neither an empty name nor an empty version.
fn is_name(word: &str, versions: bool) -> bool
    ensures { result ≡ is_name versions word.now }
{
    is_valid_row_name(word.as_bytes(), versions)
}
