//! The arguments that request a listing of one file, or the version.
ghost use Rattle.std.specs.Prelude.{◌≡◌, IfErr, IfOk, map};
ghost use Rattle.clap.specs.Words.{subcommand_rows_of};
ghost use Rattle.elf_cli.specs.Listings.{ListsBy, ListsNothing, WordsShow, ShowsNothing, is_listing};

use crate::command_args::{CommandArgs, CommandName, read_args};
use crate::faults::RequestFault;
use crate::parser::parse_arguments;
use crate::usage_errors::{not_listed, request_fault};
use crate::usage_faults::usage_fault;
use clap::ArgMatches;
use std::alloc::Global;
use std::convert::AsStr;

/// Parses the arguments of the whole command line, without the program's name, as a request for a
/// listing of one file, of all its rows, or for the version.
///
/// # Errors
/// - `Words` for arguments that request neither, or help.
/// - `Memory` if out of memory.
pub fn parse_show<'a, S: AsStr>(
    alloc: Global,
    words: &'a [S],
) -> Result<CommandArgs<'a>, RequestFault>
    ensures asked { IfOk result (WordsShow (map S.text words.entry.now)) }
    ensures refused { IfErr result (ShowsNothing (map S.text words.entry.now)) }
{
    let matches = parse_arguments(alloc, words)?;
    listed_by(alloc, &matches)
}

/// Returns the arguments of a command line, which request a listing of one file or the version.
///
/// # Errors
/// They request neither, or have a fault; out of memory for them.
fn listed_by<'a>(alloc: Global, matches: &ArgMatches<'a>) -> Result<CommandArgs<'a>, RequestFault>
    ensures asked { IfOk result (ListsBy (subcommand_rows_of matches.now)) }
    ensures refused { IfErr result (ListsNothing (subcommand_rows_of matches.now)) }
{
    let args = read_args(alloc, matches)?;
    if !is_listing(&args) {
        return Err(not_listed(alloc));
    }
    match usage_fault(&args) {
        Some(fault) => Err(request_fault(alloc, &args, fault)),
        None => Ok(args),
    }
}

/// Returns `true` if arguments request a listing of one file, of all its rows, or the version.
fn is_listing(args: &CommandArgs<'_>) -> bool
    ensures { result ≡ is_listing args.now }
{
    match args.command {
        CommandName::Show | CommandName::Sample | CommandName::Version => !args.selects_rows(),
        _ => false,
    }
}
