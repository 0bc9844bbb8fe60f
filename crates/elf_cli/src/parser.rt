//! The parser of the command line.
ghost use Rattle.std.specs.Prelude.{◌≡◌, ◌∷◌, [], IfErr, IfOk, codes, false, map, true};
ghost use Rattle.clap.specs.Words.{app_of, subcommand_rows_of};
ghost use Rattle.elf_cli.specs.CommandLine.{program, spelled};
ghost use Rattle.elf_cli.specs.Reading.{AreMatched, AreRead, AreRefused, AreRejected};

use crate::commands::command_line;
use crate::faults::RequestFault;
use clap::{ArgMatches, Command};
use std::alloc::{AllocError, Global};
use std::convert::AsStr;

/// The command that `--version` and `-V` are short for.
static VERSION_COMMAND: [&str; 1] = ["version"];

/// Parses arguments, without the program's name: a command with the values of its arguments.
/// `--version` or `-V` alone is the command `version`.
///
/// # Errors
/// - `Words` for arguments that the command line rejects, or that request help.
/// - `Memory` if out of memory.
pub fn parse_arguments<'a, S: AsStr>(
    alloc: Global,
    words: &'a [S],
) -> Result<ArgMatches<'a>, RequestFault>
    ensures read { IfOk result (λ matches.
        AreRead (map S.text words.entry.now) (subcommand_rows_of matches)) }
    ensures refused { IfErr result (AreRefused (map S.text words.entry.now)) }
{
    match command_line(alloc) {
        Ok(mut commands) if is_version(words) => read_by(&mut commands, &VERSION_COMMAND),
        Ok(mut commands) => read_by(&mut commands, words),
        Err(AllocError) => Err(RequestFault::Memory),
    }
}

/// Returns `true` if the only argument is `--version` or `-V`.
fn is_version<S: AsStr>(words: &[S]) -> bool
    ensures given { result ≡ true → spelled (map S.text words.now) ≡ codes "version" ∷ [] }
    ensures other { result ≡ false → spelled (map S.text words.now) ≡ map S.text words.now }
{
    match words {
        [word] => word.as_str() == "--version" || word.as_str() == "-V",
        _ => false,
    }
}

/// Parses arguments by the command line.
fn read_by<'a, S: AsStr>(
    commands: &mut Command<'a>,
    words: &'a [S],
) -> Result<ArgMatches<'a>, RequestFault>
    requires { app_of commands.old ≡ program }
    ensures read { IfOk result (λ matches.
        AreMatched (map S.text words.entry.now) (subcommand_rows_of matches)) }
    ensures refused { IfErr result (AreRejected (map S.text words.entry.now)) }
{
    match commands.try_get_matches_from_mut(words) {
        Ok(matches) => Ok(matches),
        Err(error) => Err(error.into()),
    }
}
