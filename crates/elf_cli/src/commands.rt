//! The commands of the command line.
ghost use Rattle.std.specs.Prelude.{◌≡◌, IfOk, map};
ghost use Rattle.clap.specs.Words.{app_of};
ghost use Rattle.elf_cli.specs.CommandLine.{command_among, command_rows, program, without_command};
ghost use Rattle.elf_cli.specs.Described.{command_row};
ghost use Rattle.elf_cli.specs.Args.{command_named};

use crate::builder::{CommandSpec, clap_command_of, new_command, with_command};
use crate::command_args::CommandName;
use crate::command_sets::{
    APPLY, ARCHIVE, BYTES, CHECK, EXPLAIN, FIND, IMAGE, LIST, NEEDS, RESOLVE, SAMPLE, SHOW, TRAITS,
    VERSION,
};
use crate::texts::{ABOUT, MORE};
use clap::Command;
use std::alloc::{AllocError, Global};

// In the order of `CommandName`, which is that of help.
static COMMANDS: [CommandSpec; 14] = [
    CommandSpec {
        name: "show",
        command: CommandName::Show,
        alias: None,
        bit: SHOW,
        about: "List a whole file or parts of it",
    },
    CommandSpec {
        name: "sample",
        command: CommandName::Sample,
        alias: None,
        bit: SAMPLE,
        about: "List a small file that is built into the program",
    },
    CommandSpec {
        name: "find",
        command: CommandName::Find,
        alias: None,
        bit: FIND,
        about: "Look up a name in the file's own hash table",
    },
    CommandSpec {
        name: "apply",
        command: CommandName::Apply,
        alias: None,
        bit: APPLY,
        about: "Write a section's bytes with its relocations applied",
    },
    CommandSpec {
        name: "bytes",
        command: CommandName::Bytes,
        alias: None,
        bit: BYTES,
        about: "Write the bytes of a section or of a segment",
    },
    CommandSpec {
        name: "image",
        command: CommandName::Image,
        alias: None,
        bit: IMAGE,
        about: "Write a segment's bytes as a loader leaves them",
    },
    CommandSpec {
        name: "check",
        command: CommandName::Check,
        alias: None,
        bit: CHECK,
        about: "Check many files: which are malformed, where and why",
    },
    CommandSpec {
        name: "list",
        command: CommandName::List,
        alias: None,
        bit: LIST,
        about: "List many files, whole or parts of each",
    },
    CommandSpec {
        name: "traits",
        command: CommandName::Traits,
        alias: Some("hardening"),
        bit: TRAITS,
        about: "Print how each of many files is hardened",
    },
    CommandSpec {
        name: "needs",
        command: CommandName::Needs,
        alias: Some("deps"),
        bit: NEEDS,
        about: "Print which libraries programs need and where they are",
    },
    CommandSpec {
        name: "resolve",
        command: CommandName::Resolve,
        alias: None,
        bit: RESOLVE,
        about: "Print where a linker takes each symbol of a link from",
    },
    CommandSpec {
        name: "archive",
        command: CommandName::Archive,
        alias: None,
        bit: ARCHIVE,
        about: "List the members of an archive, such as a static library",
    },
    CommandSpec {
        name: "explain",
        command: CommandName::Explain,
        alias: None,
        bit: EXPLAIN,
        about: "Print what causes and states mean, and what to do about them",
    },
    CommandSpec {
        name: "version",
        command: CommandName::Version,
        alias: None,
        bit: VERSION,
        about: "Print the version of this program, as -V does",
    },
];

/// Returns all commands.
fn all_commands() -> &'static [CommandSpec]
    ensures { map command_row result.now ≡ command_rows }
{
    &COMMANDS
}

/// Returns the command line: all commands with their arguments and help, by which `clap` parses
/// arguments.
///
/// # Errors
/// Out of memory; nothing of it is kept then.
pub(crate) fn command_line<'a>(alloc: Global) -> Result<Command<'a>, AllocError>
    ensures { IfOk result (λ command. app_of command ≡ program) }
{
    let mut whole = program(alloc)?;
    let commands = all_commands();
    for command in commands {
        whole = with_command(alloc, whole, command)?;
    }
    Ok(whole)
}

/// Returns the program, without its commands.
fn program<'a>(alloc: Global) -> Result<Command<'a>, AllocError>
    ensures { IfOk result (λ command. app_of command ≡ without_command) }
{
    let program = new_command(alloc, "elfsee", ABOUT, MORE)
        .subcommand_value_name("COMMAND")
        .no_binary_name(true)
        .subcommand_required(true)
        .arg_required_else_help(true);
    program.bin_name("elfsee")
}

/// Returns the command of this name, of those that the command line has.
pub(crate) fn command_named(name: &str) -> CommandName
    ensures { result ≡ command_named name.now }
{
    command_among(all_commands(), name)
}

/// Returns the command of this name among these.
fn command_among(mut rows: &[CommandSpec], name: &str) -> CommandName
    ensures { result ≡ command_among (map command_row rows.entry.now) name.now }
{
    while let [row, rest @ ..] = rows {
        if name == row.name {
            return row.command;
        }
        rows = rest;
    }
    CommandName::Version
}

/// Returns the row of a command.
fn row_of(command: CommandName) -> &'static CommandSpec
    ensures { result.now.command ≡ command }
{
    &COMMANDS[command as usize]
}

/// Returns a command whose errors end in its usage.
///
/// # Errors
/// Out of memory; nothing of it is kept then.
pub(crate) fn command_with_usage<'a>(
    alloc: Global,
    command: CommandName,
) -> Result<Command<'a>, AllocError> {
    let command = row_of(command);
    let name = command.name;
    let usage = format!(in alloc; "elfsee {name}")?;
    clap_command_of(alloc, command)?.bin_name(usage.as_str())
}
