//! Commands built from their descriptions.
ghost use Rattle.std.specs.Prelude.{◌≡◌, IfOk};
ghost use Rattle.clap.specs.Simple.{App, new_app, with_rule};
ghost use Rattle.clap.specs.Words.{app_of};
ghost use Rattle.elf_cli.specs.Building.{IsBuilt};
ghost use Rattle.elf_cli.specs.CommandLine.{described, with_command, with_names};
ghost use Rattle.elf_cli.specs.Described.{command_row, rule_by};

use crate::arg_specs::{ArgSpec, clap_arg_of};
use crate::arguments::all_arguments;
use crate::command_args::CommandName;
use crate::texts::more_of;
use clap::Command;
use std::alloc::{AllocError, Global};

/// The description of a command.
pub(crate) struct CommandSpec {
    pub(crate) name: &'static str,
    pub(crate) command: CommandName,
    /// Another name, which says what it is for.
    pub(crate) alias: Option<&'static str>,
    /// Its bit in a set of commands.
    pub(crate) bit: u16,
    /// What help prints before the arguments.
    pub(crate) about: &'static str,
}

/// Creates a command with the given name, with what its help prints before and after its arguments.
pub(crate) fn new_command<'a>(
    alloc: Global,
    name: &'a str,
    about: &'a str,
    more: &'a str,
) -> Command<'a>
    ensures { IsBuilt (new_app name.entry.now) result }
{
    Command::new(alloc, name).about(about).after_help(more)
}

/// Returns the command for a description with its arguments.
pub(crate) fn clap_command_of<'a>(
    alloc: Global,
    command: &CommandSpec,
) -> Result<Command<'a>, AllocError>
    ensures { IfOk result (IsBuilt (described (command_row command.now))) }
{
    let mut whole = named(alloc, command)?;
    let arguments = all_arguments();
    for argument in arguments {
        if argument.commands & command.bit == command.bit {
            whole = with_argument(alloc, whole, argument)?;
        }
    }
    Ok(whole)
}

/// Creates the command for a description, with its names and without arguments.
fn named<'a>(alloc: Global, command: &CommandSpec) -> Result<Command<'a>, AllocError>
    ensures { IfOk result (IsBuilt (with_names (command_row command.now))) }
{
    let built = new_command(alloc, command.name, command.about, more_of(command.command));
    match command.alias {
        Some(name) => built.visible_alias(name),
        None => Ok(built),
    }
}

/// Returns a command with one more argument.
fn with_argument<'a>(
    alloc: Global,
    command: Command<'a>,
    argument: &ArgSpec,
) -> Result<Command<'a>, AllocError>
    ensures { (app : App) → IsBuilt app command.entry → IfOk result
        (IsBuilt (with_rule app (rule_by argument.now))) }
{
    command.arg(clap_arg_of(alloc, argument)?)
}

/// Returns a command with one more subcommand.
pub(crate) fn with_command<'a>(
    alloc: Global,
    command: Command<'a>,
    below: &CommandSpec,
) -> Result<Command<'a>, AllocError>
    ensures { (app : App) → app_of command.entry ≡ app → IfOk result (λ whole.
        app_of whole ≡ with_command app (command_row below.now)) }
{
    let below = clap_command_of(alloc, below)?;
    command.subcommand(below)
}
