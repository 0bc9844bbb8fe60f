//! Messages for arguments that the command line accepts though they have a fault.
ghost use Rattle.std.specs.Prelude.{◌≡◌, IfOk};
ghost use Rattle.clap.specs.Values.{kind_of};
ghost use Rattle.clap.specs.declared.error.kind.ErrorKind.TheVariants.{Format};
ghost use Rattle.elf_cli.specs.Faults.{IsUnasked};
ghost use Rattle.elf_cli.specs.UsageFaults.{ReportsUsage};

use crate::command_args::{CommandArgs, CommandName};
use crate::commands::command_with_usage;
use crate::faults::RequestFault;
use crate::part_names::known_parts;
use crate::usage_faults::UsageFault;
use clap::Error;
use clap::error::ErrorKind;
use std::alloc::{AllocError, Global};

/// Returns the fault that reports one of a command's arguments.
pub fn request_fault(alloc: Global, args: &CommandArgs<'_>, fault: UsageFault) -> RequestFault
    ensures { ReportsUsage fault result }
{
    let command = args.command;
    match fault {
        UsageFault::UnknownPart => unknown_part_error(alloc, args),
        UsageFault::TwoFormats => usage_error(
            alloc,
            command,
            "the argument '--json' cannot be used with '--table'",
        ),
        UsageFault::TwoFilters => usage_error(
            alloc,
            command,
            "the argument '--defined' cannot be used with '--undefined'",
        ),
        UsageFault::BadByte => bad_number_error(alloc, command, args.at, "--at <PLACE>"),
        UsageFault::BadAddress => {
            bad_number_error(alloc, command, args.address, "--address <ADDR>")
        }
        UsageFault::NamesFull => RequestFault::NamesFull,
        UsageFault::BadName => RequestFault::BadName,
        UsageFault::NoGnu => usage_error(
            alloc,
            command,
            "the following required arguments were not provided:\n  --gnu",
        ),
        UsageFault::NamesLimited => usage_error(
            alloc,
            command,
            "the argument '--names <N>' cannot be used with '--name <NAME>'",
        ),
        UsageFault::NoRows => usage_error(
            alloc,
            command,
            "with '--name <NAME>' the part is symbols, relocs or, with '--gnu', versions",
        ),
        UsageFault::NoPath => usage_error(
            alloc,
            command,
            "the following required arguments were not provided:\n  <PATH>",
        ),
        UsageFault::NoFile => usage_error(
            alloc,
            command,
            "the following required arguments were not provided:\n  <FILE>",
        ),
        UsageFault::NoSection => usage_error(
            alloc,
            command,
            "the following required arguments were not provided:\n  <SECTION>",
        ),
        UsageFault::TwoRanges => usage_error(
            alloc,
            command,
            "the argument '--segment <N>' cannot be used with '[SECTION]'",
        ),
    }
}

/// Returns the fault that reports a byte or an address that is no number.
fn bad_number_error(
    alloc: Global,
    command: CommandName,
    text: Option<&str>,
    option: &str,
) -> RequestFault
    ensures { IsUnasked result }
{
    match bad_number_message(alloc, text.unwrap_or(""), option) {
        Ok(message) => usage_error(alloc, command, message.as_str()),
        Err(AllocError) => RequestFault::Memory,
    }
}

/// Returns the message with that text.
fn bad_number_message(alloc: Global, text: &str, option: &str) -> Result<String, AllocError> {
    format!(in alloc;
        "invalid value '{text}' for '{option}': it is no number below 2^64, as in 1024 or 0x400"
    )
}

/// Returns the fault that reports the first name of a part that no part has.
fn unknown_part_error(alloc: Global, args: &CommandArgs<'_>) -> RequestFault
    ensures { IsUnasked result }
{
    match unknown_part_message(alloc, args) {
        Ok(message) => usage_error(alloc, args.command, message.as_str()),
        Err(AllocError) => RequestFault::Memory,
    }
}

/// Returns the message with that name and with the names of all parts.
fn unknown_part_message(alloc: Global, args: &CommandArgs<'_>) -> Result<String, AllocError> {
    let name = args.unknown_part().unwrap_or("");
    let known = known_parts(alloc, args.is_archive())?;
    format!(in alloc; "invalid value '{name}' for '--only <PART>'\n  [possible values: {known}]")
}

/// Returns the fault of a program that only lists one file, for other commands and for rows that
/// are selected by name.
pub(crate) fn not_listed(alloc: Global) -> RequestFault
    ensures { IsUnasked result }
{
    usage_error(
        alloc,
        CommandName::Show,
        "this program has only the commands show, sample and version, without '--name'",
    )
}

/// Returns the fault of arguments without a command.
pub(crate) fn without_command(alloc: Global) -> RequestFault
    ensures { IsUnasked result }
{
    usage_error(alloc, CommandName::Show, "there is no command")
}

/// Returns the fault with a message, followed by the usage of a command.
fn usage_error(alloc: Global, command: CommandName, message: &str) -> RequestFault
    ensures { IsUnasked result }
{
    match error_with_usage(alloc, command, message) {
        Ok(error) => error.into(),
        Err(AllocError) => RequestFault::Memory,
    }
}

/// Returns the error with a message, followed by the usage of a command.
fn error_with_usage(alloc: Global, command: CommandName, message: &str) -> Result<Error, AllocError>
    ensures { IfOk result (λ error. kind_of error ≡ Format) }
{
    let mut command = command_with_usage(alloc, command)?;
    command.error(ErrorKind::Format, message)
}
