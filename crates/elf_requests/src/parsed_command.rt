//! What a command line requests: something of one file, or a command with all its arguments.
use crate::requests::Request;
use elf_cli::CommandArgs;
use elf_options::RequiredTrait;

/// What a command line requests.
#[derive(Drop)]
pub enum ParsedCommand<'a> {
    /// Process one file.
    File(Request<'a>),
    /// Apply a section's relocations, with the items of a file too.
    Laid(ApplyWithLayout<'a>),
    /// Carry out a command by all its arguments: any other than `find`, `apply`, `bytes`, and a
    /// listing of all rows.
    Command(CommandRequest<'a>),
}

/// A section to apply, with the items of a file after those of its layout.
#[derive(Clone, Copy, Drop)]
pub struct ApplyWithLayout<'a> {
    /// The request for the section, with the layout given by the arguments.
    pub request: Request<'a>,
    /// The path of the file, which has one item per line.
    pub list: &'a str,
}

/// A command with its arguments.
#[derive(Drop)]
pub struct CommandRequest<'a> {
    /// The arguments, and which command it is.
    pub args: CommandArgs<'a>,
    /// The traits required of each program and library, in the order given.
    pub required: Vec<RequiredTrait<'a>>,
}
