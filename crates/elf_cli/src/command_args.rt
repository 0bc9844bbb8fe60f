//! The arguments of a command.
ghost use Rattle.std.specs.Prelude.{◌≡◌, ◌||◌, IfErr, IfOk, Some, codes, is_some};
ghost use Rattle.clap.specs.Walk.{first_of, rows_of};
ghost use Rattle.clap.specs.Words.{found_of, subcommand_rows_of};
ghost use Rattle.elf_cli.specs.Args.{AreArgs, AreCapOptions, AreOptions, IsUnread, command_named};
ghost use Rattle.elf_cli.specs.Options.{is_option_set};
ghost use Rattle.elf_cli.specs.declared.faults.RequestFault.TheVariants.{Memory};

use crate::commands::command_named;
use crate::faults::RequestFault;
use crate::options::Options;
use crate::part_names::unknown_part;
use crate::usage_errors::without_command;
use clap::ArgMatches;
use elf_model::PlaceFilter;
use elf_options::RowFilter;
use elf_record::Parts;
use elf_table::{Caps, Limits, ListingStyle, NameLimit};
use std::alloc::{AllocError, Global};

/// The name of a command.
#[derive(Clone, Copy, Drop)]
pub enum CommandName {
    /// Lists a file.
    Show,
    /// Lists the sample, a file that the program contains.
    Sample,
    /// Looks up a name.
    Find,
    /// Writes a section with its relocations applied.
    Apply,
    /// Writes the bytes of a section or of a program header.
    Bytes,
    /// Writes a segment as a loader leaves it.
    Image,
    /// Checks many files.
    Check,
    /// Lists many files.
    List,
    /// Prints how each of many files is hardened.
    Traits,
    /// Prints the libraries that programs need.
    Needs,
    /// Prints where a linker takes symbols from.
    Resolve,
    /// Lists an archive.
    Archive,
    /// Prints what causes and states mean.
    Explain,
    /// Prints the version of the program.
    Version,
}

/// The arguments of a command, those of all commands in one type: an argument that a command does
/// not have, or that is not given, is absent or empty.
#[derive(Drop)]
pub struct CommandArgs<'a> {
    /// The command.
    pub command: CommandName,
    /// The path of the file or of the archive.
    pub file: Option<&'a str>,
    /// The name to look up.
    pub name: &'a str,
    /// The index of the section to write.
    pub section: u16,
    /// The section whose bytes are written, by its index or its name.
    pub wanted: Option<&'a str>,
    /// The index of that section, if it is given by a number.
    pub wanted_index: Option<u64>,
    /// The index of the program header whose bytes are written.
    pub segment: Option<u64>,
    /// The items of a layout.
    pub items: Vec<&'a str>,
    /// The path of a file with more items, one per line.
    pub layout: Option<&'a str>,
    /// Whether the item that would help is printed if an address is missing.
    pub explain: bool,
    /// The paths of files and directories.
    pub paths: Vec<&'a str>,
    /// The causes and states to explain.
    pub causes: Vec<&'a str>,
    /// The path of a file with more paths, each ended by NUL; `-` is standard input.
    pub list: Option<&'a str>,
    /// Whether the members of archives are read too.
    pub members: bool,
    /// How many headers are allowed, how many bytes may be read, and how rows are shown, before any
    /// is selected by name.
    pub caps: Caps<'static>,
    /// Whether both JSON objects and a table are requested.
    pub two_formats: bool,
    /// Whether a limit on the shown bytes of a name is given.
    pub limits_names: bool,
    /// The names of the parts of a listing, separated by commas.
    pub only: Option<&'a str>,
    /// The parts of a listing.
    pub parts: Parts,
    /// The names whose rows alone are shown, if there are any, or a file of names.
    pub names: Vec<&'a str>,
    /// The path of a file with more such names, one per line.
    pub name_list: Option<&'a str>,
    /// The byte of the file whose rows alone are shown.
    pub at: Option<&'a str>,
    /// The address whose rows alone are shown.
    pub address: Option<&'a str>,
    /// The required traits, separated by commas.
    pub require: Option<&'a str>,
    /// The directories that are searched before those of DT_RUNPATH, separated by colons.
    pub library_path: &'a str,
    /// The directories that are searched last, separated by colons.
    pub default: Option<&'a str>,
    /// The root directory for paths that begin with a slash.
    pub root: &'a str,
    /// The path of the loader's cache that is searched, in place of the system's.
    pub cache: Option<&'a str>,
    /// Whether no loader's cache is searched: it is left out, or the directories that are searched
    /// last are given.
    pub no_cache: bool,
    /// How many paths may be tried for a program.
    pub max_tries: Option<u64>,
    /// Whether the object that each symbol is bound to is printed too.
    pub symbols: bool,
    /// Whether the libraries are printed too that a program needs itself and does not use.
    pub unused: bool,
    /// Whether only lines are written that make the status 1.
    pub problems: bool,
    /// The program header whose segment is written as a loader leaves it.
    pub image: Option<&'a str>,
    /// The index of that program header, if it is given by a number.
    pub image_index: Option<u64>,
    /// How many bytes of a segment may be written.
    pub max_write: Option<u64>,
    /// Whether the entries that lack an item are printed, in place of the segment.
    pub missing: bool,
    /// Whether an entry that lacks an item changes nothing.
    pub leave: bool,
    /// How many names of symbols are allowed.
    pub keys: Option<u64>,
    /// How many bytes of them are allowed.
    pub key_bytes: Option<u64>,
    /// How many entries of indexes of archives are allowed.
    pub index: Option<u64>,
    /// How many files and members are allowed.
    pub rows: Option<u64>,
    /// The arguments of a linker.
    pub words: Vec<&'a str>,
}

impl CommandArgs<'_> {
    ghost use Rattle.elf_cli.specs.UsageFaults.{is_archive, is_unread, part_is_unknown, selects_rows};

    /// Returns `true` if only the rows of some names are requested.
    pub fn selects_rows(&self) -> bool
        ensures { result ≡ selects_rows self.now }
    {
        !self.names.is_empty() || self.name_list.is_some()
    }

    /// Returns `true` if the byte whose rows are shown is given by a text that is no number.
    pub(crate) fn has_bad_byte(&self) -> bool
        ensures { result ≡ is_unread self.now.at self.now.caps.style.place.at }
    {
        self.at.is_some() && self.caps.style.place.at.is_none()
    }

    /// Returns `true` if the address whose rows are shown is given by a text that is no number.
    pub(crate) fn has_bad_address(&self) -> bool
        ensures { result ≡ is_unread self.now.address self.now.caps.style.place.address }
    {
        self.address.is_some() && self.caps.style.place.address.is_none()
    }

    /// Returns the first of the names of parts that no part has, if there is one.
    pub(crate) fn unknown_part(&self) -> Option<&str>
        ensures { is_some result ≡ part_is_unknown self.now }
    {
        unknown_part(self.only?, self.is_archive())
    }

    /// Returns `true` if an archive is listed, whose members have the parts.
    pub(crate) fn is_archive(&self) -> bool
        ensures { result ≡ is_archive self.now.command }
    {
        match self.command {
            CommandName::Archive => true,
            _ => false,
        }
    }
}

/// Returns the command that the command line parsed, with its arguments.
///
/// # Errors
/// - `Memory` if out of memory for them.
/// - `Words` if there is no command, which the command line does not accept.
pub fn read_args<'a>(
    alloc: Global,
    matches: &ArgMatches<'a>,
) -> Result<CommandArgs<'a>, RequestFault>
    ensures read { IfOk result (AreArgs (subcommand_rows_of matches.now)) }
    ensures refused { IfErr result (IsUnread (subcommand_rows_of matches.now)) }
{
    match matches.subcommand() {
        Some((command, options)) => args_of(alloc, command, options),
        None => Err(without_command(alloc)),
    }
}

/// Returns a command of this name with its arguments.
///
/// # Errors
/// Out of memory for them.
fn args_of<'a>(
    alloc: Global,
    command: &str,
    options: &ArgMatches<'a>,
) -> Result<CommandArgs<'a>, RequestFault>
    ensures read { IfOk result (AreArgs (Some (command.now, rows_of (found_of options.now)))) }
    ensures refused { IfErr result (λ fault. fault ≡ Memory) }
{
    match read(alloc, command_named(command), &Options::new(options)) {
        Ok(args) => Ok(args),
        Err(AllocError) => Err(RequestFault::Memory),
    }
}

/// Returns a command with the values of its arguments.
fn read<'a>(
    alloc: Global,
    command: CommandName,
    options: &Options<'_, 'a>,
) -> Result<CommandArgs<'a>, AllocError>
    ensures command { IfOk result (λ args. args.command ≡ command) }
    ensures options { IfOk result (AreOptions options.now) }
{
    let items = options.values(alloc, "ITEM")?;
    let paths = options.values(alloc, "PATH")?;
    let causes = options.values(alloc, "CAUSE")?;
    let names = options.values(alloc, "name")?;
    let words = options.values(alloc, "WORDS")?;
    Ok(CommandArgs {
        command,
        file: options.text("FILE"),
        name: options.text_or_empty("NAME"),
        section: options.count("SECTION", 0, 65_535, 0),
        wanted: options.text("SECTION"),
        wanted_index: options.place("SECTION"),
        segment: options.number("segment"),
        items,
        layout: options.text("layout"),
        explain: options.is_set("explain"),
        paths,
        causes,
        list: options.text("files0-from"),
        members: options.is_set("members"),
        caps: caps_of(options),
        two_formats: options.has_two_formats(),
        limits_names: options.is_given("names"),
        only: options.text("only"),
        parts: options.parts(),
        names,
        name_list: options.text("name-list"),
        at: options.text("at"),
        address: options.text("address"),
        require: options.text("require"),
        library_path: options.text_or_empty("library-path"),
        default: options.text("default"),
        root: options.text_or_empty("root"),
        cache: options.text("cache"),
        no_cache: has_no_cache(options),
        max_tries: options.number("max-tries"),
        symbols: options.is_set("symbols"),
        unused: options.is_set("unused"),
        problems: options.is_set("problems"),
        image: options.text("SEGMENT"),
        image_index: options.place("SEGMENT"),
        max_write: options.number("max-write"),
        missing: options.is_set("missing"),
        leave: options.is_set("leave"),
        keys: options.number("keys"),
        key_bytes: options.number("key-bytes"),
        index: options.number("index"),
        rows: options.number("rows"),
        words,
    })
}

/// Returns `true` if no loader's cache is searched: it is left out, or the directories that are
/// searched last are given.
fn has_no_cache(options: &Options<'_, '_>) -> bool
    ensures { result ≡ (is_option_set (first_of (codes "no-cache") options.now)
        || is_some (first_of (codes "default") options.now)) }
{
    options.is_set("no-cache") || options.text("default").is_some()
}

/// Returns the limits and the style that the options set.
fn caps_of(options: &Options<'_, '_>) -> Caps<'static>
    ensures { AreCapOptions options.now result }
{
    Caps {
        limits: Limits {
            headers: options.count("headers", 1, 65_279, 4096),
            budget: options.number("max-read"),
        },
        style: ListingStyle {
            cap: NameLimit {
                bytes: options.count("names", 1, 4096, 256),
            },
            gnu: options.has_gnu(),
            by_segments: options.is_set("by-segments"),
            format: options.format(),
            choice: RowFilter::every_row(),
            symbols: options.symbols(),
            place: PlaceFilter {
                at: options.place("at"),
                address: options.place("address"),
            },
            versions: options.has_versions(),
        },
    }
}
