//! The arguments of a command line.
ghost use Rattle.std.specs.Prelude.{◌≡◌, ◌≤◌, IfErr, IfOk, IfSome, None, Ok, Err, map, option_map};
ghost use Rattle.clap.specs.Walk.{texts};
ghost use Rattle.clap.specs.Words.{subcommand_rows_of};
ghost use Rattle.elf_cli.specs.UsageFaults.{usage_fault};
ghost use Rattle.elf_cli.specs.declared.command_args.CommandName.TheVariants.{Apply, Bytes, Find};
ghost use Rattle.elf_model.specs.Placing.{no_items};
ghost use Rattle.elf_requests.specs.Answered.{HasFault, IsAsked, IsRefusal, WordsAsk, WordsRefused};
ghost use Rattle.elf_requests.specs.Asked.{AsksBytes, IsTask, IsText, Makes};
ghost use Rattle.elf_reloc.specs.Queried.{query_as};
ghost use Rattle.elf_model.specs.BytesQuery.{BytesQuery};
ghost use Rattle.elf_requests.specs.AskedTraits.{AreRequired};
ghost use Rattle.elf_requests.specs.Layouts.{LaysWords};
ghost use Rattle.elf_requests.specs.declared.requests.Task.TheVariants.{Show};

use crate::items::lay;
use crate::names::{checked_name, checked_section, checked_symbol};
use crate::parsed_command::{ApplyWithLayout, CommandRequest, ParsedCommand};
use crate::requests::{Request, Task};
use crate::trait_words::required_of;
use clap::ArgMatches;
use elf_cli::{
    CommandArgs, CommandName, RequestFault, parse_arguments, read_args, request_fault, usage_fault,
};
use elf_layout::Layout;
use elf_options::RequiredTrait;
use elf_reloc::WantedBytes;
use std::alloc::Global;
use std::convert::AsStr;

/// Parses the arguments of a command line, without the program's name.
///
/// # Errors
/// - `Words` for arguments that are invalid or request help.
/// - `BadName` if they give a name that is not of 1 to 4,096 bytes without NUL.
/// - `BadSection` if they give a section by neither an index nor a name.
/// - `NamesFull` if they request the rows of more than 64 names.
/// - `BadItem`, `LayoutRepeat` and `LayoutFull` for the first layout item that is malformed,
///   repeats an item, or is one more of its type than a layout holds.
/// - `UnknownTrait` with the first required trait that is invalid.
/// - `Memory` if out of memory.
pub fn request<'a, S: AsStr>(
    alloc: Global,
    words: &'a [S],
    layout: &'a mut Layout,
) -> Result<ParsedCommand<'a>, RequestFault>
    ensures asked { IfOk result (WordsAsk (map S.text words.entry.now)) }
    ensures refused { IfErr result (WordsRefused (map S.text words.entry.now)) }
{
    let matches = parse_arguments(alloc, words)?;
    answered(alloc, &matches, layout)
}

/// Returns what arguments request that the command line accepts, or why they are refused.
fn answered<'a>(
    alloc: Global,
    matches: &ArgMatches<'a>,
    layout: &'a mut Layout,
) -> Result<ParsedCommand<'a>, RequestFault>
    ensures asked { IfOk result (IsAsked (subcommand_rows_of matches.now)) }
    ensures refused { IfErr result (IsRefusal (subcommand_rows_of matches.now)) }
{
    let args = read_args(alloc, matches)?;
    checked(alloc, args, layout)
}

/// Returns what the arguments of a command request, or why they are refused.
fn checked<'a>(
    alloc: Global,
    args: CommandArgs<'a>,
    layout: &'a mut Layout,
) -> Result<ParsedCommand<'a>, RequestFault>
    ensures asked { IfOk result (λ asked.
        (usage_fault args.entry ≡ None) × Makes args.entry asked) }
    ensures refused { IfErr result (HasFault args.entry) }
{
    let required = required_of(alloc, args.require)?;
    match usage_fault(&args) {
        Some(fault) => Err(request_fault(alloc, &args, fault)),
        None => made_of(args, required, layout),
    }
}

/// Returns what the arguments of a command request, with these required traits.
fn made_of<'a>(
    args: CommandArgs<'a>,
    required: Vec<RequiredTrait<'a>>,
    layout: &'a mut Layout,
) -> Result<ParsedCommand<'a>, RequestFault>
    requires { AreRequired (option_map (λ text. text.now) args.require) required.items }
    ensures asked { IfOk result (Makes args.entry) }
    ensures refused { IfErr result (HasFault args.entry) }
{
    match args.command {
        CommandName::Show | CommandName::Sample if !args.selects_rows() => {
            Ok(ParsedCommand::File(listing_of(&args)))
        }
        CommandName::Find => lookup_command(&args),
        CommandName::Apply => section_of(&args, layout),
        CommandName::Bytes => bytes_command(&args),
        CommandName::Show
        | CommandName::Sample
        | CommandName::Image
        | CommandName::Check
        | CommandName::List
        | CommandName::Traits
        | CommandName::Needs
        | CommandName::Resolve
        | CommandName::Archive
        | CommandName::Explain
        | CommandName::Version => Ok(ParsedCommand::Command(CommandRequest { args, required })),
    }
}

/// Returns the request for a listing of all rows.
fn listing_of<'a>(args: &CommandArgs<'a>) -> Request<'a>
    ensures file { result.file ≡ args.now.file }
    ensures limits { result.limits ≡ args.now.caps.limits }
    ensures task { result.task ≡ Show args.now.parts args.now.caps.style }
{
    Request {
        file: args.file,
        limits: args.caps.limits,
        task: Task::Show {
            parts: args.parts,
            style: args.caps.style,
        },
    }
}

/// Returns the request for a lookup, as glibc's dynamic loader does it if that is requested.
///
/// # Errors
/// `BadName` if the text cannot be looked up so.
fn lookup_command<'a>(args: &CommandArgs<'a>) -> Result<ParsedCommand<'a>, RequestFault>
    requires { args.now.command ≡ Find }
    ensures asked { IfOk result (Makes args.now) }
    ensures refused { IfErr result (HasFault args.now) }
{
    let Some(task) = parse_lookup(args) else {
        return Err(RequestFault::BadName);
    };
    Ok(ParsedCommand::File(Request {
        file: args.file,
        limits: args.caps.limits,
        task,
    }))
}

/// Returns the lookup of a text, as glibc's dynamic loader does it if that is requested, by the
/// program headers alone or not, or otherwise by the file's SysV hash table. Returns `None` if the
/// text cannot be looked up so.
fn parse_lookup<'a>(args: &CommandArgs<'a>) -> Option<Task<'a>>
    requires { args.now.command ≡ Find }
    ensures some { IfSome result (IsTask args.now) }
    ensures none { result ≡ None → IsText args.now.caps.style.gnu args.now.name.now → ⊥ }
{
    let style = args.caps.style;
    let text = args.name;
    if style.gnu {
        let wanted = checked_symbol(text)?;
        return Some(Task::Resolve {
            wanted,
            by_segments: style.by_segments,
            format: style.format,
        });
    }
    let wanted = checked_name(text)?;
    Some(Task::Find {
        wanted,
        format: style.format,
    })
}

/// Returns the request for a section with its relocations applied, with the named file of items, if
/// any.
///
/// # Errors
/// The fault of the first item that is refused.
fn section_of<'a>(
    args: &CommandArgs<'a>,
    layout: &'a mut Layout,
) -> Result<ParsedCommand<'a>, RequestFault>
    requires { args.now.command ≡ Apply }
    ensures asked { IfOk result (Makes args.now) }
    ensures refused { IfErr result (HasFault args.now) }
{
    let layout = laid(&args.items, layout)?;
    let request = Request {
        file: args.file,
        limits: args.caps.limits,
        task: Task::Apply {
            section: args.section,
            layout,
            explain: args.explain,
        },
    };
    match args.layout {
        Some(list) => Ok(ParsedCommand::Laid(ApplyWithLayout { request, list })),
        None => Ok(ParsedCommand::File(request)),
    }
}

/// Returns the request for the bytes of a section or of a program header.
///
/// # Errors
/// `BadSection` if the section is given by neither an index nor a name.
fn bytes_command<'a>(args: &CommandArgs<'a>) -> Result<ParsedCommand<'a>, RequestFault>
    requires { args.now.command ≡ Bytes }
    ensures asked { IfOk result (Makes args.now) }
    ensures refused { IfErr result (HasFault args.now) }
{
    let Some(query) = bytes_query(args) else {
        return Err(RequestFault::BadSection);
    };
    Ok(ParsedCommand::File(Request {
        file: args.file,
        limits: args.caps.limits,
        task: Task::Bytes { query },
    }))
}

/// Returns whose bytes are requested: the program header's of an index, if one is given, or the
/// section's. Returns `None` if that is given by neither an index nor a name.
fn bytes_query<'a>(args: &CommandArgs<'a>) -> Option<WantedBytes<'a>>
    ensures some { IfSome result (λ query. AsksBytes args.now (query_as query)) }
    ensures none { result ≡ None → (query : BytesQuery) → AsksBytes args.now query → ⊥ }
{
    if let Some(segment) = args.segment {
        return Some(WantedBytes::Segment(index_of(segment)?));
    }
    if let Some(section) = args.wanted_index {
        return Some(WantedBytes::Section(index_of(section)?));
    }
    Some(WantedBytes::Name(checked_section(args.wanted?)?))
}

/// Returns a number as an index, if it is at most 65,535.
fn index_of(number: u64) -> Option<u16>
    ensures some { IfSome result (λ index. (index ≡ number) × (number ≤ 65535)) }
    ensures none { result ≡ None → number ≤ 65535 → ⊥ }
{
    if number > 65_535 {
        return None;
    }
    Some(number as u16)
}

/// Returns the layout that these arguments give, which is empty if there are none.
fn laid<'a>(words: &[&str], layout: &'a mut Layout) -> Result<&'a Layout, RequestFault>
    ensures laid { IfOk result (λ layout. LaysWords no_items (texts words.now) (Ok layout.now)) }
    ensures refused { IfErr result (λ fault. LaysWords no_items (texts words.now) (Err fault)) }
{
    lay(layout, words)?;
    Ok(layout)
}
