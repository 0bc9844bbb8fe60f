//! Command arguments as data, and the `clap` arguments built from it.
ghost use Rattle.std.specs.Prelude.{IfOk};
ghost use Rattle.elf_cli.specs.Building.{IsArg};
ghost use Rattle.elf_cli.specs.CommandLine.{any_words, flag, indexed, numbered_option};
ghost use Rattle.elf_cli.specs.CommandLine.{option, optional, repeated, required, valued};
ghost use Rattle.elf_cli.specs.Described.{lettered, rule_by, rule_of_kind};

use clap::builder::ValueParser;
use clap::{Arg, ArgAction};
use std::alloc::{AllocError, Global};

/// An argument of one or more commands.
pub(crate) struct ArgSpec {
    pub(crate) name: &'static str,
    /// The letter of an option that may also be given as `-g`.
    pub(crate) short: Option<char>,
    /// Another name, which other tools have for it.
    pub(crate) alias: Option<&'static str>,
    pub(crate) kind: ArgKind,
    pub(crate) help: &'static str,
    /// The set of the commands that have it.
    pub(crate) commands: u16,
}

/// How an argument is read.
pub(crate) enum ArgKind {
    /// An option without a value.
    Flag,
    /// An option with a value, with its name in help.
    Value(&'static str),
    /// An option with a value, which may be repeated with another value.
    Repeated(&'static str),
    /// An option with a number, which the parser reads.
    Number(ValueParser<'static>),
    /// An option with a number, and its default if the option is absent.
    Count(ValueParser<'static>, &'static str),
    /// An option with a value that is not empty, with its name in help.
    Filled(&'static str),
    /// A required argument.
    Needed,
    /// A required argument, a number.
    Index(ValueParser<'static>),
    /// An argument that may be left out.
    Optional,
    /// Any number of arguments.
    Any,
}

/// Returns the `clap` argument for a specification.
///
/// # Errors
/// Out of memory; nothing of it is kept then.
pub(crate) fn clap_arg_of<'a>(alloc: Global, word: &ArgSpec) -> Result<Arg<'a>, AllocError>
    ensures { IfOk result (IsArg (rule_by word.now)) }
{
    let arg = lettered(alloc, word);
    match word.alias {
        Some(name) => arg.visible_alias(name),
        None => Ok(arg),
    }
}

/// Returns the argument for a specification, without its other name.
#[tactic(auto, using(crate::proofs::BuildingLaws::without_letter))]
fn lettered<'a>(alloc: Global, word: &ArgSpec) -> Arg<'a>
    ensures { IsArg (lettered word.now) result }
{
    let arg = arg_of_kind(alloc, word);
    match word.short {
        Some(letter) => arg.short(letter),
        None => arg,
    }
}

/// Returns the argument for a specification, without its letter and its other name.
fn arg_of_kind<'a>(alloc: Global, word: &ArgSpec) -> Arg<'a>
    ensures { IsArg (rule_of_kind word.now.name.now word.now.kind) result }
{
    match word.kind {
        ArgKind::Flag => flag(alloc, word),
        ArgKind::Value(value) => valued(alloc, word, value),
        ArgKind::Repeated(value) => repeated(alloc, word, value),
        ArgKind::Number(parser) => parsed(alloc, word, "N", parser),
        ArgKind::Count(parser, default) => count(alloc, word, parser, default),
        ArgKind::Filled(value) => parsed(alloc, word, value, ValueParser::NonEmptyString),
        ArgKind::Needed => required(alloc, word),
        ArgKind::Index(parser) => index(alloc, word, parser),
        ArgKind::Optional => optional(alloc, word),
        ArgKind::Any => any(alloc, word),
    }
}

/// Returns an option without a value.
fn flag<'a>(alloc: Global, word: &ArgSpec) -> Arg<'a>
    ensures { IsArg (flag word.now.name.now) result }
{
    Arg::new(alloc, word.name)
        .long(word.name)
        .action(ArgAction::SetTrue)
        .help(word.help)
}

/// Returns an option with one value, with its name in help.
fn valued<'a>(alloc: Global, word: &ArgSpec, value: &'static str) -> Arg<'a>
    ensures { IsArg (valued word.now.name.now) result }
{
    Arg::new(alloc, word.name)
        .long(word.name)
        .value_name(value)
        .help(word.help)
}

/// Returns an option with a value, which may be repeated with another value.
fn repeated<'a>(alloc: Global, word: &ArgSpec, value: &'static str) -> Arg<'a>
    ensures { IsArg (repeated word.now.name.now) result }
{
    valued(alloc, word, value).action(ArgAction::Append)
}

/// Returns an option with one value, which the parser reads.
fn parsed<'a>(
    alloc: Global,
    word: &ArgSpec,
    value: &'static str,
    parser: ValueParser<'a>,
) -> Arg<'a>
    ensures { IsArg (option word.now.name.now parser.entry) result }
{
    valued(alloc, word, value).value_parser(parser)
}

/// Returns an option with a number, and its default if the option is absent.
fn count<'a>(
    alloc: Global,
    word: &ArgSpec,
    parser: ValueParser<'a>,
    default: &'static str,
) -> Arg<'a>
    ensures { IsArg (numbered_option word.now.name.now parser.entry default.entry.now) result }
{
    parsed(alloc, word, "N", parser).default_value(default)
}

/// Returns a required argument.
fn required<'a>(alloc: Global, word: &ArgSpec) -> Arg<'a>
    ensures { IsArg (required word.now.name.now) result }
{
    Arg::new(alloc, word.name).required(true).help(word.help)
}

/// Returns a required argument, which the parser reads.
fn index<'a>(alloc: Global, word: &ArgSpec, parser: ValueParser<'a>) -> Arg<'a>
    ensures { IsArg (indexed word.now.name.now parser.entry) result }
{
    required(alloc, word).value_parser(parser)
}

/// Returns an argument that may be left out.
fn optional<'a>(alloc: Global, word: &ArgSpec) -> Arg<'a>
    ensures { IsArg (optional word.now.name.now) result }
{
    Arg::new(alloc, word.name).help(word.help)
}

/// Returns an argument with any number of values.
fn any<'a>(alloc: Global, word: &ArgSpec) -> Arg<'a>
    ensures { IsArg (any_words word.now.name.now) result }
{
    Arg::new(alloc, word.name).num_args(0..).help(word.help)
}
