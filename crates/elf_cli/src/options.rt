//! The values of a command's arguments, by a reader for each form.
ghost use Rattle.std.specs.Prelude.{◌≡◌, ◌≤◌, ℕ, IfOk, List, [], Option, codes, option_map, unwrap_or};
ghost use Rattle.clap.specs.Walk.{Row, first_of, one_of, rows_of, texts};
ghost use Rattle.clap.specs.Words.{found_of};
ghost use Rattle.elf_cli.specs.Options.{HasNumber, HasPlace, IsCount, asked_format, asked_parts, asked_symbols};
ghost use Rattle.elf_cli.specs.Options.{has_two_formats, is_set_or_implied};
ghost use Rattle.elf_cli.specs.Options.{has_name_option, is_given, is_of_words, is_option_set};
ghost use Rattle.elf_cli.specs.Options.{values_of};

use crate::part_names::parts_named;
use crate::place_numbers::place_of;
use clap::ArgMatches;
use clap::parser::ValueSource;
use elf_model::{Format, SymbolFilter};
use elf_record::Parts;
use std::alloc::{AllocError, Global};
use std::marker::Model;

/// The values of a command's arguments, as the command line parsed them.
#[derive(Drop)]
pub(crate) struct Options<'m, 'a> {
    matches: &'m ArgMatches<'a>,
}

impl<'m, 'a> Model for Options<'m, 'a> {
    ghost Value = { List Row };

    ghost view = { λ options. rows_of (found_of options.matches.now) };
}

impl<'m, 'a> Options<'m, 'a> {
    /// Creates the options of a command from what the command line parsed.
    pub(crate) fn new(matches: &'m ArgMatches<'a>) -> Options<'m, 'a>
        ensures { result ≡ rows_of (found_of matches.entry.now) }
    {
        Options { matches }
    }

    /// Returns the parts that are selected: those that are named; otherwise the symbols if rows are
    /// selected by name, or if not every symbol is shown, or all parts.
    pub(crate) fn parts(&self) -> Parts
        ensures { result.0 ≡ asked_parts self.now }
    {
        match self.text("only") {
            Some(names) => parts_named(names),
            None if self.has_name_option() || self.symbols().is_narrow() => Parts::SYMBOLS,
            None if self.has_gnu() => Parts(255),
            None => Parts(127),
        }
    }

    /// Returns `true` if only the rows of some names are requested.
    fn has_name_option(&self) -> bool
        ensures { result ≡ has_name_option self.now }
    {
        self.text("name").is_some() || self.text("name-list").is_some()
    }

    /// Returns which symbols are shown.
    pub(crate) fn symbols(&self) -> SymbolFilter
        ensures { result ≡ asked_symbols self.now }
    {
        SymbolFilter {
            defined: self.is_set("defined"),
            undefined: self.is_set("undefined"),
            dynamic: self.is_set("dynamic"),
        }
    }

    /// Returns the number of a byte or an address that an option has, if it has one.
    pub(crate) fn place(&self, option: &str) -> Option<u64>
        ensures { HasPlace (first_of option.now self.now) result }
    {
        match self.text(option) {
            Some(text) => place_of(text),
            None => None,
        }
    }

    /// Returns how a line is written.
    pub(crate) fn format(&self) -> Format
        ensures { result ≡ asked_format self.now }
    {
        if self.is_set("json") {
            Format::Object
        } else if self.is_set("table") {
            Format::Table
        } else {
            Format::Columns
        }
    }

    /// Returns `true` if both JSON objects and a table are requested.
    pub(crate) fn has_two_formats(&self) -> bool
        ensures { result ≡ has_two_formats self.now }
    {
        self.is_set("json") && self.is_set("table")
    }

    /// Returns `true` if GNU numbers have names too.
    pub(crate) fn has_gnu(&self) -> bool
        ensures { result ≡ is_set_or_implied (codes "gnu") self.now }
    {
        self.is_set_or_implied("gnu")
    }

    /// Returns `true` if the version of a symbol follows its name.
    pub(crate) fn has_versions(&self) -> bool
        ensures { result ≡ is_set_or_implied (codes "versions") self.now }
    {
        self.is_set_or_implied("versions")
    }

    /// Returns `true` if an option without a value is set, or implied by a table, as it is if the
    /// command has it.
    fn is_set_or_implied(&self, option: &str) -> bool
        ensures { result ≡ is_set_or_implied option.now self.now }
    {
        self.is_set(option) || self.is_set("table") && self.text(option).is_some()
    }

    /// Returns `true` if an option without a value is set.
    pub(crate) fn is_set(&self, option: &str) -> bool
        ensures { result ≡ is_option_set (first_of option.now self.now) }
    {
        match self.text(option) {
            Some(text) => text == "true",
            None => false,
        }
    }

    /// Returns `true` if an option is given on the command line.
    pub(crate) fn is_given(&self, option: &str) -> bool
        ensures { result ≡ is_given option.now self.now }
    {
        from_words(self.matches.value_source(option))
    }

    /// Returns the value of an argument, if it has one.
    pub(crate) fn text(&self, argument: &str) -> Option<&'a str>
        ensures { option_map (λ text. text.now) result ≡ first_of argument.now self.now }
    {
        self.matches.get_str(argument)
    }

    /// Returns the value of an argument, or an empty text if it has none.
    pub(crate) fn text_or_empty(&self, argument: &str) -> &'a str
        ensures { result.now ≡ unwrap_or (first_of argument.now self.now) [] }
    {
        match self.text(argument) {
            Some(text) => text,
            None => "",
        }
    }

    /// Returns the values of an argument.
    ///
    /// # Errors
    /// Out of memory for them.
    pub(crate) fn values(&self, alloc: Global, argument: &str) -> Result<Vec<&'a str>, AllocError>
        ensures { IfOk result (λ words. texts words.items ≡ values_of argument.now self.now) }
    {
        match self.matches.get_strs(argument) {
            Some(words) => copied_words(alloc, words),
            None => Ok(Vec::new(alloc)),
        }
    }

    /// Returns the number that an argument has, within a range: that of its value if the command
    /// line accepts it, otherwise the default.
    pub(crate) fn count(&self, argument: &str, least: u16, most: u16, default: u16) -> u16
        requires least { least ≤ default }
        requires most { default ≤ most }
        ensures { IsCount least most (one_of argument.now self.now) result }
    {
        match self.number(argument) {
            Some(value) if u64::from(least) <= value && value <= u64::from(most) => value as u16,
            _ => default,
        }
    }

    /// Returns the number that an option has, if it has one.
    pub(crate) fn number(&self, option: &str) -> Option<u64>
        ensures { (value : Option ℕ) → HasNumber (one_of option.now self.now) value
            → result ≡ value }
    {
        self.matches.get_one(option)
    }
}

/// Returns a copy of the slices of arguments; the arguments themselves are not copied.
fn copied_words<'a>(alloc: Global, words: &[&'a str]) -> Result<Vec<&'a str>, AllocError>
    ensures { IfOk result (λ copy. copy.items ≡ words.now) }
{
    words.iter().copied().collect(alloc)
}

/// Returns `true` if a value comes from the command line.
fn from_words(source: Option<ValueSource>) -> bool
    ensures { result ≡ is_of_words source }
{
    match source {
        Some(ValueSource::CommandLine) => true,
        Some(ValueSource::DefaultValue) => false,
        None => false,
    }
}
