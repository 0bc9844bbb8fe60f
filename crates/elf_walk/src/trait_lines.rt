//! The trait lines of each of many files.
ghost use Rattle.std.specs.Prelude.{◌≡◌, false, IfOk};
ghost use Rattle.elf_source.specs.Output.{OutPuts};
ghost use Rattle.elf_model.specs.TraitWords.{lacking, lacking_lines, traits_status, traits_text};
ghost use Rattle.elf_options.specs.Required.{required_words};

use crate::each_file::FileVisitor;
use crate::file_traits::traits_within;
use crate::required::{has_word, is_program};
use crate::statuses::status;
use elf_format::{show_check, show_missing_trait, show_traits};
use elf_model::{FileStatus, Format, Hardening};
use elf_options::RequiredTrait;
use elf_source::{Counted, DeferredSink, LocatedSink, Out, OutFault, RangeSource, Sink, Source};
use elf_table::{HeaderStore, Limits};
use std::marker::Model;

/// How files' traits are reported.
#[derive(Clone, Copy)]
pub struct TraitOptions<'a> {
    /// How much of a file may be read.
    pub limits: Limits,
    /// How lines are written.
    pub format: Format,
    /// The traits required of a program or library.
    pub required: &'a [RequiredTrait<'a>],
}

/// A visitor that reports how each of many files is hardened, and which required traits it lacks.
#[derive(Drop)]
pub struct TraitReport<'a> {
    store: HeaderStore<'a>,
    rule: TraitOptions<'a>,
}

impl<'a> Model for TraitReport<'a> {
    ghost use Rattle.std.specs.Prelude.{◌≡◌};
    ghost use Rattle.elf_walk.specs.declared.trait_lines.TraitOptions.{TraitOptions};

    ghost Value = { TraitOptions };

    ghost view = { λ t. t.rule };

    ghost invariant = { λ t. t.store.slots ≡ t.rule.limits.headers };
}

impl<'a> TraitReport<'a> {
    /// Creates the lines with a rule and a store, which has a slot for each header that the rule
    /// allows.
    pub fn new(store: HeaderStore<'a>, rule: TraitOptions<'a>) -> Self
        requires { store.slots ≡ rule.limits.headers }
        ensures { result ≡ rule.entry }
    {
        TraitReport { store, rule }
    }
}

impl<'a> FileVisitor for TraitReport<'a> {
    type Rule = TraitOptions<'a>;

    ghost use Rattle.elf_walk.specs.ToldTraits.{ReturnsTraits};

    ghost rule = { λ t. t };

    ghost tells = { ReturnsTraits };

    fn visit<S: Source, W: Sink>(
        &mut self,
        src: &mut Counted<RangeSource<S>>,
        path: &[u8],
        out: &mut Out<DeferredSink<LocatedSink<W>>>,
    ) -> Result<u8, OutFault> {
        match traits_within(src, &mut self.store, self.rule.limits) {
            Ok(traits) => show_lines(traits, &self.rule, path, out),
            Err(FileStatus::NoElf) => Ok(0),
            Err(state) => {
                show_check(state, path, self.rule.format, out)?;
                Ok(status(state))
            }
        }
    }
}

/// Writes the line of a file's traits, and those of what it lacks, and returns the exit status that
/// this requires.
///
/// # Errors
/// A fault of the output, with a prefix of the lines written.
#[tactic(auto, unfolding(elf_model::specs::TraitWords::traits_text))]
fn show_lines<W: Sink>(
    traits: Hardening,
    rule: &TraitOptions<'_>,
    path: &[u8],
    out: &mut Out<W>,
) -> Result<u8, OutFault>
    ensures puts { OutPuts out.old out.new result
        (traits_text rule.now.format traits (required_words rule.now.required.now) path.now) }
    ensures status { IfOk result
        (λ status. status ≡ traits_status traits (required_words rule.now.required.now)) }
{
    show_traits(traits, path, rule.format, out)?;
    show_missing_traits(traits, rule, out)
}

/// Writes the lines of the required traits that a file lacks, in the order in which they are
/// required, and returns the exit status: 1 if it lacks one. None is required of a file that is
/// neither a program nor a library.
///
/// # Errors
/// A fault of the output, with a prefix of the lines written.
fn show_missing_traits<W: Sink>(
    traits: Hardening,
    rule: &TraitOptions<'_>,
    out: &mut Out<W>,
) -> Result<u8, OutFault>
    requires { out.old.failed ≡ false }
    ensures puts { OutPuts out.old out.new result (lacking_lines rule.now.format traits
        (lacking traits (required_words rule.now.required.now))) }
    ensures status { IfOk result
        (λ status. status ≡ traits_status traits (required_words rule.now.required.now)) }
{
    let mut status = 0;
    if is_program(traits.kind) {
        for wanted in rule.required {
            if !has_word(traits, wanted) {
                show_missing_trait(traits, wanted.column, rule.format, out)?;
                status = 1;
            }
        }
    }
    Ok(status)
}
