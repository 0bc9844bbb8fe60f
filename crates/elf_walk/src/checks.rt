//! The check of each of many files.
ghost use Rattle.std.specs.Prelude.{◌≡◌, ◌≤◌, ◌^◌};
ghost use Rattle.elf_archive.specs.Listed.{IsAll};
ghost use Rattle.elf_walk.specs.CheckedFile.{ChecksFile};
ghost use Rattle.elf_walk.specs.ToldChecks.{Finds, ceiling_of_check, cost_of_check};

use crate::check_file::check;
use crate::each_file::FileVisitor;
use crate::sorted::check_sorted;
use crate::statuses::status;
use elf_format::show_check;
use elf_model::FileStatus;
use elf_record::Parts;
use elf_source::{Counted, DeferredSink, LocatedSink, Out, OutFault, RangeSource, Sink, Source};
use elf_table::{Caps, HeaderStore};
use std::marker::Model;

/// How files are checked.
#[derive(Clone, Copy)]
pub struct CheckOptions {
    /// How much of the file may be read, and how rows of its listing are shown.
    pub caps: Caps<'static>,
    /// The parts of its listing that count.
    pub parts: Parts,
    /// Whether the state of an archive includes its members' listings.
    pub members: bool,
}

/// A visitor that checks files, and writes the line of each: how its own listing ends, within the
/// limits.
#[derive(Drop)]
pub struct CheckFiles<'a> {
    store: HeaderStore<'a>,
    rule: CheckOptions,
}

impl<'a> Model for CheckFiles<'a> {
    ghost use Rattle.std.specs.Prelude.{◌≡◌};
    ghost use Rattle.elf_walk.specs.declared.checks.CheckOptions.{CheckOptions};

    ghost Value = { CheckOptions };

    ghost view = { λ c. c.rule };

    ghost invariant = { λ c. c.store.slots ≡ c.rule.caps.limits.headers };
}

impl<'a> CheckFiles<'a> {
    /// Creates a check with a rule and a store, which has a slot for each header that the rule
    /// allows.
    pub fn new(store: HeaderStore<'a>, rule: CheckOptions) -> Self
        requires { store.slots ≡ rule.caps.limits.headers }
        ensures { result ≡ rule }
    {
        CheckFiles { store, rule }
    }
}

impl<'a> FileVisitor for CheckFiles<'a> {
    type Rule = CheckOptions;

    ghost use Rattle.elf_walk.specs.ToldChecks.{ReturnsState};

    ghost rule = { λ c. c };

    ghost tells = { λ rule path. ReturnsState rule.members rule.caps rule.parts.0 path };

    fn visit<S: Source, W: Sink>(
        &mut self,
        src: &mut Counted<RangeSource<S>>,
        path: &[u8],
        out: &mut Out<DeferredSink<LocatedSink<W>>>,
    ) -> Result<u8, OutFault> {
        let state = find_state(src, &mut self.store, &self.rule);
        show_check(state, path, self.rule.caps.style.format, out)?;
        Ok(status(state))
    }
}

/// Returns the state of one file by a rule: that of its listing or, if members are checked, by its
/// type.
fn find_state<S: Source>(
    src: &mut Counted<RangeSource<S>>,
    store: &mut HeaderStore,
    rule: &CheckOptions,
) -> FileStatus
    requires small { (store.old.slots ≡ rule.now.caps.limits.headers) × (src.old.asked ≤ 2 ^ 126) }
    requires whole { IsAll src.old }
    ensures { ChecksFile store.old.slots store.new.slots rule.now.caps rule.now.parts.0
        src.old src.new result (Finds rule.now.members)
        (cost_of_check rule.now.members rule.now.caps) (ceiling_of_check rule.now.members) }
{
    if rule.members {
        check_sorted(src, store, rule.caps, rule.parts)
    } else {
        check(src, store, rule.caps, rule.parts)
    }
}
