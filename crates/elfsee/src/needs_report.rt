//! What a program among many needs, after the line of its path.
ghost use Rattle.std.specs.Prelude.{◌≡◌, ◌-◌, ◌≤◌, ◌^◌, ℕ, List, Some, option_map};
ghost use Rattle.elf_library.specs.Prelude.{ReturnsLinked, linked_file};
ghost use Rattle.elf_walk.specs.Telling.{StandsWhole};
ghost use Rattle.elfsee.specs.Needs.{AsksWithinBudget, is_of_other_type};

use crate::needs::{list_after, open_program};
use elf_format::show_check;
use elf_library::{NeedsFault, SystemFiles, is_linked};
use elf_model::{Cause, FileStatus};
use elf_needs::{DependencyWalk, NeedsBuffers, NeedsOptions, OpenFiles};
use elf_source::{
    Counted, DeferredSink, FileReader, Limited, LocatedSink, Out, OutFault, RangeSource, Sink,
    Source, StreamSource, opened_path,
};
use elf_table::{Fault, HeaderBuffer, HeaderStore, Limits};
use elf_walk::{FileVisitor, HeadedSink, read_short_file_status, status};
use std::marker::Model;
use std::os::unix::fs::FileExt;
use std::rt::Files;
use std::str;

/// How many bytes a file header has.
const HEADER_BYTES: u64 = 64;

/// How the needs of each file are listed.
#[derive(Clone, Copy)]
pub struct NeedsRule<'a> {
    /// How many headers of each file are allowed, and how many bytes of a program and all its
    /// libraries together may be read.
    pub limits: Limits,
    /// The parameters of a walk, whose budget is what is left of that limit.
    pub options: NeedsOptions<'a>,
    /// Whether the file that each symbol is bound to is printed too.
    pub symbols: bool,
    /// Whether the libraries are printed too that a program needs itself and does not use.
    pub unused: bool,
}

/// A visitor that lists what each of many programs needs, after the line of its path. Its memory is
/// used again for the next program.
#[derive(Drop)]
pub struct NeedsReport<'r, 'a, R: Files>
where
    R::File: FileExt,
{
    rt: &'r R,
    system: SystemFiles<'r, R, StreamSource<FileReader<R::File>>>,
    rule: NeedsRule<'a>,
    headers: HeaderBuffer,
    /// The memory of a walk, which has it while it lasts.
    room: Option<NeedsBuffers>,
    opened: OpenFiles<R::File>,
}

impl<'r, 'a, R: Files> Model for NeedsReport<'r, 'a, R>
where
    R::File: FileExt,
{
    ghost use Rattle.elfsee.specs.declared.needs_report.NeedsRule.{NeedsRule};

    ghost Value = { NeedsRule };

    ghost view = { λ n. n.rule };
}

impl<'r, 'a, R: Files + AllocGlobal> NeedsReport<'r, 'a, R>
where
    R::File: FileExt,
{
    /// Creates a visitor with a rule and memory: for headers, with a slot for each that the rule
    /// allows, for a walk, and for the files that it keeps open.
    pub fn new(
        rt: &'r R,
        system: SystemFiles<'r, R, StreamSource<FileReader<R::File>>>,
        rule: NeedsRule<'a>,
        headers: HeaderBuffer,
        rooms: (NeedsBuffers, OpenFiles<R::File>),
    ) -> Self
        ensures { result ≡ rule.entry }
    {
        let (room, opened) = rooms;
        NeedsReport {
            rt,
            system,
            rule,
            headers,
            room: Some(room),
            opened,
        }
    }

    /// Opens the program at a path anew, and lists the objects that it needs, by what is left of
    /// the budget. The line of the path is written before the first line.
    ///
    /// # Errors
    /// The program cannot be opened; a read or the output failed.
    fn list<W: Sink>(
        &mut self,
        path: &str,
        budget: Option<u64>,
        out: &mut Out<W>,
    ) -> Result<u8, NeedsFault>
        ensures stays { self.new ≡ self.old }
    {
        let rt = self.rt;
        let Ok(real) = rt.canonicalize(rt.alloc(), opened_path(path)) else {
            return Err(NeedsFault::Open);
        };
        let Ok(source) = open_program(rt, path) else {
            return Err(NeedsFault::Open);
        };
        let Some(room) = self.room.take() else {
            return Err(NeedsFault::Open);
        };
        let options = NeedsOptions {
            budget,
            ..self.rule.options
        };
        let format = options.lines.format;
        let out = Out::new(HeadedSink::new(out, path.as_bytes(), format));
        let mut walk = DependencyWalk::new(&options, self.headers.store(), room, out);
        let (path, real) = (path.as_bytes(), real.as_str().as_bytes());
        let program = self.system.program(source, real);
        let listed = walk.list(&mut self.system, program, path, real, &mut self.opened);
        let NeedsRule {
            symbols,
            unused,
            ..
        } = self.rule;
        let listed = list_after(&mut walk, listed, symbols, unused, &mut self.opened);
        self.opened.clear();
        self.room = Some(walk.into_room());
        listed
    }
}

impl<'r, 'a, R: Files + AllocGlobal> FileVisitor for NeedsReport<'r, 'a, R>
where
    R::File: FileExt,
{
    type Rule = NeedsRule<'a>;

    ghost use Rattle.elfsee.specs.Needs.{AsksWithinLimit};

    ghost rule = { λ n. n };

    ghost tells = { AsksWithinLimit };

    fn visit<S: Source, W: Sink>(
        &mut self,
        src: &mut Counted<RangeSource<S>>,
        path: &[u8],
        out: &mut Out<DeferredSink<LocatedSink<W>>>,
    ) -> Result<u8, OutFault> {
        let before = src.asked();
        let limits = self.rule.limits;
        let state = match is_listed(src, &mut self.headers.store(), limits) {
            Ok(false) => return Ok(0),
            Ok(true) => {
                let budget = budget_left(limits.budget, src.asked().saturating_sub(before));
                match str::from_utf8(path) {
                    Ok(text) => self.list(text, budget, out),
                    Err(_) => Err(NeedsFault::Open),
                }
            }
            Err(_) => Err(NeedsFault::Read),
        };
        match state {
            Ok(status) => Ok(status),
            Err(NeedsFault::Out(_)) => Err(out.fault()),
            Err(NeedsFault::Read | NeedsFault::Open) => {
                let format = self.rule.options.lines.format;
                show_check(FileStatus::Unread, path, format, out)?;
                Ok(status(FileStatus::Unread))
            }
        }
    }
}

/// Checks whether the needs of a file are listed, within its limits: it is an ELF64 file that a
/// loader links, or whose headers are refused. On return no limit is set.
///
/// # Errors
/// The state of a file that cannot be read.
fn is_listed<S: Source>(
    src: &mut Counted<S>,
    store: &mut HeaderStore,
    limits: Limits,
) -> Result<bool, FileStatus>
    requires { src.old.asked ≤ 2 ^ 127 }
    ensures asks { AsksWithinBudget limits.budget src.old src.new }
{
    if src.length() < HEADER_BYTES {
        return match read_short_file_status(src, limits.budget) {
            FileStatus::Refused(_) => Ok(true),
            FileStatus::Ok | FileStatus::NoElf => Ok(false),
            state => Err(state),
        };
    }
    match is_linked_within(src, store, limits.budget) {
        Ok(linked) => Ok(linked),
        Err(Fault::Refused(refusal)) => Ok(!is_of_other_type(refusal.cause)),
        Err(Fault::Source { .. }) => Err(FileStatus::Unread),
    }
}

/// Checks whether a file is one that a loader links, as [`is_linked`] does, within a budget. On
/// return no limit is set.
///
/// # Errors
/// Those of [`is_linked`].
fn is_linked_within<S: Source>(
    src: &mut Counted<S>,
    store: &mut HeaderStore,
    budget: Option<u64>,
) -> Result<bool, Fault>
    ensures asks { AsksWithinBudget budget src.old src.new }
    ensures known { (file : List ℕ) → src.old.seen.file ≡ Some file →
        ReturnsLinked (linked_file file store.old.slots) result }
{
    src.within(budget, &mut |src| is_linked(src, store))
}

/// Returns `true` if the headers of a file are refused because it is no ELF64 file.
fn is_of_other_type(cause: Cause) -> bool
    ensures { result ≡ is_of_other_type cause }
{
    matches!(cause, Cause::NotElf | Cause::BadClass)
}

/// Returns what is left of a budget.
pub fn budget_left(budget: Option<u64>, asked: u128) -> Option<u64>
    ensures { result ≡ option_map (λ bytes. bytes - asked) budget }
{
    match budget {
        None => None,
        Some(bytes) => Some(bytes.saturating_sub(u64::try_from(asked).unwrap_or(u64::MAX))),
    }
}
