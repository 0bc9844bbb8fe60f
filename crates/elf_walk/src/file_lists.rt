//! The listing of each of many files.
ghost use Rattle.std.specs.Prelude.{◌≡◌};
ghost use Rattle.elf_walk.specs.ToldListings.{EndsListing, PutsUnread, is_unlisted};

use crate::each_file::FileVisitor;
use crate::headed::list_with_path_line;
use crate::line_prefixes::find_file_type;
use crate::options::ListOptions;
use crate::path_lines::locate_file;
use crate::statuses::status;
use elf_format::show_check;
use elf_model::{FileMagic, FileStatus, Format};
use elf_source::{Counted, DeferredSink, LocatedSink, Out, OutFault, RangeSource, Sink, Source};
use elf_table::{Caps, HeaderStore, RunFault};
use std::marker::Model;

/// A visitor that lists files: for each the line of its path, and after it its listing, within the
/// limits.
#[derive(Drop)]
pub struct ListFiles<'a> {
    store: HeaderStore<'a>,
    rule: ListOptions<'a>,
}

impl<'a> Model for ListFiles<'a> {
    ghost use Rattle.std.specs.Prelude.{◌≡◌};
    ghost use Rattle.elf_walk.specs.declared.options.ListOptions.{ListOptions};

    ghost Value = { ListOptions };

    ghost view = { λ f. f.rule };

    ghost invariant = { λ f. f.store.slots ≡ f.rule.caps.limits.headers };
}

impl<'a> ListFiles<'a> {
    /// Creates listings with a rule and a store, which has a slot for each header that the rule
    /// allows.
    pub fn new(store: HeaderStore<'a>, rule: ListOptions<'a>) -> Self
        requires { store.slots ≡ rule.caps.limits.headers }
        ensures { result ≡ rule.entry }
    {
        ListFiles { store, rule }
    }
}

impl<'a> FileVisitor for ListFiles<'a> {
    type Rule = ListOptions<'a>;

    ghost use Rattle.elf_walk.specs.ToldListings.{ReturnsListing};

    ghost rule = { λ f. f };

    ghost tells = { ReturnsListing };

    fn visit<S: Source, W: Sink>(
        &mut self,
        src: &mut Counted<RangeSource<S>>,
        path: &[u8],
        out: &mut Out<DeferredSink<LocatedSink<W>>>,
    ) -> Result<u8, OutFault> {
        let rule = self.rule;
        let format = rule.caps.style.format;
        let mut limits = rule.caps.limits;
        let sort = match find_file_type(src, rule.members, &mut limits.budget) {
            Ok(sort) => sort,
            Err(_) => return report_unread(path, format, out),
        };
        if is_unlisted(sort) {
            return Ok(0);
        }
        let rule = ListOptions {
            caps: Caps {
                limits,
                style: rule.caps.style,
            },
            parts: rule.parts,
            members: rule.members,
        };
        locate_file(path, out);
        let listed = list_with_path_line(src, &mut self.store, &rule, sort, path, out);
        end_list(listed, path, format, out)
    }
}

/// Returns `true` if nothing is written of a file: one of another type, or a thin archive.
fn is_unlisted(sort: FileMagic) -> bool
    ensures { result ≡ is_unlisted sort }
{
    match sort {
        FileMagic::Foreign | FileMagic::Thin => true,
        FileMagic::Elf | FileMagic::Archive | FileMagic::Undecided => false,
    }
}

/// Reports how the listing of the file at a path ended, and returns the exit status that it
/// requires.
///
/// # Errors
/// A fault of the output.
fn end_list<W: Sink>(
    listed: Result<bool, RunFault>,
    path: &[u8],
    format: Format,
    out: &mut Out<W>,
) -> Result<u8, OutFault>
    ensures { EndsListing format path.now listed out.old out.new result }
{
    match listed {
        Ok(refused) => Ok(u8::from(refused)),
        Err(RunFault::Refused(_)) => Ok(1),
        Err(RunFault::Source { .. }) => report_unread(path, format, out),
        Err(RunFault::Out(fault)) => Err(fault),
    }
}

/// Writes the line of a file that is not read, and returns the exit status that it requires.
///
/// # Errors
/// A fault of the output, with a prefix of the line written.
fn report_unread<W: Sink>(path: &[u8], format: Format, out: &mut Out<W>) -> Result<u8, OutFault>
    ensures { PutsUnread format path.now out.old out.new result }
{
    show_check(FileStatus::Unread, path, format, out)?;
    Ok(status(FileStatus::Unread))
}
