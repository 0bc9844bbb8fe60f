//! The listing of a file, by its type.
ghost use Rattle.std.specs.Prelude.{◌≡◌, ◌+◌, ◌≤◌, ◌^◌, ℕ, List, Some, IfErr};
ghost use Rattle.elf_archive.specs.Listed.{ArchiveSays, IsAll};
ghost use Rattle.elf_options.specs.Permitted.{style_of};
ghost use Rattle.elf_listing.specs.Reports.{KeepsSourceUnlimited, ReturnsStop};
ghost use Rattle.elf_walk.specs.CheckedFile.{AsksNoMore};
ghost use Rattle.elf_walk.specs.Lists.{ListsSort, sort_ceiling, sort_cost};
ghost use Rattle.elf_model.specs.FileLists.{members_alone, undecided};
ghost use Rattle.elf_source.specs.Growth.{OutGrows};
ghost use Rattle.elf_table.specs.declared.run_fault.RunFault.TheVariants.{Refused};

use crate::short::UNDECIDED;
use elf_archive::show_archive;
use elf_listing::{show, show_stop};
use elf_model::{FileMagic, Format};
use elf_record::Parts;
use elf_source::{Counted, DeferredSink, LocatedSink, Out, RangeSource, Sink, Source};
use elf_table::{Caps, HeaderStore, ListingStyle, RunFault};

/// Writes the listing of a file of a type: for an ELF file its own, for an archive that of its
/// members, whose lines are written alone if all rows are shown, for one that is not decided within
/// the budget the line of this refusal, for another file nothing.
///
/// The last line is that of its refusal, if it has one. Returns whether the listing of a member was
/// refused. The source is a range of all bytes of the file, with nothing masked; it and the store
/// are as for [`show_archive`].
///
/// # Errors
/// As for [`show`] and [`show_archive`].
pub fn list_by_type<S: Source, W: Sink>(
    src: &mut Counted<RangeSource<S>>,
    store: &mut HeaderStore,
    caps: Caps,
    parts: Parts,
    sort: FileMagic,
    out: &mut Out<DeferredSink<LocatedSink<W>>>,
) -> Result<bool, RunFault>
    requires small { (store.old.slots ≡ caps.limits.headers) × (src.old.asked ≤ 2 ^ 127) }
    requires whole { IsAll src.old }
    ensures slots { store.new.slots ≡ store.old.slots }
    ensures grows { OutGrows out.old out.new }
    ensures leaves { KeepsSourceUnlimited src.old src.new }
    ensures says { IfErr result (ArchiveSays src.old src.new out.new) }
    ensures lists { (file : List ℕ) → src.old.seen.file ≡ Some file →
        ListsSort sort file caps.entry.limits (style_of caps.entry.style) parts.0
        out.old out.new result }
    ensures cost { (file : List ℕ) → src.old.seen.file ≡ Some file →
        src.new.asked ≤ src.old.asked
        + sort_cost sort file caps.entry.limits.headers (style_of caps.entry.style) parts.0 }
    ensures asks { AsksNoMore (sort_ceiling sort src.old.seen.size caps.entry.limits.headers
        (style_of caps.entry.style)) caps.entry.limits.budget src.old src.new }
{
    match sort {
        FileMagic::Elf => {
            show(src, store, caps, parts, out)?;
            Ok(false)
        }
        FileMagic::Archive => {
            let alone = are_alone(&caps.style);
            show_archive(src, store, caps, parts, alone, out)
        }
        FileMagic::Undecided | FileMagic::Thin | FileMagic::Foreign => {
            src.limit(None);
            match sort {
                FileMagic::Undecided => Err(report_undecided(caps.style.format, out)),
                _ => Ok(false),
            }
        }
    }
}

/// Writes the line of a file that is not decided within the budget, and returns its refusal, or the
/// output's fault, with a prefix of the line written.
fn report_undecided<W: Sink>(format: Format, out: &mut Out<W>) -> RunFault
    ensures grows { OutGrows out.old out.new }
    ensures tells { ReturnsStop format out.old out.new (Refused undecided) result }
{
    show_stop(RunFault::Refused(UNDECIDED), format, out)
}

/// Returns `true` if the lines of members are written alone.
fn are_alone(style: &ListingStyle) -> bool
    ensures { result ≡ members_alone (style_of style.now).choice }
{
    !style.choice.by_name
}
