//! A listing after the line of its file's path.
ghost use Rattle.std.specs.Prelude.{◌≡◌, ◌+◌, ◌≤◌, ◌^◌, ℕ, List, Some, IfErr};
ghost use Rattle.elf_archive.specs.Listed.{ArchiveSays, IsAll};
ghost use Rattle.elf_options.specs.Permitted.{style_of};
ghost use Rattle.elf_listing.specs.Reports.{KeepsSourceUnlimited};
ghost use Rattle.elf_walk.specs.CheckedFile.{AsksNoMore};
ghost use Rattle.elf_walk.specs.Lists.{ListsHeaded, sort_ceiling, sort_cost};
ghost use Rattle.elf_model.specs.FileLists.{path_line};

use crate::options::ListOptions;
use crate::path_lines::defer_path_line;
use crate::sorts::list_by_type;
use elf_archive::end_listed;
use elf_format::show_path;
use elf_model::FileMagic;
use elf_source::{Counted, DeferredSink, LocatedSink, Out, RangeSource, Sink, Source};
use elf_table::{HeaderStore, RunFault};

/// Writes the line of a path, and after it the listing of the file there as [`list_by_type`] does;
/// if rows are selected by name, the line is written only before something that is listed.
///
/// Returns whether the listing of a member was refused. The budget left is that of the rule's caps.
///
/// # Errors
/// As for [`list_by_type`], with a prefix of the line and the listing written, and as for
/// [`defer_path_line`].
pub fn list_with_path_line<S: Source, W: Sink>(
    src: &mut Counted<RangeSource<S>>,
    store: &mut HeaderStore,
    rule: &ListOptions,
    sort: FileMagic,
    path: &[u8],
    out: &mut Out<DeferredSink<LocatedSink<W>>>,
) -> Result<bool, RunFault>
    requires small { (store.old.slots ≡ rule.now.caps.limits.headers) × (src.old.asked ≤ 2 ^ 127) }
    requires whole { IsAll src.old }
    ensures slots { store.new.slots ≡ store.old.slots }
    ensures leaves { KeepsSourceUnlimited src.old src.new }
    ensures says { IfErr result (ArchiveSays src.old src.new out.new) }
    ensures lists { (file : List ℕ) → src.old.seen.file ≡ Some file →
        ListsHeaded sort (path_line rule.now.caps.style.format path.now) file rule.now.caps.limits
        (style_of rule.now.caps.style) rule.now.parts.0 out.old out.new result }
    ensures cost { (file : List ℕ) → src.old.seen.file ≡ Some file →
        src.new.asked ≤ src.old.asked + sort_cost sort file rule.now.caps.limits.headers
        (style_of rule.now.caps.style) rule.now.parts.0 }
    ensures asks { AsksNoMore (sort_ceiling sort src.old.seen.size rule.now.caps.limits.headers
        (style_of rule.now.caps.style)) rule.now.caps.limits.budget src.old src.new }
{
    src.limit(None);
    if !rule.caps.style.choice.by_name {
        show_path(path, rule.caps.style.format, out)?;
        return list_by_type(src, store, rule.caps, rule.parts, sort, out);
    }
    let line = defer_path_line(path, rule.caps.style.format, out)?;
    let listed = list_by_type(src, store, rule.caps, rule.parts, sort, out);
    end_listed(line, listed, out)
}
