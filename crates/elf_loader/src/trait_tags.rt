//! The dynamic entries that affect hardening.
ghost use Rattle.std.specs.Prelude.{◌≡◌, ℕ, List, Some, IfErr, IfOk};
ghost use Rattle.elf_record.specs.Dyn.{IsDyn};
ghost use Rattle.elf_source.specs.Source.{ReadsUpTo};
ghost use Rattle.elf_table.specs.Prelude.{CallDid, HoldsProgramHeaders, IsOfRead, IsReadFault, TableInBounds, fault_of_result, size_of};
ghost use Rattle.elf_loader.specs.Entries.{AreListedValues, FindsTraitEntries, TakesValues, no_values};

use elf_note::{dynamic_rows, entry_in, first_of};
use elf_record::Dyn;
use elf_record::numbers::{
    DT_BIND_NOW, DT_FLAGS, DT_RPATH, DT_RUNPATH, DT_SONAME, DT_TEXTREL, PT_DYNAMIC,
};
use elf_source::{Counted, Source};
use elf_table::{ExecutionView, Fault, Table};

/// The tag of further flags, a GNU extension.
const DT_FLAGS_1: u64 = 0x6fff_fffb;

/// The values of the first dynamic entries with some tags, if there are such (gABI 5, Dynamic
/// Section).
#[derive(Clone, Copy)]
pub(crate) struct TraitTags {
    /// DT_SONAME: the name of a library.
    pub(crate) soname: Option<u64>,
    /// DT_RPATH: the directories in which libraries are searched.
    pub(crate) rpath: Option<u64>,
    /// DT_RUNPATH: the same, in its place.
    pub(crate) runpath: Option<u64>,
    /// DT_TEXTREL: relocations change a segment that is not writable.
    pub(crate) textrel: Option<u64>,
    /// DT_BIND_NOW: all symbols are bound at load time.
    pub(crate) bind_now: Option<u64>,
    /// DT_FLAGS.
    pub(crate) flags: Option<u64>,
    /// DT_FLAGS_1, a GNU extension.
    pub(crate) flags_1: Option<u64>,
}

/// Returns the values in the first PT_DYNAMIC segment, up to and including the first DT_NULL; none
/// if there is no such segment. Each of its bytes is read at most once.
///
/// # Errors
/// Those of [`ExecutionView::dynamic`]. Otherwise a fault of a read, or the refusal `Budget`, at an
/// entry's offset.
pub(crate) fn trait_entries<S: Source>(
    src: &mut Counted<S>,
    view: &ExecutionView<'_>,
) -> Result<TraitTags, Fault>
    requires { view.now.loaded.size ≡ src.old.seen.size }
    ensures { CallDid src.old src.new (fault_of_result result) src.old.seen.size
        (λ file. HoldsProgramHeaders file view.now.loaded view.now.store.now →
        FindsTraitEntries file src.old src.new result) }
{
    let Some(segment) = view.first_segment(PT_DYNAMIC) else {
        return Ok(nothing());
    };
    let table = view.dynamic(segment)?;
    listed_values(src, table)
}

/// Returns the values of the first listed entries of a table with some tags.
///
/// # Errors
/// Returns a fault of a read, or the refusal `Budget`, at an entry's offset.
fn listed_values<S: Source>(src: &mut Counted<S>, table: Table) -> Result<TraitTags, Fault>
    requires rows { table.entry ≡ 16 }
    requires within { TableInBounds src.old.seen.size table }
    ensures reads { ReadsUpTo src.old src.new (size_of table) }
    ensures says { IfErr result (IsReadFault src.old src.new (size_of table)) }
    ensures fault { IfErr result IsOfRead }
    ensures found { (file : List ℕ) → src.old.seen.file ≡ Some file →
        IfOk result (AreListedValues file table) }
{
    let mut found = nothing();
    let mut cursor = dynamic_rows(table);
    'entries: while cursor.advance(src)? {
        let entry = entry_in(&cursor.row());
        found = with_entry(&found, &entry);
    }
    Ok(found)
}

/// Returns no entries.
fn nothing() -> TraitTags
    ensures { result ≡ no_values }
{
    TraitTags {
        soname: None,
        rpath: None,
        runpath: None,
        textrel: None,
        bind_now: None,
        flags: None,
        flags_1: None,
    }
}

/// Returns the values, with one more entry after those that were read.
fn with_entry(found: &TraitTags, entry: &Dyn) -> TraitTags
    ensures { (file : List ℕ) (at : ℕ) → IsDyn file at entry.now →
        TakesValues file at found.now result }
{
    TraitTags {
        soname: first_of(found.soname, DT_SONAME, entry),
        rpath: first_of(found.rpath, DT_RPATH, entry),
        runpath: first_of(found.runpath, DT_RUNPATH, entry),
        textrel: first_of(found.textrel, DT_TEXTREL, entry),
        bind_now: first_of(found.bind_now, DT_BIND_NOW, entry),
        flags: first_of(found.flags, DT_FLAGS, entry),
        flags_1: first_of(found.flags_1, DT_FLAGS_1, entry),
    }
}
