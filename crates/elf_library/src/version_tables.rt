//! The tables of symbol versions that a file has, by its program headers.
ghost use Rattle.std.specs.Prelude.{◌≡◌, ◌+◌, ◌*◌, ◌^◌, ◌<◌, ℕ, List, IfErr, IfOk};
ghost use Rattle.elf_table.specs.Prelude.{CallDid, ChecksThenValue, HoldsProgramHeaders, IsOfCheck, StringsInBounds, fault_of_result, strings_in};
ghost use Rattle.elf_model.specs.Prelude.{e_shnum, segment_strings};
ghost use Rattle.elf_hash.specs.Prelude.{AreTaggedEntries};
ghost use Rattle.elf_library.specs.VersionTables.{AreVersionsAt, FileVersionsInBounds, ReturnsInSegments, ReturnsVersions, refused_versions, version_strings_checks};

use elf_hash::{DynamicTags, VersionRecordTable, first_entries, load_by_segments, segment_records};
use elf_record::VersionKind;
use elf_record::numbers::PT_DYNAMIC;
use elf_source::{Counted, Source};
use elf_table::{ExecutionView, Fault, HeaderStore, Names};

/// The tables of symbol versions of a file (Linux Standard Base Core, Symbol Versioning), each
/// whether or not there are others. It holds no bytes.
#[derive(Clone, Copy)]
pub(crate) struct FileVersions {
    /// The versions that it needs, at its entry DT_VERNEED, if there is one; or the refusal of that
    /// entry.
    pub needs: Result<Option<VersionRecordTable>, Fault>,
    /// The versions that it defines, at its entry DT_VERDEF: the same.
    pub definitions: Result<Option<VersionRecordTable>, Fault>,
    /// Whether it has an entry DT_VERSYM.
    pub has_versym: bool,
}

/// Finds the tables of symbol versions of a file whose header locates no section headers, as when
/// these are masked: by the dynamic entries of its first PT_DYNAMIC segment, which are read, each
/// byte at most once. The program headers are loaded into the store.
///
/// # Errors
/// Those of [`load_by_segments`], of [`ExecutionView::dynamic`], and of the string table at
/// DT_STRTAB as for [`ExecutionView::mapped`]. Otherwise a read fault, or a refusal for lack of
/// budget.
pub(crate) fn find_file_versions<S: Source>(
    src: &mut Counted<S>,
    store: &mut HeaderStore,
) -> Result<FileVersions, Fault>
    ensures did { CallDid src.old src.new (fault_of_result result)
        (64 + store.old.slots * 56 + src.old.seen.size)
        (λ file. e_shnum file ≡ 0 → ReturnsVersions file store.old.slots result) }
    ensures slots { store.new.slots ≡ store.old.slots }
    ensures lies { IfOk result (FileVersionsInBounds src.old.seen.size) }
{
    let loaded = load_by_segments(src, store)?;
    versions_by_segments(src, &ExecutionView { loaded, store })
}

/// Finds the same for a file whose program headers are loaded.
fn versions_by_segments<S: Source>(
    src: &mut Counted<S>,
    view: &ExecutionView<'_>,
) -> Result<FileVersions, Fault>
    requires size { view.now.loaded.size ≡ src.old.seen.size }
    requires small { view.now.loaded.size < 2 ^ 63 }
    ensures did { CallDid src.old src.new (fault_of_result result) src.old.seen.size
        (λ file. HoldsProgramHeaders file view.now.loaded view.now.store.now →
        ReturnsInSegments file result) }
    ensures lies { IfOk result (FileVersionsInBounds src.old.seen.size) }
{
    let Some(segment) = view.first_segment(PT_DYNAMIC) else {
        return Ok(FileVersions {
            needs: Ok(None),
            definitions: Ok(None),
            has_versym: false,
        });
    };
    let table = view.dynamic(segment)?;
    let found = first_entries(src, table)?;
    versions_at(view, &found)
}

/// Returns the tables that the entries locate.
fn versions_at(view: &ExecutionView<'_>, found: &DynamicTags) -> Result<FileVersions, Fault>
    requires small { view.now.loaded.size < 2 ^ 63 }
    ensures lies { IfOk result (FileVersionsInBounds view.now.loaded.size) }
    ensures refusal { IfErr result IsOfCheck }
    ensures held { (file : List ℕ) (at : ℕ) →
        HoldsProgramHeaders file view.now.loaded view.now.store.now →
        AreTaggedEntries file at found.now →
        ChecksThenValue (version_strings_checks file at) (AreVersionsAt file at) result }
{
    let names = strings_of(view, found)?;
    Ok(FileVersions {
        needs: segment_records(view, found.verneed, VersionKind::File, names),
        definitions: segment_records(view, found.verdef, VersionKind::Definition, names),
        has_versym: found.versym.is_some(),
    })
}

/// Returns the string table that the entries locate: an empty one if they locate none.
fn strings_of(view: &ExecutionView<'_>, found: &DynamicTags) -> Result<Names, Fault>
    ensures lies { IfOk result (StringsInBounds view.now.loaded.size) }
    ensures refusal { IfErr result IsOfCheck }
    ensures held { (file : List ℕ) (at : ℕ) →
        HoldsProgramHeaders file view.now.loaded view.now.store.now →
        AreTaggedEntries file at found.now → ChecksThenValue (version_strings_checks file at)
        (λ names. strings_in file names ≡ segment_strings file at) result }
{
    let Some(strtab) = found.strtab else {
        return Ok(Names::new(0, 0));
    };
    let Some(strsz) = found.strsz else {
        return Ok(Names::new(0, 0));
    };
    view.mapped(strtab.value, strsz.value, strtab.at)
}

/// Returns the tables of a file of which none is known, for a refusal.
pub(crate) fn refused_versions(fault: Fault) -> FileVersions
    ensures { result ≡ refused_versions fault }
{
    FileVersions {
        needs: Err(fault),
        definitions: Err(fault),
        has_versym: false,
    }
}
