//! The symbols whose data a program copies from its libraries when it is loaded.
ghost use Rattle.std.specs.Prelude.{◌≡◌, ◌+◌, ◌*◌, IfErr, IfOk, IfSome};
ghost use Rattle.elf_table.specs.Prelude.{CallDid, CallReads, IsOfCheck, StringsInBounds, TableInBounds, fault_of_result, size_of};
ghost use Rattle.elf_loader.specs.Prelude.{max_versions_of};
ghost use Rattle.elf_hash.specs.Symbols.{DynamicSymbolsInBounds};
ghost use Rattle.elf_model.specs.Prelude.{SOUGHT_BYTES, name_bytes};
ghost use Rattle.elf_library.specs.Copied.{AreRelocationTags, copied_by, copied_symbol};
ghost use Rattle.elf_library.specs.VersionNames.{KeepsNames};

use crate::kept_version_names::KeptVersionNames;
use crate::reference::{reference_version, whole_name};
use crate::reference_names::ReferenceNames;
use elf_hash::{DynamicSymbols, load_by_segments};
use elf_note::{dynamic_rows, entry_in, first_of};
use elf_record::numbers::{DT_RELA, DT_RELASZ, PT_DYNAMIC, R_X86_64_COPY};
use elf_record::{Cause, Rela};
use elf_source::{Counted, Source};
use elf_table::{ExecutionView, Fault, HeaderStore, Names, Table, fill, is_out_of_bounds, refused};

/// The size of a relocation entry with an addend in bytes (gABI 4, Relocation).
pub const RELA_BYTES: u64 = 24;

/// Where the relocation entries are that the dynamic entries of a file locate (gABI 5, Dynamic
/// Section).
#[derive(Clone, Copy)]
pub(crate) struct RelocationTags {
    /// Their virtual address, the value of the first DT_RELA, if there is one.
    pub address: Option<u64>,
    /// Their size in bytes, the value of the first DT_RELASZ, if there is one.
    pub size: Option<u64>,
}

/// Returns the range of the relocation entries that a file's first segment of dynamic entries
/// locates, in its bytes; `None` if it locates none. The program headers are loaded into the store.
///
/// # Errors
/// - Those of [`load_by_segments`] and of [`ExecutionView::dynamic`].
/// - At the program header of that segment: those of [`ExecutionView::mapped`].
/// - Otherwise a read fault, or a refusal for lack of budget.
pub(crate) fn dynamic_relocations<S: Source>(
    src: &mut Counted<S>,
    store: &mut HeaderStore,
) -> Result<Option<Names>, Fault>
    ensures costs { CallReads src.old src.new (fault_of_result result)
        (64 + store.old.slots * 56 + src.old.seen.size) }
    ensures slots { store.new.slots ≡ store.old.slots }
{
    let loaded = load_by_segments(src, store)?;
    relocations_in(src, &ExecutionView { loaded, store })
}

/// Returns the same for a file whose program headers are loaded.
///
/// # Errors
/// Those of [`dynamic_relocations`] after the load.
fn relocations_in<S: Source>(
    src: &mut Counted<S>,
    view: &ExecutionView<'_>,
) -> Result<Option<Names>, Fault>
    requires { view.now.loaded.size ≡ src.old.seen.size }
    ensures { CallReads src.old src.new (fault_of_result result) src.old.seen.size }
{
    let Some(segment) = view.first_segment(PT_DYNAMIC) else {
        return Ok(None);
    };
    let table = view.dynamic(segment)?;
    let found = relocation_tags(src, table)?;
    mapped_relocations(view, &found, view.place(segment))
}

/// Returns the range of the relocation entries with this address and size, if there are both; the
/// program header at a file offset leads to them.
///
/// # Errors
/// Those of [`ExecutionView::mapped`].
fn mapped_relocations(
    view: &ExecutionView<'_>,
    found: &RelocationTags,
    at: u64,
) -> Result<Option<Names>, Fault>
    ensures refusal { IfErr result IsOfCheck }
    ensures within { IfOk result (λ range. IfSome range (StringsInBounds view.now.loaded.size)) }
{
    match (found.address, found.size) {
        (Some(address), Some(size)) => {
            let range = view.mapped(address, size, at)?;
            Ok(Some(range))
        }
        _ => Ok(None),
    }
}

/// Reads the dynamic entries of a table up to the first DT_NULL, and returns where the relocation
/// entries are.
///
/// # Errors
/// A read fault, or a refusal for lack of budget.
fn relocation_tags<S: Source>(src: &mut Counted<S>, table: Table) -> Result<RelocationTags, Fault>
    requires rows { table.entry ≡ 16 }
    requires within { TableInBounds src.old.seen.size table }
    ensures did { CallDid src.old src.new (fault_of_result result) (size_of table)
        (λ file. IfOk result (AreRelocationTags file table)) }
{
    let mut address: Option<u64> = None;
    let mut size: Option<u64> = None;
    let mut cursor = dynamic_rows(table);
    'entries: while cursor.advance(src)? {
        let entry = entry_in(&cursor.row());
        address = first_of(address, DT_RELA, &entry);
        size = first_of(size, DT_RELASZ, &entry);
    }
    Ok(RelocationTags { address, size })
}

/// Returns the index of the symbol whose data the relocation entry at a file offset copies; `None`
/// for an entry of another type.
///
/// # Errors
/// `TableOutside` at the entry if it ends past the end of the file; a read fault, or a refusal for
/// lack of budget.
pub(crate) fn copied_at<S: Source>(src: &mut Counted<S>, at: u64) -> Result<Option<u64>, Fault>
    ensures { CallDid src.old src.new (fault_of_result result) 24
        (λ file. IfOk result (λ copied. copied ≡ copied_symbol file at)) }
{
    if is_out_of_bounds(src.length(), at, RELA_BYTES) {
        return refused(at, Cause::TableOutside);
    }
    let mut row = [0; RELA_BYTES as usize];
    fill(src, at, &mut row)?;
    Ok(copied_by(&Rela::decode(&row)))
}

/// Returns the index of the symbol whose data an entry copies.
fn copied_by(entry: &Rela) -> Option<u64>
    ensures { result ≡ copied_by entry.now.r_info }
{
    if entry.kind() == R_X86_64_COPY {
        return Some(u64::from(entry.symbol()));
    }
    None
}

/// Reads the name of the symbol at an index, and the version that it needs, into `names`. Returns
/// whether it has a name; there is no symbol after the last that there is room for.
///
/// # Errors
/// Those of [`reference_symbol`](crate::reference::reference_symbol).
pub(crate) fn named_symbol<S: Source>(
    src: &mut Counted<S>,
    symbols: &DynamicSymbols,
    index: u64,
    names: &mut ReferenceNames,
    kept: &mut KeptVersionNames,
) -> Result<bool, Fault>
    requires { DynamicSymbolsInBounds src.old.seen.size symbols.now }
    ensures costs { CallReads src.old src.new (fault_of_result result) (24 + name_bytes SOUGHT_BYTES
        + (2 + max_versions_of symbols.now * 28 + name_bytes SOUGHT_BYTES)) }
    ensures kept { KeepsNames src.old.seen symbols.now kept.old.places kept.new.places }
{
    if index >= symbols.table.len() {
        return Ok(false);
    }
    let symbol = symbols.table.symbol(src, index)?;
    let place = symbols.table.place(index);
    let off = u64::from(symbol.st_name);
    whole_name(src, symbols.names, off, place, &mut names.name)?;
    if names.name.bytes().is_empty() {
        return Ok(false);
    }
    let asked = reference_version(src, symbols, index, &mut names.version, kept)?;
    names.versioned = asked.versioned;
    Ok(true)
}
