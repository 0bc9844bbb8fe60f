//! The relocations of a file that its dynamic entries locate.
ghost use Rattle.std.specs.Prelude.{◌≡◌};
ghost use Rattle.elf_hash.specs.Headers.{IsOfSource};
ghost use Rattle.elf_model.specs.Prelude.{e_shnum};
ghost use Rattle.elf_table.specs.Ledger.{CallDid, fault_of_result};
ghost use Rattle.elf_capi.specs.LocatedTables.{FindsLocated, FindsLocatedIn, located_bytes};

use crate::rows::RowPosition;
use elf_hash::{TableLocation, first_entries, load_by_segments, located_table};
use elf_model::RelocationTable;
use elf_record::numbers::PT_DYNAMIC;
use elf_source::{Counted, Source};
use elf_table::{ExecutionView, Fault, HeaderStore, Names};

/// Returns a position before the first row of a table of relocations that the dynamic entries of a
/// file locate, without a string table; `None` if they locate none, or the file has none.
///
/// The file header locates no section headers, as when these are masked
/// ([`Counted::mask_section_headers`]). The program headers are loaded into the store (gABI 5,
/// Dynamic Section).
///
/// # Errors
/// The first that fails: those of [`load_by_segments`]; that of
/// [`ExecutionView::check_overlaps`]; those of [`ExecutionView::dynamic`] for the first segment of
/// dynamic entries; those of [`located_table`]. Otherwise a fault of a read, or the refusal
/// `Budget`, at the offset of the read.
pub fn located_rows<S: Source>(
    src: &mut Counted<S>,
    store: &mut HeaderStore,
    table: RelocationTable,
) -> Result<Option<RowPosition>, Fault>
    ensures did { CallDid src.old src.new (fault_of_result result)
        (located_bytes src.old.seen.size store.old.slots)
        (λ file. e_shnum file ≡ 0 →
        FindsLocated file store.old.slots table src.old src.new result) }
    ensures slots { store.new.slots ≡ store.old.slots }
{
    let loaded = load_by_segments(src, store)?;
    let view = ExecutionView { loaded, store };
    match table_in(src, &view, table)? {
        Some(located) => Ok(Some(RowPosition::of(located.table, Names::new(0, 0)))),
        None => Ok(None),
    }
}

/// Returns such a table of a loaded file.
fn table_in<S: Source>(
    src: &mut Counted<S>,
    view: &ExecutionView<'_>,
    table: RelocationTable,
) -> Result<Option<TableLocation>, Fault>
    requires { IsOfSource src.old view.now.loaded }
    ensures { FindsLocatedIn view.now table src.old src.new result }
{
    view.check_overlaps()?;
    let Some(segment) = view.first_segment(PT_DYNAMIC) else {
        return Ok(None);
    };
    let entries = view.dynamic(segment)?;
    let found = first_entries(src, entries)?;
    located_table(view, &found, table)
}
