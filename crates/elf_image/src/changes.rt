//! What a file's relocations depend on, and what they change.
ghost use Rattle.std.specs.Prelude.{◌≡◌, ◌+◌, ◌*◌, ◌^◌, ◌<◌, ◌≤◌, ◌&&◌, nat_lt, ℕ, List, Option, IfErr, IfOk, option_map};
ghost use Rattle.std.specs.List.{list_any};
ghost use Rattle.elf_model.specs.Image.{has_table, read_addresses};
ghost use Rattle.elf_model.specs.ImageChecks.{LoadedTable};
ghost use Rattle.elf_model.specs.LoaderScope.{tagged_row};
ghost use Rattle.elf_model.specs.Numbers.{DT_SYMTAB};
ghost use Rattle.elf_model.specs.Prelude.{has_bits};
ghost use Rattle.elf_model.specs.Traits.{has_text_relocations};
ghost use Rattle.elf_table.specs.Prelude.{CallDid, CallReads, HoldsProgramHeaders};
ghost use Rattle.elf_table.specs.Prelude.{IsOfCheck, fault_of_result};
ghost use Rattle.elf_hash.specs.Segments.{entries_asked};
ghost use Rattle.elf_hash.specs.Entries.{dynamic_entry_at};
ghost use Rattle.elf_image.specs.Located.{AreImageRows, AreImageTables, AreRowsAt, IsMapped};
ghost use Rattle.elf_image.specs.Located.{ChecksThen, image_entry_checks, loaded_addresses};
ghost use Rattle.elf_image.specs.Located.{located_checks_of, symbol_addresses};
ghost use Rattle.elf_image.specs.Relocated.{ReadsAfter, ReadsRelocations, SaysRelocations};
ghost use Rattle.elf_image.specs.Relocated.{entries_header};
ghost use Rattle.elf_image.specs.Relocated.{is_table_holder, is_holder};
ghost use Rattle.elf_image.specs.Within.{RelocationsWithin};

use crate::chunks::EntryChunks;
use crate::dynamic_rows::{ImageRows, image_rows, no_rows};
use crate::image_items::{CopyBytes, ImageItems};
use crate::place::{Place, holder};
use crate::ranges::{EntryRanges, entry_ranges};
use crate::tables::{ImageTables, MappedTable, image_tables, value_or};
use elf_hash::DynEntry;
use elf_record::Cause;
use elf_record::numbers::PT_DYNAMIC;
use elf_record::sizes::DYNAMIC_BYTES;
use elf_reloc::Patch;
use elf_source::{Counted, Source};
use elf_table::{ExecutionView, Fault, Table};

/// The bit of DT_FLAGS for text relocations (gABI 5, Dynamic Section).
const DF_TEXTREL: u64 = 4;

/// A file whose headers and tables are checked, with the items of its image.
#[derive(Clone, Copy)]
pub(crate) struct ImageFile<'v, 'a> {
    pub(crate) view: ExecutionView<'v>,
    pub(crate) items: &'a ImageItems<'a>,
    /// The load address.
    pub(crate) base: u64,
    /// Whether an entry that lacks an item changes nothing, and a symbol that another object may
    /// define lacks its item even if it is weak or defined here.
    pub(crate) leaves: bool,
    /// What its dynamic entries say.
    pub(crate) told: Relocations,
    /// At which addresses the entries of its first table store, as far as they are noted.
    pub(crate) chunks: EntryChunks,
}

/// What the dynamic entries of a file say of its relocations.
#[derive(Clone, Copy)]
pub(crate) struct Relocations {
    /// Whether segments that are not writable are relocated too.
    pub(crate) writes_text: bool,
    /// Relative relocations.
    pub(crate) compact: Table,
    /// Entries with addends.
    pub(crate) ranges: EntryRanges,
    /// The symbols, if there are any.
    pub(crate) symbols: Option<Table>,
    /// The address and the size of the dynamic entries.
    pub(crate) dynamic: (u64, u64),
    /// The segments that hold the first byte of a table.
    pub(crate) table_segments: TableSegments,
}

/// The segments that hold the first byte of each table that says how a file is relocated, and of
/// the symbols.
#[derive(Clone, Copy)]
pub(crate) struct TableSegments {
    pub(crate) compact: Option<u16>,
    pub(crate) addends: Option<u16>,
    pub(crate) calls: Option<u16>,
    pub(crate) symbols: Option<u16>,
}

/// The bytes that a relocation stores.
#[derive(Clone, Copy)]
pub(crate) enum RelocatedBytes<'a> {
    /// The word of 8 bytes that is there in the file, plus the base.
    Based,
    /// The bytes of a value.
    Value(Patch),
    /// Two words of 8 bytes.
    Pair(u64, u64),
    /// The bytes of a copied object.
    Copied(CopyBytes<'a>),
}

/// What a relocation changes: its place, the number of bytes there that it may change, and the
/// bytes that it stores from the place on.
#[derive(Clone, Copy)]
pub(crate) struct PlacedBytes<'a> {
    pub(crate) place: Place,
    pub(crate) width: u64,
    pub(crate) bytes: RelocatedBytes<'a>,
}

/// The result for an entry.
#[derive(Clone, Copy)]
pub(crate) enum EntryResult<'a> {
    /// It changes nothing.
    Nothing,
    /// It stores bytes.
    Stores(PlacedBytes<'a>),
    /// It lacks an item.
    Lacks(Cause),
}

impl TableSegments {
    /// Returns `true` if a segment is one of them.
    pub(crate) fn contains(&self, segment: u16) -> bool
        ensures { result ≡ is_table_holder self.now segment }
    {
        is_holder(self.compact, segment)
            || is_holder(self.addends, segment)
            || is_holder(self.calls, segment)
            || is_holder(self.symbols, segment)
    }
}

/// Returns `true` if a segment is the one that holds something, if one does.
fn is_holder(holder: Option<u16>, segment: u16) -> bool
    ensures { result ≡ is_holder holder segment }
{
    match holder {
        Some(holder) => holder == segment,
        None => false,
    }
}

impl Relocations {
    /// Returns `true` if `width` bytes at an address meet the dynamic entries.
    pub(crate) fn meets_dynamic(&self, address: u64, width: u64) -> bool
        ensures { result ≡ (nat_lt address (self.now.dynamic.0 + self.now.dynamic.1)
            && nat_lt self.now.dynamic.0 (address + width)) }
    {
        let (dynamic, size) = self.dynamic;
        u128::from(address) < u128::from(dynamic) + u128::from(size)
            && u128::from(dynamic) < u128::from(address) + u128::from(width)
    }
}

/// Reads the dynamic entries of the first DYNAMIC program header, checks the tables that they
/// locate, and returns what they say. The file's headers are checked.
///
/// # Errors
/// Returns the first check that fails: those of [`ExecutionView::dynamic`], of [`image_rows`], of
/// [`image_tables`] and of [`entry_ranges`]. Otherwise returns a fault of a read, or the refusal
/// `Budget`, at a dynamic entry's offset.
pub(crate) fn told_relocations<S: Source>(
    src: &mut Counted<S>,
    view: &ExecutionView<'_>,
) -> Result<Relocations, Fault>
    requires size { view.now.loaded.size ≡ src.old.seen.size }
    ensures did { CallDid src.old src.new (fault_of_result result) src.old.seen.size (λ file.
        HoldsProgramHeaders file view.now.loaded view.now.store.now →
        CallReads src.old src.new (fault_of_result result) (entries_asked file)
        × ReadsRelocations file result) }
    ensures within { IfOk result (RelocationsWithin src.old.seen.size) }
{
    let found = dynamic_entries(src, view)?;
    relocations_by(view, &found.0, found.1)
}

/// Returns what dynamic entries, which are at an address, say of a file's relocations. No bytes are
/// read.
///
/// # Errors
/// Returns the first check that fails: those of [`image_tables`] and of [`entry_ranges`].
fn relocations_by(
    view: &ExecutionView<'_>,
    rows: &ImageRows,
    address: u64,
) -> Result<Relocations, Fault>
    requires { rows.now.count < 2 ^ 60 }
    ensures within { IfOk result (RelocationsWithin view.now.loaded.size) }
    ensures refusal { IfErr result IsOfCheck }
    ensures told { (file : List ℕ) → HoldsProgramHeaders file view.now.loaded view.now.store.now →
        AreRowsAt file (rows.now, address) → ChecksThen (located_checks_of file)
        (SaysRelocations file (entries_header file)) result }
{
    let tables = image_tables(view, rows)?;
    let ranges = entry_ranges(&tables, rows)?;
    let table_segments = table_segments(view, &tables, rows.symbols);
    Ok(Relocations {
        writes_text: has_text_relocations(rows),
        compact: tables.compact.rows,
        ranges,
        symbols: tables.symbols,
        dynamic: (address, DYNAMIC_BYTES * rows.count),
        table_segments,
    })
}

/// Returns the dynamic entries of the first DYNAMIC program header that say how the file is
/// relocated, and the segment's address; none if there is no such header.
fn dynamic_entries<S: Source>(
    src: &mut Counted<S>,
    view: &ExecutionView<'_>,
) -> Result<(ImageRows, u64), Fault>
    requires size { view.now.loaded.size ≡ src.old.seen.size }
    ensures did { CallDid src.old src.new (fault_of_result result) src.old.seen.size (λ file.
        HoldsProgramHeaders file view.now.loaded view.now.store.now →
        CallReads src.old src.new (fault_of_result result) (entries_asked file)
        × ReadsAfter (image_entry_checks file) (AreRowsAt file) result) }
    ensures few { IfOk result (λ found. found.0.count < 2 ^ 60) }
{
    let Some(segment) = view.first_segment(PT_DYNAMIC) else {
        return Ok((no_rows(), 0));
    };
    let table = view.dynamic(segment)?;
    let rows = image_rows(src, table)?;
    Ok((rows, view.segment(segment).p_vaddr))
}

/// Returns `true` if the file has text relocations: by DT_TEXTREL, or by the flag of DT_FLAGS (gABI
/// 5, Dynamic Section).
fn has_text_relocations(rows: &ImageRows) -> bool
    ensures { (file : List ℕ) → AreImageRows file (entries_header file) rows.now →
        result ≡ has_text_relocations file }
{
    rows.text.is_some() || has_text_flag(value_or(rows.flags, 0))
}

/// Returns `true` if DT_FLAGS has the flag of text relocations.
fn has_text_flag(flags: u64) -> bool
    ensures { result ≡ has_bits flags 4 }
{
    flags & DF_TEXTREL == DF_TEXTREL
}

/// Returns the segments that hold the first byte of a table with rows, or of the symbols.
fn table_segments(
    view: &ExecutionView<'_>,
    tables: &ImageTables,
    symbols: Option<DynEntry>,
) -> TableSegments
    ensures { (file : List ℕ) (at segment : ℕ) →
        HoldsProgramHeaders file view.now.loaded view.now.store.now →
        AreImageTables file at tables.now →
        symbols ≡ option_map (dynamic_entry_at file) (tagged_row file at DT_SYMTAB) →
        is_table_holder result segment
        ≡ list_any (has_table file segment) (read_addresses file at) }
{
    TableSegments {
        compact: table_segment(view, &tables.compact),
        addends: table_segment(view, &tables.addends),
        calls: table_segment(view, &tables.calls),
        symbols: row_segment(view, symbols),
    }
}

/// Returns the segment that holds the byte at the address of a dynamic entry, if there is one.
fn row_segment(view: &ExecutionView<'_>, row: Option<DynEntry>) -> Option<u16>
    ensures { (file : List ℕ) (at segment : ℕ) →
        HoldsProgramHeaders file view.now.loaded view.now.store.now →
        row ≡ option_map (dynamic_entry_at file) (tagged_row file at DT_SYMTAB) →
        is_holder result segment ≡ list_any (has_table file segment) (symbol_addresses file at) }
{
    let row = row?;
    holder(view, row.value, 1)
}

/// Returns the segment that holds the first byte of a table, if that has rows.
fn table_segment(view: &ExecutionView<'_>, table: &MappedTable) -> Option<u16>
    ensures { (file : List ℕ) (loaded : Option LoadedTable) (width segment : ℕ) →
        HoldsProgramHeaders file view.now.loaded view.now.store.now →
        IsMapped loaded width table.now → is_holder result segment
        ≡ list_any (has_table file segment) (loaded_addresses loaded) }
{
    if table.rows.is_empty() {
        return None;
    }
    holder(view, table.address, 1)
}
