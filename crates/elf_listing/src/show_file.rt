//! The call that writes a listing.
ghost use Rattle.elf_source.specs.Growth.{OutGrows};
ghost use Rattle.std.specs.Prelude.{◌≡◌, ◌+◌, ◌-◌, ◌^◌, ◌≤◌, [], ◌∷◌, true, false, ℕ, List};
ghost use Rattle.std.specs.Prelude.{Some, None, Ok, IfErr};
ghost use Rattle.elf_model.specs.Prelude.{HEADER, after_header, e_shnum, first_refusal, has, has_tables, header_row, known_parts, length_checks, listing as listed_items, listing_cost, load_items, style_ceiling, table_items, viewed as view_of, where_asked};
ghost use Rattle.elf_model.specs.declared.causes.Refusal.{Refusal as Refuses};
ghost use Rattle.elf_record.specs.Ehdr.{IsEhdr};
ghost use Rattle.elf_listing.specs.FaultRows.{FindsFaultRow, HoldsFaultRow};
ghost use Rattle.elf_listing.specs.Parts.{tables_listed};
ghost use Rattle.elf_listing.specs.Viewed.{HasLength, IsReady};
ghost use Rattle.elf_table.specs.Faults.{HeaderRead};
ghost use Rattle.elf_options.specs.Permitted.{style_of};
ghost use Rattle.elf_listing.specs.Reports.{WroteReport, FaultSays, AsksWithin, KeepsSourceUnlimited};
ghost use Rattle.elf_listing.specs.Shows.{ListingCosts, IsOfOutput, WroteSome};

use crate::fault_line::show_stop_in;
use crate::fault_rows::row_of_stop;
use crate::listing::Listing;
use crate::row_places::place_of_header;
use crate::table_view::load_view;
use bitflags::Flags;
use elf_format::{Columns, Json, Tabular, header_row};
use elf_model::{FaultRow, Format};
use elf_note::ReadAhead;
use elf_record::{Ehdr, Parts};
use elf_source::{Counted, Out, Sink, Source};
use elf_table::{
    Caps, HeaderStore, ListingStyle, Loaded, NameBuf, RunFault, SectionView, header, load,
};

/// All parts except the file header.
const TABLES: Parts = Parts(254);

/// Writes the listing of a file, the parts that `parts` has.
///
/// The parts are the file header, the section headers, the program headers, the symbols, the
/// relocation entries, the notes, the dynamic entries and, if the style uses GNU names, the symbol
/// versions. The line of the first fault ends the listing.
///
/// Notes and dynamic entries are those of the sections, and in a file without sections those of the
/// segments. If the style finds tables by the program headers, every file is listed as if its file
/// header had no section headers.
///
/// The store has a slot for each header that the caps allow, and is loaded with the file's section
/// headers, or with the program headers of a file without any. At most 2^127 bytes were requested
/// from the source before. If the caps have a budget, no more is read, and the line of a refusal
/// for lack of budget may end the listing early; on return no limit is set.
///
/// # Errors
/// A refusal of the file, or for lack of budget: its line was written, as the last one. A fault of
/// the source, with the offset that was requested, or of the output, with the number of bytes it
/// took: a prefix of the listing was written. The store may be loaded again.
pub fn show<S: Source, W: Sink>(
    src: &mut Counted<S>,
    store: &mut HeaderStore,
    caps: Caps,
    parts: Parts,
    out: &mut Out<W>,
) -> Result<(), RunFault>
    requires { (store.old.slots ≡ caps.limits.headers) × (src.old.asked ≤ 2 ^ 127) }
    ensures slots { store.new.slots ≡ store.old.slots }
    ensures grows { OutGrows out.old out.new }
    ensures leaves { KeepsSourceUnlimited src.old src.new }
    ensures says { IfErr result (FaultSays src.old src.new out.new) }
    ensures text { (file : List ℕ) → src.old.seen.file ≡ Some file →
        WroteReport file caps.entry parts.0 out.old out.new result }
    ensures cost { (file : List ℕ) → src.old.seen.file ≡ Some file →
        src.new.asked ≤ src.old.asked
        + listing_cost file caps.entry.limits.headers (style_of caps.entry.style) parts.0 }
    // For any source.
    ensures asks { AsksWithin caps.entry parts.0 src.old src.new result }
{
    let mut row = FaultRow::NoRow;
    src.limit(caps.limits.budget);
    let listed = list_with_row(src, store, caps.style, parts, out, &mut row);
    src.limit(None);
    match listed {
        Ok(()) => Ok(()),
        Err(stop) => Err(show_stop_in(stop, row, caps.style.format, out)),
    }
}

/// Writes the lines of a listing as [`show`] does, within the limit set on the source, and leaves
/// it to the caller to report why it stopped: no line of a refusal is written.
///
/// The store is loaded as by `show`, for as many headers as it has slots.
///
/// # Errors
/// A refusal of the file, or for lack of budget: the lines before it were written. A fault of the
/// source or of the output, as for `show`.
pub fn list<S: Source, W: Sink>(
    src: &mut Counted<S>,
    store: &mut HeaderStore,
    style: ListingStyle,
    parts: Parts,
    out: &mut Out<W>,
) -> Result<(), RunFault>
    ensures slots { store.new.slots ≡ store.old.slots }
    ensures grows { OutGrows out.old out.new }
    ensures ceiling { ListingCosts src.old src.new out.new result
        (style_ceiling src.old.seen.size store.old.slots (style_of style.entry)) }
    ensures unread { (refusal : Refuses) →
        first_refusal (length_checks src.old.seen.size) ≡ Some refusal → src.new ≡ src.old }
    ensures alone { has_tables (known_parts (style_of style.entry) parts.0) ≡ false →
        src.new.asked ≤ src.old.asked + 64 }
    ensures cost { (file : List ℕ) → src.old.seen.file ≡ Some file →
        ListingCosts src.old src.new out.new result
        (listing_cost file store.old.slots (style_of style.entry) parts.0) }
    ensures text { (file : List ℕ) → src.old.seen.file ≡ Some file →
        WroteSome out.old out.new result
        (listed_items file store.old.slots (style_of style.entry) parts.0) }
{
    let mut row = FaultRow::NoRow;
    list_with_row(src, store, style, parts, out, &mut row)
}

/// Writes the lines of a listing as [`list`] does, and stores the row that a refusal is in into
/// `row`: by the file header and the headers in the store, so none for lack of budget.
///
/// # Errors
/// Those of [`list`].
fn list_with_row<S: Source, W: Sink>(
    src: &mut Counted<S>,
    store: &mut HeaderStore,
    style: ListingStyle,
    parts: Parts,
    out: &mut Out<W>,
    row: &mut FaultRow,
) -> Result<(), RunFault>
    ensures slots { store.new.slots ≡ store.old.slots }
    ensures grows { OutGrows out.old out.new }
    ensures ceiling { ListingCosts src.old src.new out.new result
        (style_ceiling src.old.seen.size store.old.slots (style_of style.entry)) }
    ensures unread { (refusal : Refuses) →
        first_refusal (length_checks src.old.seen.size) ≡ Some refusal → src.new ≡ src.old }
    ensures alone { has_tables (known_parts (style_of style.entry) parts.0) ≡ false →
        src.new.asked ≤ src.old.asked + 64 }
    ensures cost { (file : List ℕ) → src.old.seen.file ≡ Some file →
        ListingCosts src.old src.new out.new result
        (listing_cost file store.old.slots (style_of style.entry) parts.0) }
    ensures text { (file : List ℕ) → src.old.seen.file ≡ Some file →
        WroteSome out.old out.new result
        (listed_items file store.old.slots (style_of style.entry) parts.0) }
    ensures row { (file : List ℕ) → src.old.seen.file ≡ Some file →
        FindsFaultRow file (style_of style.entry) parts.0 result row.new }
{
    *row = FaultRow::NoRow;
    let header = header(src)?;
    list_header(&header, style, parts, out)?;
    let listed = list_by_segments(src, store, &header, style, parts.known(style.gnu), out);
    *row = row_of_stop(&listed, &viewed_header(&header, style), store);
    listed
}

/// Returns the file header that the style uses: without section headers if tables are found by the
/// program headers.
fn viewed_header(header: &Ehdr, style: ListingStyle) -> Ehdr
    ensures { (file : List ℕ) → IsEhdr file 0 header.now →
        IsEhdr (view_of (style_of style.entry) file) 0 result }
{
    if style.by_segments {
        return header.without_sections();
    }
    *header
}

/// Lists the file header, if `parts` has it and its row is shown: its `H` line (gABI 4, ELF
/// Header).
fn list_header<W: Sink>(
    header: &Ehdr,
    style: ListingStyle,
    parts: Parts,
    out: &mut Out<W>,
) -> Result<(), RunFault>
    ensures grows { OutGrows out.old out.new }
    ensures fails { IfErr result (IsOfOutput out.new) }
    ensures text { (file : List ℕ) → IsEhdr file 0 header.now → WroteSome out.old out.new result
        (where_asked parts.0 HEADER (header_row (style_of style.entry) file)) }
{
    if !parts.contains(Parts::HEADER) || !style.place.shows(&place_of_header()) {
        return Ok(());
    }
    let line = match style.format {
        Format::Columns => header_row::<Columns>(header),
        Format::Object => header_row::<Json>(header),
        Format::Table => header_row::<Tabular>(header),
    };
    out.put(&line)?;
    Ok(())
}

/// Lists what follows the file header, for the view of the file that the style uses: if tables are
/// found by the program headers, the section header fields of the file header are masked meanwhile.
/// `header` is the file's header.
fn list_by_segments<S: Source, W: Sink>(
    src: &mut Counted<S>,
    store: &mut HeaderStore,
    header: &Ehdr,
    style: ListingStyle,
    parts: Parts,
    out: &mut Out<W>,
) -> Result<(), RunFault>
    requires fits { HasLength src.old.seen.size }
    requires header { (file : List ℕ) → src.old.seen.file ≡ Some file →
        HeaderRead file (Ok header.now) }
    ensures slots { store.new.slots ≡ store.old.slots }
    ensures grows { OutGrows out.old out.new }
    ensures below { ListingCosts src.old src.new out.new result
        (style_ceiling src.old.seen.size store.old.slots (style_of style.entry) - 64) }
    ensures alone { has_tables parts.0 ≡ false → src.new.asked ≡ src.old.asked }
    ensures cost { (file : List ℕ) → src.old.seen.file ≡ Some file →
        ListingCosts src.old src.new out.new result
        (after_header (view_of (style_of style.entry) file)
        store.old.slots (style_of style.entry) parts.0) }
    ensures text { (file : List ℕ) → src.old.seen.file ≡ Some file →
        WroteSome out.old out.new result
        (load_items (view_of (style_of style.entry) file)
        store.old.slots (style_of style.entry) parts.0) }
    ensures row { (file : List ℕ) → src.old.seen.file ≡ Some file →
        HoldsFaultRow (view_of (style_of style.entry) file) (style_of style.entry) parts.0
        store.new result }
{
    if !style.by_segments {
        return list_by_sections(src, store, header, style, parts, out);
    }
    let hides = src.hides();
    src.mask_section_headers(true);
    let listed = list_by_sections(src, store, &header.without_sections(), style, parts, out);
    src.mask_section_headers(hides);
    listed
}

/// Loads the headers and lists the tables, if `parts` has more than the file header. `header` is
/// the file's header, which has no sections if the style finds tables by the program headers.
fn list_by_sections<S: Source, W: Sink>(
    src: &mut Counted<S>,
    store: &mut HeaderStore,
    header: &Ehdr,
    style: ListingStyle,
    parts: Parts,
    out: &mut Out<W>,
) -> Result<(), RunFault>
    requires fits { HasLength src.old.seen.size }
    requires header { (file : List ℕ) → src.old.seen.file ≡ Some file →
        HeaderRead file (Ok header.now) }
    requires hidden { (file : List ℕ) → src.old.seen.file ≡ Some file →
        style.by_segments ≡ true → e_shnum file ≡ 0 }
    ensures slots { store.new.slots ≡ store.old.slots }
    ensures grows { OutGrows out.old out.new }
    ensures below { ListingCosts src.old src.new out.new result
        (style_ceiling src.old.seen.size store.old.slots (style_of style.entry) - 64) }
    ensures alone { has_tables parts.0 ≡ false → src.new ≡ src.old }
    ensures cost { (file : List ℕ) → src.old.seen.file ≡ Some file →
        ListingCosts src.old src.new out.new result
        (after_header file store.old.slots (style_of style.entry) parts.0) }
    ensures text { (file : List ℕ) → src.old.seen.file ≡ Some file →
        WroteSome out.old out.new result
        (load_items file store.old.slots (style_of style.entry) parts.0) }
    ensures row { (file : List ℕ) → src.old.seen.file ≡ Some file →
        HoldsFaultRow file (style_of style.entry) parts.0 store.new result }
{
    if !parts.intersects(TABLES) {
        return Ok(());
    }
    let loaded = load(src, store, header)?;
    load_view(src, store, &loaded, style, parts)?;
    list_tables(src, out, loaded, store, style, parts)
}

/// Lists the tables of a file whose headers are in the store.
fn list_tables<S: Source, W: Sink>(
    src: &mut Counted<S>,
    out: &mut Out<W>,
    loaded: Loaded,
    store: &HeaderStore,
    style: ListingStyle,
    parts: Parts,
) -> Result<(), RunFault>
    requires { IsReady (style_of style) parts.0 src.old loaded store.now }
    ensures grows { OutGrows out.old out.new }
    ensures costs { ListingCosts src.old src.new out.new result
        (tables_listed (style_of style.entry) parts.0 loaded store.now) }
    ensures text { (file : List ℕ) → src.old.seen.file ≡ Some file →
        WroteSome out.old out.new result (table_items file (style_of style.entry) parts.0) }
{
    let name = NameBuf::new();
    let ahead = ReadAhead::new();
    let file = SectionView { loaded, store };
    let mut listing = Listing {
        src,
        out,
        file,
        style,
        name,
        ahead,
    };
    listing.tables(parts)
}
