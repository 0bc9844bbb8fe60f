//! The tables that dynamic entries locate.
ghost use Rattle.std.specs.Prelude.{◌≡◌, ◌==◌, ◌&&◌, ◌+◌, ◌*◌, ◌<◌, true, ℕ, List};
ghost use Rattle.elf_model.specs.Prelude.{RELOCS, SYMBOLS, cost_where, dynamic_tables, follows_dynamic, guarded, has, has_located, located_count, segment_at, segment_dynamic_checks, segment_relocations, segment_symbol_rows, segment_tables, where_asked};
ghost use Rattle.elf_options.specs.Permitted.{style_of};
ghost use Rattle.elf_listing.specs.HeadersListed.{ListsLocated, ListsView};
ghost use Rattle.elf_listing.specs.Located.{ListsLocatedBy, ViewsEntries};
ghost use Rattle.elf_listing.specs.Viewed.{viewed_headers};

use crate::dynamic_relocations::list_relocations;
use crate::hashed_symbols::list_symbols;
use crate::listing::Listing;
use crate::table_view::{follows_dynamic, has_located};
use bitflags::Flags;
use elf_hash::{DynamicTags, first_entries};
use elf_record::Parts;
use elf_record::numbers::PT_DYNAMIC;
use elf_source::{Sink, Source};
use elf_table::{ExecutionView, RunFault};

/// The first dynamic entries of a segment, by which tables are located.
#[derive(Clone, Copy)]
pub struct SegmentEntries<'f> {
    /// The file with its program headers.
    pub view: ExecutionView<'f>,
    /// The index of the segment.
    pub segment: u16,
    /// The first entry with each tag.
    pub found: DynamicTags,
}

impl<S: Source, W: Sink> Listing<'_, '_, '_, '_, S, W> {
    /// Shows the program headers and what dynamic entries locate, those that `parts` has, up to the
    /// first refusal.
    pub(crate) fn view_headers(&mut self, parts: Parts) -> Result<(), RunFault>
        requires { self.old.file.store.now.segments
            ≡ viewed_headers (style_of self.old.style) parts.0 self.old.file.loaded }
        ensures { ListsView parts.0 self.old self.new result }
    {
        self.program_headers(parts)?;
        self.located(parts)
    }

    /// Shows what dynamic entries locate, if `parts` has it, the style follows them, and the file
    /// has no sections.
    fn located(&mut self, parts: Parts) -> Result<(), RunFault>
        requires { self.old.file.store.now.segments
            ≡ viewed_headers (style_of self.old.style) parts.0 self.old.file.loaded }
        ensures { ListsLocated parts.0 self.old self.new result }
    {
        if !self.is_located(parts) {
            return Ok(());
        }
        list_located(self, parts)
    }

    /// Returns `true` if tables are found by dynamic entries.
    fn is_located(&self, parts: Parts) -> bool
        ensures { result ≡ (self.now.file.loaded.header.e_shnum == 0
            && (follows_dynamic (style_of self.now.style) && has_located parts.0)) }
    {
        let is_followed = follows_dynamic(self.style) && has_located(parts);
        self.file.loaded.header().e_shnum == 0 && is_followed
    }
}

/// Shows the tables that the first segment of dynamic entries locates, if there is one, those that
/// `parts` has. No LOAD segment overlaps another.
fn list_located<S: Source, W: Sink>(
    listing: &mut Listing<'_, '_, '_, '_, S, W>,
    parts: Parts,
) -> Result<(), RunFault>
    requires { listing.old.file.store.now.segments ≡ listing.old.file.loaded.header.e_phnum }
    ensures { let tables = located_count (has parts.0 SYMBOLS) (has parts.0 RELOCS) in
        ListsLocatedBy listing.old listing.new result tables
        (λ file. dynamic_tables file (style_of listing.old.style) parts.0) }
{
    let view = ExecutionView {
        loaded: listing.file.loaded,
        store: listing.file.store,
    };
    view.check_overlaps()?;
    let Some(segment) = view.first_segment(PT_DYNAMIC) else {
        return Ok(());
    };
    list_segment(listing, segment, parts)
}

/// Shows the tables that the dynamic entries of a segment locate, those that `parts` has.
fn list_segment<S: Source, W: Sink>(
    listing: &mut Listing<'_, '_, '_, '_, S, W>,
    segment: u16,
    parts: Parts,
) -> Result<(), RunFault>
    requires { segment < listing.old.file.store.now.segments }
    ensures { let tables = located_count (has parts.0 SYMBOLS) (has parts.0 RELOCS) in
        ListsLocatedBy listing.old listing.new result tables
        (λ file. let at = segment_at file segment in guarded (segment_dynamic_checks file at)
        (segment_tables file (style_of listing.old.style) parts.0 segment at)) }
{
    let view = listing.view();
    let table = view.dynamic(segment)?;
    let found = first_entries(listing.src, table)?;
    let entries = SegmentEntries {
        view,
        segment,
        found,
    };
    list_tables(listing, &entries, parts)
}

/// Shows the tables that dynamic entries locate, those that `parts` has: symbols, then relocations.
fn list_tables<S: Source, W: Sink>(
    listing: &mut Listing<'_, '_, '_, '_, S, W>,
    entries: &SegmentEntries<'_>,
    parts: Parts,
) -> Result<(), RunFault>
    requires { ViewsEntries listing.old.file.loaded.size listing.old.src.now.seen.file entries.now }
    ensures { let tables = cost_where (has parts.0 SYMBOLS) 2 + cost_where (has parts.0 RELOCS) 4 in
        ListsLocatedBy listing.old listing.new result tables (λ file.
        segment_tables file (style_of listing.old.style) parts.0 entries.now.segment
        (segment_at file entries.now.segment)) }
{
    list_asked_symbols(listing, entries, parts)?;
    list_asked_relocations(listing, entries, parts)
}

/// Shows the symbols that dynamic entries locate, if `parts` has them.
fn list_asked_symbols<S: Source, W: Sink>(
    listing: &mut Listing<'_, '_, '_, '_, S, W>,
    entries: &SegmentEntries<'_>,
    parts: Parts,
) -> Result<(), RunFault>
    requires { ViewsEntries listing.old.file.loaded.size listing.old.src.now.seen.file entries.now }
    ensures { let tables = cost_where (has parts.0 SYMBOLS) 2 in
        ListsLocatedBy listing.old listing.new result tables (λ file. where_asked parts.0 SYMBOLS
        (segment_symbol_rows file (style_of listing.old.style) entries.now.segment
        (segment_at file entries.now.segment))) }
{
    if !parts.contains(Parts::SYMBOLS) {
        return Ok(());
    }
    list_symbols(listing, entries)
}

/// Shows the relocations that dynamic entries locate, if `parts` has them.
fn list_asked_relocations<S: Source, W: Sink>(
    listing: &mut Listing<'_, '_, '_, '_, S, W>,
    entries: &SegmentEntries<'_>,
    parts: Parts,
) -> Result<(), RunFault>
    requires { ViewsEntries listing.old.file.loaded.size listing.old.src.now.seen.file entries.now }
    ensures { let tables = cost_where (has parts.0 RELOCS) 4 in
        ListsLocatedBy listing.old listing.new result tables (λ file. where_asked parts.0 RELOCS
        (segment_relocations file (style_of listing.old.style) entries.now.segment
        (segment_at file entries.now.segment))) }
{
    if !parts.contains(Parts::RELOCS) {
        return Ok(());
    }
    list_relocations(listing, entries)
}
