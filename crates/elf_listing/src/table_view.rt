//! The program headers that describe the tables of a listing.
ghost use Rattle.std.specs.Prelude.{◌≡◌, ◌&&◌, ◌||◌, true, ℕ, List, Some, IfErr, OnOk};
ghost use Rattle.elf_model.specs.Prelude.{SEGMENTS, e_shnum, follows_dynamic, has, has_located, lies_in_segments, view_checks};
ghost use Rattle.elf_source.specs.Source.{ReadsUpTo};
ghost use Rattle.elf_table.specs.Prelude.{ChecksDecide, HoldsSectionHeaders, HoldsSegments, IsOfCheck, IsOfRead, IsReadFault};
ghost use Rattle.elf_options.specs.Permitted.{style_of};
ghost use Rattle.elf_listing.specs.Viewed.{MayLoadView, ChecksView, needs_segment_view, view_cost, viewed_headers};

use bitflags::Flags;
use elf_record::Parts;
use elf_source::{Counted, Source};
use elf_table::{ExecutionView, Fault, HeaderStore, ListingStyle, Loaded};

/// Loads the program headers of a file without sections, if the parts need them: to be shown, or to
/// find its notes, its dynamic entries and what these locate. If the style finds tables by them, no LOAD segment
/// overlaps another.
///
/// # Errors
/// A read fault, or a refusal for lack of budget; then the check of
/// [`ExecutionView::check_overlaps`], if the style requires it.
pub(crate) fn load_view<S: Source>(
    src: &mut Counted<S>,
    store: &mut HeaderStore,
    loaded: &Loaded,
    style: ListingStyle,
    parts: Parts,
) -> Result<(), Fault>
    requires { MayLoadView src.old.seen.size loaded.now store.old }
    ensures slots { store.new.slots ≡ store.old.slots }
    ensures loaded { store.new.loaded ≡ store.old.loaded }
    ensures segments { OnOk result
        (store.new.segments ≡ viewed_headers (style_of style.entry) parts.0 loaded.now) }
    ensures reads { ReadsUpTo src.old src.new
        (view_cost (style_of style.entry) parts.0 loaded.now) }
    ensures says { IfErr result
        (IsReadFault src.old src.new (view_cost (style_of style.entry) parts.0 loaded.now)) }
    ensures held { (file : List ℕ) → src.old.seen.file ≡ Some file →
        HoldsSectionHeaders file loaded.now store.old → OnOk result
        (HoldsSectionHeaders file loaded.now store.new × HoldsSegments file store.new) }
    ensures checked { (file : List ℕ) → src.old.seen.file ≡ Some file →
        HoldsSectionHeaders file loaded.now store.old →
        (style.entry.by_segments ≡ true → e_shnum file ≡ 0) →
        ChecksView (view_checks file (style_of style.entry) parts.0) result }
{
    read_view(src, store, loaded, style, parts)?;
    check_view(store, loaded, style, parts)
}

/// Checks the program headers in the store, if the style finds tables by them.
///
/// # Errors
/// That of [`ExecutionView::check_overlaps`].
fn check_view(
    store: &HeaderStore,
    loaded: &Loaded,
    style: ListingStyle,
    parts: Parts,
) -> Result<(), Fault>
    requires { store.now.segments ≡ viewed_headers (style_of style) parts.0 loaded.now }
    ensures checked { (file : List ℕ) → HoldsSectionHeaders file loaded.now store.now →
        HoldsSegments file store.now → (style.entry.by_segments ≡ true → e_shnum file ≡ 0) →
        ChecksDecide (view_checks file (style_of style.entry) parts.0) result }
    ensures refusal { IfErr result IsOfCheck }
{
    if !is_checked(loaded, style, parts) {
        return Ok(());
    }
    let loaded = *loaded;
    ExecutionView { loaded, store }.check_overlaps()
}

/// Returns `true` if the style finds tables by the program headers, and the parts need them.
fn is_checked(loaded: &Loaded, style: ListingStyle, parts: Parts) -> bool
    ensures { result ≡ (style.entry.by_segments
        && needs_segment_view (style_of style.entry) parts.0 loaded.now) }
{
    style.by_segments && loaded.header().e_shnum == 0 && needs_segment_view(style, parts)
}

/// Loads the program headers of a file without sections, if the parts need them.
fn read_view<S: Source>(
    src: &mut Counted<S>,
    store: &mut HeaderStore,
    loaded: &Loaded,
    style: ListingStyle,
    parts: Parts,
) -> Result<(), Fault>
    requires { MayLoadView src.old.seen.size loaded.now store.old }
    ensures slots { store.new.slots ≡ store.old.slots }
    ensures loaded { store.new.loaded ≡ store.old.loaded }
    ensures segments { OnOk result
        (store.new.segments ≡ viewed_headers (style_of style.entry) parts.0 loaded.now) }
    ensures reads { ReadsUpTo src.old src.new
        (view_cost (style_of style.entry) parts.0 loaded.now) }
    ensures says { IfErr result
        (IsReadFault src.old src.new (view_cost (style_of style.entry) parts.0 loaded.now)) }
    ensures fault { IfErr result IsOfRead }
    ensures held { (file : List ℕ) → src.old.seen.file ≡ Some file →
        HoldsSectionHeaders file loaded.now store.old → OnOk result
        (HoldsSectionHeaders file loaded.now store.new × HoldsSegments file store.new) }
{
    if loaded.header().e_shnum != 0 || !needs_segment_view(style, parts) {
        return Ok(());
    }
    loaded.load_segments(src, store)
}

/// Returns `true` if the parts of a file without sections need its program headers.
fn needs_segment_view(style: ListingStyle, parts: Parts) -> bool
    ensures { result ≡ (has parts.0 SEGMENTS || lies_in_segments (style_of style.entry) parts.0) }
{
    parts.contains(Parts::SEGMENTS)
        || parts.contains(Parts::NOTES)
        || parts.contains(Parts::DYNAMIC)
        || (follows_dynamic(style) && has_located(parts))
}

/// Returns `true` if the style lists what dynamic entries locate, in a file without sections.
pub(crate) fn follows_dynamic(style: ListingStyle) -> bool
    ensures { result ≡ follows_dynamic (style_of style.entry) }
{
    style.gnu || style.by_segments
}

/// Returns `true` if the parts have what dynamic entries locate: symbols or relocations.
pub(crate) fn has_located(parts: Parts) -> bool
    ensures { result ≡ has_located parts.0 }
{
    parts.contains(Parts::SYMBOLS) || parts.contains(Parts::RELOCS)
}
