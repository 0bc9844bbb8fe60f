//! The tables that a lookup searches, by the program headers.
ghost use Rattle.std.specs.Prelude.{◌≡◌, ◌<◌, ◌^◌, ℕ, List};
ghost use Rattle.elf_model.specs.Prelude.{d_un, has_wide_kind, lookup_tables_by_segments, scope_in_segments, segment_at, segment_checks, segment_lookup_tables};
ghost use Rattle.elf_table.specs.Prelude.{ChecksThenValue, HoldsProgramHeaders};
ghost use Rattle.elf_hash.specs.Entries.{AreTaggedEntries};
ghost use Rattle.elf_hash.specs.HashStyles.{hash_style_of};
ghost use Rattle.elf_hash.specs.Headers.{FindsIn, HasHeader, IsOfSource};
ghost use Rattle.elf_hash.specs.LookupTablesFound.{FindsLookupTables, IsLookupTables, LookupTablesInBounds};
ghost use Rattle.elf_hash.specs.Segments.{FindsSegments, ReturnsHash, scope_by_entries};

use crate::dyn_entry::{DynEntry, DynamicTags};
use crate::dynamic_tags::first_entries;
use crate::hash_style::HashStyle;
use crate::lookup_tables::LookupTables;
use crate::place::HashTableLocation;
use crate::segment_symbols::segment_symbols;
use elf_record::Cause;
use elf_record::numbers::{EM_ALPHA, PT_DYNAMIC};
use elf_source::{Counted, Source};
use elf_table::{ExecutionView, Fault, refused};

/// Returns the tables that a lookup searches by the program headers: by the dynamic entries of the
/// first PT_DYNAMIC segment, which are read, each byte at most once.
///
/// # Errors
/// Returns the first check that fails: that of [`ExecutionView::check_overlaps`]; `NoHash` at 0x20
/// if there is no such segment, and if none of its entries locates a hash table; before the latter
/// the checks of [`ExecutionView::dynamic`]; then those of the entries. Otherwise returns a fault
/// of a read, or the refusal `Budget`, at an entry's offset.
pub fn find_in_segments<S: Source>(
    src: &mut Counted<S>,
    view: &ExecutionView<'_>,
) -> Result<LookupTables, Fault>
    requires { IsOfSource src.old view.now.loaded }
    ensures { FindsSegments view.now lookup_tables_by_segments src.old src.new result }
{
    view.check_overlaps()?;
    in_segments(src, view)
}

/// Does the same after the check that no two LOAD segments overlap.
fn in_segments<S: Source>(
    src: &mut Counted<S>,
    view: &ExecutionView<'_>,
) -> Result<LookupTables, Fault>
    requires { IsOfSource src.old view.now.loaded }
    ensures { FindsSegments view.now scope_in_segments src.old src.new result }
{
    let Some(segment) = view.first_segment(PT_DYNAMIC) else {
        return refused(0x20, Cause::NoHash);
    };
    let table = view.dynamic(segment)?;
    let found = first_entries(src, table)?;
    by_entries(view, segment, &found)
}

/// Returns the tables that a lookup searches, by the entries of a segment.
fn by_entries(
    view: &ExecutionView<'_>,
    segment: u16,
    found: &DynamicTags,
) -> Result<LookupTables, Fault>
    requires { HasHeader segment view.now.store.now.segments view.now.loaded.size }
    ensures { FindsIn HoldsProgramHeaders view.now.loaded view.now.store.now result
        LookupTablesInBounds (λ bytes.
        AreTaggedEntries bytes (segment_at bytes segment) found.now →
        FindsLookupTables bytes (scope_by_entries bytes segment (segment_at bytes segment))
        result) }
{
    let Some((kind, row)) = hash_entry(found) else {
        return refused(0x20, Cause::NoHash);
    };
    segment_lookup_tables(view, segment, found, kind, &row)
}

/// Returns the entry that locates a hash table, with its style: DT_GNU_HASH, otherwise DT_HASH.
pub fn hash_entry(found: &DynamicTags) -> Option<(HashStyle, DynEntry)>
    ensures { (bytes : List ℕ) (at : ℕ) → AreTaggedEntries bytes at found.now →
        ReturnsHash bytes at result }
{
    if let Some(row) = found.gnu_hash {
        return Some((HashStyle::Gnu, row));
    }
    let Some(row) = found.hash else {
        return None;
    };
    Some((HashStyle::Sysv, row))
}

/// Returns the tables that a lookup searches, by the entry that locates the hash table, which
/// [`hash_entry`] returns, and the others. No bytes are read.
///
/// # Errors
/// Returns the first check that fails: those of [`ExecutionView::rest`] for the hash table;
/// `HashShape` at its entry if it is too small for its counts, and if its words have 8 bytes;
/// `Unmapped` at it if no entry locates the symbols or their strings, or holds the size of these;
/// those of [`ExecutionView::rest`] for the symbols and of [`ExecutionView::mapped`] for their
/// strings, and if there are version tables those of [`ExecutionView::rest`] for each.
pub fn segment_lookup_tables(
    view: &ExecutionView<'_>,
    segment: u16,
    found: &DynamicTags,
    kind: HashStyle,
    row: &DynEntry,
) -> Result<LookupTables, Fault>
    requires { HasHeader segment view.now.store.now.segments view.now.loaded.size }
    ensures { FindsIn HoldsProgramHeaders view.now.loaded view.now.store.now result
        LookupTablesInBounds (λ bytes.
        AreTaggedEntries bytes (segment_at bytes segment) found.now →
        d_un bytes row.now.at ≡ row.now.value →
        ChecksThenValue
        (segment_checks bytes (hash_style_of kind) (segment_at bytes segment) row.now.at)
        (IsLookupTables bytes
        (segment_lookup_tables bytes (hash_style_of kind) segment (segment_at bytes segment)
        row.now.at))
        result) }
{
    let hash = view.rest(row.value, row.at)?;
    let wide = has_64_bit_words(view, kind);
    if hash.len() < kind.min_hash_bytes() || wide {
        return refused(row.at, Cause::HashShape);
    }
    let symbols = segment_symbols(view, segment, found, row.at)?;
    Ok(LookupTables {
        machine: view.loaded.header().e_machine,
        hash: HashTableLocation {
            kind,
            head: row.at,
            at: hash.at(),
            size: hash.len(),
            symbols: symbols.table.len(),
        },
        symbols,
    })
}

/// Returns `true` if the words of a hash table have 8 bytes: in Alpha files those of the SysV hash
/// table have. No entry holds their size.
fn has_64_bit_words(view: &ExecutionView<'_>, kind: HashStyle) -> bool
    ensures { (bytes : List ℕ) → HoldsProgramHeaders bytes view.now.loaded view.now.store.now →
        result ≡ has_wide_kind bytes (hash_style_of kind) }
{
    match kind {
        HashStyle::Gnu => false,
        HashStyle::Sysv => view.loaded.header().e_machine == EM_ALPHA,
    }
}
