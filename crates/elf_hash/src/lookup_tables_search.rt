//! The tables that a lookup searches, found by the headers of a file.
ghost use Rattle.std.specs.Prelude.{◌≡◌, ◌+◌, ◌*◌, ◌<◌, ◌≤◌, ◌^◌, ℕ, List, IfOk};
ghost use Rattle.elf_model.specs.LoaderFind.{segments_asked};
ghost use Rattle.elf_table.specs.Prelude.{CallDid, CallReads, HoldsSectionHeaders, SegmentsInBounds, fault_of_result};
ghost use Rattle.elf_hash.specs.Finding.{FindsScope, scope_loaded, segments_bytes};
ghost use Rattle.elf_hash.specs.Headers.{IsOfSource};
ghost use Rattle.elf_hash.specs.LookupTablesFound.{FindsLookupTables, LookupTablesInBounds};

use crate::by_sections::by_sections;
use crate::by_segments::find_in_segments;
use crate::lookup_tables::LookupTables;
use elf_source::{Counted, Source};
use elf_table::{ExecutionView, Fault, HeaderStore, Loaded, SectionView, header, load};

/// Returns the tables that a GNU loader searches in one file (gABI 5, Dynamic Linking; Linux
/// Standard Base Core, Symbol Versioning). By the section headers: the hash table of the first
/// GNU_HASH section, otherwise of the first HASH section, with the symbols that it links to, and
/// the first sections of versym entries, definitions and needs. If a file has no sections, by the
/// first PT_DYNAMIC segment: the first entry with each tag, and for each address the rest of the
/// LOAD segment that holds it. The headers are loaded into the store.
///
/// If the source's file is known the result is that of the file, and so is the refusal.
///
/// # Errors
/// Returns the first check that fails: those of [`header`] and of [`load`]; by segments
/// `LoadOverlap` at the program header of a LOAD segment that overlaps another; `NoHash` at 0x28,
/// by segments at 0x20, if no table is found; those of the hash table, of the symbols and of their
/// strings, and if there is a version symbol table those of its entries, of the definitions and of
/// the needs, each at the section header or the dynamic entry that locates it. Otherwise returns a
/// fault of the source, or `Budget` if a read exceeds the limit, at the offset of the read.
pub fn find_lookup_tables<S: Source>(
    src: &mut Counted<S>,
    store: &mut HeaderStore,
) -> Result<LookupTables, Fault>
    ensures did { CallDid src.old src.new (fault_of_result result)
        (64 + 64 * store.old.slots + src.old.seen.size)
        (λ file. FindsScope file store.old.slots src.old src.new result) }
    ensures slots { store.new.slots ≡ store.old.slots }
    ensures within { IfOk result (LookupTablesInBounds src.old.seen.size) }
    ensures small { IfOk result (λ found. src.old.seen.size < 2 ^ 63) }
{
    let header = header(src)?;
    let loaded = load(src, store, &header)?;
    loaded_scope(src, store, loaded)
}

/// Returns the tables that a lookup searches, of a loaded file.
fn loaded_scope<S: Source>(
    src: &mut Counted<S>,
    store: &mut HeaderStore,
    loaded: Loaded,
) -> Result<LookupTables, Fault>
    requires sized { IsOfSource src.old loaded }
    requires whole { store.old.loaded ≡ loaded.header.e_shnum }
    requires few { loaded.header.e_phnum ≤ store.old.slots }
    ensures did { CallDid src.old src.new (fault_of_result result)
        (segments_bytes loaded.header src.old.seen.size)
        (λ file. HoldsSectionHeaders file loaded store.old →
        CallReads src.old src.new (fault_of_result result) (segments_asked file)
        × FindsLookupTables file (scope_loaded file) result) }
    ensures slots { store.new.slots ≡ store.old.slots }
    ensures within { IfOk result (LookupTablesInBounds src.old.seen.size) }
{
    if loaded.header().e_shnum != 0 {
        return by_sections(&SectionView { loaded, store });
    }
    loaded.load_segments(src, store)?;
    find_in_segments(src, &ExecutionView { loaded, store })
}
