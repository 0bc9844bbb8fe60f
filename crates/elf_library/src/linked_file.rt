//! Which of many files have needs that are listed.
ghost use Rattle.std.specs.Prelude.{◌≡◌, ◌+◌, ◌*◌, ◌<◌, ℕ, List, is_some};
ghost use Rattle.elf_table.specs.Prelude.{CallDid, HoldsProgramHeaders, fault_of_result};
ghost use Rattle.elf_model.specs.Prelude.{dynamic_segment_index, e_shnum, e_type, is_linked_type};
ghost use Rattle.elf_library.specs.Linked.{ReturnsLinked, is_linked, linked_file, linked_shown};

use elf_hash::load_by_segments;
use elf_record::is_linked_type;
use elf_record::numbers::PT_DYNAMIC;
use elf_source::{Counted, Source};
use elf_table::{ExecutionView, Fault, HeaderStore};

/// Checks whether a file is one that a loader links: of type EXEC or DYN, with a segment of dynamic
/// entries. Its program headers are loaded into the store, ignoring its section headers.
///
/// # Errors
/// Those of [`load_by_segments`].
pub fn is_linked<S: Source>(src: &mut Counted<S>, store: &mut HeaderStore) -> Result<bool, Fault>
    ensures did { CallDid src.old src.new (fault_of_result result) (64 + store.old.slots * 56)
        (λ file. ReturnsLinked (linked_file file store.old.slots) result) }
    ensures slots { store.new.slots ≡ store.old.slots }
{
    let hides = src.hides();
    src.mask_section_headers(true);
    let found = shown_linked(src, store);
    src.mask_section_headers(hides);
    found
}

/// Checks the same for the file as the source shows it, whose header locates no section headers.
///
/// # Errors
/// Those of [`is_linked`].
fn shown_linked<S: Source>(src: &mut Counted<S>, store: &mut HeaderStore) -> Result<bool, Fault>
    ensures did { CallDid src.old src.new (fault_of_result result) (64 + store.old.slots * 56)
        (λ file. e_shnum file ≡ 0 → ReturnsLinked (linked_shown file store.old.slots) result) }
    ensures slots { store.new.slots ≡ store.old.slots }
{
    let loaded = load_by_segments(src, store)?;
    Ok(is_linked_view(&ExecutionView { loaded, store }))
}

/// Checks the same for a file whose program headers are loaded.
fn is_linked_view(view: &ExecutionView<'_>) -> bool
    ensures { (file : List ℕ) → HoldsProgramHeaders file view.now.loaded view.now.store.now →
        result ≡ is_linked file }
{
    has_linked_type(view) && has_dynamic_entries(view)
}

/// Returns `true` if a file whose program headers are loaded has a type that a loader links.
fn has_linked_type(view: &ExecutionView<'_>) -> bool
    ensures { (file : List ℕ) → HoldsProgramHeaders file view.now.loaded view.now.store.now →
        result ≡ is_linked_type (e_type file) }
{
    is_linked_type(view.loaded.header().e_type)
}

/// Returns `true` if a file whose program headers are loaded has a segment of dynamic entries.
fn has_dynamic_entries(view: &ExecutionView<'_>) -> bool
    ensures { (file : List ℕ) → HoldsProgramHeaders file view.now.loaded view.now.store.now →
        result ≡ is_some (dynamic_segment_index file) }
{
    view.first_segment(PT_DYNAMIC).is_some()
}
