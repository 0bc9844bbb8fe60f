//! The hardening of a file.
ghost use Rattle.std.specs.Prelude.{◌≡◌, ℕ, ◌<◌, ◌^◌, Ok};
ghost use Rattle.elf_table.specs.Prelude.{CallDid, HoldsProgramHeaders, fault_of_result};
ghost use Rattle.elf_model.specs.Prelude.{e_shnum, is_relocatable, segment_traits_ceiling, traits_ceiling};
ghost use Rattle.elf_loader.specs.Stacks.{FindsMasked};
ghost use Rattle.elf_loader.specs.TraitStages.{FindsMarks, FindsShown, FindsTraits, FindsViewed};
ghost use Rattle.elf_loader.specs.TraitStages.{marks_bytes, view_bytes};
ghost use Rattle.elf_loader.specs.Known.{KnownLie, ReturnsKnown};

use crate::known::{CountedSymbols, known_symbols};
use crate::section_stack::stack_by_sections;
use crate::symbol_traits::{SymbolTraits, no_symbol_traits};
use crate::trait_notes::x86_feature_word;
use crate::trait_symbols::find_symbol_traits;
use crate::trait_tags::trait_entries;
use crate::traits::traits_with;
use elf_hash::load_by_segments;
use elf_model::{Hardening, ProgramKind};
use elf_source::{Counted, Source};
use elf_table::{ExecutionView, Fault, HeaderStore};

/// Returns how a file is hardened, as GNU's dynamic loader sees it: by its program headers, its
/// first PT_DYNAMIC segment, the first list of properties in its notes, and its dynamic symbols,
/// which are those that its hash table covers. The fields of its header that locate section headers
/// are masked meanwhile. The program headers are loaded into the store.
///
/// Only whether the stack of a relocatable file is executable comes from its sections, as a linker
/// sees them; their headers are loaded into the store after that. If a check of them fails, it is
/// not known.
///
/// If the source's file is known the traits are those of the file, and so is the refusal; no more
/// is read than they cost, also if the source fails.
///
/// # Errors
/// Returns the first check that fails: those of [`load_by_segments`]; for a file with a PT_DYNAMIC
/// segment `LoadOverlap` at the program header of a LOAD segment that overlaps another, those of
/// the first such segment, and those of the hash table, of the symbols and of their strings, each
/// at the dynamic entry that locates it; for a file for x86-64 `TableOutside` at the program header
/// of a segment of notes that ends past the end of the file, and `NoteCut` if there is no whole
/// note before a list of properties, or no whole property in it; a fault of a symbol's name, at the
/// symbol. Otherwise returns a fault of the source, or `Budget` if a read exceeds the limit, at the
/// offset of the read.
pub fn find_traits<S: Source>(
    src: &mut Counted<S>,
    store: &mut HeaderStore,
) -> Result<Hardening, Fault>
    ensures did { CallDid src.old src.new (fault_of_result result)
        (traits_ceiling src.old.seen.size store.old.slots)
        (λ file. FindsTraits file store.old.slots src.old src.new result) }
    ensures slots { store.new.slots ≡ store.old.slots }
{
    let traits = masked_traits(src, store)?;
    if !is_relocatable(traits.kind) {
        return Ok(traits);
    }
    let stack = stack_by_sections(src, store)?;
    Ok(Hardening { stack, ..traits })
}

/// Returns `true` if a file is relocatable.
#[tactic(auto, unfolding(elf_model::specs::Traits::is_relocatable))]
fn is_relocatable(kind: ProgramKind) -> bool
    ensures { result ≡ is_relocatable kind }
{
    matches!(kind, ProgramKind::Object)
}

/// Returns the traits of a file by its segments, with the fields of its header that locate section
/// headers masked meanwhile.
///
/// # Errors
/// Those of [`find_traits`].
fn masked_traits<S: Source>(
    src: &mut Counted<S>,
    store: &mut HeaderStore,
) -> Result<Hardening, Fault>
    ensures did { CallDid src.old src.new (fault_of_result result)
        (segment_traits_ceiling src.old.seen.size store.old.slots)
        (λ file. FindsMasked file store.old.slots src.old src.new result) }
    ensures slots { store.new.slots ≡ store.old.slots }
{
    let hides = src.hides();
    src.mask_section_headers(true);
    let found = shown_traits(src, store);
    src.mask_section_headers(hides);
    found
}

/// Returns the traits of the file that the source shows, whose header locates no section headers.
///
/// # Errors
/// Those of [`find_traits`].
fn shown_traits<S: Source>(
    src: &mut Counted<S>,
    store: &mut HeaderStore,
) -> Result<Hardening, Fault>
    ensures did { CallDid src.old src.new (fault_of_result result)
        (segment_traits_ceiling src.old.seen.size store.old.slots)
        (λ file. e_shnum file ≡ 0 →
        FindsShown file store.old.slots src.old src.new result) }
    ensures slots { store.new.slots ≡ store.old.slots }
{
    let loaded = load_by_segments(src, store)?;
    find_traits_by_segments(src, &ExecutionView { loaded, store })
}

/// Returns the traits of a file whose program headers are loaded.
///
/// # Errors
/// Those of [`find_traits`] after the load.
fn find_traits_by_segments<S: Source>(
    src: &mut Counted<S>,
    view: &ExecutionView<'_>,
) -> Result<Hardening, Fault>
    requires size { view.now.loaded.size ≡ src.old.seen.size }
    requires small { view.now.loaded.size < 2 ^ 63 }
    ensures { CallDid src.old src.new (fault_of_result result)
        (view_bytes view.now.store.now.segments src.old.seen.size)
        (λ file. HoldsProgramHeaders file view.now.loaded view.now.store.now →
        FindsViewed file src.old src.new result) }
{
    let known = known_symbols(src, view)?;
    let entries = trait_entries(src, view)?;
    let word = x86_feature_word(src, view)?;
    let marks = counted_symbol_traits(src, known)?;
    Ok(traits_with(view, &entries, word, marks))
}

/// Returns the traits of the symbols that a loader knows, if there are any.
///
/// # Errors
/// Those of [`find_symbol_traits`]. Otherwise a fault of a read.
fn counted_symbol_traits<S: Source>(
    src: &mut Counted<S>,
    known: Option<CountedSymbols>,
) -> Result<SymbolTraits, Fault>
    requires { KnownLie src.old.seen.size known }
    ensures { CallDid src.old src.new (fault_of_result result) (marks_bytes src.old.seen.size)
        (λ file. ReturnsKnown file (Ok known) → FindsMarks file src.old src.new result) }
{
    let Some(known) = known else {
        return Ok(no_symbol_traits());
    };
    let count = known.symbols.extent(src, &known.table)?;
    find_symbol_traits(src, &known.symbols, count)
}
