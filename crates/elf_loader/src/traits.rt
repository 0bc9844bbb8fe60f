//! The traits of a file, computed from what was read.
ghost use Rattle.std.specs.Prelude.{◌≡◌, ℕ, List, is_some, unwrap_or, Option};
ghost use Rattle.elf_table.specs.Load.{HoldsProgramHeaders};
ghost use Rattle.elf_model.specs.Prelude.{binds_now, has_bits, has_text_relocations, kind_of_shared, path_of, program_kind, relro_of, segment_traits, stack_by_segments, traits_with};
ghost use Rattle.elf_loader.specs.Entries.{AreTraitEntries};
ghost use Rattle.elf_loader.specs.Marks.{symbol_traits_of};

use crate::flags::has_bits;
use crate::symbol_traits::SymbolTraits;
use crate::trait_segments::{has_segment, has_wx_load, is_stack_executable};
use crate::trait_tags::TraitTags;
use elf_model::{Hardening, ProgramKind, Relro, SearchPath, SegmentTraits};
use elf_record::numbers::{ET_CORE, ET_DYN, ET_EXEC, ET_REL, PT_INTERP};
use elf_table::ExecutionView;

/// The type of the segment that is read-only once it is relocated (Linux Standard Base Core,
/// Program Header).
const PT_GNU_RELRO: u32 = 0x6474_e552;
/// The flag of DT_FLAGS for relocations that change a segment which is not writable (gABI 5,
/// DT_FLAGS).
const DF_TEXTREL: u64 = 0x4;
/// The flag of DT_FLAGS for symbols that are all bound at load time.
const DF_BIND_NOW: u64 = 0x8;
/// The same of DT_FLAGS_1, a GNU extension.
const DF_1_NOW: u64 = 0x1;
/// The flag of DT_FLAGS_1 for a position-independent program.
const DF_1_PIE: u64 = 0x800_0000;
/// The x86 feature by which indirect branches only go to marked places (x86-64 psABI, Program
/// Property).
const FEATURE_IBT: u64 = 0x1;
/// The x86 feature by which returns use a shadow stack.
const FEATURE_SHSTK: u64 = 0x2;

/// Returns the traits of a file, by its x86 feature bits and the traits of its symbols.
#[tactic(auto, unfolding(elf_model::specs::Traits::traits_with))]
pub(crate) fn traits_with(
    view: &ExecutionView<'_>,
    entries: &TraitTags,
    word: u32,
    marks: SymbolTraits,
) -> Hardening
    ensures { (file : List ℕ) → HoldsProgramHeaders file view.now.loaded view.now.store.now →
        AreTraitEntries file entries.now → result ≡ traits_with file word (symbol_traits_of marks) }
{
    Hardening {
        kind: program_kind(view, entries),
        segments: segment_traits(view, entries),
        stack: stack_by_segments(view),
        ibt: has_bits(u64::from(word), FEATURE_IBT),
        shstk: has_bits(u64::from(word), FEATURE_SHSTK),
        canary: marks.canary,
        fortify: marks.fortify,
        path: path_of(entries),
    }
}

/// Returns the kind of a file, by its type (gABI 4, ELF Header).
#[tactic(auto, unfolding(elf_model::specs::Traits::program_kind))]
fn program_kind(view: &ExecutionView<'_>, entries: &TraitTags) -> ProgramKind
    ensures { (file : List ℕ) → HoldsProgramHeaders file view.now.loaded view.now.store.now →
        AreTraitEntries file entries.now → result ≡ program_kind file }
{
    let kind = view.loaded.header().e_type;
    if kind == ET_DYN {
        kind_of_shared(view, entries)
    } else if kind == ET_EXEC {
        if has_segment(view, PT_INTERP) {
            ProgramKind::Exec
        } else {
            ProgramKind::Static
        }
    } else if kind == ET_REL {
        ProgramKind::Object
    } else if kind == ET_CORE {
        ProgramKind::Core
    } else {
        ProgramKind::Other
    }
}

/// Returns the kind of a position-independent file: a library if it has a DT_SONAME; otherwise a
/// program if it requests an interpreter, or if DT_FLAGS_1 says so.
#[tactic(auto, unfolding(elf_model::specs::Traits::kind_of_shared))]
fn kind_of_shared(view: &ExecutionView<'_>, entries: &TraitTags) -> ProgramKind
    ensures { (file : List ℕ) → HoldsProgramHeaders file view.now.loaded view.now.store.now →
        AreTraitEntries file entries.now → result ≡ kind_of_shared file }
{
    if entries.soname.is_some() {
        return ProgramKind::Lib;
    }
    if has_segment(view, PT_INTERP) {
        return ProgramKind::Pie;
    }
    if value_has(entries.flags_1, DF_1_PIE) {
        return ProgramKind::Static;
    }
    ProgramKind::Lib
}

/// Returns the traits by program headers, if there are any.
#[tactic(auto, unfolding(elf_model::specs::Traits::segment_traits))]
fn segment_traits(view: &ExecutionView<'_>, entries: &TraitTags) -> Option<SegmentTraits>
    ensures { (file : List ℕ) → HoldsProgramHeaders file view.now.loaded view.now.store.now →
        AreTraitEntries file entries.now → result ≡ segment_traits file }
{
    if view.segments() == 0 {
        return None;
    }
    Some(SegmentTraits {
        relro: relro_of(view, entries),
        pages_writable: has_wx_load(view),
        text_patched: has_text_relocations(entries),
    })
}

/// Returns whether the stack is executable, by program headers if there are any; those of a core
/// are of its memory, and do not say what its program's stack was to be.
#[tactic(auto, unfolding(elf_model::specs::Traits::stack_by_segments))]
fn stack_by_segments(view: &ExecutionView<'_>) -> Option<bool>
    ensures { (file : List ℕ) → HoldsProgramHeaders file view.now.loaded view.now.store.now →
        result ≡ stack_by_segments file }
{
    if view.segments() == 0 || view.loaded.header().e_type == ET_CORE {
        return None;
    }
    Some(is_stack_executable(view))
}

/// Returns how much is read-only after relocation.
#[tactic(auto, unfolding(elf_model::specs::Traits::relro_of))]
fn relro_of(view: &ExecutionView<'_>, entries: &TraitTags) -> Relro
    ensures { (file : List ℕ) → HoldsProgramHeaders file view.now.loaded view.now.store.now →
        AreTraitEntries file entries.now → result ≡ relro_of file }
{
    if !has_segment(view, PT_GNU_RELRO) {
        return Relro::Absent;
    }
    if binds_now(entries) {
        return Relro::Full;
    }
    Relro::Partial
}

/// Returns `true` if all symbols are bound before the program begins.
#[tactic(auto, unfolding(elf_model::specs::Traits::binds_now))]
fn binds_now(entries: &TraitTags) -> bool
    ensures { (file : List ℕ) → AreTraitEntries file entries.now → result ≡ binds_now file }
{
    entries.bind_now.is_some()
        || value_has(entries.flags, DF_BIND_NOW)
        || value_has(entries.flags_1, DF_1_NOW)
}

/// Returns `true` if relocations change a segment that is not writable.
#[tactic(auto, unfolding(elf_model::specs::Traits::has_text_relocations))]
fn has_text_relocations(entries: &TraitTags) -> bool
    ensures { (file : List ℕ) → AreTraitEntries file entries.now →
        result ≡ has_text_relocations file }
{
    entries.textrel.is_some() || value_has(entries.flags, DF_TEXTREL)
}

/// Returns where libraries are searched first.
#[tactic(auto, unfolding(elf_model::specs::Traits::path_of))]
fn path_of(entries: &TraitTags) -> SearchPath
    ensures { (file : List ℕ) → AreTraitEntries file entries.now → result ≡ path_of file }
{
    if entries.runpath.is_some() {
        return SearchPath::Runpath;
    }
    if entries.rpath.is_some() {
        return SearchPath::Rpath;
    }
    SearchPath::Absent
}

/// Returns `true` if the value of an entry has all of some flags; an absent one has none.
fn value_has(value: Option<u64>, bits: u64) -> bool
    ensures { result ≡ has_bits (unwrap_or value 0) bits }
{
    has_bits(value.unwrap_or(0), bits)
}
