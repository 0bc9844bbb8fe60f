//! The stack of a relocatable file, by its sections.
ghost use Rattle.std.specs.Prelude.{◌≡◌, ◌+◌, ◌*◌, ◌<◌, ℕ, List, IfOk, IfSome};
ghost use Rattle.elf_model.specs.Prelude.{e_shnum, is_stack_section, linked_stack, loaded_stack, named_section_bytes, stack_section};
ghost use Rattle.elf_table.specs.Prelude.{CallDid, HoldsSectionHeaders, StringsInBounds, fault_of_result};
ghost use Rattle.elf_loader.specs.Stacks.{AreSectionNames, FindsStack, FoundUnlessRead, IsOpenIn, IsRefusedByCheck, LoadsForStack, stack_section_from};

use crate::flags::has_bits;
use elf_record::Cause;
use elf_record::numbers::EM_X86_64;
use elf_source::{Counted, Source};
use elf_table::{Fault, HeaderStore, Loaded, Names, SectionView, header, load};

/// The name of the section whose flags say what stack the code needs (GNU assembler).
const STACK_SECTION_NAME: &[u8; 15] = b".note.GNU-stack";
/// The machine of i386 (gABI 4, ELF Header).
const EM_386: u16 = 3;
/// The flag of a section with instructions (gABI 4, Section Attribute Flags).
const SHF_EXECINSTR: u64 = 0x4;

/// Returns whether the stack of a relocatable file is executable, as a linker makes it: by the flag
/// SHF_EXECINSTR of the first section named `.note.GNU-stack`; without one it is on x86-64 and
/// i386. `None` if it is not known: on other machines without such a section, and if a check of the
/// section headers fails. These are loaded into the store.
///
/// # Errors
/// Returns a fault of a read, or the refusal `Budget`, at the offset of the read.
pub(crate) fn stack_by_sections<S: Source>(
    src: &mut Counted<S>,
    store: &mut HeaderStore,
) -> Result<Option<bool>, Fault>
    ensures did { CallDid src.old src.new (fault_of_result result)
        (64 + store.old.slots * named_section_bytes)
        (λ file. FindsStack file store.old.slots src.old src.new result) }
    ensures slots { store.new.slots ≡ store.old.slots }
{
    match load_sections(src, store) {
        Ok(loaded) => loaded_stack(src, &SectionView { loaded, store }),
        Err(fault) if is_by_check(fault) => Ok(None),
        Err(fault) => Err(fault),
    }
}

/// Loads the section headers of a file.
///
/// # Errors
/// Those of [`header`] and of [`load`].
fn load_sections<S: Source>(src: &mut Counted<S>, store: &mut HeaderStore) -> Result<Loaded, Fault>
    ensures did { CallDid src.old src.new (fault_of_result result) (64 + store.old.slots * 64)
        (λ file. LoadsForStack file store.old.slots store.new src.old src.new result) }
    ensures opens { IfOk result (IsOpenIn src.old.seen.size store.old.slots store.new) }
    ensures slots { store.new.slots ≡ store.old.slots }
{
    let header = header(src)?;
    load(src, store, &header)
}

/// Returns `true` if a fault is the refusal of a check, `false` if it is one of a read.
fn is_by_check(fault: Fault) -> bool
    ensures { IsRefusedByCheck fault result }
{
    match fault {
        Fault::Refused(refusal) => refusal.cause != Cause::Budget,
        Fault::Source { .. } => false,
    }
}

/// Returns the same for a file whose section headers are loaded.
///
/// # Errors
/// Those of [`stack_by_sections`].
#[tactic(auto, unfolding(elf_model::specs::Traits::loaded_stack))]
fn loaded_stack<S: Source>(
    src: &mut Counted<S>,
    view: &SectionView<'_>,
) -> Result<Option<bool>, Fault>
    requires size { view.now.loaded.size ≡ src.old.seen.size }
    ensures { CallDid src.old src.new (fault_of_result result) (view.now.store.now.loaded * 64)
        (λ file. HoldsSectionHeaders file view.now.loaded view.now.store.now →
        FoundUnlessRead (loaded_stack file) result) }
{
    let found = stack_section(src, view)?;
    match found {
        Some(index) => Ok(Some(has_bits(view.section(index).sh_flags, SHF_EXECINSTR))),
        None => Ok(linked_stack(view.loaded.header().e_machine)),
    }
}

/// Returns what a linker makes of a stack without such a section on a machine, if it is known.
fn linked_stack(machine: u16) -> Option<bool>
    ensures { result ≡ linked_stack machine }
{
    if machine == EM_X86_64 || machine == EM_386 {
        return Some(true);
    }
    None
}

/// Returns the index of the first section named `.note.GNU-stack`, if sections have names.
///
/// # Errors
/// Those of [`stack_by_sections`].
#[tactic(auto, unfolding(elf_model::specs::Traits::stack_section))]
fn stack_section<S: Source>(
    src: &mut Counted<S>,
    view: &SectionView<'_>,
) -> Result<Option<u16>, Fault>
    requires size { view.now.loaded.size ≡ src.old.seen.size }
    ensures did { CallDid src.old src.new (fault_of_result result) (view.now.store.now.loaded * 64)
        (λ file. HoldsSectionHeaders file view.now.loaded view.now.store.now →
        FoundUnlessRead (stack_section file) result) }
    ensures below { IfOk result (λ found.
        IfSome found (λ index. index < view.now.store.now.loaded)) }
{
    match view.names() {
        Some(names) => named_section(src, view, &names),
        None => Ok(None),
    }
}

/// Returns the index of the first section with that name in a table of names.
///
/// # Errors
/// Those of [`stack_by_sections`].
fn named_section<S: Source>(
    src: &mut Counted<S>,
    view: &SectionView<'_>,
    names: &Names,
) -> Result<Option<u16>, Fault>
    requires within { StringsInBounds src.old.seen.size names.now }
    ensures did { CallDid src.old src.new (fault_of_result result) (view.now.store.now.loaded * 64)
        (λ file. HoldsSectionHeaders file view.now.loaded view.now.store.now →
        AreSectionNames file names.now →
        FoundUnlessRead (stack_section_from file 0 (e_shnum file)) result) }
    ensures below { IfOk result (λ found.
        IfSome found (λ index. index < view.now.store.now.loaded)) }
{
    let count = view.sections();
    let mut index = 0;
    'sections: while index < count {
        let is_named = is_stack_section(src, view, names, index)?;
        if is_named {
            return Ok(Some(index));
        }
        index += 1;
    }
    Ok(None)
}

/// Returns `true` if a section has that name; a name with a fault is another.
///
/// # Errors
/// Those of [`stack_by_sections`].
fn is_stack_section<S: Source>(
    src: &mut Counted<S>,
    view: &SectionView<'_>,
    names: &Names,
    index: u16,
) -> Result<bool, Fault>
    requires below { index < view.now.store.now.loaded }
    requires within { StringsInBounds src.old.seen.size names.now }
    ensures { CallDid src.old src.new (fault_of_result result) 64
        (λ file. HoldsSectionHeaders file view.now.loaded view.now.store.now →
        AreSectionNames file names.now → FoundUnlessRead (is_stack_section file index) result) }
{
    let off = u64::from(view.section(index).sh_name);
    match names.equals(src, off, off, STACK_SECTION_NAME) {
        Ok(is_named) => Ok(is_named),
        Err(fault) if is_by_check(fault) => Ok(false),
        Err(fault) => Err(fault),
    }
}
