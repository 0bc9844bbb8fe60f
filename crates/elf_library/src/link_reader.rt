//! What one file needs.
ghost use Rattle.std.specs.Prelude.{◌≡◌, ◌<◌, ◌≤◌, ◌^◌, ◌+◌, ◌*◌, ◌/◌, ℕ, List, Ok, is_none, length, unwrap_or};
ghost use Rattle.elf_table.specs.Prelude.{CallDid, HoldsProgramHeaders, fault_of_result};
ghost use Rattle.elf_model.specs.Prelude.{dynamic_segment_index, e_shnum, field, flags_1_by_segments, is_program_file, library_links, links_by_segments, links_ceiling, links_of, loaded_links, lookup_refusal, without_sections};
ghost use Rattle.elf_library.specs.Entries.{HasFlags, ReturnsLinks, SameTexts};
ghost use Rattle.elf_library.specs.Reading.{ReturnsLookupRefusal, ReturnsMachine, linked_in_segments, lookup_passed, machine_by};

use crate::entries::{DynamicTexts, list_link_info, no_link_info};
use crate::entry_values::entry_values;
use crate::links::{LinkInfo, LinkInfoStore};
use elf_hash::{find_in_segments, load_by_segments};
use elf_record::numbers::{ET_EXEC, PT_DYNAMIC};
use elf_record::{Cause, Refusal, u16_at, word};
use elf_source::{Counted, Source};
use elf_table::{ExecutionView, Fault, HeaderStore, fill, refused};

/// How many bytes of a file give its class, its encoding and its machine (gABI 4, ELF Header).
pub(crate) const FRONT_BYTES: usize = 20;
/// The value of the four magic bytes (gABI 4, ELF Identification).
pub(crate) const MAGIC: u32 = 0x464c_457f;
/// The class of 64-bit files, at byte 4, and the little-endian encoding, at byte 5.
pub(crate) const CLASS_64: u8 = 2;

pub(crate) const LITTLE_ENDIAN: u8 = 1;
/// The flag of DT_FLAGS_1 of a position-independent program.
const DF_1_PIE: u64 = 0x800_0000;
/// The offset of the type in a file header.
const TYPE_OFFSET: u64 = 16;

/// Returns the machine of a 64-bit little-endian file, or `None` for any other file.
///
/// # Errors
/// A read fault, or a refusal for lack of budget.
pub fn machine_of<S: Source>(src: &mut Counted<S>) -> Result<Option<u16>, Fault>
    ensures { CallDid src.old src.new (fault_of_result result) 20
        (λ file. ReturnsMachine file result) }
{
    if src.length() < FRONT_BYTES as u64 {
        return Ok(None);
    }
    let mut front = [0; FRONT_BYTES];
    fill(src, 0, &mut front)?;
    Ok(machine_by(&front))
}

/// Returns the machine in the first bytes of a 64-bit little-endian file, and `None` for others.
pub(crate) fn machine_by(front: &[u8; FRONT_BYTES]) -> Option<u16>
    ensures { result ≡ machine_by front.now }
{
    if word_at(front, 0) == MAGIC
        && byte_at(front, 4) == CLASS_64
        && byte_at(front, 5) == LITTLE_ENDIAN
    {
        return Some(u16_at(front, 18));
    }
    None
}

/// Returns the number of four bytes at a place.
pub(crate) fn word_at(bytes: &[u8], place: usize) -> u32
    requires { place + 4 ≤ length bytes.now }
    ensures { result ≡ field bytes.now place 4 }
{
    let mut number = [0; 4];
    number.copy_from_slice(&bytes[place..place + 4]);
    word(&number)
}

/// Returns the byte at a place.
pub(crate) fn byte_at(bytes: &[u8], place: usize) -> u8
    requires { place + 1 ≤ length bytes.now }
    ensures { result ≡ field bytes.now place 1 }
{
    bytes[place]
}

/// Reads how a library is linked, as [`read_link_info`] does: a program is refused.
///
/// # Errors
/// Those of [`read_link_info`], and `Unsupported` at 16 for a program.
pub fn read_library_links<S: Source>(
    src: &mut Counted<S>,
    store: &mut HeaderStore,
    links: &mut LinkInfoStore,
) -> Result<LinkInfo, Fault>
    ensures did { CallDid src.old src.new (fault_of_result result)
        (links_ceiling src.old.seen.size store.old.slots)
        (λ file. ReturnsLinks (library_links file store.old.slots links.old.held.room)
        links.old links.new result) }
    ensures slots { store.new.slots ≡ store.old.slots }
{
    let found = read_link_info(src, store, links)?;
    if found.is_program {
        return refused(TYPE_OFFSET, Cause::Unsupported);
    }
    Ok(found)
}

/// Reads how a file is linked, as a loader sees it: by its program headers, ignoring its section
/// headers.
///
/// The texts and the needs are added to the store of links; on failure some may be left there that
/// nothing refers to. If the source's file is known, what is returned and stored is the file's own,
/// and so is the refusal.
///
/// # Errors
/// The first that fails:
///
/// - Those of [`load_by_segments`].
/// - Those of [`find_in_segments`], except `NoHash`.
/// - Those of the first segment of dynamic entries.
/// - For each entry with a text, at the entry: those of its string table and of its text, and
///   `TooLong` if that has more than 4,096 bytes or there is no room for it.
/// - Otherwise a read fault, or a refusal for lack of budget.
pub fn read_link_info<S: Source>(
    src: &mut Counted<S>,
    store: &mut HeaderStore,
    links: &mut LinkInfoStore,
) -> Result<LinkInfo, Fault>
    ensures did { CallDid src.old src.new (fault_of_result result)
        (links_ceiling src.old.seen.size store.old.slots)
        (λ file. ReturnsLinks (links_of file store.old.slots links.old.held.room)
        links.old links.new result × HasFlags (without_sections file) result) }
    ensures slots { store.new.slots ≡ store.old.slots }
{
    let hides = src.hides();
    src.mask_section_headers(true);
    let found = shown_links(src, store, links);
    src.mask_section_headers(hides);
    found
}

/// Reads the same for the file as the source shows it, whose header locates no section headers.
///
/// # Errors
/// Those of [`read_link_info`].
fn shown_links<S: Source>(
    src: &mut Counted<S>,
    store: &mut HeaderStore,
    links: &mut LinkInfoStore,
) -> Result<LinkInfo, Fault>
    ensures did { CallDid src.old src.new (fault_of_result result)
        (links_ceiling src.old.seen.size store.old.slots)
        (λ file. e_shnum file ≡ 0 →
        ReturnsLinks (links_by_segments file store.old.slots links.old.held.room)
        links.old links.new result × HasFlags file result) }
    ensures slots { store.new.slots ≡ store.old.slots }
{
    let loaded = load_by_segments(src, store)?;
    link_info_by_segments(src, &ExecutionView { loaded, store }, links)
}

/// Reads the same for a file whose program headers are loaded.
///
/// # Errors
/// Those of [`read_link_info`] after the load.
fn link_info_by_segments<S: Source>(
    src: &mut Counted<S>,
    view: &ExecutionView<'_>,
    links: &mut LinkInfoStore,
) -> Result<LinkInfo, Fault>
    requires size { view.now.loaded.size ≡ src.old.seen.size }
    requires small { view.now.loaded.size < 2 ^ 63 }
    ensures { CallDid src.old src.new (fault_of_result result)
        (3 * src.old.seen.size + src.old.seen.size / 16 * 4160)
        (λ file. HoldsProgramHeaders file view.now.loaded view.now.store.now →
        ReturnsLinks (loaded_links file links.old.held.room) links.old links.new result
        × HasFlags file result) }
{
    check_lookup(src, view)?;
    entry_links(src, view, links)
}

/// Returns what the first segment of dynamic entries gives; nothing if there is none.
///
/// # Errors
/// Those of [`ExecutionView::dynamic`], and those of the entries.
fn entry_links<S: Source>(
    src: &mut Counted<S>,
    view: &ExecutionView<'_>,
    links: &mut LinkInfoStore,
) -> Result<LinkInfo, Fault>
    requires { view.now.loaded.size ≡ src.old.seen.size }
    ensures { CallDid src.old src.new (fault_of_result result)
        (2 * src.old.seen.size + src.old.seen.size / 16 * 4160)
        (λ file. HoldsProgramHeaders file view.now.loaded view.now.store.now →
        ReturnsLinks (linked_in_segments file links.old.held.room) links.old links.new result
        × HasFlags file result) }
{
    let Some(segment) = view.first_segment(PT_DYNAMIC) else {
        return Ok(with_flags(view, no_link_info(), None));
    };
    let table = view.dynamic(segment)?;
    let values = entry_values(table, src)?;
    let strings = DynamicTexts {
        view,
        told: values.strings,
    };
    let links = list_link_info(src, &strings, table, links)?;
    Ok(with_flags(view, links, values.flags_1))
}

/// Returns link information with the value of DT_FLAGS_1 of a file whose program headers are loaded.
fn with_flags(view: &ExecutionView<'_>, links: LinkInfo, flags_1: Option<u64>) -> LinkInfo
    ensures texts { SameTexts links result }
    ensures flags { (file : List ℕ) →
        HoldsProgramHeaders file view.now.loaded view.now.store.now →
        unwrap_or flags_1 0 ≡ flags_1_by_segments file → HasFlags file (Ok result) }
{
    let flags_1 = flags_1.unwrap_or(0);
    LinkInfo {
        soname: links.soname,
        rpath: links.rpath,
        runpath: links.runpath,
        flags_1,
        is_program: is_program_file(view, flags_1),
    }
}

/// Returns `true` if a file whose program headers are loaded is a program, by its DT_FLAGS_1.
#[tactic(auto, unfolding(elf_model::specs::LibraryFiles::is_program_file))]
fn is_program_file(view: &ExecutionView<'_>, flags_1: u64) -> bool
    ensures { (file : List ℕ) → HoldsProgramHeaders file view.now.loaded view.now.store.now →
        flags_1 ≡ flags_1_by_segments file → result ≡ is_program_file file }
{
    view.loaded.header().e_type == ET_EXEC || flags_1 & DF_1_PIE != 0 || has_no_dynamic(view)
}

/// Returns `true` if there is no segment of dynamic entries.
fn has_no_dynamic(view: &ExecutionView<'_>) -> bool
    ensures { (file : List ℕ) → HoldsProgramHeaders file view.now.loaded view.now.store.now →
        result ≡ is_none (dynamic_segment_index file) }
{
    match view.first_segment(PT_DYNAMIC) {
        Some(_) => false,
        None => true,
    }
}

/// Checks the lookup tables; a file without a hash table has none.
///
/// # Errors
/// Those of [`find_in_segments`] except `NoHash`.
fn check_lookup<S: Source>(src: &mut Counted<S>, view: &ExecutionView<'_>) -> Result<(), Fault>
    requires size { view.now.loaded.size ≡ src.old.seen.size }
    requires small { view.now.loaded.size < 2 ^ 63 }
    ensures { CallDid src.old src.new (fault_of_result result) src.old.seen.size
        (λ file. HoldsProgramHeaders file view.now.loaded view.now.store.now →
        ReturnsLookupRefusal (lookup_refusal file) result) }
{
    match find_in_segments(src, view) {
        Ok(_) => Ok(()),
        Err(fault) => without_hash(fault),
    }
}

/// Returns no fault if there is no hash table, otherwise the fault.
pub fn without_hash(fault: Fault) -> Result<(), Fault>
    ensures { result ≡ lookup_passed fault }
{
    match fault {
        Fault::Refused(
            Refusal {
                at: _,
                cause: Cause::NoHash,
            },
        ) => Ok(()),
        _ => Err(fault),
    }
}
