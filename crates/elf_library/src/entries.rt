//! The dynamic entries that say how a file is linked.
ghost use Rattle.std.specs.Prelude.{◌≡◌, ◌+◌, ◌*◌, ◌==◌, ℕ, List, None, Some, IfErr, IfOk, if◌then◌else◌};
ghost use Rattle.elf_table.specs.Prelude.{CallDid, HoldsProgramHeaders, IsOfCheck, StringsInBounds, TableInBounds, fault_of_result, size_of};
ghost use Rattle.elf_model.specs.Prelude.{LinkState, d_tag, dynamic_count, is_link, linked_from, linked_with, no_link_info, strings_at};
ghost use Rattle.elf_record.specs.Dyn.{IsDyn};
ghost use Rattle.elf_library.specs.Entries.{KeepsLinks, ReturnsLinks, ReturnsStrings, no_info, with_index};
ghost use Rattle.elf_library.specs.Held.{LinkInfoState};

use crate::links::{LinkInfo, LinkInfoStore, NeededLibrary};
use elf_note::{DynamicStrings, dynamic_rows, entry_in};
use elf_record::numbers::{DT_NEEDED, DT_RPATH, DT_RUNPATH, DT_SONAME};
use elf_record::{Cause, Dyn};
use elf_source::{Counted, Source};
use elf_table::{ExecutionView, Fault, Names, Table, refused};

/// Where the texts of dynamic entries are: at the address that the entries give, where a segment
/// loads them.
#[derive(Clone, Copy)]
pub(crate) struct DynamicTexts<'v, 'f> {
    /// The file with its program headers.
    pub view: &'v ExecutionView<'f>,
    /// The address and the size that the entries give.
    pub told: DynamicStrings,
}

/// Reads from the listed entries of a table how a file is linked. Each of its bytes is read at most
/// once.
///
/// # Errors
/// - At an entry: `Unmapped` and `TableOutside` as for [`ExecutionView::mapped`], a fault of its
///   text, and `TooLong` if that has more than 4,096 bytes or there is no room for it.
/// - Otherwise a read fault, or a refusal for lack of budget.
pub(crate) fn list_link_info<S: Source>(
    src: &mut Counted<S>,
    strings: &DynamicTexts<'_, '_>,
    table: Table,
    store: &mut LinkInfoStore,
) -> Result<LinkInfo, Fault>
    requires rows { table.entry ≡ 16 }
    requires within { TableInBounds src.old.seen.size table }
    requires size { strings.now.view.now.loaded.size ≡ src.old.seen.size }
    ensures { CallDid src.old src.new (fault_of_result result) (size_of table + table.count * 4160)
        (λ file. HoldsProgramHeaders file strings.now.view.now.loaded
        strings.now.view.now.store.now →
        ReturnsLinks (linked_from file strings.now.told.address strings.now.told.size table.at
        (record { links = no_link_info; room = store.old.held.room })
        (dynamic_count file table.at table.count)) store.old store.new result) }
{
    let mut links = no_link_info();
    let mut cursor = dynamic_rows(table);
    'entries: while cursor.advance(src)? {
        let row = cursor.row();
        let entry = entry_in(&row);
        links = with_entry(src, strings, row.at, &entry, links, store)?;
    }
    Ok(links)
}

/// Returns the link information of no entries.
pub(crate) fn no_link_info() -> LinkInfo
    ensures { result ≡ no_info }
{
    LinkInfo {
        soname: None,
        rpath: None,
        runpath: None,
        flags_1: 0,
        is_program: false,
    }
}

/// Returns the link information with one more entry, at a file offset.
///
/// # Errors
/// Those of [`list_link_info`].
fn with_entry<S: Source>(
    src: &mut Counted<S>,
    strings: &DynamicTexts<'_, '_>,
    at: u64,
    entry: &Dyn,
    links: LinkInfo,
    store: &mut LinkInfoStore,
) -> Result<LinkInfo, Fault>
    requires { strings.now.view.now.loaded.size ≡ src.old.seen.size }
    ensures { CallDid src.old src.new (fault_of_result result) 4160
        (λ file. HoldsProgramHeaders file strings.now.view.now.loaded
        strings.now.view.now.store.now →
        IsDyn file at entry.now → (before : LinkInfoState) (state : LinkState) →
        KeepsLinks before store.old links state →
        ReturnsLinks (linked_with file strings.now.told.address strings.now.told.size at state)
        before store.new result) }
{
    let tag = tag_of(entry);
    if !is_link(tag) {
        return Ok(links);
    }
    let names = mapped_strings(strings, at)?;
    let text = store.read(src, names, entry.d_un, at)?;
    if tag != DT_NEEDED {
        return Ok(with_text(links, tag, text));
    }
    if store.push_needed(NeededLibrary { at, name: text }) {
        return Ok(links);
    }
    refused(at, Cause::TooLong)
}

/// Returns the tag of an entry.
fn tag_of(entry: &Dyn) -> u64
    ensures { (file : List ℕ) (at : ℕ) → IsDyn file at entry.now → result ≡ d_tag file at }
{
    entry.d_tag.cast_unsigned()
}

/// Returns `true` if entries with a tag have a text here.
fn is_link(tag: u64) -> bool
    ensures { result ≡ is_link tag }
{
    tag == DT_NEEDED || tag == DT_SONAME || tag == DT_RPATH || tag == DT_RUNPATH
}

/// Returns the string table that entries locate, for the entry at a file offset.
///
/// # Errors
/// `Unmapped` and `TableOutside` as for [`ExecutionView::mapped`]; `Unmapped` at the entry if no
/// address or no size is given.
fn mapped_strings(strings: &DynamicTexts<'_, '_>, at: u64) -> Result<Names, Fault>
    ensures within { IfOk result (StringsInBounds strings.now.view.now.loaded.size) }
    ensures refusal { IfErr result IsOfCheck }
    ensures tells { (file : List ℕ) →
        HoldsProgramHeaders file strings.now.view.now.loaded strings.now.view.now.store.now →
        ReturnsStrings file
        (strings_at file at strings.now.told.address strings.now.told.size) result }
{
    let Some(address) = strings.told.address else {
        return refused(at, Cause::Unmapped);
    };
    let Some(size) = strings.told.size else {
        return refused(at, Cause::Unmapped);
    };
    strings.view.mapped(address, size, at)
}

/// Returns the links with a text, unless an earlier entry gave one.
fn with_text(links: LinkInfo, tag: u64, text: u32) -> LinkInfo
    ensures { result ≡ with_index links tag text }
{
    LinkInfo {
        soname: links.soname.or(text_of(tag, DT_SONAME, text)),
        rpath: links.rpath.or(text_of(tag, DT_RPATH, text)),
        runpath: links.runpath.or(text_of(tag, DT_RUNPATH, text)),
        flags_1: links.flags_1,
        is_program: links.is_program,
    }
}

/// Returns a text, if the tag is this one.
fn text_of(tag: u64, wanted: u64, text: u32) -> Option<u32>
    ensures { result ≡ (if tag == wanted then Some text else None) }
{
    if tag == wanted {
        return Some(text);
    }
    None
}
