//! The keys that a shared library defines which is not needed.
ghost use Rattle.std.specs.Prelude.{◌≡◌};

use crate::asked_libraries::read_library_tables;
use crate::library::LibraryTables;
use crate::library_symbols::{LibrarySymbol, library_symbol};
use crate::link_faults::LinkFault;
use crate::object::linked_header;
use crate::room::{LinkRoom, TableRoom, reach_slots, slots_for};
use crate::spare_keys::SpareKeys;
use crate::string_buffer::StringBuffer;
use crate::table::KeyTable;
use elf_model::{KeyEntry, KeyState, SymbolRole};
use elf_record::numbers::ET_DYN;
use elf_source::{Counted, Source};
use elf_table::{HeaderStore, SectionView, load};

/// Adds a library of a row that is not needed to the lists of the keys that it defines.
///
/// # Errors
/// The first fault of the library; there is no room.
pub(crate) fn offer_keys<S: Source>(
    src: &mut Counted<S>,
    room: &mut LinkRoom,
    keys: &KeyTable<'_>,
    spare: &mut SpareKeys,
    row: u32,
) -> Result<(), LinkFault>
    ensures most { src.new.most ≡ src.old.most }
{
    let head = linked_header(src, ET_DYN)?;
    let slots = slots_for(room.headers, &head);
    reach_slots(&mut room.header_bytes, slots)?;
    let mut store = HeaderStore::over(&mut room.header_bytes, slots);
    let loaded = load(src, &mut store, &head)?;
    let view = SectionView {
        loaded,
        store: &store,
    };
    let tables = read_library_tables(src, &view, &mut room.tables, row)?;
    offer_symbols(&view, tables, &mut room.tables, keys, spare)
}

/// Adds a library that is not needed to the lists of the keys that it defines.
///
/// # Errors
/// The first fault of a symbol; there is no room.
fn offer_symbols(
    view: &SectionView<'_>,
    tables: LibraryTables,
    room: &mut TableRoom,
    keys: &KeyTable<'_>,
    spare: &mut SpareKeys,
) -> Result<(), LinkFault> {
    let used = room.strings.used();
    let (first, count) = tables.symbol_range();
    for index in first..count {
        let strings = &mut room.strings;
        if let Some(symbol) = library_symbol(view, tables, &room.versions, strings, index)? {
            offer_symbol(&symbol, room, keys, spare, tables.row)?;
        }
        room.strings.forget_after(used);
    }
    Ok(())
}

/// Adds a library of a row to the lists of the keys of a symbol that it defines.
///
/// # Errors
/// There is no room for it.
fn offer_symbol(
    symbol: &LibrarySymbol,
    room: &TableRoom,
    keys: &KeyTable<'_>,
    spare: &mut SpareKeys,
    row: u32,
) -> Result<(), LinkFault> {
    let (key, default) = wanted_keys(symbol, &room.strings, keys);
    offer(key, row, symbol.at, spare)?;
    offer(default, row, symbol.at, spare)
}

/// Adds the row of a library to the list of a key, if there is one.
///
/// # Errors
/// There is no room for it.
fn offer(key: Option<u32>, row: u32, at: u64, spare: &mut SpareKeys) -> Result<(), LinkFault> {
    match key {
        Some(key) => spare.add(key, row, at),
        None => Ok(()),
    }
}

/// Returns the keys of a definition that objects have and nothing defines.
fn wanted_keys(
    symbol: &LibrarySymbol,
    strings: &StringBuffer,
    keys: &KeyTable<'_>,
) -> (Option<u32>, Option<u32>) {
    if !matches!(symbol.role, SymbolRole::Shared(_)) {
        return (None, None);
    }
    let default = match symbol.default {
        Some(default) => wanted_key(strings.bytes(default), keys),
        None => None,
    };
    (wanted_key(strings.bytes(symbol.name), keys), default)
}

/// Returns the key of a name, if objects have it and nothing defines it.
fn wanted_key(name: &[u8], keys: &KeyTable<'_>) -> Option<u32> {
    let Some(key) = keys.find(name) else {
        return None;
    };
    let KeyEntry { state, is_own, .. } = keys.entry(key);
    let is_free = matches!(state, KeyState::New | KeyState::Weak | KeyState::Undefined);
    if is_free && is_own {
        return Some(key);
    }
    None
}
