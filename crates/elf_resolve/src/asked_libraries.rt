//! A shared library that is read: its name, and whether it is needed.
ghost use Rattle.std.specs.Prelude.{◌≡◌, IfErr, IfOk, List, ℕ, None, Ok, Option, Some};
ghost use Rattle.elf_model.specs.HeaderTables.{file_sections, first_typed};
ghost use Rattle.elf_model.specs.Numbers.{SHT_DYNSYM};
ghost use Rattle.elf_resolve.specs.LibraryEntries.{FindsOwnName};
ghost use Rattle.elf_resolve.specs.LibraryFiles.{HoldsSomeDynamic, ReadsLibrary};
ghost use Rattle.elf_resolve.specs.LibraryKeys.{LibraryVersions, library_symbols};
ghost use Rattle.elf_resolve.specs.LibraryTables.{HoldsLibrary};
ghost use Rattle.elf_resolve.specs.Taken.{IsLinkFault};
ghost use Rattle.elf_resolve.specs.TakenLibraries.{AsksFor, NamesLibrary, TakesLibrary, known_library, new_library, new_symbols, own_name_in};
ghost use Rattle.elf_source.specs.Prelude.{KeepsSource};
ghost use Rattle.elf_table.specs.Load.{HoldsSectionHeaders};

use crate::libraries::{LibraryList, LinkLibrary};
use crate::library::{DynamicRows, LibraryTables, read_library};
use crate::library_needs::library_need;
use crate::library_symbols::take_library_symbols;
use crate::link_faults::LinkFault;
use crate::needed_libraries::{LibraryEnd, NewLibrary};
use crate::object::linked_header;
use crate::room::{LinkRoom, TableRoom, reach_slots, slots_for};
use crate::string_buffer::{HeldText, StringBuffer};
use crate::table::KeyTable;
use elf_record::numbers::ET_DYN;
use elf_source::{Counted, Source};
use elf_table::{HeaderStore, SectionView, load};

/// Reads the tables of a library.
///
/// # Errors
/// The first fault of the library; there is no room for them.
pub(crate) fn read_library_tables<S: Source>(
    src: &mut Counted<S>,
    view: &SectionView<'_>,
    room: &mut TableRoom,
    row: u32,
) -> Result<LibraryTables, LinkFault>
    ensures keeps { KeepsSource src.old.seen src.new.seen }
    ensures most { src.new.most ≡ src.old.most }
    ensures marks { room.new.marks ≡ room.old.marks }
    ensures reads { (file : List ℕ) → src.old.seen.file ≡ Some file →
        HoldsSectionHeaders file view.now.loaded view.now.store.now →
        ReadsLibrary file room.new.strings.bytes row room.new.versions result }
{
    read_library(src, view, &mut room.strings, &mut room.versions, row)
}

/// Reads a library for the first time, and takes it if it is needed.
///
/// # Errors
/// The first fault of the library; there is no room for it or a key.
pub(crate) fn open_library<S: Source>(
    src: &mut Counted<S>,
    room: &mut LinkRoom,
    keys: &mut KeyTable<'_>,
    libraries: &mut LibraryList,
    opened: NewLibrary<'_>,
) -> Result<LibraryEnd, LinkFault>
    ensures keeps { KeepsSource src.old.seen src.new.seen }
    ensures most { src.new.most ≡ src.old.most }
    ensures headers { room.new.headers ≡ room.old.headers }
    ensures takes { (file : List ℕ) → src.old.seen.file ≡ Some file →
        TakesLibrary (new_library file room.old.headers) keys.old keys.new room.old.tables.marks
        opened.entry.row result }
{
    let head = linked_header(src, ET_DYN)?;
    let slots = slots_for(room.headers, &head);
    reach_slots(&mut room.header_bytes, slots)?;
    let mut store = HeaderStore::over(&mut room.header_bytes, slots);
    let loaded = load(src, &mut store, &head)?;
    let view = SectionView {
        loaded,
        store: &store,
    };
    add_library(src, &view, &mut room.tables, keys, libraries, opened)
}

/// Adds a library, and takes it if it is needed: its name is its DT_SONAME, or its path.
///
/// # Errors
/// The first fault of the library; there is no room for it or a key.
fn add_library<S: Source>(
    src: &mut Counted<S>,
    view: &SectionView<'_>,
    room: &mut TableRoom,
    keys: &mut KeyTable<'_>,
    libraries: &mut LibraryList,
    opened: NewLibrary<'_>,
) -> Result<LibraryEnd, LinkFault>
    ensures keeps { KeepsSource src.old.seen src.new.seen }
    ensures most { src.new.most ≡ src.old.most }
    ensures takes { (file : List ℕ) → src.old.seen.file ≡ Some file →
        HoldsSectionHeaders file view.now.loaded view.now.store.now →
        TakesLibrary (new_symbols file) keys.old keys.new room.old.marks opened.entry.row result }
{
    let tables = read_library_tables(src, view, room, opened.row)?;
    let dynamic = tables.dynamic;
    let name = library_name(dynamic, &room.strings, libraries, opened.path)?;
    if libraries.has(name) {
        return Ok(LibraryEnd::Same);
    }
    let library = libraries.add(LinkLibrary {
        input: opened.input,
        row: opened.row,
        name,
        as_needed: opened.as_needed,
        is_taken: false,
    })?;
    add_needed(dynamic, &room.strings, libraries)?;
    ask_library(view, tables, room, keys, libraries, library)
}

/// Adds the names that a library needs, which is the last of a list.
///
/// # Errors
/// There is no room for them; those of the names.
fn add_needed(
    dynamic: Option<DynamicRows>,
    strings: &StringBuffer,
    libraries: &mut LibraryList,
) -> Result<(), LinkFault>
    ensures { (file : List ℕ) (header : Option ℕ) (own : Option (List ℕ)) →
        HoldsSomeDynamic file strings.now.bytes header dynamic →
        own_name_in file header ≡ Ok own → IfErr result (IsLinkFault None) }
{
    match dynamic {
        Some(dynamic) => dynamic.add_needed(strings, libraries),
        None => Ok(()),
    }
}

/// Reads a library of an index and a row once more, and takes it if it is needed.
///
/// # Errors
/// The first fault of the library; there is no room for a key.
pub(crate) fn reopen_library<S: Source>(
    src: &mut Counted<S>,
    room: &mut LinkRoom,
    keys: &mut KeyTable<'_>,
    libraries: &mut LibraryList,
    known: (usize, u32),
) -> Result<LibraryEnd, LinkFault>
    ensures keeps { KeepsSource src.old.seen src.new.seen }
    ensures most { src.new.most ≡ src.old.most }
    ensures headers { room.new.headers ≡ room.old.headers }
    ensures takes { (file : List ℕ) → src.old.seen.file ≡ Some file →
        TakesLibrary (known_library file room.old.headers) keys.old keys.new room.old.tables.marks
        known.1 result }
{
    let (library, row) = known;
    let head = linked_header(src, ET_DYN)?;
    let slots = slots_for(room.headers, &head);
    reach_slots(&mut room.header_bytes, slots)?;
    let mut store = HeaderStore::over(&mut room.header_bytes, slots);
    let loaded = load(src, &mut store, &head)?;
    let view = SectionView {
        loaded,
        store: &store,
    };
    let tables = read_library_tables(src, &view, &mut room.tables, row)?;
    ask_library(&view, tables, &mut room.tables, keys, libraries, library)
}

/// Keeps the name of a library.
///
/// # Errors
/// Those of its dynamic entries; there is no room for it.
fn library_name(
    dynamic: Option<DynamicRows>,
    strings: &StringBuffer,
    libraries: &mut LibraryList,
    path: &[u8],
) -> Result<HeldText, LinkFault>
    ensures { (file : List ℕ) (header : Option ℕ) →
        HoldsSomeDynamic file strings.now.bytes header dynamic →
        NamesLibrary (own_name_in file header) result }
{
    match own_name_of(dynamic, strings)? {
        Some(name) => libraries.keep(strings.bytes(name), 0),
        None => libraries.keep(path, 0),
    }
}

/// Returns the library's own name, if its dynamic entries give one.
///
/// # Errors
/// Those of the name, at its entry.
fn own_name_of(
    dynamic: Option<DynamicRows>,
    strings: &StringBuffer,
) -> Result<Option<HeldText>, LinkFault>
    ensures { (file : List ℕ) (header : Option ℕ) →
        HoldsSomeDynamic file strings.now.bytes header dynamic →
        FindsOwnName (own_name_in file header) strings.now.bytes result }
{
    match dynamic {
        Some(dynamic) => dynamic.soname(strings),
        None => Ok(None),
    }
}

/// Takes a library if it is needed, or need not be.
///
/// # Errors
/// The first fault of a symbol; there is no room for a key.
fn ask_library(
    view: &SectionView<'_>,
    tables: LibraryTables,
    room: &mut TableRoom,
    keys: &mut KeyTable<'_>,
    libraries: &mut LibraryList,
    library: usize,
) -> Result<LibraryEnd, LinkFault>
    ensures { (file : List ℕ) (known : LibraryVersions) →
        HoldsLibrary file room.old.strings.bytes tables room.old.versions known →
        HoldsSectionHeaders file view.now.loaded view.now.store.now →
        TakesLibrary (library_symbols file known (first_typed (file_sections file) SHT_DYNSYM))
        keys.old keys.new room.old.marks tables.row result }
{
    let Some(known) = libraries.get(library) else {
        return Ok(LibraryEnd::Same);
    };
    if !is_asked_for(view, tables, room, keys, libraries, known)? {
        return Ok(LibraryEnd::Unneeded(library));
    }
    libraries.take(library);
    take_library_symbols(
        view,
        tables,
        &room.versions,
        &mut room.strings,
        keys,
        &mut room.marks,
    )?;
    Ok(LibraryEnd::Taken)
}

/// Returns `true` if a library is taken in any case, if an object needs a symbol of it, or if a
/// library does that does not name it as needed.
///
/// # Errors
/// The first fault of a symbol; there is no room for a name.
fn is_asked_for(
    view: &SectionView<'_>,
    tables: LibraryTables,
    room: &mut TableRoom,
    keys: &KeyTable<'_>,
    libraries: &mut LibraryList,
    library: LinkLibrary,
) -> Result<bool, LinkFault>
    ensures versions { room.new.versions ≡ room.old.versions }
    ensures marks { room.new.marks ≡ room.old.marks }
    ensures strings { IfOk result (λ _. room.new.strings ≡ room.old.strings) }
    ensures asks { (file : List ℕ) (known : LibraryVersions) →
        HoldsLibrary file room.old.strings.bytes tables room.old.versions known →
        HoldsSectionHeaders file view.now.loaded view.now.store.now →
        AsksFor (library_symbols file known (first_typed (file_sections file) SHT_DYNSYM))
        keys.now.keys room.old.marks result }
{
    if !library.as_needed {
        return Ok(true);
    }
    let strings = &mut room.strings;
    let need = library_need(view, tables, &room.versions, strings, keys, &room.marks)?;
    if need.by_objects {
        return Ok(true);
    }
    Ok(need.by_libraries && !libraries.is_needed(library.name))
}
