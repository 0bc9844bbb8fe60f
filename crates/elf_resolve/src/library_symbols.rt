//! The symbols of a shared library.
ghost use Rattle.std.specs.Prelude.{◌≡◌, ◌<◌, ◌||◌, not, if◌then◌else◌, List, [], ◌∷◌, ℕ, None, Some, Ok, Option, Result, OnOk};
ghost use Rattle.elf_model.specs.LinkKeys.{LinkSymbol};
ghost use Rattle.elf_model.specs.Loader.{is_hidden};
ghost use Rattle.elf_model.specs.Numbers.{SHT_DYNSYM};
ghost use Rattle.elf_model.specs.HeaderTables.{file_sections, first_typed};
ghost use Rattle.elf_model.specs.Tables.{SYMBOL_SIZE, entry_at};
ghost use Rattle.elf_model.specs.declared.link_states.LinkRefusal.{LinkRefusal as Refusal};
ghost use Rattle.elf_record.specs.Sym.{IsSym};
ghost use Rattle.elf_resolve.specs.LibraryKeys.{LibraryVersions, has_no_version, is_undefined_at, key_names, library_symbol_at, library_symbols};
ghost use Rattle.elf_resolve.specs.LibraryNeeds.{key_of_default};
ghost use Rattle.elf_resolve.specs.LibrarySymbols.{library_role, shared_kind};
ghost use Rattle.elf_resolve.specs.LibraryTables.{FindsKeyNames, FindsLibrarySymbol, HoldsIndexes, HoldsLibrary, HoldsLibrarySymbol, HoldsLibraryVersions, TakesLibrarySymbols};
ghost use Rattle.elf_resolve.specs.ObjectSymbols.{HoldsSome};
ghost use Rattle.elf_resolve.specs.ObjectTables.{HoldsSymbols};
ghost use Rattle.elf_resolve.specs.StringBuffers.{HoldsText, KeptTexts};
ghost use Rattle.elf_resolve.specs.Symbols.{TookSymbol};
ghost use Rattle.elf_resolve.specs.VersionTexts.{version_text};
ghost use Rattle.elf_resolve.specs.declared.object.SymbolRows.{SymbolRows as Rows};
ghost use Rattle.elf_table.specs.Load.{HoldsSectionHeaders};

use crate::key_marks::KeyMarks;
use crate::library::{LibraryTables, VersionRows};
use crate::link_faults::{LinkFault, file_refused, full, refused};
use crate::object_symbols::{global_in, is_function, is_lto_mark, symbol_record};
use crate::string_buffer::{HeldText, NO_TEXT, StringBuffer};
use crate::table::{KeyFault, KeyTable};
use crate::version_names::HIDDEN;
use crate::version_room::VersionNames;
use elf_model::{KeyState, LinkCause, SharedDefinition, SharedKind, SymbolRole, SymbolUse};
use elf_record::numbers::{SHN_ABS, SHN_LORESERVE, SHN_UNDEF, SHT_NOBITS, STB_WEAK};
use elf_record::{Cause, Sym};
use elf_table::SectionView;

/// The flag of a section that takes memory (gABI 4, Section Attribute Flags).
const SHF_ALLOC: u64 = 2;

/// A symbol of a shared library: its names, and how it uses its keys.
#[derive(Clone, Copy)]
pub(crate) struct LibrarySymbol {
    /// Its name, with its version if it has one.
    pub name: HeldText,
    /// The name without the version, if that is the default one.
    pub default: Option<HeldText>,
    /// What it is to its keys.
    pub role: SymbolRole,
    /// Its file offset.
    pub at: u64,
}

/// Returns the symbol of an index that counts, if it does.
///
/// # Errors
/// Those of its name and its version; `Lto` if it is the mark of intermediate code alone; there is
/// no room for the name with the version.
pub(crate) fn library_symbol(
    view: &SectionView<'_>,
    tables: LibraryTables,
    versions: &VersionNames,
    strings: &mut StringBuffer,
    index: u64,
) -> Result<Option<LibrarySymbol>, LinkFault>
    ensures stays { KeptTexts strings.old strings.new }
    ensures finds { (file : List ℕ) (table_at : ℕ) (symbols : Rows) (known : LibraryVersions) →
        tables.symbols ≡ Some symbols → HoldsSymbols file strings.old.bytes table_at symbols →
        HoldsLibraryVersions file strings.old.bytes tables.versions versions.now known →
        HoldsSectionHeaders file view.now.loaded view.now.store.now → index < symbols.count →
        FindsLibrarySymbol (library_symbol_at file known table_at index) strings.new.bytes
        (entry_at file table_at SYMBOL_SIZE index) result }
{
    let Some(symbols) = tables.symbols else {
        return Ok(None);
    };
    let (rows, names, at) = (symbols.rows, symbols.names, symbols.place(index));
    let Some(symbol) = global_in(strings.bytes(rows), index) else {
        return Ok(None);
    };
    let name = strings.name(names, u64::from(symbol.st_name), at)?;
    if is_lto_mark(strings.bytes(name)) {
        return refused(at, LinkCause::Lto);
    }
    if name.size == 0 {
        return Ok(None);
    }
    let role = role_of(view, &symbol);
    let (name, default) = key_names(tables.versions, versions, strings, &symbol, (index, name))?;
    Ok(Some(LibrarySymbol {
        name,
        default,
        role,
        at,
    }))
}

/// Returns what a symbol of a shared library is to its keys.
fn role_of(view: &SectionView<'_>, symbol: &Sym) -> SymbolRole
    ensures { (file : List ℕ) (at : ℕ) → IsSym file at symbol.now →
        HoldsSectionHeaders file view.now.loaded view.now.store.now →
        result ≡ library_role file at }
{
    let is_weak = symbol.binding() == STB_WEAK;
    if symbol.st_shndx != SHN_UNDEF {
        return SymbolRole::Shared(SharedDefinition {
            weak: is_weak,
            kind: kind_of(view, symbol),
        });
    }
    if is_weak {
        return SymbolRole::WeakReference;
    }
    SymbolRole::Reference
}

/// Returns what a definition of a shared library is.
fn kind_of(view: &SectionView<'_>, symbol: &Sym) -> SharedKind
    ensures { (file : List ℕ) (at : ℕ) → IsSym file at symbol.now →
        HoldsSectionHeaders file view.now.loaded view.now.store.now →
        result ≡ shared_kind file at }
{
    if is_function(symbol) {
        return SharedKind::Function;
    }
    let section = symbol.st_shndx;
    if section == SHN_ABS {
        return SharedKind::Absolute;
    }
    if section >= SHN_LORESERVE || section >= view.sections() {
        return SharedKind::Other;
    }
    let header = view.section(section);
    let has_memory = header.sh_flags & SHF_ALLOC != 0 && symbol.st_size > 0;
    if header.sh_type == SHT_NOBITS && has_memory {
        return SharedKind::NoBits(symbol.st_size);
    }
    SharedKind::Other
}

/// Returns the names of the keys of a symbol, by its index and its name: with its version, and of a
/// definition of the default version without it; without a version if it has none.
///
/// # Errors
/// `VersionCut` at the header of the version indexes if there is none for the symbol, `VersionIndex`
/// at one without a name; there is no room for the name.
fn key_names(
    indexes: Option<VersionRows>,
    versions: &VersionNames,
    strings: &mut StringBuffer,
    symbol: &Sym,
    named: (u64, HeldText),
) -> Result<(HeldText, Option<HeldText>), LinkFault>
    ensures stays { KeptTexts strings.old strings.new }
    ensures finds { (file : List ℕ) (at : ℕ) (known : LibraryVersions) (name : List ℕ) →
        HoldsLibraryVersions file strings.old.bytes indexes versions.now known →
        IsSym file at symbol.now → HoldsText strings.old.bytes named.1 name →
        FindsKeyNames (key_names file known known.indexes at named.0 name) strings.new.bytes
        result }
{
    match indexes {
        Some(indexes) => versioned_names(indexes, versions, strings, symbol, named),
        None => Ok((named.1, None)),
    }
}

/// Returns the names of the keys of a symbol in a library that has version indexes.
///
/// # Errors
/// Those of [`key_names`].
fn versioned_names(
    indexes: VersionRows,
    versions: &VersionNames,
    strings: &mut StringBuffer,
    symbol: &Sym,
    named: (u64, HeldText),
) -> Result<(HeldText, Option<HeldText>), LinkFault>
    ensures stays { KeptTexts strings.old strings.new }
    ensures finds { (file : List ℕ) (header at : ℕ) (known : LibraryVersions) (name : List ℕ) →
        HoldsIndexes file strings.old.bytes header indexes →
        HoldsLibraryVersions file strings.old.bytes (Some indexes) versions.now known →
        IsSym file at symbol.now → HoldsText strings.old.bytes named.1 name →
        FindsKeyNames (key_names file known (Some header) at named.0 name) strings.new.bytes
        result }
{
    let (index, name) = named;
    let word = indexes.index(strings, index)?;
    if has_no_version(symbol, word) {
        return Ok((name, None));
    }
    let is_reference = symbol.st_shndx == SHN_UNDEF;
    let Some(version) = version_of(versions, word % HIDDEN, is_reference) else {
        return file_refused(indexes.place(index), Cause::VersionIndex);
    };
    let joined = strings.join(name, version, indexes.place(index))?;
    Ok((joined, default_name(symbol, word, name)))
}

/// Returns `true` if a symbol has no version: it is not hidden, and its index is that of no version
/// or it is absolute, though no function.
fn has_no_version(symbol: &Sym, word: u16) -> bool
    ensures { (file : List ℕ) (at : ℕ) → IsSym file at symbol.now →
        result ≡ has_no_version file at word }
{
    let is_absolute = symbol.st_shndx == SHN_ABS && !is_function(symbol);
    !is_hidden(word) && (word % HIDDEN < 2 || is_absolute)
}

/// Returns the name of a symbol without its version, if it defines the default one.
fn default_name(symbol: &Sym, word: u16, name: HeldText) -> Option<HeldText>
    ensures { (file : List ℕ) (at : ℕ) → IsSym file at symbol.now →
        result ≡ (if not (is_undefined_at file at || is_hidden word) then Some name else None) }
{
    if symbol.st_shndx == SHN_UNDEF || is_hidden(word) {
        return None;
    }
    Some(name)
}

/// Returns `true` if a version index hides its symbol from references without a version.
fn is_hidden(word: u16) -> bool
    ensures { result ≡ is_hidden word }
{
    word >= HIDDEN
}

/// Returns the name of the version of an index: among those that are needed for a reference, among
/// those that are defined otherwise; a hidden definition without a version has an empty one.
fn version_of(versions: &VersionNames, number: u16, is_reference: bool) -> Option<HeldText>
    ensures { result ≡ version_text versions.now number is_reference }
{
    if is_reference {
        return versions.needed(number);
    }
    if number < 2 {
        return Some(NO_TEXT);
    }
    versions.defined(number)
}

/// Takes the symbols of a shared library in order.
///
/// # Errors
/// The first fault of a symbol; there is no room for a key.
pub(crate) fn take_library_symbols(
    view: &SectionView<'_>,
    tables: LibraryTables,
    versions: &VersionNames,
    strings: &mut StringBuffer,
    keys: &mut KeyTable<'_>,
    marks: &mut KeyMarks,
) -> Result<(), LinkFault>
    ensures { (file : List ℕ) (known : LibraryVersions) →
        HoldsLibrary file strings.old.bytes tables versions.now known →
        HoldsSectionHeaders file view.now.loaded view.now.store.now →
        TakesLibrarySymbols (library_symbols file known (first_typed (file_sections file) SHT_DYNSYM))
        keys.old keys.new tables.row result }
{
    let used = strings.used();
    let (first, count) = tables.symbol_range();
    for index in first..count {
        let symbol = library_symbol(view, tables, versions, strings, index)?;
        take_found(symbol, strings, keys, marks, tables.row)?;
        strings.forget_after(used);
    }
    Ok(())
}

/// Takes a symbol of a shared library with a row, if there is one.
///
/// # Errors
/// There is no room for its keys, at the symbol.
fn take_found(
    symbol: Option<LibrarySymbol>,
    strings: &StringBuffer,
    keys: &mut KeyTable<'_>,
    marks: &mut KeyMarks,
    row: u32,
) -> Result<(), LinkFault>
    ensures { (known : Result (List LinkSymbol) Refusal) (at : ℕ) →
        FindsLibrarySymbol known strings.now.bytes at (Ok symbol) →
        TakesLibrarySymbols known keys.old keys.new row result }
{
    match symbol {
        Some(symbol) => take_at(&symbol, strings, keys, marks, row),
        None => Ok(()),
    }
}

/// Takes a symbol of a shared library with a row.
///
/// # Errors
/// There is no room for its keys, at the symbol.
fn take_at(
    symbol: &LibrarySymbol,
    strings: &StringBuffer,
    keys: &mut KeyTable<'_>,
    marks: &mut KeyMarks,
    row: u32,
) -> Result<(), LinkFault>
    ensures { (is : LinkSymbol) → HoldsLibrarySymbol strings.now.bytes symbol.now is →
        TakesLibrarySymbols (Ok (is ∷ [])) keys.old keys.new row result }
{
    match take_symbol(symbol, strings, keys, marks, row) {
        Ok(()) => Ok(()),
        Err(fault) => Err(full(symbol.at, fault)),
    }
}

/// Takes a symbol of a shared library with a row.
///
/// # Errors
/// There is no room for its keys.
fn take_symbol(
    symbol: &LibrarySymbol,
    strings: &StringBuffer,
    keys: &mut KeyTable<'_>,
    marks: &mut KeyMarks,
    row: u32,
) -> Result<(), KeyFault>
    ensures { (is : LinkSymbol) → HoldsLibrarySymbol strings.now.bytes symbol.now is →
        OnOk result (TookSymbol keys.old keys.new is (Some row)) }
{
    let used = SymbolUse {
        role: symbol.role,
        restricted: false,
        dropped: false,
        of_library: true,
        absolute: None,
    };
    keys.take(
        symbol_record(strings, symbol.name, symbol.default, used),
        Some(row),
    )?;
    note_symbol(symbol, strings, keys, marks, row);
    Ok(())
}

/// Notes that a library references a key, or has the default version of one.
fn note_symbol(
    symbol: &LibrarySymbol,
    strings: &StringBuffer,
    keys: &KeyTable<'_>,
    marks: &mut KeyMarks,
    row: u32,
) {
    let Some(key) = keys.find(strings.bytes(symbol.name)) else {
        return;
    };
    match symbol.role {
        SymbolRole::Reference => marks.note_library(key),
        SymbolRole::Shared(_) => {
            let entry = keys.entry(key);
            if matches!(entry.state, KeyState::Shared(_)) && entry.row == Some(row) {
                marks.set_default(key, default_key(symbol, strings, keys));
            }
        }
        _ => {}
    }
}

/// Returns the key of the name of a symbol without its version, if that is the default one.
fn default_key(symbol: &LibrarySymbol, strings: &StringBuffer, keys: &KeyTable<'_>) -> Option<u32>
    ensures { (default_is : Option (List ℕ)) →
        HoldsSome strings.now.bytes symbol.now.default default_is →
        result ≡ key_of_default keys.now.keys default_is }
{
    match symbol.default {
        Some(default) => keys.find(strings.bytes(default)),
        None => None,
    }
}
