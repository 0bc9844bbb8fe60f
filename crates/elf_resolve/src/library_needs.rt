//! Whether the definitions of a shared library make it needed.
ghost use Rattle.std.specs.Prelude.{◌≡◌, IfOk, List, ℕ, Ok, Result};
ghost use Rattle.elf_model.specs.HeaderTables.{file_sections, first_typed};
ghost use Rattle.elf_model.specs.LinkKeys.{LinkSymbol};
ghost use Rattle.elf_model.specs.Numbers.{SHT_DYNSYM};
ghost use Rattle.elf_model.specs.declared.link_states.LinkRefusal.{LinkRefusal as Refusal};
ghost use Rattle.elf_resolve.specs.LibraryKeys.{LibraryVersions, library_symbols};
ghost use Rattle.elf_resolve.specs.LibraryNeeds.{FindsNeed, default_need, is_defined_name, joined_need, name_need, need_of_symbol, needs_joined};
ghost use Rattle.elf_resolve.specs.LibraryNeeds.{takes_definition as takes_it};
ghost use Rattle.elf_resolve.specs.LibraryTables.{FindsLibrarySymbol, HoldsLibrary, HoldsLibrarySymbol};
ghost use Rattle.elf_table.specs.Load.{HoldsSectionHeaders};

use crate::key_marks::KeyMarks;
use crate::library::LibraryTables;
use crate::library_symbols::{LibrarySymbol, library_symbol};
use crate::link_faults::LinkFault;
use crate::string_buffer::StringBuffer;
use crate::table::KeyTable;
use crate::version_room::VersionNames;
use elf_model::{KeyEntry, KeyState, SharedDefinition, SharedKind, SymbolRole};
use elf_table::SectionView;

/// Who needs a library, of which nothing is taken yet.
#[derive(Clone, Copy)]
pub(crate) struct LibraryNeed {
    /// Whether an object does.
    pub by_objects: bool,
    /// Whether another library does.
    pub by_libraries: bool,
}

/// Nothing needs the library.
const NO_NEED: LibraryNeed = LibraryNeed {
    by_objects: false,
    by_libraries: false,
};

impl LibraryNeed {
    /// Returns who needs the library by this or by another symbol.
    fn joined(self, other: LibraryNeed) -> LibraryNeed
        ensures { result ≡ joined_need self other }
    {
        LibraryNeed {
            by_objects: self.by_objects || other.by_objects,
            by_libraries: self.by_libraries || other.by_libraries,
        }
    }
}

/// Returns whether definitions of a library make it needed.
///
/// # Errors
/// The first fault of a symbol; there is no room for a name.
pub(crate) fn library_need(
    view: &SectionView<'_>,
    tables: LibraryTables,
    versions: &VersionNames,
    strings: &mut StringBuffer,
    keys: &KeyTable<'_>,
    marks: &KeyMarks,
) -> Result<LibraryNeed, LinkFault>
    ensures same { IfOk result (λ _. strings.new ≡ strings.old) }
    ensures finds { (file : List ℕ) (known : LibraryVersions) →
        HoldsLibrary file strings.old.bytes tables versions.now known →
        HoldsSectionHeaders file view.now.loaded view.now.store.now →
        FindsNeed (library_symbols file known (first_typed (file_sections file) SHT_DYNSYM))
        keys.now.keys marks.now result }
{
    let mut need = NO_NEED;
    let used = strings.used();
    let (first, count) = tables.symbol_range();
    for index in first..count {
        let symbol = library_symbol(view, tables, versions, strings, index)?;
        need = need_after(need, symbol, strings, keys, marks);
        strings.forget_after(used);
    }
    Ok(need)
}

/// Returns who needs a library, by other symbols and by this one, if there is one.
fn need_after(
    need: LibraryNeed,
    symbol: Option<LibrarySymbol>,
    strings: &StringBuffer,
    keys: &KeyTable<'_>,
    marks: &KeyMarks,
) -> LibraryNeed
    ensures { (known : Result (List LinkSymbol) Refusal) (at : ℕ) →
        FindsLibrarySymbol known strings.now.bytes at (Ok symbol) →
        (symbols : List LinkSymbol) × (known ≡ Ok symbols) ×
        (result ≡ needs_joined keys.now.keys marks.now need symbols) }
{
    match symbol {
        Some(symbol) => need.joined(symbol_need(&symbol, strings, keys, marks)),
        None => need,
    }
}

/// Returns who needs a library by a symbol: no one, if that is no definition.
fn symbol_need(
    symbol: &LibrarySymbol,
    strings: &StringBuffer,
    keys: &KeyTable<'_>,
    marks: &KeyMarks,
) -> LibraryNeed
    ensures { (is : LinkSymbol) → HoldsLibrarySymbol strings.now.bytes symbol.now is →
        result ≡ need_of_symbol keys.now.keys marks.now is }
{
    let SymbolRole::Shared(definition) = symbol.role else {
        return NO_NEED;
    };
    let name = strings.bytes(symbol.name);
    match symbol.default {
        Some(default) => default_need(name, strings.bytes(default), definition, keys, marks),
        None => key_need(name, definition, keys, marks),
    }
}

/// Returns who needs a definition of a default version, by its name with the version and without
/// it: no one if the name without the version is defined.
fn default_need(
    name: &[u8],
    default: &[u8],
    definition: SharedDefinition,
    keys: &KeyTable<'_>,
    marks: &KeyMarks,
) -> LibraryNeed
    ensures { result ≡ default_need keys.now.keys marks.now name.now default.now definition }
{
    if is_defined(keys, default) {
        return NO_NEED;
    }
    let need = key_need(name, definition, keys, marks);
    need.joined(key_need(default, definition, keys, marks))
}

/// Returns `true` if a name is defined.
fn is_defined(keys: &KeyTable<'_>, name: &[u8]) -> bool
    ensures { result ≡ is_defined_name keys.now.keys name.now }
{
    matches!(
        keys.entry_named(name).state,
        KeyState::WeakDefined | KeyState::Defined | KeyState::Shared(_)
    )
}

/// Returns who needs a definition of a name.
fn key_need(
    name: &[u8],
    definition: SharedDefinition,
    keys: &KeyTable<'_>,
    marks: &KeyMarks,
) -> LibraryNeed
    ensures { result ≡ name_need keys.now.keys marks.now name.now definition }
{
    let Some(key) = keys.find(name) else {
        return NO_NEED;
    };
    if !takes_definition(keys.entry(key), definition) {
        return NO_NEED;
    }
    let mark = marks.get(key);
    LibraryNeed {
        by_objects: mark.is_strong,
        by_libraries: mark.is_library_strong,
    }
}

/// Returns `true` if a definition of a shared library replaces a key's state.
fn takes_definition(entry: KeyEntry, definition: SharedDefinition) -> bool
    ensures { result ≡ takes_it entry definition }
{
    if entry.is_restricted {
        return false;
    }
    match entry.state {
        KeyState::New | KeyState::Weak | KeyState::Undefined => true,
        KeyState::Common(_) => {
            !definition.weak
                && !matches!(
                    definition.kind,
                    SharedKind::Function | SharedKind::NoBits(_)
                )
        }
        _ => false,
    }
}
