//! The symbols of an object.
ghost use Rattle.std.specs.Prelude.{◌≡◌, ◌+◌, ◌-◌, ◌*◌, ◌<◌, ◌≤◌, ◌==◌, ◌||◌, if◌then◌else◌, true, List, ℕ, Option, None, Some, bytes_eq, length, IfOk, IsSome, OnOk};
ghost use Rattle.elf_model.specs.Bytes.{slice};
ghost use Rattle.elf_model.specs.LinkObjects.{is_dropped};
ghost use Rattle.elf_model.specs.LinkSymbols.{LTO_MARK, absolute_value, is_common, is_data_definition, link_symbol_at, symbol_role, symbol_section, symbol_table_in, symbol_use, symbols_from, symbols_if};
ghost use Rattle.elf_model.specs.Numbers.{STT_FUNC, STT_GNU_IFUNC};
ghost use Rattle.elf_model.specs.Records.{st_type};
ghost use Rattle.elf_model.specs.Tables.{SYMBOL_SIZE, entry_at};
ghost use Rattle.elf_record.specs.Sym.{IsSym};
ghost use Rattle.elf_resolve.specs.ObjectSymbols.{FindsGlobal, FindsUse, HoldsSome, MayNameUse, NamesKeys, NamesUse, TakesObjectSymbols, is_reference_role, reference_role_at, use_if};
ghost use Rattle.elf_resolve.specs.ObjectTables.{HoldsSymbols, HoldsTables};
ghost use Rattle.elf_resolve.specs.SectionMarks.{MarksDropped};
ghost use Rattle.elf_resolve.specs.StringBuffers.{HoldsText, KeptTexts};
ghost use Rattle.elf_resolve.specs.Symbols.{TookSymbol, name_of_symbol_in, symbol_record as taken_symbol};

use crate::key_marks::KeyMarks;
use crate::link_faults::{LinkFault, full, refused};
use crate::object::{ObjectTables, SymbolRows, symbol_in};
use crate::section_marks::SectionMarks;
use crate::string_buffer::{HeldText, StringBuffer, split_version};
use crate::symbols::Symbol;
use crate::table::{KeyFault, KeyTable};
use elf_model::{LinkCause, SymbolRole, SymbolUse};
use elf_record::Sym;
use elf_record::numbers::{
    SHN_ABS, SHN_COMMON, SHN_LORESERVE, SHN_UNDEF, STB_GLOBAL, STB_WEAK, STT_FUNC, STV_DEFAULT,
};

/// The binding of a symbol that is one in all of a process, as GNU files have it.
const STB_GNU_UNIQUE: u8 = 10;

/// The type of a function that is found by a call, as GNU files have it.
const STT_GNU_IFUNC: u8 = 10;

/// The section index of a common of the large model (psABI, Special Section Indexes).
const SHN_X86_64_LCOMMON: u16 = 0xff02;

/// The symbol of an object with intermediate code alone.
const SLIM_MARK: &[u8] = b"__gnu_lto_slim";

/// Takes the symbols of an object that are not local, in order.
///
/// # Errors
/// The first fault of a symbol or its name; there is no room for a key.
pub(crate) fn take_symbols(
    tables: ObjectTables,
    strings: &mut StringBuffer,
    sections: &SectionMarks,
    keys: &mut KeyTable<'_>,
    marks: &mut KeyMarks,
    row: u32,
) -> Result<(), LinkFault>
    ensures { (file : List ℕ) (count : ℕ) (dropped : List ℕ) →
        HoldsTables file strings.old.bytes tables → MarksDropped count sections.now dropped →
        TakesObjectSymbols dropped (symbols_if file (symbol_table_in file)) keys.old keys.new row
        result }
{
    match tables.symbols {
        Some(symbols) => take_rows(symbols, strings, sections, keys, marks, row),
        None => Ok(()),
    }
}

/// Takes the symbols of a table from the first that is not local on.
///
/// # Errors
/// Those of [`take_symbols`].
fn take_rows(
    symbols: SymbolRows,
    strings: &mut StringBuffer,
    sections: &SectionMarks,
    keys: &mut KeyTable<'_>,
    marks: &mut KeyMarks,
    row: u32,
) -> Result<(), LinkFault>
    ensures { (file : List ℕ) (table_at count : ℕ) (dropped : List ℕ) →
        HoldsSymbols file strings.old.bytes table_at symbols →
        MarksDropped count sections.now dropped →
        TakesObjectSymbols dropped
        (symbols_from file table_at symbols.first (symbols.count - symbols.first))
        keys.old keys.new row result }
{
    for index in symbols.first..symbols.count {
        let named = named_use(symbols, index, strings, sections)?;
        take_named(named, strings, keys, marks, row)?;
    }
    Ok(())
}

/// Returns the symbol of an index of a table, with its name, if it is global, weak or unique.
///
/// # Errors
/// Those of its name, at the symbol.
fn named_use(
    symbols: SymbolRows,
    index: u64,
    strings: &StringBuffer,
    sections: &SectionMarks,
) -> Result<Option<NamedUse>, LinkFault>
    ensures { (file : List ℕ) (table_at count : ℕ) (dropped : List ℕ) →
        HoldsSymbols file strings.now.bytes table_at symbols → index < symbols.count →
        MarksDropped count sections.now dropped →
        FindsUse file strings.now.bytes table_at (entry_at file table_at SYMBOL_SIZE index) dropped
        result }
{
    let Some(symbol) = global_in(strings.bytes(symbols.rows), index) else {
        return Ok(None);
    };
    let at = symbols.place(index);
    let name = strings.name(symbols.names, u64::from(symbol.st_name), at)?;
    let symbol = use_of(&symbol, is_in_dropped(&symbol, sections));
    Ok(Some(NamedUse { name, symbol, at }))
}

/// Takes a symbol, if there is one; nothing of it stays in the buffer.
///
/// # Errors
/// Those of [`take_symbol`].
fn take_named(
    named: Option<NamedUse>,
    strings: &mut StringBuffer,
    keys: &mut KeyTable<'_>,
    marks: &mut KeyMarks,
    row: u32,
) -> Result<(), LinkFault>
    ensures same { IfOk result (λ _. strings.new ≡ strings.old) }
    ensures takes { (file : List ℕ) (table_at at : ℕ) (dropped : List ℕ) →
        MayNameUse file strings.old.bytes table_at at dropped named →
        TakesObjectSymbols dropped (link_symbol_at file table_at at) keys.old keys.new row result }
{
    let Some(named) = named else {
        return Ok(());
    };
    let used = strings.used();
    take_symbol(named, strings, keys, marks, row)?;
    strings.forget_after(used);
    Ok(())
}

/// Returns the symbol of an index in the bytes of a table, if it is global, weak or unique.
pub(crate) fn global_in(rows: &[u8], index: u64) -> Option<Sym>
    ensures { 24 * index + 24 ≤ length rows.now → (file : List ℕ) (at : ℕ) →
        rows.now ≡ slice file at (length rows.now) → FindsGlobal file (at + 24 * index) result }
{
    let symbol = symbol_in(rows, index)?;
    match symbol.binding() {
        STB_GLOBAL | STB_WEAK | STB_GNU_UNIQUE => Some(symbol),
        _ => None,
    }
}

/// A symbol of an object: its name, how it uses its keys, and its file offset.
#[derive(Clone, Copy)]
struct NamedUse {
    name: HeldText,
    symbol: SymbolUse,
    at: u64,
}

/// Takes a symbol, if it has a name.
///
/// # Errors
/// `Lto` if it is the mark of an object with intermediate code alone; there is no room for its keys.
fn take_symbol(
    named: NamedUse,
    strings: &mut StringBuffer,
    keys: &mut KeyTable<'_>,
    marks: &mut KeyMarks,
    row: u32,
) -> Result<(), LinkFault>
    ensures stays { KeptTexts strings.old strings.new }
    ensures takes { (file : List ℕ) (table_at at : ℕ) (dropped : List ℕ) →
        NamesUse file strings.old.bytes table_at at dropped named →
        TakesObjectSymbols dropped (link_symbol_at file table_at at) keys.old keys.new row result }
{
    let NamedUse { name, symbol, at } = named;
    if is_lto_mark(strings.bytes(name)) {
        return refused(at, LinkCause::Lto);
    }
    if name.size == 0 {
        return Ok(());
    }
    let (name, default) = key_names(strings, name, symbol.role, at)?;
    if let Err(fault) = take_names(strings, name, default, symbol, keys, row) {
        return Err(full(at, fault));
    }
    note_names(strings, (name, default), symbol, keys, marks);
    Ok(())
}

/// Notes the keys that an object's symbol has used.
fn note_names(
    strings: &StringBuffer,
    names: (HeldText, Option<HeldText>),
    symbol: SymbolUse,
    keys: &KeyTable<'_>,
    marks: &mut KeyMarks,
) {
    let (name, default) = names;
    if let Some(key) = keys.find(strings.bytes(name)) {
        marks.note_object(key, symbol);
    }
    let Some(default) = default else {
        return;
    };
    if let Some(key) = keys.find(strings.bytes(default)) {
        if keys.entry(key).is_own {
            marks.note_object(key, symbol);
        }
    }
}

/// Returns `true` if a name is the mark of an object with intermediate code alone.
pub(crate) fn is_lto_mark(name: &[u8]) -> bool
    ensures { result ≡ bytes_eq name.now LTO_MARK }
{
    name == SLIM_MARK
}

/// Takes a symbol by its names, which are in a buffer.
///
/// # Errors
/// There is no room for its keys.
fn take_names(
    strings: &StringBuffer,
    name: HeldText,
    default: Option<HeldText>,
    symbol: SymbolUse,
    keys: &mut KeyTable<'_>,
    row: u32,
) -> Result<(), KeyFault>
    ensures { (is : List ℕ) (default_is : Option (List ℕ)) → HoldsText strings.now.bytes name is →
        HoldsSome strings.now.bytes default default_is →
        OnOk result (TookSymbol keys.old keys.new
        (record { name = is; default_name = default_is; symbol = symbol }) (Some row)) }
{
    keys.take(symbol_record(strings, name, default, symbol), Some(row))
}

/// Returns a symbol with its names, which are in a buffer.
pub(crate) fn symbol_record<'s>(
    strings: &'s StringBuffer,
    name: HeldText,
    default: Option<HeldText>,
    symbol: SymbolUse,
) -> Symbol<'s>
    ensures { (is : List ℕ) (default_is : Option (List ℕ)) → HoldsText strings.now.bytes name is →
        HoldsSome strings.now.bytes default default_is →
        taken_symbol result ≡ record { name = is; default_name = default_is; symbol = symbol } }
{
    Symbol {
        name: strings.bytes(name),
        default_name: held_bytes(strings, default),
        symbol,
    }
}

/// Returns the bytes of a text in a buffer, if there is one.
fn held_bytes(strings: &StringBuffer, text: Option<HeldText>) -> Option<&[u8]>
    ensures { (is : Option (List ℕ)) → HoldsSome strings.now.bytes text is →
        name_of_symbol_in result ≡ is }
{
    match text {
        Some(text) => Some(strings.bytes(text)),
        None => None,
    }
}

/// Returns `true` if a symbol is defined in a section that is dropped.
fn is_in_dropped(symbol: &Sym, sections: &SectionMarks) -> bool
    ensures dropped { (file : List ℕ) (at count : ℕ) (dropped : List ℕ) → IsSym file at symbol.now →
        MarksDropped count sections.now dropped →
        result ≡ is_dropped dropped (symbol_section file at) }
{
    let section = symbol.st_shndx;
    section != SHN_UNDEF && section < SHN_LORESERVE && sections.is_dropped(u32::from(section))
}

/// Returns how a symbol uses its key; a definition in a dropped section is a reference.
#[tactic(auto, unfolding(elf_model::specs::LinkSymbols::symbol_role))]
fn use_of(symbol: &Sym, dropped: bool) -> SymbolUse
    ensures { (file : List ℕ) (at : ℕ) → IsSym file at symbol.now →
        (dropped ≡ true → IsSome (symbol_section file at)) →
        result ≡ use_if dropped (symbol_use file at) }
{
    let role = if dropped {
        reference_role(symbol)
    } else {
        role_of(symbol)
    };
    SymbolUse {
        role,
        restricted: symbol.visibility() != STV_DEFAULT,
        dropped,
        of_library: false,
        absolute: absolute_value(symbol),
    }
}

/// Returns the value of an absolute symbol.
fn absolute_value(symbol: &Sym) -> Option<u64>
    ensures { (file : List ℕ) (at : ℕ) → IsSym file at symbol.now →
        result ≡ absolute_value file at }
{
    if symbol.st_shndx == SHN_ABS {
        return Some(symbol.st_value);
    }
    None
}

/// Returns what a reference is to its key.
fn reference_role(symbol: &Sym) -> SymbolRole
    ensures { (file : List ℕ) (at : ℕ) → IsSym file at symbol.now →
        result ≡ reference_role_at file at }
{
    if symbol.binding() == STB_WEAK {
        return SymbolRole::WeakReference;
    }
    SymbolRole::Reference
}

/// Returns what a symbol is to its key.
#[tactic(auto, unfolding(elf_model::specs::LinkSymbols::symbol_role))]
fn role_of(symbol: &Sym) -> SymbolRole
    ensures { (file : List ℕ) (at : ℕ) → IsSym file at symbol.now → result ≡ symbol_role file at }
{
    if symbol.st_shndx == SHN_UNDEF {
        return reference_role(symbol);
    }
    if is_common(symbol) {
        return SymbolRole::Common(symbol.st_size);
    }
    if symbol.binding() == STB_WEAK {
        return SymbolRole::WeakDefinition;
    }
    SymbolRole::Definition
}

/// Returns `true` if a symbol is a common.
fn is_common(symbol: &Sym) -> bool
    ensures { (file : List ℕ) (at : ℕ) → IsSym file at symbol.now → result ≡ is_common file at }
{
    symbol.st_shndx == SHN_COMMON || symbol.st_shndx == SHN_X86_64_LCOMMON
}

/// Returns `true` if a symbol is a definition, not weak and no function.
pub(crate) fn is_data_definition(symbol: &Sym) -> bool
    ensures { (file : List ℕ) (at : ℕ) → IsSym file at symbol.now →
        result ≡ is_data_definition file at }
{
    symbol.binding() != STB_WEAK
        && symbol.st_shndx != SHN_UNDEF
        && !is_common(symbol)
        && !is_function(symbol)
}

/// Returns `true` if a symbol is a function, or one that is found by a call.
pub(crate) fn is_function(symbol: &Sym) -> bool
    ensures { (file : List ℕ) (at : ℕ) → IsSym file at symbol.now →
        result ≡ (st_type file at == STT_FUNC || st_type file at == STT_GNU_IFUNC) }
{
    symbol.kind() == STT_FUNC || symbol.kind() == STT_GNU_IFUNC
}

/// Returns the names of the keys of a symbol: of `NAME@@VERSION` the name `NAME@VERSION` and, unless
/// it is a reference, `NAME`; of any other name that name.
///
/// # Errors
/// There is no room for a name.
fn key_names(
    strings: &mut StringBuffer,
    name: HeldText,
    role: SymbolRole,
    at: u64,
) -> Result<(HeldText, Option<HeldText>), LinkFault>
    ensures stays { KeptTexts strings.old strings.new }
    ensures names { (is : List ℕ) → HoldsText strings.old.bytes name is →
        NamesKeys strings.new.bytes is role result }
{
    let Some((base, version)) = split_version(strings.bytes(name), name) else {
        return Ok((name, None));
    };
    let joined = strings.join(base, version, at)?;
    Ok((joined, unless_reference(role, base)))
}

/// Returns a text, unless it is one of a reference.
fn unless_reference(role: SymbolRole, text: HeldText) -> Option<HeldText>
    ensures { result ≡ (if is_reference_role role then None else Some text) }
{
    match role {
        SymbolRole::Reference | SymbolRole::WeakReference => None,
        _ => Some(text),
    }
}
