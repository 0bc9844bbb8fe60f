//! The address of a symbol in a layout.
ghost use Rattle.std.specs.Prelude.{◌≡◌, ◌+◌, ◌-◌, ◌<◌, ◌≤◌, min, ℕ, List, length};
ghost use Rattle.std.specs.Prelude.{IfErr};
ghost use Rattle.elf_model.specs.Prelude.{Searched, address_named, base_value, entry_value, is_system_specific, layout_names_cost, longest, lookup_cost, named_or, placed_at, plt_entry_value, section_symbol_value, st_name, symbol_value, system_value, undefined_value};
ghost use Rattle.elf_record.specs.Sym.{IsSym};
ghost use Rattle.elf_table.specs.Prelude.{IsOfCheck, StringsInBounds};
ghost use Rattle.elf_layout.specs.Layouts.{items_cost, names_for};
ghost use Rattle.elf_reloc.specs.Costs.{AnswersUnread, FindsAddress, GivesValue, ValueOrRefusal};

use elf_layout::{Addresses, Among, ITEM_NAME_BYTES, NamedAddress, SortedNames};
use elf_model::RelocationBase;
use elf_record::gnu_numbers::STT_GNU_IFUNC;
use elf_record::numbers::{SHN_UNDEF, STB_WEAK, STT_LOOS};
use elf_record::{Cause, Sym, SymbolSection};
use elf_source::{Counted, Source};
use elf_table::{Fault, SymbolEntry, fill, refused};

/// The largest number of bytes of a symbol's name that are read: the longest name of a layout, and
/// its NUL.
const NAME_BUFFER_BYTES: usize = ITEM_NAME_BYTES + 1;

/// Returns the address of the first item whose name is the symbol's, if there is one: each is
/// compared. Without items the name is not read; a refusal points to the symbol.
#[tactic(auto, unfolding(elf_model::specs::Placing::address_named))]
fn compared<S: Source>(
    src: &mut Counted<S>,
    symbol: &SymbolEntry,
    items: &[NamedAddress],
) -> Result<Option<u64>, Fault>
    requires within { StringsInBounds src.old.seen.size symbol.now.names }
    ensures { FindsAddress src.old src.new symbol.now result (items_cost items.now) items.now }
{
    let off = u64::from(symbol.fields.st_name);
    let mut i = 0;
    while i < items.len() {
        let item = &items[i];
        if symbol.names.equals(src, off, symbol.at, item.name())? {
            return Ok(Some(item.address()));
        }
        i += 1;
    }
    Ok(None)
}

/// Does the same for sorted names: as many bytes of the symbol's name as the longest of them has
/// are read once, and searched for.
fn searched<S: Source>(
    src: &mut Counted<S>,
    symbol: &SymbolEntry,
    names: &SortedNames<'_>,
) -> Result<Option<u64>, Fault>
    requires within { StringsInBounds src.old.seen.size symbol.now.names }
    ensures { FindsAddress src.old src.new symbol.now result (lookup_cost Searched names.now)
        names.now }
{
    let off = u64::from(symbol.fields.st_name);
    let size = symbol.names.size();
    if names.is_empty() {
        return Ok(None);
    }
    if size == 0 && off == 0 {
        return Ok(None);
    }
    if off >= size {
        return refused(symbol.at, Cause::NameOutside);
    }
    let mut bytes = [0; NAME_BUFFER_BYTES];
    let count = (size - off).min(names.longest() as u64 + 1) as usize;
    read_name(src, symbol, &mut bytes[..count], names)
}

/// Returns the address of the name whose first bytes are read, as many as `front` has.
fn read_name<S: Source>(
    src: &mut Counted<S>,
    symbol: &SymbolEntry,
    front: &mut [u8],
    names: &SortedNames<'_>,
) -> Result<Option<u64>, Fault>
    requires within { StringsInBounds src.old.seen.size symbol.now.names }
    requires inside { symbol.now.fields.st_name < symbol.now.names.size }
    requires count { length front.old
        ≡ min (symbol.now.names.size - symbol.now.fields.st_name) (longest names.now + 1) }
    requires few { length front.old ≤ 256 }
    ensures { FindsAddress src.old src.new symbol.now result (longest names.now + 1) names.now }
{
    let at = symbol.names.at() + u64::from(symbol.fields.st_name);
    fill(src, at, front)?;
    match names.find(front) {
        Ok(address) => Ok(address),
        Err(cause) => refused(symbol.at, cause),
    }
}

/// Returns the address of the name of a symbol among those that are searched for a base, if there
/// is one.
#[tactic(auto, unfolding(elf_model::specs::ApplyCost::lookup_cost))]
fn address_named<S: Source>(
    src: &mut Counted<S>,
    symbol: &SymbolEntry,
    layout: &Addresses<'_>,
    base: RelocationBase,
) -> Result<Option<u64>, Fault>
    requires within { StringsInBounds src.old.seen.size symbol.now.names }
    ensures { FindsAddress src.old src.new symbol.now result
        (lookup_cost layout.now.lookup (names_for layout.now base)) (names_for layout.now base) }
{
    match layout.names(base) {
        Among::Compared(items) => compared(src, symbol, items),
        Among::Searched(names) => searched(src, symbol, names),
    }
}

/// Returns an offset from an address modulo 2^64; without an address the entry, which is at
/// `entry`, is refused.
fn placed_at(entry: u64, address: Option<u64>, offset: u64) -> Result<u64, Fault>
    ensures { AnswersUnread result (placed_at entry address offset) }
{
    match address {
        Some(address) => Ok(address.wrapping_add(offset)),
        None => refused(entry, Cause::Unplaced),
    }
}

/// Returns the value of an undefined or common symbol without a definition: 0 if it is undefined
/// and weak (gABI 4, Symbol Binding).
fn undefined_value(symbol: &Sym, entry: u64) -> Result<u64, Fault>
    ensures value { (file : List ℕ) (at : ℕ) → IsSym file at symbol.now →
        ValueOrRefusal result (undefined_value file entry at) }
    ensures refusal { IfErr result IsOfCheck }
{
    if symbol.st_shndx == SHN_UNDEF && symbol.binding() == STB_WEAK {
        return Ok(0);
    }
    refused(entry, Cause::Undefined)
}

/// Returns the value of an undefined or common symbol: its definition in the layout, or the value
/// that it has without one.
#[tactic(auto, unfolding(elf_layout::specs::Layouts::names_for))]
fn defined_value<S: Source>(
    src: &mut Counted<S>,
    layout: &Addresses<'_>,
    symbol: &SymbolEntry,
    entry: u64,
) -> Result<u64, Fault>
    requires within { StringsInBounds src.old.seen.size symbol.now.names }
    ensures { GivesValue src.old src.new symbol.now result
        (lookup_cost layout.now.lookup layout.now.definitions)
        (λ file strings. named_or symbol.now.at
        (address_named strings (st_name file symbol.now.at) layout.now.definitions)
        (undefined_value file entry symbol.now.at)) }
{
    match address_named(src, symbol, layout, RelocationBase::Symbol)? {
        Some(address) => Ok(address),
        None => undefined_value(&symbol.fields, entry),
    }
}

/// Returns `true` if a symbol is defined in the file, and the meaning of its value is specific to
/// the operating system or the processor (gABI 4, Symbol Types).
#[tactic(auto, unfolding(elf_model::specs::Placing::is_system_specific))]
fn is_system_specific(symbol: &Sym) -> bool
    ensures { (file : List ℕ) (at : ℕ) → IsSym file at symbol.now →
        result ≡ is_system_specific file at }
{
    let is_defined = matches!(
        symbol.place(),
        SymbolSection::Absolute | SymbolSection::Section(_)
    );
    is_defined && symbol.kind() >= STT_LOOS
}

/// Returns S of such a symbol: for an indirect function the address of its procedure linkage table
/// entry, if the layout has one; otherwise the entry that names it is refused as one of a type that
/// is not applied.
#[tactic(auto, unfolding(elf_model::specs::Placing::system_value, elf_layout::specs::Layouts::names_for))]
fn system_value<S: Source>(
    src: &mut Counted<S>,
    layout: &Addresses<'_>,
    symbol: &SymbolEntry,
    entry: u64,
) -> Result<u64, Fault>
    requires within { StringsInBounds src.old.seen.size symbol.now.names }
    ensures { GivesValue src.old src.new symbol.now result
        (lookup_cost layout.now.lookup layout.now.linkage)
        (λ file strings. system_value file strings layout.now entry symbol.now.at) }
{
    if symbol.fields.kind() == STT_GNU_IFUNC {
        return entry_value(src, layout, symbol, entry, RelocationBase::Linkage);
    }
    refused(entry, Cause::Unsupported)
}

/// Returns S of any other symbol (gABI 4, Symbol Values). Refusals other than those of its name are
/// at the entry that names it.
#[tactic(auto, unfolding(elf_model::specs::Placing::section_symbol_value))]
fn section_symbol_value<S: Source>(
    src: &mut Counted<S>,
    layout: &Addresses<'_>,
    symbol: &SymbolEntry,
    entry: u64,
) -> Result<u64, Fault>
    requires within { StringsInBounds src.old.seen.size symbol.now.names }
    ensures { GivesValue src.old src.new symbol.now result
        (lookup_cost layout.now.lookup layout.now.definitions)
        (λ file strings. section_symbol_value file strings layout.now entry symbol.now.at) }
{
    match symbol.fields.place() {
        SymbolSection::Absolute => Ok(symbol.fields.st_value),
        SymbolSection::Undefined => defined_value(src, layout, symbol, entry),
        SymbolSection::Common => defined_value(src, layout, symbol, entry),
        SymbolSection::Section(section) => placed_at(
            entry,
            layout.section_address(section),
            symbol.fields.st_value,
        ),
        SymbolSection::Reserved(_) => refused(entry, Cause::Unplaced),
    }
}

/// Returns S, the value of a symbol.
#[tactic(auto, unfolding(crate::proofs::Words::value))]
fn symbol_value<S: Source>(
    src: &mut Counted<S>,
    layout: &Addresses<'_>,
    symbol: &SymbolEntry,
    entry: u64,
) -> Result<u64, Fault>
    requires within { StringsInBounds src.old.seen.size symbol.now.names }
    ensures { GivesValue src.old src.new symbol.now result (layout_names_cost layout.now)
        (λ file strings. symbol_value file strings layout.now entry symbol.now.at) }
{
    if is_system_specific(&symbol.fields) {
        return system_value(src, layout, symbol, entry);
    }
    section_symbol_value(src, layout, symbol, entry)
}

/// Returns L, the address of a symbol's procedure linkage table entry, if the layout has one;
/// otherwise S. An indirect function has none then, and is not searched again.
#[tactic(auto, unfolding(crate::proofs::Words::linkage))]
fn plt_entry_value<S: Source>(
    src: &mut Counted<S>,
    layout: &Addresses<'_>,
    symbol: &SymbolEntry,
    entry: u64,
) -> Result<u64, Fault>
    requires within { StringsInBounds src.old.seen.size symbol.now.names }
    ensures { GivesValue src.old src.new symbol.now result (layout_names_cost layout.now)
        (λ file strings. plt_entry_value file strings layout.now entry symbol.now.at) }
{
    match address_named(src, symbol, layout, RelocationBase::Linkage)? {
        Some(address) => Ok(address),
        None if is_system_specific(&symbol.fields) => refused(entry, Cause::Unsupported),
        None => section_symbol_value(src, layout, symbol, entry),
    }
}

/// Returns the address of a symbol's entry among those that are searched for a base; without one
/// the relocation entry at `entry` is refused as one of a type that is not applied.
#[tactic(auto, unfolding(elf_model::specs::Placing::entry_value))]
fn entry_value<S: Source>(
    src: &mut Counted<S>,
    layout: &Addresses<'_>,
    symbol: &SymbolEntry,
    entry: u64,
    base: RelocationBase,
) -> Result<u64, Fault>
    requires within { StringsInBounds src.old.seen.size symbol.now.names }
    ensures { GivesValue src.old src.new symbol.now result
        (lookup_cost layout.now.lookup (names_for layout.now base)) (λ file strings.
        entry_value (names_for layout.now base) file strings entry symbol.now.at) }
{
    match address_named(src, symbol, layout, base)? {
        Some(address) => Ok(address),
        None => refused(entry, Cause::Unsupported),
    }
}

/// Returns B, the address of a symbol that a base uses. Refusals other than those of its name are
/// at the entry that names it.
#[tactic(auto, unfolding(crate::proofs::Words::based))]
pub(crate) fn base_value<S: Source>(
    src: &mut Counted<S>,
    layout: &Addresses<'_>,
    symbol: &SymbolEntry,
    entry: u64,
    base: RelocationBase,
) -> Result<u64, Fault>
    requires within { StringsInBounds src.old.seen.size symbol.now.names }
    ensures { GivesValue src.old src.new symbol.now result (layout_names_cost layout.now)
        (λ file strings. base_value base file strings layout.now entry symbol.now.at) }
{
    match base {
        RelocationBase::Symbol => symbol_value(src, layout, symbol, entry),
        RelocationBase::Linkage => plt_entry_value(src, layout, symbol, entry),
        RelocationBase::Table => entry_value(src, layout, symbol, entry, base),
        RelocationBase::Thread => entry_value(src, layout, symbol, entry, base),
    }
}
