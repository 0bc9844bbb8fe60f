//! What a layout is missing for an entry.
ghost use Rattle.std.specs.Prelude.{◌≡◌, ◌+◌, ◌≤◌, ℕ, List, Ok, IfOk, IfSome};
ghost use Rattle.elf_model.specs.Prelude.{missing, missing_for_type, missing_ifunc_entry, missing_place, name_wanted, r_sym, wanted};
ghost use Rattle.elf_table.specs.Prelude.{CallDid, LinkedSymbolInBounds, RefersTo, RefersToSymbol, StringsInBounds, fault_of_result};
ghost use Rattle.elf_reloc.specs.Explained.{EntryRead, EntryWithin, LackOf, LacksRead};
ghost use Rattle.elf_reloc.specs.Explained.{EntrySymbolRead};

use crate::relocation_types::{relocation_type, takes_place};
use elf_layout::Addresses;
use elf_model::{Formula, LayoutAddress, MissingAddress, RelocationBase, RelocationType};
use elf_record::gnu_numbers::STT_GNU_IFUNC;
use elf_record::numbers::{SHN_LORESERVE, SHN_UNDEF};
use elf_record::{Cause, Refusal, Rela};
use elf_source::{Counted, Source};
use elf_table::{Fault, LinkedSymbol, LinkedSymbolTable, Names, fill};

/// The symbol that an entry names: the index of its name, its section index and its type, which
/// symbol 0 does not have, the string table of its name, and its file offset.
#[derive(Clone, Copy)]
pub(crate) struct RelocationSymbol {
    pub(crate) name: u32,
    pub(crate) symbol: Option<(u16, u8)>,
    pub(crate) names: Names,
    pub(crate) at: u64,
}

/// What is missing for an entry, and its symbol.
#[derive(Clone, Copy)]
pub(crate) struct MissingItem {
    pub(crate) missing: MissingAddress,
    pub(crate) named: RelocationSymbol,
}

/// Returns what is missing for the entry at a refusal's offset, which refers to these symbols, for
/// a section: by the entry and its symbol, 24 bytes each.
///
/// # Errors
/// Returns a fault of a read, or the refusal `Budget`, at the offset of the read.
pub(crate) fn lacking_at<S: Source>(
    src: &mut Counted<S>,
    layout: &Addresses<'_>,
    section: u16,
    refusal: Refusal,
    linked: LinkedSymbolTable,
) -> Result<Option<MissingItem>, Fault>
    requires { EntryWithin src.old.seen.size refusal.at linked }
    ensures did { CallDid src.old src.new (fault_of_result result) 48
        (λ file. (header : ℕ) → RefersTo file header linked →
        LacksRead file header (missing file header layout.now section refusal) result) }
    ensures within { IfOk result (λ found.
        IfSome found (λ lacking. StringsInBounds src.old.seen.size lacking.named.names)) }
{
    let entry = read_entry(src, refusal.at)?;
    let kind = entry.kind();
    let Some(found) = relocation_type(kind) else {
        return Ok(None);
    };
    let Ok(symbol) = LinkedSymbol::find(linked, entry.symbol(), refusal.at) else {
        return Ok(None);
    };
    let named = read_symbol(src, symbol)?;
    let wanted = wanted(refusal.cause, found, layout, section, named.symbol);
    Ok(lacking_of(kind, &named, wanted))
}

/// Reads the relocation entry at the file offset `at` (gABI 4, Relocation): one read of 24 bytes.
///
/// # Errors
/// Returns a fault of the read, or the refusal `Budget`, at that offset.
pub(crate) fn read_entry<S: Source>(src: &mut Counted<S>, at: u64) -> Result<Rela, Fault>
    requires { at + 24 ≤ src.old.seen.size }
    ensures { CallDid src.old src.new (fault_of_result result) 24
        (λ file. EntryRead file at result) }
{
    let mut bytes = [0; 24];
    fill(src, at, &mut bytes)?;
    Ok(Rela::decode(&bytes))
}

/// Returns the symbol that an entry names; of symbol 0 nothing is read.
///
/// # Errors
/// Returns a fault of the read, or the refusal `Budget`, at the symbol's offset.
pub(crate) fn read_symbol<S: Source>(
    src: &mut Counted<S>,
    symbol: Option<LinkedSymbol>,
) -> Result<RelocationSymbol, Fault>
    requires { IfSome symbol (LinkedSymbolInBounds src.old.seen.size) }
    ensures did { CallDid src.old src.new (fault_of_result result) 24
        (λ file. (header rela : ℕ) → RefersToSymbol file header rela (r_sym file rela) (Ok symbol) →
        EntrySymbolRead file header rela result) }
    ensures within { IfOk result (λ named. StringsInBounds src.old.seen.size named.names) }
{
    let Some(found) = symbol else {
        return Ok(RelocationSymbol {
            name: 0,
            symbol: None,
            names: Names::new(0, 0),
            at: 0,
        });
    };
    let entry = found.read(src)?;
    Ok(RelocationSymbol {
        name: entry.fields.st_name,
        symbol: Some((entry.fields.st_shndx, entry.fields.kind())),
        names: entry.names,
        at: entry.at,
    })
}

/// Returns what is missing for an entry of the type of a number, which names this symbol, if an
/// address is needed.
#[tactic(auto, unfolding(elf_model::specs::Explain::missing_of))]
fn lacking_of(
    kind: u32,
    named: &RelocationSymbol,
    wanted: Option<LayoutAddress>,
) -> Option<MissingItem>
    ensures { LackOf kind named.now wanted result }
{
    let wanted = wanted?;
    Some(MissingItem {
        missing: MissingAddress {
            kind,
            name: named.name,
            wanted,
        },
        named: *named,
    })
}

/// Returns the address that is needed if an entry of a type was refused for a cause, by the section
/// index of its symbol and the symbol's type. For `Unplaced`: that of the section that is relocated
/// if the formula uses P and it has none, otherwise that of the symbol's section. For `Undefined`:
/// the one that the type's base uses of the name; for `Unsupported`: the entry.
#[tactic(auto, unfolding(elf_model::specs::Explain::wanted))]
fn wanted(
    cause: Cause,
    found: RelocationType,
    layout: &Addresses<'_>,
    section: u16,
    symbol: Option<(u16, u8)>,
) -> Option<LayoutAddress>
    ensures { result ≡ wanted cause found layout.now section symbol }
{
    match cause {
        Cause::Unplaced => missing_place(found.formula, layout, section, symbol),
        Cause::Undefined => name_wanted(found.base, symbol),
        Cause::Unsupported => missing_for_type(found.base, symbol),
        _ => None,
    }
}

/// Returns the section without an address: that which is relocated if the formula uses P, otherwise
/// the symbol's, if its index is one of a section.
#[tactic(auto, unfolding(elf_model::specs::Explain::missing_place, elf_model::specs::Explain::symbol_place))]
fn missing_place(
    formula: Formula,
    layout: &Addresses<'_>,
    section: u16,
    symbol: Option<(u16, u8)>,
) -> Option<LayoutAddress>
    ensures { result ≡ missing_place formula layout.now section symbol }
{
    if takes_place(formula) && layout.section_address(section).is_none() {
        return Some(LayoutAddress::Place(section));
    }
    let (index, _) = symbol?;
    if index != SHN_UNDEF && index < SHN_LORESERVE && layout.section_address(index).is_none() {
        return Some(LayoutAddress::Place(index));
    }
    None
}

/// Returns the address of a symbol's name that a base uses; nothing if the entry names symbol 0.
#[tactic(auto, unfolding(elf_model::specs::Explain::name_wanted))]
fn name_wanted(base: RelocationBase, symbol: Option<(u16, u8)>) -> Option<LayoutAddress>
    ensures { result ≡ name_wanted base symbol }
{
    match symbol {
        Some(_) => Some(LayoutAddress::Named(base)),
        None => None,
    }
}

/// Returns the entry that a symbol needs if the relocation entry is not applied without: that which
/// the base uses, if S has none; nothing if the entry names symbol 0.
#[tactic(auto, unfolding(elf_model::specs::Explain::missing_for_type))]
fn missing_for_type(base: RelocationBase, symbol: Option<(u16, u8)>) -> Option<LayoutAddress>
    ensures { result ≡ missing_for_type base symbol }
{
    let (_, kind) = symbol?;
    match base {
        RelocationBase::Symbol => missing_ifunc_entry(kind),
        RelocationBase::Linkage => Some(LayoutAddress::Entry),
        RelocationBase::Table | RelocationBase::Thread => Some(LayoutAddress::Named(base)),
    }
}

/// Returns the address that S of a type specific to the system needs: for an indirect function its
/// procedure linkage table entry; nothing helps with another.
#[tactic(auto, unfolding(elf_model::specs::Explain::missing_ifunc_entry))]
fn missing_ifunc_entry(kind: u8) -> Option<LayoutAddress>
    ensures { result ≡ missing_ifunc_entry kind }
{
    if kind == STT_GNU_IFUNC {
        return Some(LayoutAddress::Entry);
    }
    None
}
