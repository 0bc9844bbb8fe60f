//! What a relocation entry stores.
ghost use Rattle.std.specs.Prelude.{◌≡◌, ◌+◌, ℕ, List, Some, IfOk, IfSome, nat_lt};
ghost use Rattle.elf_model.specs.Prelude.{change_of, entry_changes, kind_of, r_offset, r_sym, unnamed_value, where_based};
ghost use Rattle.elf_model.specs.declared.causes.Cause.TheVariants.{Unplaced};
ghost use Rattle.elf_reloc.specs.Types.{IsSized, IsWidth};
ghost use Rattle.elf_record.specs.Rela.{IsRela};
ghost use Rattle.elf_table.specs.Prelude.{CallDid, RefersTo, SymbolTableInBounds, fault_of_result};
ghost use Rattle.elf_reloc.specs.Costs.{AnswersUnread, ValueOrRefusal};
ghost use Rattle.elf_reloc.specs.Entries.{Changes, DidFor, Does, IsPlacedInside};
ghost use Rattle.elf_reloc.specs.Entries.{beside_entry_cost, taken_place, target_as, term_of};
ghost use Rattle.elf_reloc.specs.Entries.{value_or};

use crate::lookup::base_value;
use crate::patch::Patch;
use crate::relocation_types::{relocation_type, takes_place};
use crate::values::patch_of;
use elf_layout::Addresses;
use elf_model::{Formula, RelocationBase, RelocationType};
use elf_record::numbers::R_X86_64_NONE;
use elf_record::{Cause, Rela};
use elf_source::{Counted, Source};
use elf_table::{Fault, LinkedSymbol, LinkedSymbolTable, SectionView, refused};

/// The address of a symbol that an entry uses, by its type's base.
#[derive(Clone, Copy)]
pub(crate) struct CachedAddress {
    pub(crate) symbol: u32,
    pub(crate) base: RelocationBase,
    pub(crate) value: u64,
}

/// The symbols that the entries of a section refer to, and the address that the last of them used.
/// An entry that uses the same reads nothing for it.
#[derive(Clone, Copy)]
pub(crate) struct RelocationSymbols {
    pub(crate) linked: LinkedSymbolTable,
    pub(crate) last: Option<CachedAddress>,
}

/// The target of relocations: a section of a loaded file, of which it holds `size` bytes, with the
/// addresses that are given.
#[derive(Clone, Copy)]
pub(crate) struct ApplyTarget<'a> {
    pub(crate) file: SectionView<'a>,
    pub(crate) layout: &'a Addresses<'a>,
    pub(crate) section: u16,
    pub(crate) size: u64,
}

/// The bytes that an entry, which is at the file offset `at`, stores at an offset of the section.
#[derive(Clone, Copy)]
pub(crate) struct PlacedPatch {
    pub(crate) at: u64,
    pub(crate) offset: u64,
    pub(crate) patch: Patch,
}

/// Returns what an entry stores, or nothing: R_X86_64_NONE stores nothing, and nothing of it is
/// checked (x86-64 psABI, Relocation). The entry is at the file offset `at`.
#[tactic(auto, unfolding(crate::proofs::Words::entry))]
pub(crate) fn entry_change<S: Source>(
    src: &mut Counted<S>,
    target: &ApplyTarget<'_>,
    entry: &Rela,
    at: u64,
    symbols: &mut RelocationSymbols,
) -> Result<Option<PlacedPatch>, Fault>
    requires within { IfSome symbols.old.linked (SymbolTableInBounds src.old.seen.size) }
    ensures inside { IfOk result (λ found. IfSome found (IsPlacedInside target.now.size)) }
    ensures did { DidFor src.old src.new target.now symbols.old symbols.new (fault_of_result result)
        (λ file. IsRela file at entry.now)
        (λ file header. Changes result (entry_changes (target_as file target.now) header at)) }
{
    let kind = entry.kind();
    if kind == R_X86_64_NONE {
        return Ok(None);
    }
    let Some(found) = based_type(target.layout, kind) else {
        return refused(at, Cause::Unsupported);
    };
    let placed = stored(src, target, entry, at, symbols, found)?;
    Ok(Some(placed))
}

/// Returns the relocation type of a number, if the layout has addresses that its base may use.
#[tactic(auto, unfolding(elf_model::specs::Apply::where_based))]
fn based_type(layout: &Addresses<'_>, kind: u32) -> Option<RelocationType>
    ensures value { result ≡ where_based layout.now (kind_of kind) }
    ensures width { IfSome result (λ found. IsWidth found.width) }
    ensures sized { IfSome result (λ found. IsSized found.range found.width) }
{
    let found = relocation_type(kind)?;
    if !layout.has_base(found.base) {
        return None;
    }
    Some(found)
}

/// Returns what an entry of a type stores.
#[tactic(auto, unfolding(crate::proofs::Words::typed))]
fn stored<S: Source>(
    src: &mut Counted<S>,
    target: &ApplyTarget<'_>,
    entry: &Rela,
    at: u64,
    symbols: &mut RelocationSymbols,
    found: RelocationType,
) -> Result<PlacedPatch, Fault>
    requires within { IfSome symbols.old.linked (SymbolTableInBounds src.old.seen.size) }
    requires width { IsWidth found.width }
    requires sized { IsSized found.range found.width }
    ensures inside { IfOk result (IsPlacedInside target.now.size) }
    ensures did { DidFor src.old src.new target.now symbols.old symbols.new (fault_of_result result)
        (λ file. IsRela file at entry.now) (λ file header.
        Does result (change_of (target_as file target.now) header at (Some found))) }
{
    let offset = entry.r_offset;
    if ends_past(offset, found.width, target.size) {
        return refused(at, Cause::PlaceOutside);
    }
    let value = taken_value(src, target, entry.symbol(), at, symbols, found.base)?;
    let Some(place) = place_value(target, offset, found.formula) else {
        return refused(at, Cause::Unplaced);
    };
    match patch_of(found, value, entry.r_addend, place) {
        Ok(patch) => Ok(PlacedPatch { at, offset, patch }),
        Err(_) => refused(at, Cause::Overflow),
    }
}

/// Returns `true` if `width` bytes at an offset end past a size.
fn ends_past(offset: u64, width: u32, size: u64) -> bool
    ensures { result ≡ nat_lt size (offset + width) }
{
    u128::from(offset) + u128::from(width) > u128::from(size)
}

/// Returns B of the symbol of an index, which the entry at `at` names: the address that the last
/// entry used if that is the same.
fn taken_value<S: Source>(
    src: &mut Counted<S>,
    target: &ApplyTarget<'_>,
    symbol: u32,
    at: u64,
    symbols: &mut RelocationSymbols,
    base: RelocationBase,
) -> Result<u64, Fault>
    requires within { IfSome symbols.old.linked (SymbolTableInBounds src.old.seen.size) }
    ensures { DidFor src.old src.new target.now symbols.old symbols.new (fault_of_result result)
        (λ file. symbol ≡ r_sym file at) (λ file header.
        ValueOrRefusal result (term_of base (target_as file target.now) header at)) }
{
    if let Some(last) = symbols.last {
        if last.symbol == symbol && last.base == base {
            return Ok(last.value);
        }
    }
    let value = named_value(src, target, symbol, at, symbols.linked, base)?;
    symbols.last = Some(CachedAddress {
        symbol,
        base,
        value,
    });
    Ok(value)
}

/// Returns B of symbol 0, which the entry at `at` names: S and L are 0, and it has no other entry.
#[tactic(auto, unfolding(elf_model::specs::Placing::unnamed_value))]
fn unnamed_value(base: RelocationBase, at: u64) -> Result<u64, Fault>
    ensures { AnswersUnread result (unnamed_value base at) }
{
    match base {
        RelocationBase::Symbol | RelocationBase::Linkage => Ok(0),
        RelocationBase::Table | RelocationBase::Thread => refused(at, Cause::Unsupported),
    }
}

/// Returns B of the symbol of an index, which the entry at `at` names; for symbol 0 nothing is
/// read.
#[tactic(auto, unfolding(crate::proofs::Words::term))]
pub(crate) fn named_value<S: Source>(
    src: &mut Counted<S>,
    target: &ApplyTarget<'_>,
    symbol: u32,
    at: u64,
    linked: LinkedSymbolTable,
    base: RelocationBase,
) -> Result<u64, Fault>
    requires within { IfSome linked (SymbolTableInBounds src.old.seen.size) }
    ensures unnamed { symbol ≡ 0 → src.new ≡ src.old }
    ensures did { CallDid src.old src.new (fault_of_result result) (beside_entry_cost target.now)
        (λ file. (header : ℕ) → RefersTo file header linked → symbol ≡ r_sym file at →
        ValueOrRefusal result (term_of base (target_as file target.now) header at)) }
{
    let Some(found) = LinkedSymbol::find(linked, symbol, at)? else {
        return unnamed_value(base, at);
    };
    let named = found.read(src)?;
    base_value(src, target.layout, &named, at, base)
}

/// Returns P, the section's address and an offset modulo 2^64, if the section has an address; 0 if
/// the formula does not use it.
#[tactic(auto, unfolding(crate::proofs::Words::place))]
pub(crate) fn place_value(target: &ApplyTarget<'_>, offset: u64, formula: Formula) -> Option<u64>
    ensures { (file : List ℕ) (at : ℕ) → offset ≡ r_offset file at →
        taken_place formula (target_as file target.now) at ≡ value_or result at Unplaced }
{
    if !takes_place(formula) {
        return Some(0);
    }
    match target.layout.section_address(target.section) {
        Some(address) => Some(address.wrapping_add(offset)),
        None => None,
    }
}
