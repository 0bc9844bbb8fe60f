//! The value that does not fit, if a section was refused for it.
ghost use Rattle.std.specs.Prelude.{◌≡◌, ◌+◌, ◌≤◌, ℕ, List, None, IfSome};
ghost use Rattle.elf_model.specs.Prelude.{base_there, entry_symbol_name, first_refusal, overflow_in, overflowed, pad64, place_there, r_sym, symbol_checks, value_by, value_outside, value_unfit};
ghost use Rattle.elf_record.specs.Rela.{IsRela};
ghost use Rattle.elf_table.specs.Prelude.{CallDid, HoldsSectionHeaders, RefersTo, SymbolTableInBounds, fault_of_result};
ghost use Rattle.elf_reloc.specs.Entries.{beside_entry_cost, target_as};
ghost use Rattle.elf_reloc.specs.Explained.{EntryWithin, ReturnsSymbolName};
ghost use Rattle.elf_reloc.specs.Overflowed.{ExplainsOverflow, FindsValue, IsByCheck, OverflowLoaded};
ghost use Rattle.elf_reloc.specs.Overflowed.{overflow_bytes, overflow_entry_bytes};
ghost use Rattle.elf_reloc.specs.Types.{IsSized, terms};

use crate::entries::entries_at;
use crate::entry::{ApplyTarget, named_value, place_value};
use crate::missing_item::{read_entry, read_symbol};
use crate::relocation_types::{calculated, fits, relocation_type};
use crate::symbol_name::read_name;
use elf_layout::Addresses;
use elf_model::{OverflowedValue, RelocationType};
use elf_record::{Cause, Rela};
use elf_source::{Counted, Source};
use elf_table::{
    Fault, HeaderStore, LinkedSymbol, LinkedSymbolTable, Loaded, NameBuf, NameEnd, SectionView,
    header, load,
};

/// The relocation entry at a file offset for which the section of an index was refused.
#[derive(Clone, Copy)]
struct RefusedEntry {
    section: u16,
    at: u64,
}

/// Returns the value that does not fit if the section of an index of a relocatable file was refused
/// with `Overflow` at the file offset `at`, in a layout: that of the relocation entry there, in the
/// first section of entries for the section whose checks pass and that has one there (gABI 4,
/// Relocation). The name of the entry's symbol is read into `name`, its first 255 bytes; it is
/// empty if `st_name` is 0.
///
/// The result is `None` if there is no such entry, if its value is not there or fits, or if the
/// symbol's name has a fault.
///
/// The section headers are loaded into the store. At most the file header, as many section headers
/// as the store has slots, the entry, its symbol twice, the layout's names and the symbol's name
/// are read. After `None` or a fault the contents of `name` are unspecified.
///
/// # Errors
/// Returns the first of the checks of [`header`] and of [`load`] that fails. Returns a fault of the
/// source, or `Budget` if a read exceeds the limit, at the offset of the read.
pub fn explain_overflow<S: Source>(
    src: &mut Counted<S>,
    store: &mut HeaderStore,
    section: u16,
    layout: &Addresses<'_>,
    at: u64,
    name: &mut NameBuf,
) -> Result<Option<(OverflowedValue, NameEnd)>, Fault>
    ensures slots { store.new.slots ≡ store.old.slots }
    ensures did { CallDid src.old src.new (fault_of_result result)
        (overflow_bytes store.old.slots layout.now)
        (λ file. ExplainsOverflow file store.old.slots (overflowed file section layout.now at)
        result name.new) }
{
    let header = header(src)?;
    let loaded = load(src, store, &header)?;
    let refused = RefusedEntry { section, at };
    overflow_loaded(src, store, loaded, refused, layout, name)
}

/// Returns the value that does not fit in a section of a loaded file.
///
/// # Errors
/// Returns a fault of a read, or the refusal `Budget`, at the offset of the read.
fn overflow_loaded<S: Source>(
    src: &mut Counted<S>,
    store: &HeaderStore,
    loaded: Loaded,
    refused: RefusedEntry,
    layout: &Addresses<'_>,
    name: &mut NameBuf,
) -> Result<Option<(OverflowedValue, NameEnd)>, Fault>
    requires size { loaded.size ≡ src.old.seen.size }
    requires whole { store.now.loaded ≡ loaded.header.e_shnum }
    ensures { CallDid src.old src.new (fault_of_result result) (overflow_entry_bytes layout.now)
        (λ bytes. HoldsSectionHeaders bytes loaded store.now →
        OverflowLoaded (overflowed bytes refused.section layout.now refused.at) result name.new) }
{
    let file = SectionView { loaded, store };
    let Some(linked) = entries_at(&file, refused.section, refused.at) else {
        return Ok(None);
    };
    let target = ApplyTarget {
        file,
        layout,
        section: refused.section,
        size: 0,
    };
    overflow_at(src, &target, &linked, refused.at, name)
}

/// Returns the value of the entry at a file offset, which refers to these symbols, if it does not
/// fit.
///
/// # Errors
/// Those of [`overflow_loaded`].
fn overflow_at<S: Source>(
    src: &mut Counted<S>,
    target: &ApplyTarget<'_>,
    linked: &LinkedSymbolTable,
    at: u64,
    name: &mut NameBuf,
) -> Result<Option<(OverflowedValue, NameEnd)>, Fault>
    requires { EntryWithin src.old.seen.size at linked.now }
    ensures { CallDid src.old src.new (fault_of_result result)
        (overflow_entry_bytes target.now.layout.now)
        (λ file. (header : ℕ) → RefersTo file header linked.now →
        OverflowLoaded (overflow_in (target_as file target.now) header at) result name.new) }
{
    let entry = read_entry(src, at)?;
    let Some(value) = unfit_value(src, target, &entry, at, linked)? else {
        return Ok(None);
    };
    let symbol = entry.symbol();
    let Some(end) = entry_name(src, linked, symbol, at, name)? else {
        return Ok(None);
    };
    let kind = entry.kind();
    let overflowed = OverflowedValue {
        kind,
        symbol,
        section: target.section,
        offset: entry.r_offset,
        value,
    };
    Ok(Some((overflowed, end)))
}

/// Returns the value of an entry, which is at a file offset, if its type stores one and it does not
/// fit.
///
/// # Errors
/// Those of [`overflow_loaded`].
fn unfit_value<S: Source>(
    src: &mut Counted<S>,
    target: &ApplyTarget<'_>,
    entry: &Rela,
    at: u64,
    linked: &LinkedSymbolTable,
) -> Result<Option<u64>, Fault>
    requires { IfSome linked.now (SymbolTableInBounds src.old.seen.size) }
    ensures { CallDid src.old src.new (fault_of_result result) (beside_entry_cost target.now)
        (λ file. (header : ℕ) → RefersTo file header linked.now → IsRela file at entry.now →
        FindsValue (value_unfit (target_as file target.now) header at) result) }
{
    match relocation_type(entry.kind()) {
        Some(found) => value_of_type(src, target, entry, at, linked, found),
        None => Ok(None),
    }
}

/// Returns the value of an entry of a type, if B and P are there and it does not fit.
///
/// # Errors
/// Those of [`overflow_loaded`].
fn value_of_type<S: Source>(
    src: &mut Counted<S>,
    target: &ApplyTarget<'_>,
    entry: &Rela,
    at: u64,
    linked: &LinkedSymbolTable,
    found: RelocationType,
) -> Result<Option<u64>, Fault>
    requires within { IfSome linked.now (SymbolTableInBounds src.old.seen.size) }
    requires sized { IsSized found.range found.width }
    ensures { CallDid src.old src.new (fault_of_result result) (beside_entry_cost target.now)
        (λ file. (header : ℕ) → RefersTo file header linked.now → IsRela file at entry.now →
        FindsValue (value_by file at found (base_there (target_as file target.now) header at found)
        (place_there (target_as file target.now) at found.formula)) result) }
{
    let base = match named_value(src, target, entry.symbol(), at, *linked, found.base) {
        Ok(base) => base,
        Err(fault) if is_by_check(fault) => return Ok(None),
        Err(fault) => return Err(fault),
    };
    let Some(place) = place_value(target, entry.r_offset, found.formula) else {
        return Ok(None);
    };
    Ok(value_outside(found, base, entry.r_addend, place))
}

/// Returns `true` if a fault is the refusal of a check, `false` if it is one of a read.
fn is_by_check(fault: Fault) -> bool
    ensures { IsByCheck fault result }
{
    match fault {
        Fault::Refused(refusal) => refusal.cause != Cause::Budget,
        Fault::Source { .. } => false,
    }
}

/// Returns the value of a type modulo 2^64, by B, A and P, if it is outside the type's range.
fn value_outside(found: RelocationType, b: u64, a: i64, p: u64) -> Option<u64>
    requires { IsSized found.range found.width }
    ensures { result ≡ value_outside found (terms b a p) }
{
    let number = calculated(found.formula, b, a, p);
    if fits(found.range, found.width, number) {
        return None;
    }
    Some(number)
}

/// Reads the name of the symbol of an index, which the entry at a file offset names, as
/// [`read_name`] does.
///
/// # Errors
/// Those of [`overflow_loaded`].
fn entry_name<S: Source>(
    src: &mut Counted<S>,
    linked: &LinkedSymbolTable,
    symbol: u32,
    at: u64,
    name: &mut NameBuf,
) -> Result<Option<NameEnd>, Fault>
    requires { IfSome linked.now (SymbolTableInBounds src.old.seen.size) }
    ensures { CallDid src.old src.new (fault_of_result result) (24 + pad64 256)
        (λ file. (header : ℕ) → RefersTo file header linked.now → symbol ≡ r_sym file at →
        first_refusal (symbol_checks file header at) ≡ None →
        ReturnsSymbolName (entry_symbol_name file header at) result name.new) }
{
    let Ok(found) = LinkedSymbol::find(*linked, symbol, at) else {
        return Ok(None);
    };
    let named = read_symbol(src, found)?;
    read_name(src, &named, name)
}
