//! The values of symbols in an image.
ghost use Rattle.std.specs.Prelude.{◌≡◌, ℕ, List, IfErr};
ghost use Rattle.elf_model.specs.ImageItems.{ThreadValue, bound_value, called_value, item_of};
ghost use Rattle.elf_model.specs.ImageItems.{lacks_item, may_be_unbound, or_unplaced};
ghost use Rattle.elf_model.specs.ImageItems.{own_thread_symbol, own_thread_value, own_value};
ghost use Rattle.elf_model.specs.ImageItems.{thread_value};
ghost use Rattle.elf_record.specs.Sym.{IsSym};
ghost use Rattle.elf_image.specs.Items.{item_kind_number, of_kind};
ghost use Rattle.elf_image.specs.Values.{IsBased, IsSymbolOf, IsValueCause, ThreadKind, known_items};

use crate::changes::ImageFile;
use crate::image_items::ItemKind;
use crate::symbols::is_looked_up;
use elf_record::numbers::{SHN_ABS, SHN_LORESERVE, SHN_UNDEF, STB_WEAK, STT_LOOS};
use elf_record::{Cause, Sym};

/// Returns S, the value of the symbol of an index.
///
/// # Errors
/// Returns `Undefined` if the symbol has no definition, `Unplaced` if its value is not known.
#[tactic(auto, unfolding(elf_model::specs::ImageItems::bound_value, crate::specs::Items::said_by))]
pub(crate) fn bound_value(image: &ImageFile<'_, '_>, index: u32, symbol: &Sym) -> Result<u64, Cause>
    ensures value { (file : List ℕ) (at : ℕ) → IsSym file at symbol.now → IsBased image.now →
        result ≡ bound_value file (known_items image.now) index at }
    ensures known { IfErr result IsValueCause }
{
    match item_of(image, ItemKind::Symbol, index, symbol) {
        Some(value) => Ok(value),
        None => own_value(image, symbol),
    }
}

/// Returns S of the symbol of an index as it is called.
///
/// # Errors
/// Those of [`bound_value`].
#[tactic(auto, unfolding(elf_model::specs::ImageItems::called_value, crate::specs::Items::said_by))]
pub(crate) fn called_value(
    image: &ImageFile<'_, '_>,
    index: u32,
    symbol: &Sym,
) -> Result<u64, Cause>
    ensures value { (file : List ℕ) (at : ℕ) → IsSym file at symbol.now → IsBased image.now →
        result ≡ called_value file (known_items image.now) index at }
    ensures known { IfErr result IsValueCause }
{
    match item_of(image, ItemKind::Call, index, symbol) {
        Some(value) => Ok(value),
        None => bound_value(image, index, symbol),
    }
}

/// Returns the item of a kind of the symbol of an index, if it is looked up.
fn item_of(image: &ImageFile<'_, '_>, kind: ItemKind, index: u32, symbol: &Sym) -> Option<u64>
    ensures { (file : List ℕ) (at : ℕ) → IsSym file at symbol.now →
        result
        ≡ item_of (of_kind (item_kind_number kind) image.now.items.now.numbers.now) file index at }
{
    if !is_looked_up(symbol) {
        return None;
    }
    image.items.number(kind, u64::from(index))
}

/// Returns `true` if the items do not say where a symbol is bound.
#[tactic(auto, unfolding(crate::specs::Items::said_by))]
fn lacks_item(image: &ImageFile<'_, '_>, symbol: &Sym) -> bool
    ensures { (file : List ℕ) (at : ℕ) → IsSym file at symbol.now →
        result ≡ lacks_item file (known_items image.now) at }
{
    image.leaves && is_looked_up(symbol)
}

/// Returns `true` if a symbol may be bound to nothing.
fn may_be_unbound(symbol: &Sym) -> bool
    ensures { (file : List ℕ) (at : ℕ) → IsSym file at symbol.now →
        result ≡ may_be_unbound file at }
{
    is_looked_up(symbol) && symbol.binding() == STB_WEAK
}

/// Returns S of a symbol without an item.
#[tactic(auto, unfolding(elf_model::specs::ImageItems::own_value, crate::specs::Items::said_by))]
fn own_value(image: &ImageFile<'_, '_>, symbol: &Sym) -> Result<u64, Cause>
    ensures value { (file : List ℕ) (at : ℕ) → IsSym file at symbol.now → IsBased image.now →
        result ≡ own_value file (known_items image.now) at }
    ensures known { IfErr result IsValueCause }
{
    if lacks_item(image, symbol) {
        return Err(Cause::Undefined);
    }
    if symbol.st_shndx == SHN_UNDEF {
        if may_be_unbound(symbol) {
            return Ok(0);
        }
        return Err(Cause::Undefined);
    }
    if symbol.st_shndx == SHN_ABS {
        return Ok(symbol.st_value);
    }
    if symbol.st_shndx >= SHN_LORESERVE || symbol.kind() >= STT_LOOS {
        return Err(Cause::Unplaced);
    }
    Ok(image.base.wrapping_add(symbol.st_value))
}

/// Returns the value of the thread-local symbol of an index, by the kind of its item, or `None` if
/// it is bound to nothing. That of index 0 is the value of the file's own thread-local block.
///
/// # Errors
/// Returns `Undefined` if the symbol has no definition, `Unplaced` if its value is not known.
#[tactic(auto, unfolding(elf_model::specs::ImageItems::thread_value, crate::specs::Items::said_by))]
pub(crate) fn thread_value(
    image: &ImageFile<'_, '_>,
    kind: ItemKind,
    index: u32,
    symbol: &Sym,
) -> Result<Option<u64>, Cause>
    ensures value { (said : ThreadValue) → ThreadKind kind said → (file : List ℕ) (at : ℕ) →
        IsSymbolOf file at index symbol.now →
        result ≡ thread_value said file (known_items image.now) index at }
    ensures known { IfErr result IsValueCause }
{
    if index == 0 {
        return own_thread_value(image, kind, 0);
    }
    match item_of(image, kind, index, symbol) {
        Some(value) => Ok(Some(value)),
        None => own_thread_symbol(image, kind, symbol),
    }
}

/// Returns the value of a thread-local symbol without an item.
#[tactic(auto, unfolding(elf_model::specs::ImageItems::own_thread_symbol, crate::specs::Items::said_by))]
fn own_thread_symbol(
    image: &ImageFile<'_, '_>,
    kind: ItemKind,
    symbol: &Sym,
) -> Result<Option<u64>, Cause>
    ensures value { (said : ThreadValue) → ThreadKind kind said → (file : List ℕ) (at : ℕ) →
        IsSym file at symbol.now →
        result ≡ own_thread_symbol said file (known_items image.now) at }
    ensures known { IfErr result IsValueCause }
{
    if lacks_item(image, symbol) {
        return Err(Cause::Undefined);
    }
    if symbol.st_shndx != SHN_UNDEF {
        return own_thread_value(image, kind, symbol.st_value);
    }
    if may_be_unbound(symbol) {
        return Ok(None);
    }
    Err(Cause::Undefined)
}

/// Returns the value of a thread-local symbol of the file itself, whose `st_value` is `value`.
#[tactic(auto, unfolding(elf_model::specs::ImageItems::own_thread_value, crate::specs::Items::said_by))]
fn own_thread_value(
    image: &ImageFile<'_, '_>,
    kind: ItemKind,
    value: u64,
) -> Result<Option<u64>, Cause>
    ensures value { (said : ThreadValue) → ThreadKind kind said →
        result ≡ or_unplaced (own_thread_value said (known_items image.now) value) }
    ensures known { IfErr result IsValueCause }
{
    if kind == ItemKind::Value {
        return Ok(Some(value));
    }
    let Some(own) = image.items.number(kind, 0) else {
        return Err(Cause::Unplaced);
    };
    if kind == ItemKind::Thread {
        return Ok(Some(own.wrapping_add(value)));
    }
    Ok(Some(own))
}
