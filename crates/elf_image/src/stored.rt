//! The bytes that a relocation entry stores.
ghost use Rattle.std.specs.Prelude.{◌≡◌, ◌<◌, ◌/◌, ◌^◌, ℕ, List, IfErr, IfOk};
ghost use Rattle.elf_model.specs.Bytes.{little};
ghost use Rattle.elf_model.specs.ImageItems.{bytes_for, is_looked_up};
ghost use Rattle.elf_model.specs.declared.dynamic_types.DynamicType.TheVariants.{Relative};
ghost use Rattle.elf_model.specs.ImageValues.{copied_bytes, descriptor_bytes, low_four_bytes, placed_value};
ghost use Rattle.elf_model.specs.ImageValues.{stored_bytes, word_if_bound, word_of};
ghost use Rattle.elf_model.specs.Placing.{address_in};
ghost use Rattle.elf_model.specs.Records.{r_addend, st_size, twos_complement};
ghost use Rattle.elf_record.specs.Rela.{IsRela};
ghost use Rattle.elf_record.specs.Sym.{IsSym};
ghost use Rattle.elf_image.specs.Values.{IsBased, IsGiven, IsUsed, IsValueCause, bytes_or_cause, known_items, stored_as};

use crate::changes::{ImageFile, RelocatedBytes};
use crate::image_items::ItemKind;
use crate::symbols::is_looked_up;
use crate::values::{bound_value, called_value, thread_value};
use elf_model::DynamicType;
use elf_record::numbers::{R_X86_64_32, R_X86_64_PC32};
use elf_record::{Cause, Rela, Sym};
use elf_reloc::{Patch, ValueFault, value};

/// Returns the bytes that an entry of a type stores.
///
/// # Errors
/// Returns `Undefined` or `Unplaced` if an item is missing, `Overflow` if a value does not fit.
#[tactic(auto, unfolding(elf_model::specs::ImageValues::stored_bytes, crate::specs::Items::said_by))]
pub(crate) fn stored_bytes<'a>(
    image: &ImageFile<'_, 'a>,
    found: DynamicType,
    entry: &Rela,
    symbol: &Sym,
) -> Result<RelocatedBytes<'a>, Cause>
    ensures value { (file : List ℕ) (rela at : ℕ) → IsRela file rela entry.now →
        r_addend file rela < 2 ^ 64 →
        IsUsed found file at (entry.now.r_info / 2 ^ 32) symbol.now → IsBased image.now →
        bytes_or_cause result ≡ stored_bytes found file (known_items image.now) rela at }
    ensures known { IfErr result IsValueCause }
    ensures given { IfOk result IsGiven }
{
    let index = entry.symbol();
    let addend = entry.r_addend.cast_unsigned();
    let place = image.base.wrapping_add(entry.r_offset);
    match found {
        DynamicType::Relative => Ok(relative_bytes(image, entry)),
        DynamicType::Absolute => word_of(bound_value(image, index, symbol), addend),
        DynamicType::Address => word_of(bound_value(image, index, symbol), 0),
        DynamicType::Call => word_of(called_value(image, index, symbol), 0),
        DynamicType::Low => low_four_bytes(
            R_X86_64_32,
            bound_value(image, index, symbol),
            entry.r_addend,
            place,
        ),
        DynamicType::RelativeLow => {
            low_four_bytes(
                R_X86_64_PC32,
                bound_value(image, index, symbol),
                entry.r_addend,
                place,
            )
        }
        DynamicType::Resolved => word_of(resolved_value(image, addend), 0),
        DynamicType::Copy => copied_bytes(image, index, symbol),
        DynamicType::Module => {
            word_if_bound(thread_value(image, ItemKind::Module, index, symbol), 0)
        }
        DynamicType::BlockOffset => {
            word_if_bound(thread_value(image, ItemKind::Value, index, symbol), addend)
        }
        DynamicType::ThreadOffset => {
            word_if_bound(thread_value(image, ItemKind::Thread, index, symbol), addend)
        }
        DynamicType::Descriptor => {
            let offset = thread_value(image, ItemKind::Thread, index, symbol);
            descriptor_bytes(image.items.number(ItemKind::Descriptor, 0), offset, addend)
        }
    }
}

/// Returns the bytes that an entry of R_X86_64_RELATIVE stores: the load address and the addend,
/// modulo 2^64.
#[tactic(auto, unfolding(elf_model::specs::ImageValues::stored_bytes))]
pub(crate) fn relative_bytes<'a>(image: &ImageFile<'_, 'a>, entry: &Rela) -> RelocatedBytes<'a>
    ensures value { (file : List ℕ) (rela at : ℕ) → IsRela file rela entry.now →
        r_addend file rela < 2 ^ 64 → IsBased image.now →
        stored_bytes Relative file (known_items image.now) rela at ≡ Ok (stored_as result) }
    ensures given { IsGiven result }
{
    word(image.base.wrapping_add(entry.r_addend.cast_unsigned()))
}

/// Returns the eight bytes of a value and an addend modulo 2^64, if there is a value.
fn word_of<'a>(value: Result<u64, Cause>, addend: u64) -> Result<RelocatedBytes<'a>, Cause>
    ensures value { bytes_or_cause result ≡ word_of value addend }
    ensures known { IfErr value IsValueCause → IfErr result IsValueCause }
    ensures given { IfOk result IsGiven }
{
    match value {
        Ok(value) => Ok(word(value.wrapping_add(addend))),
        Err(cause) => Err(cause),
    }
}

/// Does the same; without a value there are no bytes.
fn word_if_bound<'a>(
    value: Result<Option<u64>, Cause>,
    addend: u64,
) -> Result<RelocatedBytes<'a>, Cause>
    ensures value { bytes_or_cause result ≡ word_if_bound value addend }
    ensures known { IfErr value IsValueCause → IfErr result IsValueCause }
    ensures given { IfOk result IsGiven }
{
    match value {
        Ok(Some(value)) => Ok(word(value.wrapping_add(addend))),
        Ok(None) => Ok(RelocatedBytes::Value(Patch::None)),
        Err(cause) => Err(cause),
    }
}

/// Returns the bytes of a word.
#[tactic(auto, unfolding(elf_model::specs::Bytes::little))]
fn word<'a>(number: u64) -> RelocatedBytes<'a>
    ensures value { stored_as result ≡ little 8 number }
    ensures given { IsGiven result }
{
    RelocatedBytes::Value(Patch::Word64(number.to_le_bytes()))
}

/// Returns the bytes of a type of which elf_reloc computes the value, by its number.
fn low_four_bytes<'a>(
    number: u32,
    address: Result<u64, Cause>,
    addend: i64,
    place: u64,
) -> Result<RelocatedBytes<'a>, Cause>
    ensures value { (bits : ℕ) → addend ≡ twos_complement bits →
        bytes_or_cause result ≡ low_four_bytes number address bits place }
    ensures known { IfErr address IsValueCause → IfErr result IsValueCause }
    ensures given { IfOk result IsGiven }
{
    let address = address?;
    match value(number, address, address, addend, place) {
        Ok(patch) => Ok(RelocatedBytes::Value(patch)),
        Err(ValueFault::Unsupported) => Err(Cause::Unsupported),
        Err(ValueFault::Overflow) => Err(Cause::Overflow),
    }
}

/// Returns the answer of the resolver at an address.
#[tactic(auto, unfolding(crate::specs::Items::said_by))]
fn resolved_value(image: &ImageFile<'_, '_>, address: u64) -> Result<u64, Cause>
    ensures value { result ≡ placed_value (address_in (known_items image.now).resolved address) }
    ensures known { IfErr result IsValueCause }
{
    match image.items.number(ItemKind::Resolver, address) {
        Some(answer) => Ok(answer),
        None => Err(Cause::Unplaced),
    }
}

/// Returns the bytes of a copied object, at most as many as the symbol has.
#[tactic(auto, unfolding(elf_model::specs::ImageValues::copied_bytes, crate::specs::Items::said_by))]
fn copied_bytes<'a>(
    image: &ImageFile<'_, 'a>,
    index: u32,
    symbol: &Sym,
) -> Result<RelocatedBytes<'a>, Cause>
    ensures value { (file : List ℕ) (at : ℕ) → IsSym file at symbol.now →
        bytes_or_cause result
        ≡ copied_bytes (is_looked_up file at) (bytes_for (known_items image.now).copies index)
        (st_size file at) }
    ensures known { IfErr result IsValueCause }
    ensures given { IfOk result IsGiven }
{
    if !is_looked_up(symbol) {
        return Err(Cause::Undefined);
    }
    match image.items.copy(index) {
        None => Err(Cause::Undefined),
        Some(bytes) if bytes.len() as u64 > symbol.st_size => Err(Cause::Overflow),
        Some(bytes) => Ok(RelocatedBytes::Copied(bytes)),
    }
}

/// Returns the bytes of a descriptor: its function, and the offset of the symbol from the thread
/// pointer with the addend.
#[tactic(auto, unfolding(elf_model::specs::ImageValues::descriptor_bytes))]
fn descriptor_bytes<'a>(
    function: Option<u64>,
    offset: Result<Option<u64>, Cause>,
    addend: u64,
) -> Result<RelocatedBytes<'a>, Cause>
    ensures value { bytes_or_cause result ≡ descriptor_bytes function offset addend }
    ensures known { IfErr offset IsValueCause → IfErr result IsValueCause }
    ensures given { IfOk result IsGiven }
{
    let Some(offset) = offset? else {
        return Err(Cause::Undefined);
    };
    match function {
        Some(function) => Ok(RelocatedBytes::Pair(function, offset.wrapping_add(addend))),
        None => Err(Cause::Unplaced),
    }
}
