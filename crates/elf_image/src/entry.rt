//! What a relocation entry changes.
ghost use Rattle.std.specs.Prelude.{◌≡◌, ◌<◌, ◌^◌, ℕ, List, true, Some, Err, IfErr, IfSome};
ghost use Rattle.elf_model.specs.Image.{ImageSource, change_by, change_of_type, entry_change};
ghost use Rattle.elf_model.specs.Image.{is_lack};
ghost use Rattle.elf_model.specs.ImageValues.{dynamic_symbol_checks, entry_symbol};
ghost use Rattle.elf_model.specs.ImageValues.{uses_no_symbol};
ghost use Rattle.elf_model.specs.Records.{r_addend, r_sym};
ghost use Rattle.elf_record.specs.Rela.{IsRela};
ghost use Rattle.elf_table.specs.Faults.{IsOfCheck};
ghost use Rattle.elf_table.specs.Ledger.{CallDid, CallReads, fault_of_result};
ghost use Rattle.elf_image.specs.Changes.{entry_reads};
ghost use Rattle.elf_image.specs.Relocated.{AreEntrySymbols, ChangesAs, HasEntries, IsHeldRange};
ghost use Rattle.elf_image.specs.Relocated.{IsImageOf, ReadsAfter, UsesSymbol};
ghost use Rattle.elf_image.specs.Values.{IsUsed, IsValueCause};
ghost use Rattle.elf_image.specs.Within.{ImageWithin};

use crate::changes::{EntryResult, ImageFile, PlacedBytes, RelocatedBytes};
use crate::dynamic_types::{changed_size, dynamic_type, is_thread_local, uses_no_symbol};
use crate::place::{HeldRange, checked_place};
use crate::stored::stored_bytes;
use crate::symbols::{no_symbol, read_symbol};
use elf_model::DynamicType;
use elf_record::numbers::R_X86_64_NONE;
use elf_record::{Cause, Rela, Sym};
use elf_source::{Counted, Source};
use elf_table::{Fault, refused};

/// Returns what an entry changes. It is at the file offset `at`; `last` is the segment of the place
/// before.
///
/// # Errors
/// Returns the first check that fails, at `at`: `Unsupported`, `BadLink`, `SymbolIndex`,
/// `PlaceOutside`, `TableWritten`, `Overflow`; `Undefined` and `Unplaced` for a missing item if
/// these are all that there are. A fault of the read of the symbol, or the refusal `Budget`, points
/// to the symbol.
pub(crate) fn entry_result<'a, S: Source>(
    src: &mut Counted<S>,
    image: &ImageFile<'_, 'a>,
    last: &mut Option<HeldRange>,
    entry: &Rela,
    at: u64,
) -> Result<EntryResult<'a>, Fault>
    requires within { ImageWithin src.old.seen.size image.now }
    requires last { IfSome last.old (IsHeldRange image.now) }
    ensures costs { CallReads src.old src.new (fault_of_result result) (entry_reads entry.now) }
    ensures last { IfSome last.new (IsHeldRange image.now) }
    ensures change { (source : ImageSource) → src.old.seen.file ≡ Some source.file →
        IsImageOf source image.now → HasEntries image.now.told →
        IsRela source.file at entry.now → r_addend source.file at < 2 ^ 64 →
        ChangesAs image.now.leaves at result (entry_change source at) }
{
    let kind = entry.kind();
    if kind == R_X86_64_NONE {
        return Ok(EntryResult::Nothing);
    }
    let Some(found) = dynamic_type(kind) else {
        return refused(at, Cause::Unsupported);
    };
    let symbol = entry_symbol(src, image, found, entry.symbol(), at)?;
    stored_result(image, last, entry, at, found, &symbol)
}

/// Returns what an entry of a type changes, whose symbol is read.
fn stored_result<'a>(
    image: &ImageFile<'_, 'a>,
    last: &mut Option<HeldRange>,
    entry: &Rela,
    at: u64,
    found: DynamicType,
    symbol: &Sym,
) -> Result<EntryResult<'a>, Fault>
    requires { IfSome last.old (IsHeldRange image.now) }
    ensures last { IfSome last.new (IsHeldRange image.now) }
    ensures refusal { IfErr result IsOfCheck }
    ensures change { (source : ImageSource) → IsImageOf source image.now →
        IsRela source.file at entry.now → r_addend source.file at < 2 ^ 64 →
        UsesSymbol source at found entry.now symbol.now →
        ChangesAs image.now.leaves at result (change_of_type source at (Some found)) }
{
    let width = changed_size(found, symbol);
    let place = checked_place(image, last, entry.r_offset, width, at)?;
    match stored_bytes(image, found, entry, symbol) {
        Ok(bytes) => Ok(EntryResult::Stores(PlacedBytes {
            place,
            width,
            bytes,
        })),
        Err(cause) => without_bytes(image, at, cause),
    }
}

/// Reads the symbol of an index, if the type of the entry at `at` uses it.
fn entry_symbol<S: Source>(
    src: &mut Counted<S>,
    image: &ImageFile<'_, '_>,
    found: DynamicType,
    index: u32,
    at: u64,
) -> Result<Sym, Fault>
    requires { ImageWithin src.old.seen.size image.now }
    ensures did { CallDid src.old src.new (fault_of_result result) 24 (λ file. (header : ℕ) →
        AreEntrySymbols file header image.now.told.symbols → index ≡ r_sym file at →
        ReadsAfter (dynamic_symbol_checks found file header at)
        (IsUsed found file (entry_symbol file header at) index) result) }
    ensures unused { uses_no_symbol found ≡ true →
        CallReads src.old src.new (fault_of_result result) 0 }
{
    if uses_no_symbol(found) {
        return Ok(no_symbol());
    }
    if index == 0 {
        if is_thread_local(found) {
            return Ok(no_symbol());
        }
        return refused(at, Cause::Unsupported);
    }
    read_symbol(src, image.told.symbols, index, at)
}

/// Returns the result of an entry whose bytes are not known, for a cause.
fn without_bytes<'a>(
    image: &ImageFile<'_, 'a>,
    at: u64,
    cause: Cause,
) -> Result<EntryResult<'a>, Fault>
    requires { IsValueCause cause }
    ensures refusal { IfErr result IsOfCheck }
    ensures change { (source : ImageSource) → (size : ℕ) →
        ChangesAs image.now.leaves at result (change_by source at size (Err cause)) }
{
    if image.leaves && is_lack(cause) {
        return Ok(EntryResult::Lacks(cause));
    }
    refused(at, cause)
}

/// Returns `true` if a cause says that an item is missing.
fn is_lack(cause: Cause) -> bool
    ensures { result ≡ is_lack cause }
{
    matches!(cause, Cause::Undefined | Cause::Unplaced)
}
