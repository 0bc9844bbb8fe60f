//! The row of a listing that a refusal is in, by the headers in the store.
ghost use Rattle.std.specs.Prelude.{◌≡◌, ◌<◌, ◌≤◌, Err};
ghost use Rattle.elf_model.specs.Prelude.{IsBudgetRefusal, entry_number, listed_range, range_has, row_among, row_in_segments, row_in_tables, row_index, section_entry_size, segment_entry_size};
ghost use Rattle.elf_model.specs.declared.causes.Refusal.{Refusal as Refuses};
ghost use Rattle.elf_model.specs.declared.fault_rows.FaultRow.TheVariants.{NoRow};
ghost use Rattle.elf_table.specs.Load.{counts_of};
ghost use Rattle.elf_table.specs.declared.run_fault.RunFault.TheVariants.{Refused};
ghost use Rattle.elf_listing.specs.Parts.{store_sections, store_segments};

use elf_model::{FaultRow, PlaceRange};
use elf_record::gnu_numbers::{SHT_GNU_VERDEF, SHT_GNU_VERNEED, SHT_GNU_VERSYM, SHT_RELR};
use elf_record::numbers::{
    PT_DYNAMIC, PT_NOTE, SHT_DYNAMIC, SHT_DYNSYM, SHT_NOTE, SHT_REL, SHT_RELA, SHT_SYMTAB,
};
use elf_record::sizes::{
    DYNAMIC_BYTES, PROGRAM_HEADER_BYTES, REL_BYTES, RELOCATION_BYTES, RELR_BYTES,
    SECTION_HEADER_BYTES, SYMBOL_BYTES, SYMBOL_VERSION_BYTES,
};
use elf_record::{Cause, Ehdr};
use elf_table::{HeaderStore, RunFault};

/// The size of the file header in bytes (gABI 4, ELF Header).
const FILE_HEADER_BYTES: u64 = 64;

/// Returns the row that a refusal which stopped a listing is in; none for any other result, and
/// none for lack of budget. `header` is the file's header, and the store has the headers that were
/// loaded. No bytes are read.
pub(crate) fn row_of_stop(
    listed: &Result<(), RunFault>,
    header: &Ehdr,
    store: &HeaderStore,
) -> FaultRow
    ensures budget { (refusal : Refuses) → listed.now ≡ Err (Refused refusal) →
        IsBudgetRefusal refusal → result ≡ NoRow }
    ensures row { (refusal : Refuses) → listed.now ≡ Err (Refused refusal) →
        (IsBudgetRefusal refusal → ⊥) → result ≡ row_among (counts_of header.now)
        (store_sections store.now) (store_segments store.now) refusal.at }
{
    match listed {
        Err(RunFault::Refused(refusal)) if refusal.cause != Cause::Budget => {
            row_at(header, store, refusal.at)
        }
        _ => FaultRow::NoRow,
    }
}

/// Returns the row at a file offset, by a file header and the headers in the store.
#[tactic(auto, unfolding(elf_model::specs::FaultRows::row_among))]
fn row_at(header: &Ehdr, store: &HeaderStore, at: u64) -> FaultRow
    ensures { result ≡ row_among (counts_of header.now)
        (store_sections store.now) (store_segments store.now) at }
{
    if at < FILE_HEADER_BYTES {
        return FaultRow::FileHeader;
    }
    if let Some(index) = row_index(header.e_shoff, SECTION_HEADER_BYTES, header.e_shnum, at) {
        return FaultRow::SectionHeader(index);
    }
    if let Some(index) = row_index(header.e_phoff, PROGRAM_HEADER_BYTES, header.e_phnum, at) {
        return FaultRow::ProgramHeader(index);
    }
    row_in_tables(store, at)
}

/// Returns the index of the row at `at`, of `count` rows of `size` bytes from `start` on.
fn row_index(start: u64, size: u64, count: u16, at: u64) -> Option<u16>
    requires { (0 < size) × (size ≤ 64) }
    ensures { result ≡ row_index start size count at }
{
    if at < start || at - start >= size * u64::from(count) {
        return None;
    }
    Some(((at - start) / size) as u16)
}

/// Returns the entry at a file offset, of the first section whose rows are listed that has it, or
/// else of the first segment.
#[tactic(auto, unfolding(elf_model::specs::FaultRows::row_in_tables))]
fn row_in_tables(store: &HeaderStore, at: u64) -> FaultRow
    ensures { result ≡ row_in_tables (store_sections store.now) (store_segments store.now) at }
{
    for index in 0..store.loaded() {
        let section = store.section(index);
        let size = section_entry_size(section.sh_type);
        if is_listed_at(size, section.sh_offset, section.sh_size, at) {
            return FaultRow::Section(index, entry_number(size, section.sh_offset, at));
        }
    }
    row_in_segments(store, at)
}

/// Returns the entry at a file offset, of the first segment whose rows are listed that has it.
#[tactic(auto, unfolding(elf_model::specs::FaultRows::row_in_segments))]
fn row_in_segments(store: &HeaderStore, at: u64) -> FaultRow
    ensures { result ≡ row_in_segments (store_segments store.now) at }
{
    for index in 0..store.segments() {
        let segment = store.segment(index);
        let size = segment_entry_size(segment.p_type);
        if is_listed_at(size, segment.p_offset, segment.p_filesz, at) {
            return FaultRow::Segment(index, entry_number(size, segment.p_offset, at));
        }
    }
    FaultRow::NoRow
}

/// Returns `true` if a table of `size` bytes from `start` on has the byte at `at`, and its rows are
/// listed.
fn is_listed_at(entry_size: Option<u64>, start: u64, size: u64, at: u64) -> bool
    ensures { result ≡ range_has (listed_range entry_size start size) at }
{
    let range = PlaceRange::when(entry_size.is_some(), start, size);
    range.start <= at && at - range.start < range.size
}

/// Returns the number of the entry at `at`, in a table from `start` on.
fn entry_number(entry_size: Option<u64>, start: u64, at: u64) -> Option<u64>
    ensures { result ≡ entry_number entry_size start at }
{
    match entry_size {
        None | Some(0) => None,
        Some(size) => Some(at.saturating_sub(start) / size),
    }
}

/// Returns the size of the entries of a section of the given type whose rows are listed, 0 if they
/// have several sizes.
fn section_entry_size(sh_type: u32) -> Option<u64>
    ensures { result ≡ section_entry_size sh_type }
{
    match sh_type {
        SHT_SYMTAB | SHT_DYNSYM => Some(SYMBOL_BYTES),
        SHT_RELA => Some(RELOCATION_BYTES),
        SHT_REL => Some(REL_BYTES),
        SHT_RELR => Some(RELR_BYTES),
        SHT_DYNAMIC => Some(DYNAMIC_BYTES),
        SHT_GNU_VERSYM => Some(SYMBOL_VERSION_BYTES),
        SHT_NOTE | SHT_GNU_VERDEF | SHT_GNU_VERNEED => Some(0),
        _ => None,
    }
}

/// Returns the same for a segment of the given type.
fn segment_entry_size(p_type: u32) -> Option<u64>
    ensures { result ≡ segment_entry_size p_type }
{
    match p_type {
        PT_DYNAMIC => Some(DYNAMIC_BYTES),
        PT_NOTE => Some(0),
        _ => None,
    }
}
