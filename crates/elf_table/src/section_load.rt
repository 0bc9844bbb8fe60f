//! Loading a file's section headers.
ghost use Rattle.std.specs.Prelude.{◌≡◌, ℕ, ◌+◌, ◌*◌, ◌≤◌, List, length};
ghost use Rattle.std.specs.Prelude.{None, Some, Err, IfErr, IfSome, MatchOption};
ghost use Rattle.elf_model.specs.Prelude.{IsBudgetRefusal, first_refusal, section_name_checks};
ghost use Rattle.elf_model.specs.declared.causes.Refusal.{Refusal as Refuses};
ghost use Rattle.elf_record.specs.Ehdr.{IsEhdr};
ghost use Rattle.elf_source.specs.Source.{ReadsUpTo};
ghost use Rattle.elf_table.specs.Faults.{IsReadFault};
ghost use Rattle.elf_table.specs.Load.{early_of, load_cost, PassesLoadChecks, LoadOutcome, LoadedAs};
ghost use Rattle.elf_table.specs.Store.{emptied, HoldsSections};

use crate::fault::{Fault, refusal_at};
use crate::header_rows::{HeaderRows, section_place};
use crate::loaded::Loaded;
use crate::ranges::is_out_of_bounds;
use crate::store::HeaderStore;
use elf_record::numbers::{PN_XNUM, SHN_XINDEX, SHT_STRTAB};
use elf_record::sizes::{PROGRAM_HEADER_BYTES, SECTION_HEADER_BYTES};
use elf_record::{Cause, Ehdr, Refusal};
use elf_source::{Counted, Source};

/// Loads the section headers of a file into the store, each read once, and checks the file header's
/// counts and offsets and the section of the section names (gABI 4, ELF Header). `header` is the
/// file's header. On an error no section header is loaded, and the store may be loaded again. No
/// program header stays loaded.
///
/// # Errors
/// Returns the first check that fails, of the file header's with nothing read: `ExtendedNumbering`
/// at 0x38, 0x3e or 0x3c; `TooManyHeaders` at 0x3c or 0x38, more headers than the store has slots;
/// `EntrySize` at 0x3a or 0x36; `TableOutside` at 0x28 or 0x20; `BadLink` at 0x3e. Then of the
/// section of the section names, if there is one: `NotStrings` and `TableOutside` at its section
/// header. A fault of a read, or the refusal `Budget`, points to the offset of the read.
pub fn load<S: Source>(
    src: &mut Counted<S>,
    store: &mut HeaderStore,
    header: &Ehdr,
) -> Result<Loaded, Fault>
    ensures slots { store.new.slots ≡ store.old.slots }
    ensures segments { store.new.segments ≡ 0 }
    // At most the section headers are read, and nothing if the file header refuses the file.
    ensures reads { ReadsUpTo src.old src.new
        (load_cost header.now src.old.seen.size store.old.slots) }
    ensures says { IfErr result
        (IsReadFault src.old src.new (load_cost header.now src.old.seen.size store.old.slots)) }
    ensures early { (refusal : Refuses) →
        first_refusal (early_of header.now src.old.seen.size store.old.slots) ≡ Some refusal →
        (result ≡ Err (Fault.Refused refusal)) × (src.new ≡ src.old) }
    ensures opens { LoadOutcome src.old.seen.size header.now store.new result }
    ensures held { (file : List ℕ) → src.old.seen.file ≡ Some file → IsEhdr file 0 header.now →
        LoadedAs file result store.new }
{
    store.forget();
    let size = src.length();
    if let Some(refusal) = refused_unread(store, header, size) {
        return Err(Fault::Refused(refusal));
    }
    if let Err(fault) = store.fill(src, header.e_shnum, header.e_shoff) {
        return Err(fault);
    }
    if let Some(refusal) = check_after_load(store, header, size) {
        return Err(Fault::Refused(refusal));
    }
    Ok(Loaded::new(size, header))
}

/// Returns the first check that fails before the section headers are read; the store's slots are
/// the limit on headers.
fn refused_unread(store: &HeaderStore, header: &Ehdr, size: u64) -> Option<Refusal>
    ensures refusal { result ≡ first_refusal (early_of header.now size store.now.slots) }
    ensures passes { MatchOption result (PassesLoadChecks size store.now.slots header.now)
        (λ _. Unit {0}) }
    ensures permitted { store.now.slots ≤ 65279 }
{
    let headers = store.slots();
    check_before_load(header, size, headers)
}

/// Returns the first check that fails once the section headers are loaded, as [`refused_names`]
/// does; with a refusal no section header stays loaded.
fn check_after_load(store: &mut HeaderStore, header: &Ehdr, size: u64) -> Option<Refusal>
    requires passes { PassesLoadChecks size store.old.slots header.now }
    requires count { store.old.loaded ≡ header.now.e_shnum }
    ensures kept { MatchOption result (store.new ≡ store.old) (λ _. store.new ≡ emptied store.old) }
    ensures checked { IfSome result (λ refusal. IsBudgetRefusal refusal → ⊥) }
    ensures held { (file : List ℕ) → length file ≡ size → IsEhdr file 0 header.now →
        HoldsSections file store.old → result ≡ first_refusal (section_name_checks file) }
{
    let refusal = refused_names(store, header, size);
    if refusal.is_some() {
        store.forget();
    }
    refusal
}

/// Returns the first failing check of the section of the section names; none if there is no such
/// section (gABI 4, String Table).
pub fn refused_names<R: HeaderRows>(rows: &R, header: &Ehdr, size: u64) -> Option<Refusal>
    requires passes { PassesLoadChecks size (R.state rows.now).slots header.now }
    requires count { (R.state rows.now).loaded ≡ header.now.e_shnum }
    ensures checked { IfSome result (λ refusal. IsBudgetRefusal refusal → ⊥) }
    ensures held { (file : List ℕ) → length file ≡ size → IsEhdr file 0 header.now →
        HoldsSections file (R.state rows.now) →
        result ≡ first_refusal (section_name_checks file) }
{
    if header.e_shnum == 0 || header.e_shstrndx == 0 {
        return None;
    }
    let section = rows.section_header(header.e_shstrndx);
    let place = section_place(header, header.e_shstrndx);
    if section.sh_type != SHT_STRTAB {
        return refusal_at(place, Cause::NotStrings);
    }
    if is_out_of_bounds(size, section.sh_offset, section.sh_size) {
        return refusal_at(place, Cause::TableOutside);
    }
    None
}

/// Returns the first failing check of those before the section headers are read, in a file of
/// `size` bytes and with `headers` as the limit on headers (gABI 4, ELF Header).
pub fn check_before_load(header: &Ehdr, size: u64, headers: u16) -> Option<Refusal>
    ensures refusal { result ≡ first_refusal (early_of header.now size headers) }
    ensures passes { MatchOption result (PassesLoadChecks size headers header.now) (λ _. Unit {0}) }
{
    let sections = SECTION_HEADER_BYTES * u64::from(header.e_shnum);
    let segments = PROGRAM_HEADER_BYTES * u64::from(header.e_phnum);
    if header.e_phnum == PN_XNUM {
        return refusal_at(0x38, Cause::ExtendedNumbering);
    }
    if header.e_shstrndx == SHN_XINDEX {
        return refusal_at(0x3e, Cause::ExtendedNumbering);
    }
    if header.e_shnum == 0 && header.e_shoff != 0 {
        return refusal_at(0x3c, Cause::ExtendedNumbering);
    }
    if header.e_shnum > headers {
        return refusal_at(0x3c, Cause::TooManyHeaders);
    }
    if header.e_phnum > headers {
        return refusal_at(0x38, Cause::TooManyHeaders);
    }
    if header.e_shnum != 0 && u64::from(header.e_shentsize) != SECTION_HEADER_BYTES {
        return refusal_at(0x3a, Cause::EntrySize);
    }
    if header.e_phnum != 0 && u64::from(header.e_phentsize) != PROGRAM_HEADER_BYTES {
        return refusal_at(0x36, Cause::EntrySize);
    }
    if header.e_shnum != 0 && is_out_of_bounds(size, header.e_shoff, sections) {
        return refusal_at(0x28, Cause::TableOutside);
    }
    if header.e_phnum != 0 && is_out_of_bounds(size, header.e_phoff, segments) {
        return refusal_at(0x20, Cause::TableOutside);
    }
    if header.e_shnum != 0 && header.e_shstrndx >= header.e_shnum {
        return refusal_at(0x3e, Cause::BadLink);
    }
    None
}
