//! The checks of a file's headers before its image is made.
ghost use Rattle.std.specs.Prelude.{◌≡◌, ◌+◌, ◌*◌, ◌≤◌, ◌++◌, ℕ, List, None, length, IfErr, IfOk, IfSome};
ghost use Rattle.elf_model.specs.ImageChecks.{kind_checks, requested_checks, segment_load_checks};
ghost use Rattle.elf_model.specs.ImageChecks.{segments_load_checks};
ghost use Rattle.elf_model.specs.Checks.{first_refusal};
ghost use Rattle.elf_model.specs.Overlaps.{overlap_checks};
ghost use Rattle.elf_model.specs.Records.{e_shnum, segment_at};
ghost use Rattle.elf_record.specs.Ehdr.{IsEhdr};
ghost use Rattle.elf_record.specs.Phdr.{IsPhdr};
ghost use Rattle.elf_table.specs.Prelude.{CallDid, ChecksDecide, HoldsProgramHeaders, IsOfCheck};
ghost use Rattle.elf_table.specs.Prelude.{fault_of_result};
ghost use Rattle.elf_hash.specs.Loading.{FitsSource, LoadsShown};
ghost use Rattle.elf_image.specs.Headers.{IsRefusedFault, refusal_for};
ghost use Rattle.elf_image.specs.Located.{ChecksThen};
ghost use Rattle.elf_image.specs.Values.{IsValueCause};

use elf_hash::load_by_segments;
use elf_record::numbers::{EM_X86_64, PT_LOAD};
use elf_record::{Cause, Ehdr, Phdr, is_linked_type};
use elf_source::{Counted, Source};
use elf_table::{ExecutionView, Fault, HeaderStore, Loaded, is_out_of_bounds, refused};

/// The smallest page that a loader maps.
const PAGE_BYTES: u64 = 4096;

/// Loads the program headers of a file into the store. The fields of the file header that locate
/// section headers are masked.
///
/// # Errors
/// Returns the first check that fails: those of [`load_by_segments`], otherwise a fault of a read,
/// or the refusal `Budget`, at the offset of the read.
pub fn load_image<S: Source>(src: &mut Counted<S>, store: &mut HeaderStore) -> Result<Loaded, Fault>
    ensures did { CallDid src.old src.new (fault_of_result result) (64 + store.old.slots * 56)
        (λ file.
        e_shnum file ≡ 0 → LoadsShown file store.old.slots store.new src.old src.new result) }
    ensures slots { store.new.slots ≡ store.old.slots }
    ensures fits { IfOk result (FitsSource src.old.seen.size store.new) }
{
    load_by_segments(src, store)
}

/// Checks the headers of a file whose image is made. No bytes are read.
///
/// # Errors
/// Returns the first check that fails: that of [`ExecutionView::check_overlaps`]; `NotImage` at
/// 0x10 for a file that is neither an executable nor a shared object, at 0x12 for another machine
/// than x86-64; `LoadAlign` and `TableOutside` at a LOAD program header.
pub(crate) fn check_headers(view: &ExecutionView<'_>) -> Result<(), Fault>
    ensures refusal { IfErr result IsOfCheck }
    ensures held { (file : List ℕ) → HoldsProgramHeaders file view.now.loaded view.now.store.now →
        ChecksDecide (overlap_checks file ++ kind_checks file ++ segments_load_checks file) result }
{
    view.check_overlaps()?;
    check_kind(&view.loaded.header())?;
    check_loads(view)
}

/// Checks that a file is an executable or a shared object for x86-64.
fn check_kind(header: &Ehdr) -> Result<(), Fault>
    ensures refusal { IfErr result IsOfCheck }
    ensures held { (file : List ℕ) → IsEhdr file 0 header.now →
        ChecksDecide (kind_checks file) result }
{
    if !is_linked_type(header.e_type) {
        return refused(0x10, Cause::NotImage);
    }
    if header.e_machine != EM_X86_64 {
        return refused(0x12, Cause::NotImage);
    }
    Ok(())
}

/// Checks each LOAD program header.
fn check_loads(view: &ExecutionView<'_>) -> Result<(), Fault>
    ensures refusal { IfErr result IsOfCheck }
    ensures held { (file : List ℕ) → HoldsProgramHeaders file view.now.loaded view.now.store.now →
        ChecksDecide (segments_load_checks file) result }
{
    let size = view.loaded.size();
    for segment in 0..view.segments() {
        if let Some(cause) = load_fault(&view.segment(segment), size) {
            return refused(view.place(segment), cause);
        }
    }
    Ok(())
}

/// Returns why a program header is refused in a file of `size` bytes, if it is one of a LOAD
/// segment: its bytes and addresses differ modulo the size of a page, they are more than it has in
/// memory, they end past the end of the file, or the addresses end above 2^64.
fn load_fault(header: &Phdr, size: u64) -> Option<Cause>
    ensures known { IfSome result IsValueCause }
    ensures value { (file : List ℕ) (at : ℕ) → IsPhdr file at header.now → size ≡ length file →
        first_refusal (segment_load_checks file at) ≡ refusal_for at result }
{
    if header.p_type != PT_LOAD {
        return None;
    }
    if header.p_vaddr % PAGE_BYTES != header.p_offset % PAGE_BYTES {
        return Some(Cause::LoadAlign);
    }
    let end = u128::from(header.p_vaddr) + u128::from(header.p_memsz);
    if header.p_filesz > header.p_memsz
        || is_out_of_bounds(size, header.p_offset, header.p_filesz)
        || end > 1 << 64
    {
        return Some(Cause::TableOutside);
    }
    None
}

/// Returns the LOAD program header of an index, whose segment has at most `most` bytes in memory.
///
/// # Errors
/// Returns `BadLink` at 0x38 if there is none, `Budget` at it if it has more bytes.
pub(crate) fn wanted_segment(
    view: &ExecutionView<'_>,
    segment: u16,
    most: u64,
) -> Result<Phdr, Fault>
    ensures within { IfOk result (λ header.
        header.p_offset + header.p_filesz ≤ view.now.loaded.size) }
    ensures few { IfOk result (λ header. header.p_memsz ≤ most) }
    ensures refuses { IfErr result IsRefusedFault }
    ensures held { (file : List ℕ) → HoldsProgramHeaders file view.now.loaded view.now.store.now →
        first_refusal (segments_load_checks file) ≡ None →
        ChecksThen (requested_checks file segment most) (IsPhdr file (segment_at file segment))
        result }
{
    if segment >= view.segments() {
        return refused(0x38, Cause::BadLink);
    }
    let header = view.segment(segment);
    if header.p_type != PT_LOAD {
        return refused(0x38, Cause::BadLink);
    }
    if is_out_of_bounds(view.loaded.size(), header.p_offset, header.p_filesz) {
        return refused(view.place(segment), Cause::TableOutside);
    }
    if header.p_memsz > most {
        return refused(view.place(segment), Cause::Budget);
    }
    Ok(header)
}
