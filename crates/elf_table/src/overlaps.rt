//! LOAD segments that overlap.
ghost use Rattle.std.specs.Prelude.{◌≡◌, ◌&&◌, ℕ, List, IfErr, nat_lt, if◌then◌else◌};
ghost use Rattle.elf_model.specs.Overlaps.{first_page, overlap_checks, page_behind, takes_memory};
ghost use Rattle.elf_record.specs.Phdr.{IsPhdr};
ghost use Rattle.elf_table.specs.Faults.{IsOfCheck};
ghost use Rattle.elf_table.specs.Load.{HoldsProgramHeaders};
ghost use Rattle.elf_table.specs.Views.{ChecksDecide};

use crate::fault::{Fault, refused};
use crate::segment_view::ExecutionView;
use elf_record::numbers::PT_LOAD;
use elf_record::{Cause, Phdr};

/// The size of a page in bytes: the smallest unit in which a loader maps.
const PAGE_BYTES: u64 = 4096;

impl ExecutionView<'_> {
    /// Checks that no two LOAD segments overlap, of those that occupy memory: in the order of the
    /// program headers each begins after the last page of the one before it, in pages of 4,096
    /// bytes. A loader maps them in this order, and a later one covers an earlier one (gABI 5,
    /// Program Loading). No bytes are read.
    ///
    /// # Errors
    /// Returns `LoadOverlap` at the program header of the first that does not.
    pub fn check_overlaps(&self) -> Result<(), Fault>
        ensures held { (file : List ℕ) →
            HoldsProgramHeaders file self.now.loaded self.now.store.now →
            ChecksDecide (overlap_checks file) result }
        ensures refusal { IfErr result IsOfCheck }
    {
        let count = self.segments();
        let mut page: u128 = 0;
        let mut segment = 0;
        'segments: while segment < count {
            let header = self.segment(segment);
            if begins_below(&header, page) {
                return refused(self.place(segment), Cause::LoadOverlap);
            }
            page = page_after(&header, page);
            segment += 1;
        }
        Ok(())
    }
}

/// Returns `true` if the segment is a LOAD segment that occupies memory, and begins below a page.
fn begins_below(header: &Phdr, page: u128) -> bool
    ensures { (file : List ℕ) (at : ℕ) → IsPhdr file at header.now →
        result ≡ (takes_memory file at && nat_lt (first_page file at) page) }
{
    maps_memory(header) && u128::from(header.p_vaddr / PAGE_BYTES) < page
}

/// Returns the first page after the segment if it is a LOAD segment that occupies memory, otherwise
/// the page after those before it.
fn page_after(header: &Phdr, page: u128) -> u128
    ensures { (file : List ℕ) (at : ℕ) → IsPhdr file at header.now →
        result ≡ (if takes_memory file at then page_behind file at else page) }
{
    if !maps_memory(header) {
        return page;
    }
    let end = u128::from(header.p_vaddr) + u128::from(header.p_memsz);
    (end + 4095) / u128::from(PAGE_BYTES)
}

/// Returns `true` if the segment is a LOAD segment that occupies memory.
fn maps_memory(header: &Phdr) -> bool
    ensures { (file : List ℕ) (at : ℕ) → IsPhdr file at header.now →
        result ≡ takes_memory file at }
{
    header.p_type == PT_LOAD && header.p_memsz != 0
}
