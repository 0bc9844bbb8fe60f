//! The place of a relocation: the LOAD segment that holds it in memory.
ghost use Rattle.std.specs.Prelude.{◌≡◌, ◌+◌, ◌<◌, ◌≤◌, ℕ, List, IfErr, IfSome, option_map, true};
ghost use Rattle.elf_model.specs.Checks.{first_refusal};
ghost use Rattle.elf_model.specs.Image.{ImageSource, holder_of, holds_in_memory};
ghost use Rattle.elf_model.specs.Prelude.{has_bits};
ghost use Rattle.elf_model.specs.TraitNumbers.{PF_W};
ghost use Rattle.elf_model.specs.Records.{p_flags, p_vaddr};
ghost use Rattle.elf_record.specs.Phdr.{IsPhdr};
ghost use Rattle.elf_table.specs.Faults.{IsOfCheck};
ghost use Rattle.elf_table.specs.Load.{HoldsProgramHeaders};
ghost use Rattle.elf_table.specs.Store.{segment_bytes};
ghost use Rattle.elf_image.specs.Headers.{refusal_for};
ghost use Rattle.elf_image.specs.Relocated.{FindsPlace, IsHeldRange, IsImageOf, IsLoadSegment};
ghost use Rattle.elf_image.specs.Relocated.{held_range_checks};
ghost use Rattle.elf_image.specs.Values.{IsValueCause};

use crate::changes::{ImageFile, Relocations};
use elf_record::numbers::PT_LOAD;
use elf_record::{Cause, Phdr, SegmentFlags};
use elf_table::{ExecutionView, Fault, refused};

/// A place in memory: the program header of the segment that holds it, and its offset from the
/// segment's address.
#[derive(Clone, Copy)]
pub(crate) struct Place {
    pub(crate) segment: u16,
    pub(crate) offset: u64,
}

/// A LOAD segment: the index of its program header, its addresses in memory, and what relocations
/// may do to it.
#[derive(Clone, Copy)]
pub(crate) struct HeldRange {
    segment: u16,
    first: u64,
    end: u128,
    /// Whether relocations may change it.
    permits: bool,
    /// Whether it holds a table that says how the file is relocated.
    has_table: bool,
}

impl HeldRange {
    /// Returns `true` if the segment holds `width` bytes at an address in memory.
    fn holds(&self, address: u64, width: u64) -> bool
        ensures above { result ≡ true → self.now.first ≤ address }
        ensures within { result ≡ true → address + width ≤ self.now.end }
    {
        self.first <= address && u128::from(address) + u128::from(width) <= self.end
    }
}

/// Returns the place of `width` bytes at an address. A refusal points to `at`. `last` is the
/// segment of the place before, and then that of this one.
///
/// # Errors
/// Returns `PlaceOutside` if no LOAD segment holds them in memory, or one that is not writable in a
/// file without text relocations; `TableWritten` if the segment holds a table that says how the
/// file is relocated, or the place meets the dynamic entries.
pub(crate) fn checked_place(
    image: &ImageFile<'_, '_>,
    last: &mut Option<HeldRange>,
    address: u64,
    width: u64,
    at: u64,
) -> Result<Place, Fault>
    requires { IfSome last.old (IsHeldRange image.now) }
    ensures last { IfSome last.new (IsHeldRange image.now) }
    ensures refusal { IfErr result IsOfCheck }
    ensures found { (source : ImageSource) → IsImageOf source image.now →
        FindsPlace source at address width result }
{
    let Some(range) = held_range(image, last, address, width) else {
        return refused(at, Cause::PlaceOutside);
    };
    *last = Some(range);
    if let Some(cause) = range_fault(&image.told, &range, address, width) {
        return refused(at, cause);
    }
    Ok(Place {
        segment: range.segment,
        offset: address - range.first,
    })
}

/// Returns the place of a word of 8 bytes at an address if it is in the segment of the last place,
/// and may be relocated.
pub(crate) fn last_place(
    image: &ImageFile<'_, '_>,
    last: &Option<HeldRange>,
    address: u64,
) -> Option<Place>
    requires { IfSome last.now (IsHeldRange image.now) }
    ensures { IfSome result (λ place. (source : ImageSource) (at : ℕ) →
        IsImageOf source image.now → FindsPlace source at address 8 (Ok place)) }
{
    let Some(range) = last else {
        return None;
    };
    if !range.holds(address, 8) {
        return None;
    }
    match range_fault(&image.told, range, address, 8) {
        Some(_) => None,
        None => Some(Place {
            segment: range.segment,
            offset: address - range.first,
        }),
    }
}

/// Returns why `width` bytes at an address, which are in a segment, may not be relocated, if they
/// may not.
fn range_fault(told: &Relocations, range: &HeldRange, address: u64, width: u64) -> Option<Cause>
    ensures value { (at : ℕ) → refusal_for at result
        ≡ first_refusal (held_range_checks told.now range.now at address width) }
    ensures known { IfSome result IsValueCause }
{
    if !range.permits {
        return Some(Cause::PlaceOutside);
    }
    if range.has_table || told.meets_dynamic(address, width) {
        return Some(Cause::TableWritten);
    }
    None
}

/// Returns the LOAD segment that holds `width` bytes at an address in memory, if there is one: no
/// other than `last` if that holds them.
fn held_range(
    image: &ImageFile<'_, '_>,
    last: &Option<HeldRange>,
    address: u64,
    width: u64,
) -> Option<HeldRange>
    requires { IfSome last.now (IsHeldRange image.now) }
    ensures above { IfSome result (λ range. range.first ≤ address) }
    ensures held { IfSome result (IsHeldRange image.now) }
    ensures found { (source : ImageSource) → IsImageOf source image.now →
        holder_of source.file address width ≡ option_map (λ range. range.segment) result }
{
    if let Some(range) = last {
        if width > 0 && range.holds(address, width) {
            return Some(*range);
        }
    }
    Some(range_of(image, holder(&image.view, address, width)?))
}

/// Returns the LOAD segment of a program header.
fn range_of(image: &ImageFile<'_, '_>, segment: u16) -> HeldRange
    requires below { segment < image.now.view.store.now.segments }
    requires load { IsLoadSegment image.now segment }
    ensures segment { result.segment ≡ segment }
    ensures first { result.first ≡ p_vaddr (segment_bytes image.now.view.store.now segment) 0 }
    ensures held { IsHeldRange image.now result }
{
    let header = image.view.segment(segment);
    HeldRange {
        segment,
        first: header.p_vaddr,
        end: u128::from(header.p_vaddr) + u128::from(header.p_memsz),
        permits: image.told.writes_text || is_writable(&header),
        has_table: image.told.table_segments.contains(segment),
    }
}

/// Returns the index of the LOAD program header whose segment holds `width` bytes at an address in
/// memory, if there is one.
pub(crate) fn holder(view: &ExecutionView<'_>, address: u64, width: u64) -> Option<u16>
    ensures below { IfSome result (λ segment. segment < view.now.store.now.segments) }
    ensures above { IfSome result (λ segment.
        p_vaddr (segment_bytes view.now.store.now segment) 0 ≤ address) }
    ensures held { (file : List ℕ) →
        HoldsProgramHeaders file view.now.loaded view.now.store.now →
        result ≡ holder_of file address width }
{
    for index in 0..view.segments() {
        if holds_place(&view.segment(index), address, width) {
            return Some(index);
        }
    }
    None
}

/// Returns `true` if the segment is a LOAD segment that holds `width` bytes at an address in
/// memory.
fn holds_place(header: &Phdr, address: u64, width: u64) -> bool
    ensures value { (file : List ℕ) (at : ℕ) → IsPhdr file at header.now →
        result ≡ holds_in_memory file at address width }
    ensures above { result ≡ true → header.now.p_vaddr ≤ address }
{
    let end = u128::from(header.p_vaddr) + u128::from(header.p_memsz);
    header.p_type == PT_LOAD
        && header.p_vaddr <= address
        && u128::from(address) + u128::from(width) <= end
}

/// Returns `true` if a segment is writable.
fn is_writable(header: &Phdr) -> bool
    ensures { (file : List ℕ) (at : ℕ) → IsPhdr file at header.now →
        result ≡ has_bits (p_flags file at) PF_W }
{
    header.p_flags & SegmentFlags::W.0 == SegmentFlags::W.0
}
