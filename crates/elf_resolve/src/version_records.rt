//! The version records of a shared library in a buffer: where they are, and their bytes.
ghost use Rattle.std.specs.Prelude.{◌≡◌, ◌+◌, ◌<◌, ◌≤◌, IfOk, List, ℕ, length};
ghost use Rattle.elf_model.specs.Bytes.{field};
ghost use Rattle.elf_resolve.specs.StringBuffers.{HoldsText};
ghost use Rattle.elf_resolve.specs.VersionWalks.{FindsBytes, FindsRecord, PassesAll, first_along, next_along, place_along};

use crate::link_faults::{LinkFault, file_refused};
use crate::string_buffer::{HeldText, StringBuffer, part_of};
use elf_record::{Cause, u16_at, word};

/// A section of version records in a buffer: its bytes, the strings of its names, and its file
/// offset and that of its header.
#[derive(Clone, Copy)]
pub(crate) struct VersionSection {
    /// The records.
    pub records: HeldText,
    /// The strings.
    pub strings: HeldText,
    /// The file offset of the records.
    pub at: u64,
    /// The file offset of the section's header.
    pub header: u64,
}

/// Where a record is.
#[derive(Clone, Copy)]
pub(crate) struct RecordPlace {
    /// The index of its first byte.
    pub start: usize,
    /// Its file offset.
    pub at: u64,
    /// The file offset of the record that led to it.
    pub led_by: u64,
}

/// Returns the first record of a section, if it has bytes.
pub(crate) fn first_record(table: VersionSection) -> Option<RecordPlace>
    ensures { result ≡ first_along table }
{
    if table.records.size == 0 {
        return None;
    }
    Some(RecordPlace {
        start: 0,
        at: table.at,
        led_by: table.header,
    })
}

/// Returns the place of the record that follows by an offset, if it is not 0.
pub(crate) fn next_place(place: RecordPlace, offset: u32) -> Option<RecordPlace>
    ensures { result ≡ next_along place offset }
{
    if offset == 0 {
        return None;
    }
    Some(place_after(place, offset))
}

/// Returns the place of a record that is led to by an offset from another.
pub(crate) fn place_after(place: RecordPlace, offset: u32) -> RecordPlace
    ensures { result ≡ place_along place offset }
{
    RecordPlace {
        start: place.start.saturating_add(offset as usize),
        at: place.at.saturating_add(u64::from(offset)),
        led_by: place.at,
    }
}

/// Refuses one more record than a section has room for.
///
/// # Errors
/// `VersionCut` at what leads to it.
pub(crate) fn past_all(next: Option<RecordPlace>) -> Result<(), LinkFault>
    ensures { PassesAll next result }
{
    match next {
        Some(place) => file_refused(place.led_by, Cause::VersionCut),
        None => Ok(()),
    }
}

/// Returns the `size` bytes of a record.
///
/// # Errors
/// `VersionCut` at what leads to it if it is not in the section.
pub(crate) fn bytes_at(
    strings: &StringBuffer,
    table: VersionSection,
    place: RecordPlace,
    size: usize,
) -> Result<&[u8], LinkFault>
    ensures long { IfOk result (λ bytes. size ≤ length bytes.now) }
    ensures finds { (section : List ℕ) → HoldsText strings.now.bytes table.records section →
        0 < size → FindsBytes section place size result }
{
    let bytes = part_of(strings.bytes(table.records), place.start, size);
    if bytes.len() < size {
        return file_refused(place.led_by, Cause::VersionCut);
    }
    Ok(bytes)
}

/// Returns the `size` bytes of a definition or a need.
///
/// # Errors
/// Those of [`bytes_at`]; `BadVersion` at it if it is of another form.
pub(crate) fn record_at(
    strings: &StringBuffer,
    table: VersionSection,
    place: RecordPlace,
    size: usize,
) -> Result<&[u8], LinkFault>
    ensures long { IfOk result (λ bytes. size ≤ length bytes.now) }
    ensures finds { (section : List ℕ) → HoldsText strings.now.bytes table.records section →
        2 ≤ size → FindsRecord section place size result }
{
    let record = bytes_at(strings, table, place, size)?;
    if half(record, 0) != 1 {
        return file_refused(place.at, Cause::BadVersion);
    }
    Ok(record)
}

/// Returns the number of two bytes at a place, or 0 past the end.
pub(crate) fn half(bytes: &[u8], place: usize) -> u16
    ensures { place + 2 ≤ length bytes.now → result ≡ field bytes.now place 2 }
{
    let part = part_of(bytes, place, 2);
    if part.len() == 2 { u16_at(part, 0) } else { 0 }
}

/// Returns the number of four bytes at a place, or 0 past the end.
pub(crate) fn long(bytes: &[u8], place: usize) -> u32
    ensures { place + 4 ≤ length bytes.now → result ≡ field bytes.now place 4 }
{
    match part_of(bytes, place, 4).first_chunk() {
        Some(bytes) => word(bytes),
        None => 0,
    }
}
