//! The names of the members that are taken.
ghost use Rattle.std.specs.Prelude.{◌≡◌, IfOk, IfSome, List, [], ℕ, Some, length, map};
ghost use Rattle.std.specs.List.Sorted.{IsStrictlyIncreasing};
ghost use Rattle.elf_archive.specs.Members.{IsInBounds, extent_of_names};
ghost use Rattle.elf_model.specs.Prelude.{shown_as};
ghost use Rattle.elf_source.specs.Prelude.{KeepsSource};
ghost use Rattle.elf_resolve.specs.MemberExtents.{LiesAfterHeader};
ghost use Rattle.elf_resolve.specs.MemberNames.{AppendsName, IsFirstFrom, ReadsNamedMember, ReadsMemberName, RowsAscend, name_of_row_in, place_in, row_of_place};

use crate::link_faults::{LinkFault, file_refused, refused};
use crate::string_buffer::{HeldText, NO_TEXT, part_of};
use elf_archive::{FileRange, MEMBER_HEADER_BYTES, read_member_header, read_member_name};
use elf_model::LinkCause;
use elf_options::NameLimit;
use elf_record::Cause;
use elf_source::{Counted, Source};
use elf_table::NameBuf;
use std::alloc::{AllocError, Global};
use std::marker::Model;

/// How many bytes of a name are shown.
const NAME_CAP: NameLimit = NameLimit { bytes: 4096 };

/// The place of a name.
#[derive(Clone, Copy)]
struct NamePlace {
    row: u32,
    name: HeldText,
    is_cut: bool,
}

/// The names of members by their rows, in memory that is allocated once.
#[derive(Drop)]
pub(crate) struct NamesOfMembers {
    places: Vec<NamePlace>,
    bytes: Vec<u8>,
    room: usize,
    most: usize,
    name: NameBuf,
}

impl Model for NamesOfMembers {
    ghost use Rattle.std.specs.Prelude.{List, length, map};
    ghost use Rattle.std.specs.List.{All};
    ghost use Rattle.elf_resolve.specs.MemberNames.{IsNamePlaceIn, RowName, name_at_place};

    ghost Value = { List RowName };

    ghost view = { λ n. map (name_at_place n.bytes.items) n.places.items };

    ghost invariant = { λ n. All (IsNamePlaceIn (length n.bytes.items)) n.places.items };
}

impl NamesOfMembers {
    /// Creates room for the names of `rows` rows, which have 64 bytes each.
    ///
    /// # Errors
    /// Out of memory.
    pub(crate) fn new(alloc: Global, rows: u32) -> Result<NamesOfMembers, AllocError>
        ensures { IfOk result (λ names. names ≡ []) }
    {
        let room = (rows as usize).saturating_mul(64);
        Ok(NamesOfMembers {
            places: Vec::with_capacity(alloc, rows as usize)?,
            bytes: Vec::with_capacity(alloc, room)?,
            room,
            most: rows as usize,
            name: NameBuf::new(),
        })
    }

    /// Reads the header and the name of the member at an offset, for a row, and returns its data.
    ///
    /// # Errors
    /// Those of the header and the name, at the header; `TooManyRows` there if there is no room for
    /// the name.
    pub(crate) fn read<S: Source>(
        &mut self,
        src: &mut Counted<S>,
        names: Option<FileRange>,
        at: u64,
        row: u32,
    ) -> Result<FileRange, LinkFault>
        ensures keeps { KeepsSource src.old.seen src.new.seen }
        ensures most { src.new.most ≡ src.old.most }
        ensures lies { IfOk result (λ extent. LiesAfterHeader at extent.at extent.size) }
        ensures reads { (file : List ℕ) → src.old.seen.file ≡ Some file →
            IfSome (extent_of_names names) (IsInBounds (length file)) →
            ReadsMemberName file (extent_of_names names) at row self.old self.new result }
    {
        let (extent, is_cut) = read_named(src, names, at, &mut self.name)?;
        if self.places.len() >= self.most {
            return refused(at, LinkCause::TooManyRows);
        }
        let room = self.room;
        let bytes = self.name.bytes();
        let Some(name) = append(&mut self.bytes, bytes, room) else {
            return refused(at, LinkCause::TooManyRows);
        };
        if self.places.push(NamePlace { row, name, is_cut }).is_err() {
            return refused(at, LinkCause::TooManyRows);
        }
        Ok(extent)
    }

    /// Returns the name of the member of a row, and whether it has more bytes than are shown.
    pub(crate) fn name(&self, row: u32) -> (&[u8], bool)
        ensures { RowsAscend self.now →
            shown_as result.1 result.0.now ≡ name_of_row_in self.now row }
    {
        let NamePlace { name, is_cut, .. } = place_of_row(&self.places, row);
        (part_of(&self.bytes, name.start, name.size), is_cut)
    }
}

/// Returns the place of the name of a row, which is empty if it has none; places are in the order of
/// their rows.
fn place_of_row(places: &[NamePlace], row: u32) -> NamePlace
    ensures { IsStrictlyIncreasing (map row_of_place places.now) →
        result ≡ place_in places.now row }
{
    let index = first_from(places, row);
    match places.get(index) {
        Some(place) if place.row == row => *place,
        _ => NamePlace {
            row,
            name: NO_TEXT,
            is_cut: false,
        },
    }
}

/// Appends a name, and returns its place; `None` if `room` bytes have no room for it.
fn append(bytes: &mut Vec<u8>, name: &[u8], room: usize) -> Option<HeldText>
    ensures { AppendsName bytes.old.items bytes.new.items name.now result }
{
    let start = bytes.len();
    let size = name.len();
    if size > room.saturating_sub(start) || bytes.extend_from_slice(name).is_err() {
        return None;
    }
    Some(HeldText { start, size })
}

/// Returns the index of the first place of a row or a later one; places are in the order of their
/// rows.
fn first_from(places: &[NamePlace], row: u32) -> usize
    ensures { IsStrictlyIncreasing (map row_of_place places.now) →
        IsFirstFrom (map row_of_place places.now) row result }
{
    let mut low = 0;
    let mut high = places.len();
    while low < high {
        let middle = low + (high - low) / 2;
        if places[middle].row < row {
            low = middle + 1;
        } else {
            high = middle;
        }
    }
    low
}

/// Reads the header and the name of the member at an offset, and returns its data, and whether the
/// name has more bytes than are shown. `names` is the table of names.
///
/// # Errors
/// `MemberCut` there if there is no member; those of the header and of the name.
fn read_named<S: Source>(
    src: &mut Counted<S>,
    names: Option<FileRange>,
    at: u64,
    name: &mut NameBuf,
) -> Result<(FileRange, bool), LinkFault>
    ensures keeps { KeepsSource src.old.seen src.new.seen }
    ensures most { src.new.most ≡ src.old.most }
    ensures lies { IfOk result (λ read. LiesAfterHeader at read.0.at read.0.size) }
    ensures reads { (file : List ℕ) → src.old.seen.file ≡ Some file →
        IfSome (extent_of_names names) (IsInBounds (length file)) →
        ReadsNamedMember file (extent_of_names names) at name.new result }
{
    let length = src.length();
    if length >= 1 << 63 || at >= length {
        return file_refused(at, Cause::MemberCut);
    }
    let names = range_within(src, names);
    let mut header = [0; MEMBER_HEADER_BYTES];
    let extent = read_member_header(src, at, &mut header)?;
    let is_cut = read_member_name(src, names, &header, at, NAME_CAP, name)?;
    Ok((extent, is_cut))
}

/// Returns a range if it lies within a source.
fn range_within<S: Source>(src: &Counted<S>, range: Option<FileRange>) -> Option<FileRange>
    ensures lies { IfSome (extent_of_names result) (IsInBounds src.now.seen.size) }
    ensures same { IfSome (extent_of_names range) (IsInBounds src.now.seen.size) →
        result ≡ range }
{
    let length = src.length();
    let Some(range) = range else {
        return None;
    };
    if range.at > length || range.size > length - range.at {
        return None;
    }
    Some(range)
}
