//! The index of an archive: of each name that a member defines, the member.
ghost use Rattle.std.specs.Prelude.{◌≡◌, ◌<◌, ◌≤◌, ◌+◌, ◌*◌, ◌^◌, IfSome, List, None, ℕ, Some, drop, length, map, reverse};
ghost use Rattle.std.specs.List.Sorted.{IsStrictlyIncreasing};
ghost use Rattle.elf_archive.specs.Members.{extent_of};
ghost use Rattle.elf_model.specs.Bytes.{number};
ghost use Rattle.elf_model.specs.LinkArchives.{LinkMember, big, index_symbols, is_archive_index, link_members, members_refusal};
ghost use Rattle.elf_source.specs.Prelude.{KeepsSource};
ghost use Rattle.elf_resolve.specs.ArchiveIndexes.{EndsName, EntersDefault, EntersEntry, EntersIndexBy, EntersKey, EntersName, FindsIndex, FindsParts, HasParts, HoldsIndex, NumbersMember, width_at};
ghost use Rattle.elf_resolve.specs.ListRooms.{KeepsWithin};
ghost use Rattle.elf_resolve.specs.StringBuffers.{HoldsText, KeptTexts};
ghost use Rattle.elf_resolve.specs.Taken.{ReadsIndex, header_of};

use crate::archives::{ArchiveTables, member_with_header, members_from, read_header_at};
use crate::index_parts::{EntryPlace, IndexParts};
use crate::link_faults::{LinkFault, full, refused};
use crate::string_buffer::{HeldText, StringBuffer, part_of, split_version};
use crate::table::KeyTable;
use elf_archive::{FileRange, MEMBER_HEADER_BYTES};
use elf_model::{IndexEntry, LinkCause};
use elf_record::u64_at;
use elf_source::{Counted, Source};

/// The file offset of the first member's header, in bytes.
const FIRST_AT: u64 = 8;

/// The first eight bytes of the name field of an index of offsets of 32 bits, and of 64 bits.
const INDEX_32: u64 = 0x2020_2020_2020_202f;

const INDEX_64: u64 = 0x202f_3436_4d59_532f;

/// The other eight bytes.
const SPACES: u64 = 0x2020_2020_2020_2020;

/// Reads the index of an archive whose members, from `first` on, are the last ones, and adds its
/// entries.
///
/// # Errors
/// `NoIndex` at 8 if there are members and the first is no index, `IndexCut` there if it ends before
/// its entries, `IndexMember` at an offset of no member; there is no room for the index, a key or an
/// entry.
pub(crate) fn read_index<S: Source>(
    src: &mut Counted<S>,
    tables: &mut ArchiveTables,
    first: usize,
    strings: &mut StringBuffer,
    keys: &mut KeyTable<'_>,
) -> Result<(), LinkFault>
    ensures keeps { KeepsSource src.old.seen src.new.seen }
    ensures most { src.new.most ≡ src.old.most }
    ensures members { tables.new.members ≡ tables.old.members }
    ensures archives { tables.new.archives ≡ tables.old.archives }
    ensures within { KeepsWithin tables.old tables.new }
    ensures reads { (file : List ℕ) → src.old.seen.file ≡ Some file →
        drop first tables.old.members.items ≡ map header_of (link_members file).members →
        first ≤ length tables.old.members.items →
        members_refusal file ≡ None →
        ReadsIndex file keys.old keys.new tables.old.entries.items tables.new.entries.items result }
{
    if tables.members.len() <= first {
        return Ok(());
    }
    strings.forget_after(0);
    let parts = index_parts(src, strings)?;
    enter_index(tables, first, strings, parts, keys)
}

/// Adds the entries of an index in a buffer, whose members are those from `first` on.
///
/// # Errors
/// Those of [`enter_entry`].
fn enter_index(
    tables: &mut ArchiveTables,
    first: usize,
    strings: &mut StringBuffer,
    parts: IndexParts,
    keys: &mut KeyTable<'_>,
) -> Result<(), LinkFault>
    ensures members { tables.new.members ≡ tables.old.members }
    ensures archives { tables.new.archives ≡ tables.old.archives }
    ensures within { KeepsWithin tables.old tables.new }
    ensures enters { (bytes : List ℕ) (start : ℕ) (members : List LinkMember) →
        HoldsIndex strings.old.bytes bytes start parts →
        drop first tables.old.members.items ≡ map header_of members →
        IsStrictlyIncreasing (map header_of members) →
        EntersIndexBy (index_symbols members bytes start parts.width 0 parts.count
        (drop (parts.width * (parts.count + 1)) bytes)) keys.old keys.new
        tables.old.entries.items tables.new.entries.items result }
{
    let used = strings.used();
    let mut name = 0;
    for index in 0..parts.count {
        let place = EntryPlace { index, name };
        name = enter_entry(tables, first, strings, parts, place, keys)?;
        strings.forget_after(used);
    }
    Ok(())
}

/// Adds an entry of an index in a buffer, and returns the index of the next one's name.
///
/// # Errors
/// `IndexCut` at 8 if its name has no end, `IndexMember` at its offset if that is of no member;
/// there is no room for a key or an entry.
fn enter_entry(
    tables: &mut ArchiveTables,
    first: usize,
    strings: &mut StringBuffer,
    parts: IndexParts,
    place: EntryPlace,
    keys: &mut KeyTable<'_>,
) -> Result<usize, LinkFault>
    ensures members { tables.new.members ≡ tables.old.members }
    ensures archives { tables.new.archives ≡ tables.old.archives }
    ensures within { KeepsWithin tables.old tables.new }
    ensures stays { KeptTexts strings.old strings.new }
    ensures enters { (bytes : List ℕ) (start : ℕ) (members : List LinkMember) →
        HoldsIndex strings.old.bytes bytes start parts →
        drop first tables.old.members.items ≡ map header_of members →
        IsStrictlyIncreasing (map header_of members) → place.index < parts.count →
        EntersEntry members bytes start parts place keys.old keys.new
        tables.old.entries.items tables.new.entries.items result }
{
    let name = entry_name(strings, parts.names, place.name)?;
    let next = place.name.saturating_add(name.size).saturating_add(1);
    let at = parts.place(place.index);
    let offset = parts.offset(strings, place.index);
    let member = member_of_entry(members_from(&tables.members, first), offset, at)?;
    let entry = index_entry(strings, name, member, at, keys)?;
    tables.add_entry(entry, at)?;
    Ok(next)
}

/// Returns the index of the member whose header is at the offset of an entry, which is itself at a
/// file offset.
///
/// # Errors
/// Refused there: `IndexMember` if there is no such member, `TooManyRows` if its index has more than
/// 32 bits.
fn member_of_entry(members: &[u64], offset: u64, at: u64) -> Result<u32, LinkFault>
    ensures { (known : List LinkMember) → members.now ≡ map header_of known →
        IsStrictlyIncreasing members.now → NumbersMember known offset at result }
{
    match member_with_header(members, offset) {
        Some(member) => match u32::try_from(member) {
            Ok(member) => Ok(member),
            Err(_) => refused(at, LinkCause::TooManyRows),
        },
        None => refused(at, LinkCause::IndexMember),
    }
}

impl IndexParts {
    /// Returns the file offset of the offset of an entry.
    fn place(&self, index: u64) -> u64
        ensures { index < self.now.count → self.now.at + self.now.count * self.now.width < 2 ^ 64 →
            result ≡ self.now.at + index * self.now.width }
    {
        self.at
            .saturating_add(index.saturating_mul(self.width as u64))
    }

    /// Returns the offset of an entry's member.
    fn offset(&self, strings: &StringBuffer, index: u64) -> u64
        ensures { (bytes : List ℕ) (start : ℕ) →
            HoldsIndex strings.now.bytes bytes start self.now → index < self.now.count →
            result ≡ big bytes (self.now.width * (index + 1)) self.now.width }
    {
        let start = (index as usize).saturating_mul(self.width);
        number_at(strings.bytes(self.offsets), start, self.width)
    }
}

/// Reads an index, which is the first member, and finds its parts.
///
/// # Errors
/// `NoIndex` at 8 if that is no index, `IndexCut` there if it ends within its count or its offsets;
/// there is no room for it.
fn index_parts<S: Source>(
    src: &mut Counted<S>,
    strings: &mut StringBuffer,
) -> Result<IndexParts, LinkFault>
    ensures keeps { KeepsSource src.old.seen src.new.seen }
    ensures most { src.new.most ≡ src.old.most }
    ensures finds { (file : List ℕ) → src.old.seen.file ≡ Some file →
        FindsIndex file strings.new.bytes result }
{
    let mut header = [0; MEMBER_HEADER_BYTES];
    let extent = read_header_at(src, FIRST_AT, &mut header)?;
    match index_width(&header) {
        Some(width) => read_parts(src, strings, extent, width),
        None => refused(FIRST_AT, LinkCause::NoIndex),
    }
}

/// Reads an index of numbers of `width` bytes, and finds its parts.
///
/// # Errors
/// Those of [`parts_of`]; there is no room for it.
fn read_parts<S: Source>(
    src: &mut Counted<S>,
    strings: &mut StringBuffer,
    extent: FileRange,
    width: usize,
) -> Result<IndexParts, LinkFault>
    requires { (0 < width) × (width ≤ 8) }
    ensures keeps { KeepsSource src.old.seen src.new.seen }
    ensures most { src.new.most ≡ src.old.most }
    ensures finds { (file : List ℕ) (members : List LinkMember) → src.old.seen.file ≡ Some file →
        extent.at + extent.size ≤ length file → extent.at + extent.size < 2 ^ 63 →
        FindsParts file members width (extent_of extent) strings.new.bytes result }
{
    let index = strings.read(src, extent.at, extent.size, FIRST_AT)?;
    parts_of(strings, index, extent.at, width)
}

/// Returns the parts of an index of numbers of `width` bytes, which is at a file offset.
///
/// # Errors
/// `IndexCut` at 8 if it ends within its count or its offsets.
fn parts_of(
    strings: &StringBuffer,
    index: HeldText,
    at: u64,
    width: usize,
) -> Result<IndexParts, LinkFault>
    requires { (0 < width) × (width ≤ 8) }
    ensures { (bytes : List ℕ) → HoldsText strings.now.bytes index bytes →
        at + length bytes < 2 ^ 63 → HasParts strings.now.bytes bytes at width result }
{
    if index.size < width {
        return refused(FIRST_AT, LinkCause::IndexCut);
    }
    let count = number_at(strings.bytes(index), 0, width);
    let left = index.size - width;
    if count > (left / width) as u64 {
        return refused(FIRST_AT, LinkCause::IndexCut);
    }
    let start = index.start.saturating_add(width);
    let size = (count as usize).saturating_mul(width);
    Ok(IndexParts {
        at: at.saturating_add(width as u64),
        width,
        count,
        offsets: HeldText { start, size },
        names: HeldText {
            start: start.saturating_add(size),
            size: left.saturating_sub(size),
        },
    })
}

/// Returns how many bytes the numbers of an index have, by the header of the first member, or `None`
/// if that is no index.
fn index_width(header: &[u8; MEMBER_HEADER_BYTES]) -> Option<usize>
    ensures width { result ≡ width_at header.now 0 }
    ensures narrow { IfSome result (λ width. (0 < width) × (width ≤ 8)) }
{
    if u64_at(header, 8) != SPACES {
        return None;
    }
    match u64_at(header, 0) {
        INDEX_32 => Some(4),
        INDEX_64 => Some(8),
        _ => None,
    }
}

/// Returns `true` if the header of a member is that of an index.
pub(crate) fn is_index(header: &[u8; MEMBER_HEADER_BYTES]) -> bool
    ensures { result ≡ is_archive_index header.now 0 }
{
    let first = u64_at(header, 0);
    u64_at(header, 8) == SPACES && (first == INDEX_32 || first == INDEX_64)
}

/// Returns the number that the `width` bytes from an index on are, the most significant first; 0 if
/// there are not so many.
fn number_at(bytes: &[u8], start: usize, width: usize) -> u64
    requires { width ≤ 8 }
    ensures { start + width ≤ length bytes.now → result ≡ big bytes.now start width }
{
    big_endian(part_of(bytes, start, width))
}

/// Returns the number that some bytes are, the most significant first.
fn big_endian(bytes: &[u8]) -> u64
    requires { length bytes.now ≤ 8 }
    ensures { result ≡ number (reverse bytes.now) }
{
    let mut number: u64 = 0;
    for byte in bytes {
        number = 256 * number + u64::from(*byte);
    }
    number
}

/// Returns the name of an entry, which begins at an index of the names.
///
/// # Errors
/// `IndexCut` at 8 if the names end before it does.
fn entry_name(strings: &StringBuffer, names: HeldText, index: usize) -> Result<HeldText, LinkFault>
    ensures { (is : List ℕ) → HoldsText strings.now.bytes names is →
        EndsName strings.now.bytes is index result }
{
    if index >= names.size {
        return refused(FIRST_AT, LinkCause::IndexCut);
    }
    match strings.name(names, index as u64, FIRST_AT) {
        Ok(name) => Ok(name),
        Err(_) => refused(FIRST_AT, LinkCause::IndexCut),
    }
}

/// Enters the keys of a name of an index.
///
/// # Errors
/// There is no room for them.
fn index_entry(
    strings: &mut StringBuffer,
    name: HeldText,
    member: u32,
    at: u64,
    keys: &mut KeyTable<'_>,
) -> Result<IndexEntry, LinkFault>
    ensures stays { KeptTexts strings.old strings.new }
    ensures enters { (is : List ℕ) → HoldsText strings.old.bytes name is →
        EntersName is member keys.old keys.new result }
{
    match split_version(strings.bytes(name), name) {
        Some(parts) => default_entry(strings, parts, member, at, keys),
        None => {
            let key = enter(strings, name, at, keys)?;
            Ok(IndexEntry {
                key,
                default_key: key,
                member,
            })
        }
    }
}

/// Enters the keys of a name with a default version: that of the name and the version, and that of
/// the name.
///
/// # Errors
/// There is no room for them.
fn default_entry(
    strings: &mut StringBuffer,
    parts: (HeldText, HeldText),
    member: u32,
    at: u64,
    keys: &mut KeyTable<'_>,
) -> Result<IndexEntry, LinkFault>
    ensures stays { KeptTexts strings.old strings.new }
    ensures enters { (name version : List ℕ) → HoldsText strings.old.bytes parts.0 name →
        HoldsText strings.old.bytes parts.1 version →
        EntersDefault name version member keys.old keys.new result }
{
    let joined = strings.join(parts.0, parts.1, at)?;
    let key = enter(strings, joined, at, keys)?;
    let default_key = enter(strings, parts.0, at, keys)?;
    Ok(IndexEntry {
        key,
        default_key,
        member,
    })
}

/// Enters a key.
///
/// # Errors
/// There is no room for it.
fn enter(
    strings: &StringBuffer,
    name: HeldText,
    at: u64,
    keys: &mut KeyTable<'_>,
) -> Result<u32, LinkFault>
    ensures { (is : List ℕ) → HoldsText strings.now.bytes name is →
        EntersKey keys.old keys.new is result }
{
    match keys.enter(strings.bytes(name)) {
        Ok(key) => Ok(key),
        Err(fault) => Err(full(at, fault)),
    }
}
