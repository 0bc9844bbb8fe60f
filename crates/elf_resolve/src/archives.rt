//! The archives of a link: their members, and the entries of their indexes.
ghost use Rattle.std.specs.Prelude.{◌≡◌, ◌<◌, ◌≤◌, ◌^◌, [], IfOk, OnErr, List, ℕ, Some, drop, get_or, length, map};
ghost use Rattle.std.specs.List.Sorted.{IsStrictlyIncreasing};
ghost use Rattle.elf_archive.specs.Members.{extent_of, extent_of_names, names_passed};
ghost use Rattle.elf_model.specs.LinkArchives.{LinkMember, link_member_at};
ghost use Rattle.elf_source.specs.Prelude.{KeepsSource};
ghost use Rattle.elf_resolve.specs.Taken.{WalksMembers, header_of};
ghost use Rattle.elf_resolve.specs.ListRooms.{KeepsWithin};
ghost use Rattle.elf_resolve.specs.MemberExtents.{LiesAfterHeader, ReadsMemberHeader};
ghost use Rattle.elf_resolve.specs.MemberWalks.{AddsElement, PassesMembers};

use crate::link_faults::{LinkFault, refused};
use elf_archive::{
    FileRange, MEMBER_HEADER_BYTES, is_name_table, padded_end, read_archive_magic,
    read_member_header,
};
use elf_model::{IndexEntry, LinkCause, LinkRefusal};
use elf_record::Cause;
use elf_source::{Counted, Source};
use std::alloc::{AllocError, Global};

/// The offset of the first member, in bytes.
const MAGIC_BYTES: u64 = 8;

/// An archive of a link.
#[derive(Clone, Copy)]
pub(crate) struct OpenedArchive {
    /// The index of its input.
    pub input: u32,
    /// Its row.
    pub row: u32,
    /// Its members, among those of all archives: the index of the first, and that after the last.
    pub members: (usize, usize),
    /// The entries of its index, among those of all archives.
    pub entries: (usize, usize),
    /// The data of its table of names, if there is one.
    pub names: Option<FileRange>,
}

/// The members and the entries of all archives, in memory that is allocated once.
#[derive(Drop)]
pub(crate) struct ArchiveTables {
    /// The archives, in the order in which they were opened.
    pub archives: Vec<OpenedArchive>,
    /// The file offset of the header of each member in its archive.
    pub members: Vec<u64>,
    /// The entries.
    pub entries: Vec<IndexEntry>,
    most: usize,
}

impl ArchiveTables {
    /// Creates tables for `index` members and entries of at most `rows` archives.
    ///
    /// # Errors
    /// Out of memory.
    pub(crate) fn new(alloc: Global, index: u32, rows: u32) -> Result<ArchiveTables, AllocError>
        ensures empty { IfOk result (λ tables. (tables.archives.items ≡ [])
            × (tables.members.items ≡ [])) }
        ensures entries { IfOk result
            (λ tables. (tables.entries.items ≡ []) × (tables.most ≡ index)) }
    {
        let most = index as usize;
        Ok(ArchiveTables {
            archives: Vec::with_capacity(alloc, rows as usize)?,
            members: Vec::with_capacity(alloc, most)?,
            entries: Vec::with_capacity(alloc, most)?,
            most,
        })
    }

    /// Reads the headers of the members of an archive, each once, and adds the members. Returns the
    /// data of the table of names, if there is one.
    ///
    /// # Errors
    /// Those of the magic string and of the members; `TooManyRows` at a member that there is no
    /// room for.
    pub(crate) fn walk<S: Source>(
        &mut self,
        src: &mut Counted<S>,
    ) -> Result<Option<FileRange>, LinkFault>
        ensures keeps { KeepsSource src.old.seen src.new.seen }
        ensures most { src.new.most ≡ src.old.most }
        ensures archives { self.new.archives ≡ self.old.archives }
        ensures entries { self.new.entries ≡ self.old.entries }
        ensures limit { self.new.most ≡ self.old.most }
        ensures walks { (file : List ℕ) → src.old.seen.file ≡ Some file →
            WalksMembers file self.old.members.items self.new.members.items result }
    {
        read_archive_magic(src)?;
        self.pass_members(src)
    }

    /// Reads the headers of the members, and adds the members. Returns the data of the table of
    /// names, if there is one.
    ///
    /// # Errors
    /// Those of the members; `TooManyRows` at a member that there is no room for.
    fn pass_members<S: Source>(
        &mut self,
        src: &mut Counted<S>,
    ) -> Result<Option<FileRange>, LinkFault>
        ensures keeps { KeepsSource src.old.seen src.new.seen }
        ensures most { src.new.most ≡ src.old.most }
        ensures archives { self.new.archives ≡ self.old.archives }
        ensures entries { self.new.entries ≡ self.old.entries }
        ensures limit { self.new.most ≡ self.old.most }
        ensures passes { (file : List ℕ) → src.old.seen.file ≡ Some file → length file < 2 ^ 63 →
            PassesMembers file self.old.members.items self.new.members.items result }
    {
        let mut at = MAGIC_BYTES;
        let mut names = None;
        while at < src.length() {
            let mut header = [0; MEMBER_HEADER_BYTES];
            let extent = read_header_at(src, at, &mut header)?;
            names = first_table(names, &header, extent);
            self.add_member(at)?;
            at = padded_end(at, extent.at + extent.size);
        }
        Ok(names)
    }

    /// Adds a member whose header is at a file offset.
    ///
    /// # Errors
    /// `TooManyRows` there if there is no room for it.
    fn add_member(&mut self, at: u64) -> Result<(), LinkFault>
        ensures archives { self.new.archives ≡ self.old.archives }
        ensures entries { self.new.entries ≡ self.old.entries }
        ensures limit { self.new.most ≡ self.old.most }
        ensures adds { AddsElement self.old.members.items self.new.members.items at at result }
    {
        if self.members.len() >= self.most || self.members.push(at).is_err() {
            return refused(at, LinkCause::TooManyRows);
        }
        Ok(())
    }

    /// Adds an entry of an index, whose offset is at a file offset.
    ///
    /// # Errors
    /// `TooManyRows` there if there is no room for it.
    pub(crate) fn add_entry(&mut self, entry: IndexEntry, at: u64) -> Result<(), LinkFault>
        ensures archives { self.new.archives ≡ self.old.archives }
        ensures members { self.new.members ≡ self.old.members }
        ensures within { KeepsWithin self.old self.new }
        ensures adds { AddsElement self.old.entries.items self.new.entries.items entry at result }
    {
        if self.entries.len() >= self.most || self.entries.push(entry).is_err() {
            return refused(at, LinkCause::TooManyRows);
        }
        Ok(())
    }
}

/// Returns the data of the table of names after a member: the first one decides.
fn first_table(
    names: Option<FileRange>,
    header: &[u8; MEMBER_HEADER_BYTES],
    extent: FileRange,
) -> Option<FileRange>
    ensures { extent_of_names result
        ≡ names_passed (extent_of_names names) header.now (extent_of extent) }
{
    match names {
        Some(table) => Some(table),
        None if is_name_table(header) => Some(extent),
        None => None,
    }
}

/// Reads the header of the member at an offset, and returns its data.
///
/// Returns the file offset of the header of a member.
///
/// # Errors
/// There is no such member.
pub(crate) fn place_of(members: &[u64], member: u32) -> Result<u64, LinkFault>
    ensures place { IfOk result (λ at. (member < length members.now)
        × (at ≡ get_or members.now member 0)) }
    ensures none { OnErr result (length members.now ≤ member) }
{
    match members.get(member as usize) {
        Some(at) => Ok(*at),
        None => Err(member_cut(0)),
    }
}

/// # Errors
/// `MemberCut` there if there is none, or it does not lie within the file; those of reading it.
pub(crate) fn read_header_at<S: Source>(
    src: &mut Counted<S>,
    at: u64,
    header: &mut [u8; MEMBER_HEADER_BYTES],
) -> Result<FileRange, LinkFault>
    ensures lies { IfOk result (λ extent. LiesAfterHeader at extent.at extent.size) }
    ensures keeps { KeepsSource src.old.seen src.new.seen }
    ensures most { src.new.most ≡ src.old.most }
    ensures reads { (file : List ℕ) → src.old.seen.file ≡ Some file →
        ReadsMemberHeader file at header.new result }
{
    let length = src.length();
    if length >= 1 << 63 || at >= length {
        return Err(member_cut(at));
    }
    match read_member_header(src, at, header) {
        Ok(extent) => Ok(extent),
        Err(fault) => Err(LinkFault::from(fault)),
    }
}

/// Returns the refusal of a member that does not lie within its file, at a file offset.
pub(crate) fn member_cut(at: u64) -> LinkFault
    ensures { result ≡ LinkFault.Refused (record {
      at = at;
      cause = LinkCause.Refused Cause.MemberCut;
    }) }
{
    LinkFault::Refused(LinkRefusal {
        at,
        cause: LinkCause::Refused(Cause::MemberCut),
    })
}

/// Returns the members from an index on.
pub(crate) fn members_from(members: &[u64], first: usize) -> &[u64]
    ensures { result.now ≡ drop first members.now }
{
    match members.split_at_checked(first) {
        Some((_, rest)) => rest,
        None => &[],
    }
}

/// Returns the index halfway between two.
fn middle_of(low: usize, high: usize) -> usize {
    low.saturating_add(high.saturating_sub(low) / 2)
}

/// Returns the index of the member whose header is at an offset, of members in the order of their
/// offsets.
pub(crate) fn member_with_header(members: &[u64], offset: u64) -> Option<usize>
    ensures { (known : List LinkMember) → members.now ≡ map header_of known →
        IsStrictlyIncreasing members.now → link_member_at known offset ≡ result }
{
    members.binary_search(&offset).ok()
}
