//! The members of an open archive that are taken, by its index or each by itself.
ghost use Rattle.std.specs.Prelude.{◌≡◌, ◌≤◌, ◌++◌, ℕ, List, [], ◌∷◌, OnOk, IfErr, IfOk, IsErr, None, Some, drop, false, length, map, replicate};
ghost use Rattle.std.specs.List.{slice_get};
ghost use Rattle.elf_model.specs.Archive.{bytes_in};
ghost use Rattle.elf_model.specs.LinkArchives.{LinkFiles, LinkMember, files_as_inputs, link_members, member_bytes, members_as_objects, or_empty, whole_members};
ghost use Rattle.elf_model.specs.LinkInputs.{archive_again, input_taken, members_taken, whole_row, with_object};
ghost use Rattle.elf_model.specs.LinkPasses.{archive_searched};
ghost use Rattle.elf_model.specs.LinkSymbols.{object_of};
ghost use Rattle.elf_resolve.specs.KeptLimits.{KeepsLimits};
ghost use Rattle.elf_resolve.specs.LinkMembers.{TakesMember, file_of_range};
ghost use Rattle.elf_resolve.specs.OpenedArchives.{HasMembers, SameOutside, archive_in, archive_of_input};
ghost use Rattle.elf_resolve.specs.Passing.{TookObject, pass_of};
ghost use Rattle.elf_resolve.specs.Ranges.{IsRangeOf};
ghost use Rattle.elf_resolve.specs.Resolved.{elements_in, linking_of, open_archive};
ghost use Rattle.elf_resolve.specs.ResolvedInputs.{EntersIndex, IsArchiveAt, IsLink, KeepsArchives, KeptArchive, OpenedAs, TookInput, TookMembers};
ghost use Rattle.elf_resolve.specs.SearchStops.{EndsSearch};
ghost use Rattle.elf_resolve.specs.Taken.{IsLinkFault, header_of};
ghost use Rattle.elf_resolve.specs.RowNames.{AddsName, KeepsMemberNames, member_names};

use crate::archives::{ArchiveTables, OpenedArchive};
use crate::link_faults::{LinkFault, refused};
use crate::members::MembersOfArchive;
use crate::passes::{ArchiveInput, Link, search_archive};
use crate::room::LinkRoom;
use crate::table::{KeyTable, LinkStop};
use elf_model::{LinkCause, LinkRow, LinkRowKind};
use elf_source::{Counted, RangeSource, Source};

/// Adds marks of members that are not taken.
///
/// # Errors
/// There is no room for them.
pub(crate) fn add_marks(taken: &mut Vec<bool>, count: usize) -> Result<(), LinkFault>
    ensures marks { OnOk result (taken.new.items ≡ taken.old.items ++ replicate count false) }
    ensures limit { IfErr result (IsLinkFault None) }
{
    for added in 0..count {
        if taken.push(false).is_err() {
            return refused(0, LinkCause::TooManyRows);
        }
    }
    Ok(())
}

/// A member of an archive, and its row.
#[derive(Clone, Copy)]
pub(crate) struct MemberPlace {
    pub archive: OpenedArchive,
    pub member: u32,
    pub row: u32,
}

/// Takes a member of an archive.
///
/// # Errors
/// The first fault of the member.
pub(crate) fn take_member<S: Source>(
    src: &mut Counted<RangeSource<S>>,
    room: &mut LinkRoom,
    tables: &ArchiveTables,
    place: MemberPlace,
    keys: &mut KeyTable<'_>,
) -> Result<(), LinkFault>
    ensures below { src.new.seen.whole ≡ src.old.seen.whole }
    ensures most { src.new.most ≡ src.old.most }
    ensures headers { room.new.headers ≡ room.old.headers }
    ensures takes { (file : List ℕ) → file_of_range src.old.seen ≡ Some file →
        HasMembers file tables.now.members.items place.archive →
        OnOk result (TookObject
        (or_empty (object_of (member_bytes file (link_members file).members place.member)
        room.old.headers)) keys.old keys.new place.row) }
    ensures stops { (files : LinkFiles) (file : List ℕ) → file_of_range src.old.seen ≡ Some file →
        HasMembers file tables.now.members.items place.archive →
        files.headers ≡ room.old.headers →
        TakesMember files file place.member place.row keys.old keys.new result }
    ensures names { (file : List ℕ) → file_of_range src.old.seen ≡ Some file →
        HasMembers file tables.now.members.items place.archive → OnOk result (AddsName
        room.old.names room.new.names place.row (member_names (Some file) place.member)) }
{
    let members = range_of(&tables.members, place.archive.members);
    let mut objects = MembersOfArchive {
        src,
        room,
        archive: place.archive,
        members,
        fault: None,
        asked: None,
    };
    objects.take_member(place.member, place.row, keys)
}

/// How a search of an archive ended: its result, and if a member cannot be read its fault, and the
/// member, if it is one that is not taken.
#[derive(Drop)]
pub(crate) struct SearchEnd {
    pub ended: Result<(), LinkStop>,
    pub fault: Option<LinkFault>,
    pub asked: Option<u32>,
}

/// Takes the members of an archive that its index asks for.
#[tactic(auto, using(crate::proofs::ReadBudgetLaws::limit_of_number))]
pub(crate) fn search_members<S: Source>(
    link: &mut Link<'_>,
    room: &mut LinkRoom,
    tables: &ArchiveTables,
    taken: &mut [bool],
    src: &mut Counted<RangeSource<S>>,
    archive: OpenedArchive,
) -> SearchEnd
    ensures headers { room.new.headers ≡ room.old.headers }
    ensures outside { IsRangeOf archive.members.0 archive.members.1 (length taken.old) →
        SameOutside taken.old taken.new archive.members }
    ensures searches { (file : List ℕ) → file_of_range src.old.seen ≡ Some file →
        HasMembers file tables.now.members.items archive →
        IsRangeOf archive.members.0 archive.members.1 (length taken.old) →
        IsRangeOf archive.entries.0 archive.entries.1 (length tables.now.entries.items) →
        OnOk result.ended (pass_of link.new (elements_in taken.new archive.members)
        ≡ archive_searched
        (archive_in archive file room.old.headers)
        (elements_in tables.now.entries.items archive.entries)
        (pass_of link.old (elements_in taken.old archive.members))) }
    ensures limits { (file : List ℕ) → file_of_range src.old.seen ≡ Some file →
        HasMembers file tables.now.members.items archive →
        OnOk result.ended (KeepsLimits link.old.keys link.new.keys) }
    ensures room { link.new.rows.most ≡ link.old.rows.most }
    ensures stops { (file : List ℕ) → file_of_range src.old.seen ≡ Some file →
        HasMembers file tables.now.members.items archive →
        IsRangeOf archive.members.0 archive.members.1 (length taken.old) →
        IsRangeOf archive.entries.0 archive.entries.1 (length tables.now.entries.items) →
        EndsSearch room.old.headers file archive.input link.old.rows.rows link.new.rows.rows
        (archive_searched (archive_in archive file room.old.headers)
        (elements_in tables.now.entries.items archive.entries)
        (pass_of link.old (elements_in taken.old archive.members))).rows
        result.fault result.asked result.ended }
    ensures names { (file : List ℕ) → file_of_range src.old.seen ≡ Some file →
        HasMembers file tables.now.members.items archive → OnOk result.ended
        (KeepsMemberNames archive.input (member_names (Some file)) link.old.rows.rows
        link.new.rows.rows room.old.names room.new.names) }
    ensures most { src.new.most ≡ src.old.most }
{
    let members = range_of(&tables.members, archive.members);
    let entries = range_of(&tables.entries, archive.entries);
    let (start, end) = within(archive.members, taken.len());
    let mut objects = MembersOfArchive {
        src,
        room,
        archive,
        members,
        fault: None,
        asked: None,
    };
    let input = ArchiveInput {
        input: archive.input,
        row: archive.row,
    };
    let ended = search_archive(link, input, &mut taken[start..end], entries, &mut objects);
    let fault = objects.fault;
    let asked = objects.asked;
    SearchEnd {
        ended,
        fault,
        asked,
    }
}

/// Returns a range of indexes, or an empty one if it is none of so many elements.
fn within(range: (usize, usize), count: usize) -> (usize, usize)
    ensures is_range { IsRangeOf result.0 result.1 count }
    ensures same { IsRangeOf range.0 range.1 count → result ≡ range }
{
    let (start, end) = range;
    if start > end || end > count {
        return (0, 0);
    }
    (start, end)
}

/// Returns the elements from an index to another; none if there are not so many.
pub(crate) fn range_of<T>(elements: &[T], range: (usize, usize)) -> &[T]
    ensures { IsRangeOf range.0 range.1 (length elements.now) →
        result.now ≡ elements_in elements.now range }
{
    let (start, end) = within(range, elements.len());
    &elements[start..end]
}

/// Returns the element of an index, if there is one.
#[tactic(auto, using(std::proofs::lemmas::Option::slice_get_past, std::proofs::lemmas::Option::slice_get_read))]
pub(crate) fn element_at<T: Copy>(elements: &[T], index: usize) -> Option<T>
    ensures { result ≡ slice_get elements.now index }
{
    if index < elements.len() {
        return Some(elements[index]);
    }
    None
}

/// Returns the row of a member that is taken for no key.
pub(crate) fn member_row(archive: OpenedArchive, member: u32) -> LinkRow
    ensures { result ≡ whole_row archive.input archive.row member }
{
    LinkRow {
        kind: LinkRowKind::Member,
        input: archive.input,
        archive: Some(archive.row),
        member: Some(member),
        reason: None,
    }
}
