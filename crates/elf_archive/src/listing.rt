//! The listing of an archive: its members, and after each that is an ELF file its own listing.
ghost use Rattle.std.specs.Prelude.{◌≡◌, ℕ, ◌+◌, ◌-◌, ◌^◌, ◌<◌, ◌≤◌, List, length, is_some, Some, IfErr};
ghost use Rattle.elf_model.specs.Prelude.{allowance, any_refused, archive_cost, archive_length_checks, before_members, fault_of, first_refusal, line_before, member_line, members_cost, members_of, told, walk_items};
ghost use Rattle.elf_model.specs.declared.causes.Refusal.{Refusal as Refuses};
ghost use Rattle.elf_options.specs.Permitted.{style_of};
ghost use Rattle.elf_listing.specs.Reports.{KeepsSourceUnlimited};
ghost use Rattle.elf_source.specs.Growth.{OutGrows};
ghost use Rattle.elf_archive.specs.Listed.{ArchiveSays, AsksInArchive, GoesThrough, GoesThroughMember, HoldsPart, IsAll};
ghost use Rattle.elf_archive.specs.Listed.{ListsArchive, ListsMembers, ReportsArchive, StepsListing};
ghost use Rattle.elf_archive.specs.Members.{IsMemberWalkInBounds, extent_of, member_of};

use crate::cursor::MemberCursor;
use crate::lines::{defer_member_line, end_listed, locate_member, show_member};
use crate::magic_strings::magic;
use crate::member::{FileRange, Member};
use crate::parts::list_member;
use elf_format::show_refusal;
use elf_listing::show_stop;
use elf_record::Parts;
use elf_source::{Counted, DeferredSink, Limited, Out, RangeSource, RowSink, Sink, Source};
use elf_table::{Caps, HeaderStore, ListingStyle, NameBuf, RunFault};

/// What is listed of members: how rows are shown, which parts of a listing, and whether their lines
/// are written alone.
#[derive(Clone, Copy)]
struct MemberOptions<'n> {
    style: ListingStyle<'n>,
    parts: Parts,
    alone: bool,
}

/// Writes the listing of an archive: the `A` line of each member, and the listing of each member
/// that is an ELF file.
///
/// The `A` line of a member is written always, or only before another line of the member. If
/// `parts` has a part of a listing and the member's data begin like an ELF file, the listing has
/// these parts of the file that the data are, with offsets from its first byte. A refusal of such a
/// file is the last line of its listing, and the next member follows. Returns whether there was
/// one.
///
/// The source is a range of all bytes of the archive, with nothing masked, and is one again on
/// return. The store has a slot for each header that the caps allow, and all members share it. At
/// most 2^127 bytes were requested from the source before. If the caps have a budget, it is one
/// over all members, and the line of a refusal for lack of budget may end the listing early; on
/// return no limit is set.
///
/// # Errors
/// A refusal of the archive, or for lack of budget: its line was written, as the last one. A fault
/// of the source, with the offset in the archive that was requested, or of the output, with the
/// number of bytes it took: a prefix of the listing was written. The store may be loaded again.
pub fn show_archive<S: Source, W: RowSink>(
    src: &mut Counted<RangeSource<S>>,
    store: &mut HeaderStore,
    caps: Caps,
    parts: Parts,
    alone: bool,
    out: &mut Out<DeferredSink<W>>,
) -> Result<bool, RunFault>
    requires small { (store.old.slots ≡ caps.limits.headers) × (src.old.asked ≤ 2 ^ 127) }
    requires whole { IsAll src.old }
    ensures slots { store.new.slots ≡ store.old.slots }
    ensures grows { OutGrows out.old out.new }
    ensures leaves { KeepsSourceUnlimited src.old src.new }
    ensures says { IfErr result (ArchiveSays src.old src.new out.new) }
    ensures text { (file : List ℕ) → src.old.seen.file ≡ Some file →
        ReportsArchive alone file caps.entry parts.0 out.old out.new result }
    ensures cost { (file : List ℕ) → src.old.seen.file ≡ Some file →
        src.new.asked ≤ src.old.asked
        + archive_cost file caps.entry.limits.headers (style_of caps.entry.style) parts.0 }
    // For any source.
    ensures asks { AsksInArchive caps.entry src.old src.new result }
{
    let choice = MemberOptions {
        style: caps.style,
        parts,
        alone,
    };
    let listed = src.within(
        caps.limits.budget,
        &mut |src: &mut Counted<RangeSource<S>>|
            requires { IsAll src.old }
            ensures lists { ListsArchive choice.entry.alone
                store.entry.now.slots store.exit.now.slots
                (style_of choice.entry.style) choice.entry.parts.0
                src.old src.new out.entry.now out.exit.now result }
            ensures unread { (refusal : Refuses) →
                first_refusal (archive_length_checks src.old.seen.size) ≡ Some refusal →
                src.new ≡ src.old }
        { list_archive(src, store, choice, out) },
    );
    match listed {
        Ok(refused) => Ok(refused),
        Err(stop) => Err(show_stop(stop, caps.style.format, out)),
    }
}

/// Writes the lines of an archive's listing within the limit set on the source, and returns whether
/// the listing of a member was refused.
///
/// # Errors
/// A refusal of the archive, or for lack of budget: the lines before it were written. A fault of
/// the source or of the output.
fn list_archive<S: Source, W: RowSink>(
    src: &mut Counted<RangeSource<S>>,
    store: &mut HeaderStore,
    choice: MemberOptions,
    out: &mut Out<DeferredSink<W>>,
) -> Result<bool, RunFault>
    requires { IsAll src.old }
    ensures lists { ListsArchive choice.entry.alone store.old.slots store.new.slots
        (style_of choice.entry.style) choice.entry.parts.0
        src.old src.new out.old out.new result }
    ensures unread { (refusal : Refuses) →
        first_refusal (archive_length_checks src.old.seen.size) ≡ Some refusal →
        src.new ≡ src.old }
{
    magic(src)?;
    list_members(src, store, choice, out)
}

/// Lists the members of an archive whose magic string was read, and returns whether the listing of
/// one was refused.
///
/// # Errors
/// As for [`list_archive`].
fn list_members<S: Source, W: RowSink>(
    src: &mut Counted<RangeSource<S>>,
    store: &mut HeaderStore,
    choice: MemberOptions,
    out: &mut Out<DeferredSink<W>>,
) -> Result<bool, RunFault>
    requires whole { IsAll src.old }
    requires size { (8 ≤ src.old.seen.size) × (src.old.seen.size < 2 ^ 63) }
    ensures { GoesThrough store.old.slots store.new.slots (style_of choice.entry.style)
        choice.entry.parts.0 src.old src.new out.old out.new result
        (allowance (src.old.seen.size - 8)) (λ file headers style parts.
        members_cost (length file) file headers style parts before_members)
        (λ file headers style parts. ListsMembers out.old out.new result
        (walk_items choice.entry.alone file headers style parts (members_of file style.cap))
        (any_refused file headers style parts)) }
{
    let mut cursor = MemberCursor::new();
    let mut name = NameBuf::new();
    let mut any = false;
    'members: while let Some(refused) = list_next(
        src,
        store,
        choice,
        &mut cursor,
        &mut name,
        out,
    )? {
        any = any || refused;
    }
    Ok(any)
}

/// Lists the next member of an archive, and returns whether its listing was refused, or `None` at
/// the file's end. `name` is a buffer for its name.
///
/// # Errors
/// A refusal of an offset without a valid member, or for lack of budget: the lines before it were
/// written. A fault of the source or of the output.
fn list_next<S: Source, W: RowSink>(
    src: &mut Counted<RangeSource<S>>,
    store: &mut HeaderStore,
    choice: MemberOptions,
    cursor: &mut MemberCursor,
    name: &mut NameBuf,
    out: &mut Out<DeferredSink<W>>,
) -> Result<Option<bool>, RunFault>
    requires whole { IsAll src.old }
    requires size { src.old.seen.size < 2 ^ 63 }
    requires is_at { IsMemberWalkInBounds src.old.seen.size cursor.old }
    ensures { StepsListing choice.entry.alone store.old.slots store.new.slots
        (style_of choice.entry.style) choice.entry.parts.0 cursor.old cursor.new
        src.old src.new out.old out.new result }
{
    let Some(member) = cursor.advance(src, choice.style.cap, name)? else {
        return Ok(None);
    };
    let refused = list_with_line(src, store, choice, &member, name, out)?;
    Ok(Some(refused))
}

/// Writes the line of a member, and lists it after that; a line that is not written alone is
/// deferred until a line follows. Returns whether the listing was refused.
///
/// # Errors
/// As for [`list_located`] and [`defer_member_line`].
fn list_with_line<S: Source, W: RowSink>(
    src: &mut Counted<RangeSource<S>>,
    store: &mut HeaderStore,
    choice: MemberOptions,
    member: &Member,
    name: &NameBuf,
    out: &mut Out<DeferredSink<W>>,
) -> Result<bool, RunFault>
    requires { HoldsPart src.old (extent_of member.now.extent) }
    ensures { GoesThroughMember (extent_of member.now.extent) store.old.slots store.new.slots
        (style_of choice.entry.style) choice.entry.parts.0 src.old src.new out.old out.new result
        (λ style items. ListsMembers out.old out.new result (line_before choice.entry.alone
        (member_line style.format (member_of member.now name.now)) (told style.format items))
        (is_some (fault_of items))) }
{
    if choice.alone {
        show_member(member, name, choice.style.format, out)?;
        return list_located(src, store, choice, member, name, out);
    }
    let line = defer_member_line(member, name, choice.style.format, out)?;
    let listed = list_located(src, store, choice, member, name, out);
    end_listed(line, listed, out)
}

/// Lists a member as [`list_reported`] does, its objects with its name if they have a location.
///
/// # Errors
/// As for [`list_reported`].
fn list_located<S: Source, W: RowSink>(
    src: &mut Counted<RangeSource<S>>,
    store: &mut HeaderStore,
    choice: MemberOptions,
    member: &Member,
    name: &NameBuf,
    out: &mut Out<DeferredSink<W>>,
) -> Result<bool, RunFault>
    requires { HoldsPart src.old (extent_of member.now.extent) }
    ensures { GoesThroughMember (extent_of member.now.extent) store.old.slots store.new.slots
        (style_of choice.entry.style) choice.entry.parts.0 src.old src.new out.old out.new result
        (λ style items.
        ListsMembers out.old out.new result (told style.format items) (is_some (fault_of items))) }
{
    locate_member(member, name, out);
    let listed = list_reported(src, store, choice, member.extent, out);
    out.locate_member(b"");
    listed
}

/// Lists a member as [`list_member`] does, and returns whether its listing was refused: the line of
/// that refusal ends it, and the next member follows.
///
/// # Errors
/// As for [`list_member`].
fn list_reported<S: Source, W: Sink>(
    src: &mut Counted<RangeSource<S>>,
    store: &mut HeaderStore,
    choice: MemberOptions,
    extent: FileRange,
    out: &mut Out<W>,
) -> Result<bool, RunFault>
    requires { HoldsPart src.old (extent_of extent) }
    ensures { GoesThroughMember (extent_of extent) store.old.slots store.new.slots
        (style_of choice.entry.style) choice.entry.parts.0 src.old src.new out.old out.new result
        (λ style items.
        ListsMembers out.old out.new result (told style.format items) (is_some (fault_of items))) }
{
    match list_member(src, store, choice.style, choice.parts, extent, out)? {
        None => Ok(false),
        Some(refusal) => {
            show_refusal(refusal, choice.style.format, out)?;
            Ok(true)
        }
    }
}
