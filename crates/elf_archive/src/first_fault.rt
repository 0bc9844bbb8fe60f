//! The first fault of an archive and its members.
ghost use Rattle.std.specs.Prelude.{◌≡◌, ℕ, ◌+◌, ◌-◌, ◌^◌, ◌<◌, ◌≤◌, List, length, Some, IfErr};
ghost use Rattle.elf_model.specs.Prelude.{allowance, archive_ceiling, archive_fault, archive_length_checks, before_members, first_refusal, members_cost};
ghost use Rattle.elf_model.specs.declared.causes.Refusal.{Refusal as Refuses};
ghost use Rattle.elf_options.specs.Permitted.{style_of};
ghost use Rattle.elf_listing.specs.Reports.{KeepsSourceUnlimited};
ghost use Rattle.elf_archive.specs.FirstFault.{BeginsArchive, FindsAfterMagic, FindsFault, ReadTells, SearchesArchive};
ghost use Rattle.elf_archive.specs.FirstFault.{cost_after_magic, fault_from};
ghost use Rattle.elf_archive.specs.Listed.{AsksInArchive, GoesThrough, IsAll};

use crate::cursor::MemberCursor;
use crate::parts::{list_member, placed};
use elf_record::{Cause, Parts, Refusal};
use elf_source::{Counted, Limited, NullSink, Out, RangeSource, Sink, Source};
use elf_table::{Caps, HeaderStore, ListingStyle, NameBuf, RunFault};

/// Iterates over an archive whose magic string was read, and over the listing of each member that
/// is an ELF file, those of its parts that `parts` has, up to the first fault. Nothing is written.
/// The source is a range of all bytes of the archive, of which nothing is masked, and is one again
/// on return. The store has a slot for each header that the caps permit, and at most 2^127 bytes
/// were requested from the source. If the caps have a budget, it is what reading the magic string
/// left of it, and one over all members; on return no limit is set.
///
/// # Errors
/// The first fault, with an offset in the archive: its own refusal, that of a member's listing, or
/// of the place where no member is; or a refusal for lack of budget. A fault of the source.
pub fn find_fault<S: Source>(
    src: &mut Counted<RangeSource<S>>,
    store: &mut HeaderStore,
    caps: Caps,
    parts: Parts,
) -> Result<(), RunFault>
    requires small { (store.old.slots ≡ caps.limits.headers) × (src.old.asked ≤ 2 ^ 127) }
    requires whole { IsAll src.old }
    requires begins { BeginsArchive src.old.seen }
    ensures slots { store.new.slots ≡ store.old.slots }
    ensures leaves { KeepsSourceUnlimited src.old src.new }
    ensures says { IfErr result (ReadTells src.old src.new) }
    ensures finds { (file : List ℕ) → src.old.seen.file ≡ Some file →
        FindsAfterMagic caps.entry parts.0 file result }
    ensures cost { (file : List ℕ) → src.old.seen.file ≡ Some file →
        src.new.asked ≤ src.old.asked
        + cost_after_magic file caps.entry.limits.headers (style_of caps.entry.style) parts.0 }
    // For any source.
    ensures asks { AsksInArchive caps.entry src.old src.new result }
{
    src.within(
        caps.limits.budget,
        &mut |src| find_unwritten(src, store, caps.style, parts),
    )
}

/// Iterates over an archive whose magic string was read, as [`find_fault`] does, within the limit
/// that is set on the source.
///
/// # Errors
/// As for [`find_fault`].
fn find_unwritten<S: Source>(
    src: &mut Counted<RangeSource<S>>,
    store: &mut HeaderStore,
    style: ListingStyle,
    parts: Parts,
) -> Result<(), RunFault>
    requires whole { IsAll src.old }
    requires begins { BeginsArchive src.old.seen }
    ensures slots { store.new.slots ≡ store.old.slots }
    ensures searches { SearchesArchive store.old.slots (style_of style.entry) parts.0
        src.old src.new result }
{
    let mut out = Out::new(NullSink);
    let found = find_in_archive(src, store, style, parts, &mut out);
    let _sink = out.into_inner();
    found
}

/// Iterates over an archive whose magic string was read, within the limit that is set on the
/// source, up to its first fault.
///
/// # Errors
/// As [`find_fault`], or a fault of the output.
fn find_in_archive<S: Source, W: Sink>(
    src: &mut Counted<RangeSource<S>>,
    store: &mut HeaderStore,
    style: ListingStyle,
    parts: Parts,
    out: &mut Out<W>,
) -> Result<(), RunFault>
    requires whole { IsAll src.old }
    requires begins { BeginsArchive src.old.seen }
    ensures finds { GoesThrough store.old.slots store.new.slots (style_of style.entry) parts.0
        src.old src.new out.old out.new result (archive_ceiling src.old.seen.size) cost_after_magic
        (λ file headers style parts. FindsFault (archive_fault file headers style parts) result) }
    ensures unread { (refusal : Refuses) →
        first_refusal (archive_length_checks src.old.seen.size) ≡ Some refusal →
        src.new ≡ src.old }
{
    if src.length() >= 1 << 63 {
        return Err(RunFault::Refused(Refusal {
            at: 0,
            cause: Cause::TooLong,
        }));
    }
    find_in_members(src, store, style, parts, out)
}

/// Reads the members of an archive whose magic string was read, up to the first fault.
///
/// # Errors
/// As for [`find_in_archive`].
fn find_in_members<S: Source, W: Sink>(
    src: &mut Counted<RangeSource<S>>,
    store: &mut HeaderStore,
    style: ListingStyle,
    parts: Parts,
    out: &mut Out<W>,
) -> Result<(), RunFault>
    requires whole { IsAll src.old }
    requires size { (8 ≤ src.old.seen.size) × (src.old.seen.size < 2 ^ 63) }
    ensures { GoesThrough store.old.slots store.new.slots (style_of style.entry) parts.0
        src.old src.new out.old out.new result (allowance (src.old.seen.size - 8))
        (λ file headers style parts.
        members_cost (length file) file headers style parts before_members)
        (λ file headers style parts. FindsFault
        (fault_from file headers style parts (length file) before_members) result) }
{
    let mut cursor = MemberCursor::new();
    let mut name = NameBuf::new();
    'members: while let Some(member) = cursor.advance(src, style.cap, &mut name)? {
        if let Some(refusal) = list_member(src, store, style, parts, member.extent, out)? {
            return Err(RunFault::Refused(placed(refusal, member.extent.at)));
        }
    }
    Ok(())
}
