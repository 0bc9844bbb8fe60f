//! The members of an archive in memory, for a caller to iterate over: each is returned as the
//! locations of its header, its data and its name, so that nothing is copied. A position is plain
//! numbers, and no number that a caller sets is invalid: each step checks them.
ghost use Rattle.std.specs.Prelude.{◌≡◌, ◌+◌, ◌^◌, ◌<◌, ◌≤◌, if◌then◌else◌, length, take, Ok};
ghost use Rattle.elf_model.specs.Prelude.{member_name, name_in_data, padded_end, slice};
ghost use Rattle.elf_model.specs.declared.causes.Cause.TheVariants.{MemberCut};
ghost use Rattle.elf_archive.specs.MemberRows.{FindsMemberName, NamesMember, OpensMembers, StepsMember};
ghost use Rattle.elf_archive.specs.MemberRows.{extent_in, names_in};
ghost use Rattle.elf_archive.specs.Members.{extent_of, extent_of_names, names_passed};

use crate::cursor::MAGIC_BYTES;
use crate::fields::{
    MEMBER_HEADER_BYTES, NAME_FIELD_BYTES, data_within, is_name_table, padded_end,
};
use crate::magic_strings::magic;
use crate::member::FileRange;
use crate::name_fronts::{name_front, name_length};
use elf_record::{Cause, Refusal};
use elf_source::{Counted, MemorySource};
use elf_table::{ByteRange, Fault, bytes_of, chunk_at};

/// The maximum number of bytes of a name that a row has.
const NAME_CAP: u16 = 4096;

/// A position in a walk over the members of an archive.
#[repr(C)]
#[derive(Clone, Copy)]
pub struct MemberPosition {
    /// The file offset of the next member's header.
    pub at: u64,
    /// The data of the table of names, if there was one.
    pub names: ByteRange,
    /// Whether a table of names was passed: not if it is 0.
    pub has_names: u32,
    /// Always 0.
    pub none: u32,
}

/// A member of an archive: the locations of it and its parts.
#[repr(C)]
#[derive(Clone, Copy)]
pub struct MemberRow {
    /// The file offset of its header.
    pub at: u64,
    /// Its data, after the name if that is at their start.
    pub content: ByteRange,
    /// Its name, or the first 4,096 bytes of it.
    pub name: ByteRange,
    /// Whether its name has more bytes: 1, otherwise 0.
    pub is_cut: u32,
    /// Always 0.
    pub none: u32,
}

/// The location of a name, or of its first 4,096 bytes, and whether it has more.
#[derive(Clone, Copy)]
struct MemberName {
    place: ByteRange,
    is_cut: bool,
}

/// Returns a position before the first member; there is always one, or a refusal.
///
/// # Errors
/// Refused at offset 0 if the file is not an archive:
///
/// - `Short` if it has fewer than 8 bytes.
/// - `Thin` for the magic string of a thin archive.
/// - `NotArchive` for other bytes.
pub fn open_members(file: &[u8]) -> Result<Option<MemberPosition>, Refusal>
    ensures { OpensMembers file.now result }
{
    let mut src = Counted::new(MemorySource::new(file));
    let read = magic(&mut src);
    let _ = src.into_inner();
    match read {
        Ok(()) => Ok(Some(MemberPosition {
            at: MAGIC_BYTES,
            names: ByteRange { at: 0, len: 0 },
            has_names: 0,
            none: 0,
        })),
        Err(Fault::Refused(refusal)) => Err(refusal),
        Err(Fault::Source { .. }) => unreachable!(),
    }
}

/// Returns the next member, and steps over it, with the padding byte after its data if their total
/// size, including a name at their start, is odd; returns `None` at or after the file's end.
///
/// # Errors
/// Refused at the offset of the member's header:
///
/// - `MemberCut` if there is no header, or it or the data extend past the end of the file, or the
///   name past the end of the data that it is said to precede.
/// - `NameOutside` if the name begins past the table of names, or there is none.
/// - `NameUnended` if the table, as far as it lies in the file, ends before the name does.
///
/// The position is unchanged then.
pub fn next_member(file: &[u8], members: &mut MemberPosition) -> Result<Option<MemberRow>, Refusal>
    ensures { StepsMember file.now members.old members.new result }
{
    let at = members.at;
    let length = file.len() as u64;
    if at >= length {
        return Ok(None);
    }
    let left = length - at;
    if left < MEMBER_HEADER_BYTES as u64 {
        return Err(cut(at));
    }
    let header = chunk_at(file, at as usize);
    let Some(extent) = data_within(header, at, left) else {
        return Err(cut(at));
    };
    let name = match find_name(file, table_in(members), header, at) {
        Ok(name) => name,
        Err(cause) => return Err(Refusal { at, cause }),
    };
    let content = ByteRange {
        at: extent.at,
        len: extent.size,
    };
    pass(members, header, content);
    Ok(Some(MemberRow {
        at,
        content,
        name: name.place,
        is_cut: flag(name.is_cut),
        none: 0,
    }))
}

/// Returns a flag as a number.
fn flag(is_set: bool) -> u32
    ensures { result ≡ (if is_set then 1 else 0) }
{
    if is_set { 1 } else { 0 }
}

/// Returns the refusal of an offset without a valid member.
fn cut(at: u64) -> Refusal
    ensures { result ≡ record { at = at; cause = MemberCut } }
{
    Refusal {
        at,
        cause: Cause::MemberCut,
    }
}

/// Returns the table of names that was passed, if there was one.
fn table_in(members: &MemberPosition) -> Option<FileRange>
    ensures { extent_of_names result ≡ names_in members.now }
{
    if members.has_names == 0 {
        return None;
    }
    Some(FileRange {
        at: members.names.at,
        size: members.names.len,
    })
}

/// Moves after the member with this header and these data.
fn pass(members: &mut MemberPosition, header: &[u8; MEMBER_HEADER_BYTES], content: ByteRange)
    requires { (members.old.at + 60 ≤ content.at) × (content.at + content.len < 2 ^ 63) }
    ensures at { members.new.at ≡ padded_end members.old.at (content.at + content.len) }
    ensures names { names_in members.new
        ≡ names_passed (names_in members.old) header.now (extent_in content) }
    ensures none { members.new.none ≡ members.old.none }
{
    if members.has_names == 0 && is_name_table(header) {
        members.has_names = 1;
        members.names = content;
    }
    members.at = padded_end(members.at, content.at + content.len);
}

/// Locates the name of the member with this header, which is at `at`.
///
/// # Errors
/// As for [`next_member`].
fn find_name(
    file: &[u8],
    names: Option<FileRange>,
    header: &[u8; MEMBER_HEADER_BYTES],
    at: u64,
) -> Result<MemberName, Cause>
    requires within { at + 60 + name_in_data (take 16 header.now) ≤ length file.now }
    requires header { header.now ≡ slice file.now at 60 }
    ensures { FindsMemberName file.now result
        (member_name file.now 4096 (extent_of_names names) at) }
{
    let front = name_front(&header[..NAME_FIELD_BYTES], names, at, NAME_CAP)?;
    let range = ByteRange {
        at: front.at,
        len: front.size,
    };
    match name_length(front.form, bytes_of(file, range), NAME_CAP) {
        Some(size) => Ok(shortened(file, front.at, size)),
        None => Err(Cause::NameUnended),
    }
}

/// Returns the location of a name of `size` bytes at an offset, or of its first 4,096 bytes.
fn shortened(file: &[u8], at: u64, size: usize) -> MemberName
    requires { at + size ≤ length file.now }
    ensures { NamesMember file.now at size result }
{
    MemberName {
        place: ByteRange {
            at,
            len: size.min(usize::from(NAME_CAP)) as u64,
        },
        is_cut: size > usize::from(NAME_CAP),
    }
}
