//! A cursor over the members of an archive.
ghost use Rattle.std.specs.Prelude.{◌≡◌, ℕ, ◌+◌, ◌^◌, ◌<◌, ◌≤◌, nat_le, take, List, Some, IfOk, OnOk};
ghost use Rattle.elf_model.specs.Prelude.{before_members, cost_where, header_cost, member_data, name_in_data, padded_end, slice};
ghost use Rattle.elf_archive.specs.Members.{AsksAtMost, DataRead, IsInBounds, IsMemberWalkInBounds, StepsOver, ReturnsMember, extent_of};
ghost use Rattle.elf_archive.specs.Members.{extent_of_names, names_passed, step_cost};

use crate::fields::{MEMBER_HEADER_BYTES, data_within, is_name_table, padded_end};
use crate::member::{FileRange, Member};
use crate::names::read_name;
use elf_record::Cause;
use elf_source::{Counted, Source};
use elf_table::{Fault, NameBuf, NameLimit, fill, refused};
use std::marker::Model;

/// The size of the magic string in bytes: the first member's header follows it.
pub(crate) const MAGIC_BYTES: u64 = 8;

/// A cursor over the members of an archive, starting at the first. It holds no bytes.
#[derive(Drop)]
pub struct MemberCursor {
    at: u64,
    index: u64,
    names: Option<FileRange>,
}

impl Model for MemberCursor {
    ghost use Rattle.elf_model.specs.Archive.{MemberWalkState};
    ghost use Rattle.elf_archive.specs.Members.{extent_of_names};

    ghost Value = { MemberWalkState };

    ghost view = { λ c. record { at = c.at; index = c.index; names = extent_of_names c.names } };
}

impl MemberCursor {
    /// Creates a cursor before the first member.
    pub fn new() -> MemberCursor
        ensures { result ≡ before_members }
    {
        MemberCursor {
            at: MAGIC_BYTES,
            index: 0,
            names: None,
        }
    }

    /// Reads the header and the name of the next member, and steps over it.
    ///
    /// If the name is at the start of the data, the member's data begin after it. The data are
    /// skipped, with the padding byte after them if their total size is odd. At most `cap` bytes of
    /// the member's name are then in `name`. Returns `None` at the file's end, which is below 2^63.
    ///
    /// # Errors
    /// - `MemberCut` at the offset of the member's header if there is no header, or it or the data
    ///   extend past the end of the file, or the name past the end of the data that it is said to
    ///   precede.
    /// - `NameOutside` there if the name begins past the table of names, or there is none.
    /// - `NameUnended` there if the table ends before the name does.
    /// - A read fault, or a refusal for lack of budget, at the offset that was requested.
    ///
    /// The cursor is unchanged then.
    pub fn advance<S: Source>(
        &mut self,
        src: &mut Counted<S>,
        cap: NameLimit,
        name: &mut NameBuf,
    ) -> Result<Option<Member>, Fault>
        requires size { src.old.seen.size < 2 ^ 63 }
        requires is_at { IsMemberWalkInBounds src.old.seen.size self.old }
        ensures asks { AsksAtMost src.old src.new result
            (step_cost src.old.seen.size cap.bytes self.old) }
        ensures cost { (file : List ℕ) → src.old.seen.file ≡ Some file →
            AsksAtMost src.old src.new result (header_cost file cap.bytes self.old) }
        ensures steps { StepsOver src.old.seen.size self.old self.new result }
        ensures tells { (file : List ℕ) → src.old.seen.file ≡ Some file →
            ReturnsMember file cap.bytes self.old self.new name.new result }
    {
        if self.at >= src.length() {
            return Ok(None);
        }
        let at = self.at;
        let mut header = [0; MEMBER_HEADER_BYTES];
        let extent = read_header(src, at, &mut header)?;
        let is_cut = read_name(src, self.names, &header, at, cap, name)?;
        let index = self.index;
        self.pass(&header, extent);
        Ok(Some(Member {
            index,
            extent,
            is_cut,
        }))
    }

    /// Moves after the member with this header and these data.
    fn pass(&mut self, header: &[u8; MEMBER_HEADER_BYTES], extent: FileRange)
        requires ends { (self.old.at + 60 ≤ extent.at) × (extent.at + extent.size < 2 ^ 63) }
        requires count { self.old.index < 2 ^ 63 }
        ensures at { self.new.at ≡ padded_end self.old.at (extent.at + extent.size) }
        ensures index { self.new.index ≡ self.old.index + 1 }
        ensures names { self.new.names ≡ names_passed self.old.names header.now (extent_of extent) }
    {
        if self.names.is_none() && is_name_table(header) {
            self.names = Some(extent);
        }
        self.at = padded_end(self.at, extent.at + extent.size);
        self.index += 1;
    }
}

/// Reads the header of the member at an offset below the source's length, and returns its data,
/// after the name if that is at their start. They end at or below that length.
///
/// # Errors
/// Refused at `at` with `MemberCut` if there is no header, or it or the data extend past the end of
/// the file, or the name past the end of the data. Otherwise a read fault, at its offset.
pub fn read_header<S: Source>(
    src: &mut Counted<S>,
    at: u64,
    header: &mut [u8; MEMBER_HEADER_BYTES],
) -> Result<FileRange, Fault>
    requires { (src.old.seen.size < 2 ^ 63) × (at < src.old.seen.size) }
    ensures asks { AsksAtMost src.old src.new result
        (cost_where (nat_le (at + 60) src.old.seen.size) 60) }
    ensures lies { IfOk result (λ extent. IsInBounds src.old.seen.size (extent_of extent)
        × (extent.at ≡ at + 60 + name_in_data (take 16 header.new))) }
    ensures read { (file : List ℕ) → src.old.seen.file ≡ Some file →
        OnOk result (header.new ≡ slice file at 60) × DataRead at result (member_data file at) }
{
    let left = src.length() - at;
    if left < MEMBER_HEADER_BYTES as u64 {
        return refused(at, Cause::MemberCut);
    }
    fill(src, at, header)?;
    match data_within(header, at, left) {
        Some(extent) => Ok(extent),
        None => refused(at, Cause::MemberCut),
    }
}
