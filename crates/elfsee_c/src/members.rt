//! The exports that iterate over the members of an archive in memory.
ghost use Rattle.elf_archive.specs.MemberRows.{OpensMembers, StepsMember};
ghost use Rattle.elf_capi.specs.Ends.{ReturnsRead};

use elf_archive::{MemberPosition, MemberRow, next_member, open_members};
use elf_capi::{CallEnd, report_row};

/// Checks that a file in memory is an archive, and sets `members` before its first member.
///
/// Returns 0 if it is, and 1 if it is not, with the first check that fails in `end`: `Short`,
/// `Thin` or `NotArchive`, at offset 0.
#[unsafe(no_mangle)]
pub extern "C" fn elfsee_members(
    file: &[u8],
    members: &mut MemberPosition,
    end: &mut CallEnd,
) -> u32
    ensures { ReturnsRead (OpensMembers file.now) result members.old members.new end.new }
{
    report_row(open_members(file), members, end)
}

/// Reads the header of the next member and steps over the member.
///
/// Returns 0 if it was read, 2 at or after the file's end, and 1 if there is no member at the
/// offset, with `MemberCut`, `NameOutside` or `NameUnended` and the offset in `end`. If it was not
/// read, `members` is unchanged.
#[unsafe(no_mangle)]
pub extern "C" fn elfsee_next_member(
    file: &[u8],
    members: &mut MemberPosition,
    member: &mut MemberRow,
    end: &mut CallEnd,
) -> u32
    ensures { ReturnsRead (StepsMember file.now members.old members.new)
        result member.old member.new end.new }
{
    report_row(next_member(file, members), member, end)
}
