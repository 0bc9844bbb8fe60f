//! Which members of an archive are files.
ghost use Rattle.std.specs.Prelude.{◌≡◌, ◌||◌, List, ℕ, None, Some, map};
ghost use Rattle.elf_model.specs.Archive.{is_name_table};
ghost use Rattle.elf_model.specs.LinkArchives.{is_archive_index, link_members, members_refusal};
ghost use Rattle.elf_resolve.specs.LinkMembers.{ReturnsFileMember, file_of_range};
ghost use Rattle.elf_resolve.specs.Taken.{header_of};

use crate::archive_index::is_index;
use crate::archives::{place_of, read_header_at};
use crate::link_faults::LinkFault;
use elf_archive::{MEMBER_HEADER_BYTES, is_name_table};
use elf_source::{Counted, RangeSource, Source};

/// Returns whether a member is a file: neither an index nor the table of names.
///
/// # Errors
/// Those of its header.
pub(crate) fn is_file<S: Source>(
    src: &mut Counted<RangeSource<S>>,
    members: &[u64],
    member: u32,
) -> Result<bool, LinkFault>
    ensures whole { src.new.seen.whole ≡ src.old.seen.whole }
    ensures most { src.new.most ≡ src.old.most }
    ensures tells { (file : List ℕ) → file_of_range src.old.seen ≡ Some file →
        members_refusal file ≡ None → members.now ≡ map header_of (link_members file).members →
        ReturnsFileMember file member result }
{
    let at = place_of(members, member)?;
    src.widen();
    let mut header = [0; MEMBER_HEADER_BYTES];
    read_header_at(src, at, &mut header)?;
    Ok(!is_no_file(&header))
}

/// Returns `true` if a header is that of an index or of the table of names.
fn is_no_file(header: &[u8; MEMBER_HEADER_BYTES]) -> bool
    ensures { result ≡ (is_archive_index header.now 0 || is_name_table header.now 0) }
{
    is_index(header) || is_name_table(header)
}
