//! Where the name of a member is, and how it ends.
ghost use Rattle.std.specs.Prelude.{◌≡◌, ◌+◌, ℕ, ◌^◌, ◌<◌, ◌≤◌, List, length, IfErr, IfOk};
ghost use Rattle.elf_model.specs.Prelude.{member_name, slice};
ghost use Rattle.elf_model.specs.declared.causes.Cause.TheVariants.{NameOutside};
ghost use Rattle.elf_archive.specs.Members.{extent_of_names};
ghost use Rattle.elf_archive.specs.NameFronts.{AreFew, IsNameFront, LocatesName, TellsLength, TellsLineLength};

use crate::fields::{
    MEMBER_HEADER_BYTES, NAME_FIELD_BYTES, NUL, bsd_name_length, find_byte, long_offset,
    short_length, slashless_length, trimmed_length,
};
use crate::member::FileRange;
use elf_record::Cause;

/// Where a name is, which decides how it ends.
#[derive(Clone, Copy)]
pub(crate) enum NameForm {
    /// In its field: it ends before a slash or the spaces.
    Field,
    /// At the start of the member's data: the NULs at the end of the bytes are not part of it.
    Data,
    /// In the table of names: it ends before a newline.
    Table,
}

/// The bytes that a name begins with.
#[derive(Clone, Copy)]
pub(crate) struct NameFront {
    /// Where they are.
    pub(crate) form: NameForm,
    /// Their file offset, or 2^64 - 1 if it is larger.
    pub(crate) at: u64,
    /// How many there are.
    pub(crate) size: u64,
}

/// Locates the bytes that the name of a member begins with: its field, or of a name outside the
/// field the first `cap + 2` bytes, fewer at the end of the name or of the table of names. `field`
/// is the name field of the header at the offset `at`.
///
/// # Errors
/// `NameOutside` if there is no table of names or the name begins past its end.
pub(crate) fn name_front(
    field: &[u8],
    names: Option<FileRange>,
    at: u64,
    cap: u16,
) -> Result<NameFront, Cause>
    requires field { length field.now ≡ 16 }
    requires small { (at + 60 < 2 ^ 64) × (cap ≤ 4096) }
    ensures front { IfOk result (IsNameFront field.now names at cap) }
    ensures outside { IfErr result (λ cause. cause ≡ NameOutside) }
    ensures located { (file : List ℕ) → length file < 2 ^ 64 → field.now ≡ slice file at 16 →
        LocatesName file cap result (member_name file cap (extent_of_names names) at) }
{
    let most = u64::from(cap) + 2;
    if let Some(size) = bsd_name_length(field) {
        return Ok(NameFront {
            form: NameForm::Data,
            at: at + MEMBER_HEADER_BYTES as u64,
            size: size.min(most),
        });
    }
    let Some(offset) = long_offset(field) else {
        return Ok(NameFront {
            form: NameForm::Field,
            at,
            size: NAME_FIELD_BYTES as u64,
        });
    };
    let Some(table) = names else {
        return Err(Cause::NameOutside);
    };
    if offset >= table.size {
        return Err(Cause::NameOutside);
    }
    Ok(NameFront {
        form: NameForm::Table,
        at: table.at.saturating_add(offset),
        size: most.min(table.size - offset),
    })
}

/// Returns the length of the name that some bytes begin with, or `None` if they end before the name
/// does.
pub(crate) fn name_length(form: NameForm, front: &[u8], cap: u16) -> Option<usize>
    requires { AreFew form cap (length front.now) }
    ensures { TellsLength form front.now cap result }
{
    match form {
        NameForm::Field => Some(short_length(front)),
        NameForm::Data => Some(trimmed_length(NUL, front)),
        NameForm::Table => line_length(front, cap),
    }
}

/// Returns the length of the name that the bytes at its offset in the table of names begin with, at
/// most `cap + 2` of them: it ends before a newline, without a slash there; if it does not end
/// within `cap + 2` bytes, they are its prefix. Returns `None` if there are fewer bytes, without a
/// newline.
fn line_length(front: &[u8], cap: u16) -> Option<usize>
    requires { length front.now ≤ cap + 2 }
    ensures { TellsLineLength front.now cap result }
{
    if let Some(place) = find_byte(b'\n', front) {
        return Some(slashless_length(&front[..place]));
    }
    if front.len() < usize::from(cap) + 2 {
        return None;
    }
    Some(front.len())
}
