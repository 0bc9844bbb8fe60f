//! The names of members.
ghost use Rattle.std.specs.Prelude.{◌≡◌, ◌+◌, ℕ, ◌^◌, ◌<◌, ◌≤◌, List, length, take, Some, IfErr, OnOk};
ghost use Rattle.elf_model.specs.Prelude.{capped, member_name, name_in_data, slice};
ghost use Rattle.elf_table.specs.Faults.{IsOfCheck, IsOfRead};
ghost use Rattle.elf_format.specs.Named.{shown_as};
ghost use Rattle.elf_archive.specs.Members.{AsksAtMost, NameShown, NamesInBounds};
ghost use Rattle.elf_archive.specs.Members.{extent_of_names, member_name_cost};
ghost use Rattle.elf_archive.specs.NameFronts.{AreFew, name_of_front};

use crate::fields::{MEMBER_HEADER_BYTES, NAME_FIELD_BYTES};
use crate::member::FileRange;
use crate::name_fronts::{NameForm, NameFront, name_front, name_length};
use elf_record::Cause;
use elf_source::{Counted, READ_BYTES, Source};
use elf_table::{Fault, NameBuf, NameLimit, fill, refused};

/// The maximum number of bytes read of a name outside its field: a slash and a newline more than
/// are shown.
const LONG_NAME_BYTES: usize = 4098;

/// Leaves in `name` the shown part of a member's name with at most `cap` bytes, and returns whether
/// that is cut. `header` is the member's header, which is at `at`, and `names` is the table of
/// names, which lies within the source. A name in the table of names or at the start of the data is
/// read: at most `cap + 2` bytes, never past the table's end or its own.
///
/// # Errors
/// - `NameOutside` at `at` if there is no table of names or the name begins past its end.
/// - `NameUnended` at `at` if the table ends before the name does.
/// - Otherwise a read fault, at its offset.
pub fn read_name<S: Source>(
    src: &mut Counted<S>,
    names: Option<FileRange>,
    header: &[u8; MEMBER_HEADER_BYTES],
    at: u64,
    cap: NameLimit,
    name: &mut NameBuf,
) -> Result<bool, Fault>
    requires names { NamesInBounds src.old.seen.size names }
    requires front { at + 60 + name_in_data (take 16 header.now) ≤ src.old.seen.size }
    ensures asks { AsksAtMost src.old src.new result (member_name_cost header.now cap.bytes) }
    ensures read { (file : List ℕ) → src.old.seen.file ≡ Some file →
        header.now ≡ slice file at 60 →
        NameShown at result name.new (member_name file cap.bytes (extent_of_names names) at) }
{
    let field = &header[..NAME_FIELD_BYTES];
    let front = match name_front(field, names, at, cap.bytes) {
        Ok(front) => front,
        Err(cause) => return refused(at, cause),
    };
    match front.form {
        NameForm::Field => put_named(front.form, field, at, cap, name),
        NameForm::Data | NameForm::Table => read_elsewhere(src, front, at, cap, name),
    }
}

/// Reads the bytes that a name begins with, and leaves it in `name` as [`put_named`] does.
///
/// # Errors
/// As for [`put_named`]; otherwise a read fault, at its offset.
fn read_elsewhere<S: Source>(
    src: &mut Counted<S>,
    front: NameFront,
    at: u64,
    cap: NameLimit,
    name: &mut NameBuf,
) -> Result<bool, Fault>
    requires few { (front.size ≤ 4098) × AreFew front.form cap.bytes front.size }
    requires within { (src.old.seen.size < 2 ^ 63) × (front.at + front.size ≤ src.old.seen.size) }
    ensures asks { AsksAtMost src.old src.new result front.size }
    ensures read { (file : List ℕ) → src.old.seen.file ≡ Some file → NameShown at result name.new
        (name_of_front front.form cap.bytes (slice file front.at front.size)) }
{
    let mut buffer = [0; LONG_NAME_BYTES];
    let bytes = &mut buffer[..front.size as usize];
    read_front(src, front.at, bytes)?;
    put_named(front.form, bytes, at, cap, name)
}

/// Leaves in `name` the shown part of the name that some bytes begin with, and returns whether that
/// is cut.
///
/// # Errors
/// `NameUnended` at `at` if they end before the name does.
fn put_named(
    form: NameForm,
    front: &[u8],
    at: u64,
    cap: NameLimit,
    name: &mut NameBuf,
) -> Result<bool, Fault>
    requires { AreFew form cap.bytes (length front.now) }
    ensures named { NameShown at result name.new (name_of_front form cap.bytes front.now) }
    ensures refusal { IfErr result IsOfCheck }
{
    match name_length(form, front, cap.bytes) {
        Some(size) => Ok(put_name(&front[..size], cap, name)),
        None => refused(at, Cause::NameUnended),
    }
}

/// Leaves in `name` at most `cap` bytes of a name, and returns whether it has more.
fn put_name(bytes: &[u8], cap: NameLimit, name: &mut NameBuf) -> bool
    ensures { capped cap.bytes bytes.now ≡ shown_as result name.new }
{
    name.clear();
    name.add(bytes, cap);
    bytes.len() > usize::from(cap.bytes)
}

/// Fills `out`, at most 4,098 bytes, with the bytes at the offset `at`: in one read, or two if one
/// cannot have as many.
///
/// # Errors
/// A read fault, at its offset.
fn read_front<S: Source>(src: &mut Counted<S>, at: u64, out: &mut [u8]) -> Result<(), Fault>
    requires size { (src.old.seen.size < 2 ^ 63) × (length out.old ≤ 4098) }
    requires within { at + length out.old ≤ src.old.seen.size }
    ensures asks { AsksAtMost src.old src.new result (length out.old) }
    ensures fault { IfErr result IsOfRead }
    ensures read { (file : List ℕ) → src.old.seen.file ≡ Some file →
        OnOk result (out.new ≡ slice file at (length out.old)) }
{
    if out.len() <= READ_BYTES {
        return fill(src, at, out);
    }
    let (first, rest) = out.split_at_mut(READ_BYTES);
    fill(src, at, first)?;
    fill(src, at + READ_BYTES as u64, rest)
}
