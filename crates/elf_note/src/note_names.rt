//! The names of notes.
ghost use Rattle.std.specs.Prelude.{◌≡◌, ℕ, ◌+◌, ◌<◌, List, length, Some, OnOk, IfOk};
ghost use Rattle.elf_model.specs.Prelude.{Note, note_shown, slice};
ghost use Rattle.elf_table.specs.Prelude.{HasLeft, HoldsBytes, ReadsThrough};
ghost use Rattle.elf_note.specs.NoteCursors.{NameIs};

use elf_source::{Counted, Source};
use elf_table::{Fault, NameBuf, NameEnd, NameLimit, WINDOW_BYTES, Window, search_name};

/// Skips the next `size` bytes, a note's name, and leaves in `name` what is shown of it with at
/// most `cap` bytes: those before its first NUL, or all.
///
/// # Errors
/// Returns a fault of a read. Then the contents of `name` are unspecified.
pub(crate) fn read_name<S: Source>(
    window: &mut Window<WINDOW_BYTES>,
    src: &mut Counted<S>,
    size: u64,
    cap: NameLimit,
    name: &mut NameBuf,
) -> Result<NameEnd, Fault>
    requires left { HasLeft src.old.seen.size window.old size }
    requires some { 0 < window.old.page }
    ensures reads { ReadsThrough S.one_read src.old src.new window.old window.new result }
    ensures at { OnOk result (window.new.at ≡ window.old.at + size) }
    ensures read { (file : List ℕ) → src.old.seen.file ≡ Some file → HoldsBytes file window.old →
        (note : Note) → note.name ≡ slice file window.old.at size → length note.name ≡ size →
        IfOk result (λ end. NameIs end name.new (note_shown cap.bytes note)) }
{
    name.clear();
    let end = window.at() + size;
    let want = size.min(u64::from(cap.bytes) + 1);
    let found = search_name(window, src, want, cap, name)?;
    window.skip(end - window.at());
    if !found && size > u64::from(cap.bytes) {
        return Ok(NameEnd::Cut);
    }
    Ok(NameEnd::Whole)
}
