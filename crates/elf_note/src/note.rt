//! The next note of a window.
ghost use Rattle.std.specs.Prelude.{◌≡◌, ℕ, ◌+◌, ◌-◌, ◌^◌, ◌<◌, ◌≤◌, List, length};
ghost use Rattle.std.specs.Prelude.{Some, IfErr, OnOk, IfOk};
ghost use Rattle.elf_model.specs.Bytes.{slice};
ghost use Rattle.elf_table.specs.Prelude.{HasLeft, HoldsBytes, RangeWithin, ReadsThrough, ReadsThroughWindow, bytes_left};
ghost use Rattle.elf_note.specs.NoteCursors.{PassesNote, StopsNote, TakesNoteBytes, ReturnsNote, notes_left};
ghost use Rattle.elf_note.specs.NoteCursors.{note_cut};

use crate::note_names::read_name;
use crate::sizes::note_parts;
use crate::tail::ends_in_zeros;
use crate::window_bytes::take;
use elf_record::{Cause, NoteHead, Refusal};
use elf_source::{Counted, Source};
use elf_table::{Fault, NameBuf, NameEnd, NameLimit, WINDOW_BYTES, Window};

/// The size of a note header in bytes.
pub(crate) const HEAD_BYTES: usize = 12;
/// The number of bytes of a descriptor that are shown.
pub(crate) const SHOWN_DESCRIPTOR: usize = 32;

/// What is known of a note besides its name and its descriptor.
#[derive(Clone, Copy)]
pub(crate) struct FoundNote {
    /// The file offset of its header.
    pub(crate) at: u64,
    /// Its header.
    pub(crate) head: NoteHead,
    /// Whether its name is shown whole.
    pub(crate) name_end: NameEnd,
    /// The file offset of its descriptor.
    pub(crate) desc_at: u64,
    /// The number of bytes of its descriptor that are shown.
    pub(crate) shown: u64,
}

/// Reads the next note and moves past its padding. Its name is then in `name`, and the first bytes
/// of its descriptor are in `desc`. Returns `None` if fewer than 12 bytes are left, all of them
/// zero.
///
/// # Errors
/// Returns the refusal `NoteCut` at the note's offset if there is no whole note; otherwise a fault
/// of a read.
pub(crate) fn next_note<S: Source>(
    window: &mut Window<WINDOW_BYTES>,
    src: &mut Counted<S>,
    align: u64,
    cap: NameLimit,
    name: &mut NameBuf,
    desc: &mut [u8; SHOWN_DESCRIPTOR],
) -> Result<Option<FoundNote>, Fault>
    requires aligned { 0 < align }
    requires small { align ≤ 8 }
    requires page { 32 ≤ window.old.page }
    requires within { RangeWithin src.old.seen.size window.old }
    ensures went { ReadsThroughWindow S.one_read src.old src.new window.old window.new result }
    ensures stops { IfErr result (StopsNote window.old.at) }
    ensures passes { IfOk result (PassesNote (bytes_left window.old) (bytes_left window.new)) }
    ensures sized { IfOk result (TakesNoteBytes align window.old window.new) }
    ensures tells { (file : List ℕ) → src.old.seen.file ≡ Some file → HoldsBytes file window.old →
        ReturnsNote file align cap.bytes window.old.at name.new desc.new
        (notes_left align file window.old) (notes_left align file window.new) result }
{
    let at = window.at();
    if window.left() < HEAD_BYTES as u64 {
        if ends_in_zeros(window, src)? {
            return Ok(None);
        }
        return Err(cut(at));
    }
    let mut bytes = [0; HEAD_BYTES];
    take(window, src, &mut bytes)?;
    let head = NoteHead::decode(&bytes);
    let Some(parts) = note_parts(align, &head, HEAD_BYTES as u64 + window.left()) else {
        return Err(cut(at));
    };
    let name_end = read_name(window, src, u64::from(head.namesz), cap, name)?;
    window.skip(parts.descriptor - HEAD_BYTES as u64 - u64::from(head.namesz));
    let desc_at = window.at();
    let shown = u64::from(head.descsz).min(SHOWN_DESCRIPTOR as u64);
    let first = &mut desc[..shown as usize];
    read_rest(window, src, parts.size - parts.descriptor, first)?;
    Ok(Some(FoundNote {
        at,
        head,
        name_end,
        desc_at,
        shown,
    }))
}

// Reads the first bytes of a descriptor and skips the others and the padding, all `size` bytes.
fn read_rest<S: Source>(
    window: &mut Window<WINDOW_BYTES>,
    src: &mut Counted<S>,
    size: u64,
    desc: &mut [u8],
) -> Result<(), Fault>
    requires few { length desc.old ≤ 32 }
    requires page { 32 ≤ window.old.page }
    requires part { length desc.old ≤ size }
    requires left { HasLeft src.old.seen.size window.old size }
    ensures reads { ReadsThrough S.one_read src.old src.new window.old window.new result }
    ensures at { OnOk result (window.new.at ≡ window.old.at + size) }
    ensures read { (file : List ℕ) → src.old.seen.file ≡ Some file → HoldsBytes file window.old →
        OnOk result (desc.new ≡ slice file window.old.at (length desc.old)) }
{
    take(window, src, desc)?;
    window.skip(size - desc.len() as u64);
    Ok(())
}

// Returns the fault that refuses a table of notes at an offset.
fn cut(at: u64) -> Fault
    ensures { result ≡ note_cut at }
{
    Fault::Refused(Refusal {
        at,
        cause: Cause::NoteCut,
    })
}
