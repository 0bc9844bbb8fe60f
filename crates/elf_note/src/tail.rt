//! The end of a table of notes.
ghost use Rattle.std.specs.Prelude.{◌≡◌, ℕ, ◌≤◌, List, Some, OnOk, IfOk};
ghost use Rattle.elf_model.specs.Notes.{are_zeros};
ghost use Rattle.elf_table.specs.Prelude.{HoldsBytes, RangeWithin, ReadsThrough, bytes_left};
ghost use Rattle.elf_note.specs.NoteCursors.{rest};

use elf_source::{Counted, Source};
use elf_table::{Fault, WINDOW_BYTES, Window};

/// Returns `true` if all bytes that are left are zero; they are no more than the window holds. They
/// are skipped.
///
/// # Errors
/// Returns a fault of a read.
pub(crate) fn ends_in_zeros<S: Source>(
    window: &mut Window<WINDOW_BYTES>,
    src: &mut Counted<S>,
) -> Result<bool, Fault>
    requires few { bytes_left window.old ≤ window.old.page }
    requires within { RangeWithin src.old.seen.size window.old }
    ensures reads { ReadsThrough S.one_read src.old src.new window.old window.new result }
    ensures passed { OnOk result (bytes_left window.new ≡ 0) }
    ensures zeros { (file : List ℕ) → src.old.seen.file ≡ Some file → HoldsBytes file window.old →
        IfOk result (λ zeros. zeros ≡ are_zeros (rest file window.old)) }
{
    let left = window.left();
    window.fill_buf(src, left)?;
    let zeros = are_zeros(window.front());
    window.skip(left);
    Ok(zeros)
}

/// Returns `true` if all bytes are zero.
pub fn are_zeros(bytes: &[u8]) -> bool
    ensures { result ≡ are_zeros bytes.now }
{
    bytes.iter().all(|byte| *byte == 0)
}
