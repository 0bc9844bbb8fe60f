//! Bytes that are read through a window.
ghost use Rattle.std.specs.Prelude.{◌≡◌, ℕ, ◌+◌, ◌≤◌, List, length, Some, OnOk};
ghost use Rattle.elf_model.specs.Bytes.{slice};
ghost use Rattle.elf_table.specs.Prelude.{HasLeft, HoldsBytes, ReadsThrough};

use elf_source::{Counted, Source};
use elf_table::{Fault, WINDOW_BYTES, Window};

/// Fills `out` with the next bytes of a window, and moves past them.
///
/// # Errors
/// Returns a fault of a read. Then `out` is unchanged.
pub(crate) fn take<S: Source>(
    window: &mut Window<WINDOW_BYTES>,
    src: &mut Counted<S>,
    out: &mut [u8],
) -> Result<(), Fault>
    requires left { HasLeft src.old.seen.size window.old (length out.old) }
    requires small { length out.old ≤ window.old.page }
    ensures reads { ReadsThrough S.one_read src.old src.new window.old window.new result }
    ensures at { OnOk result (window.new.at ≡ window.old.at + length out.old) }
    ensures taken { (file : List ℕ) → src.old.seen.file ≡ Some file → HoldsBytes file window.old →
        OnOk result (out.new ≡ slice file window.old.at (length out.old)) }
{
    window.fill_buf(src, out.len() as u64)?;
    out.copy_from_slice(&window.front()[..out.len()]);
    window.skip(out.len() as u64);
    Ok(())
}
