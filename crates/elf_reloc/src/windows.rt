//! The section with its relocations applied, window by window.
ghost use Rattle.std.specs.Prelude.{◌≡◌, ◌+◌, ◌*◌, ◌≤◌, ℕ, List, Some, length};
ghost use Rattle.elf_model.specs.Bytes.{slice};
ghost use Rattle.elf_reloc.specs.Walk.{walk_all};
ghost use Rattle.elf_reloc.specs.Windows.{Copies, MayWrite, NotForBudget, OfPatches, WritesBytes};
ghost use Rattle.elf_reloc.specs.Windows.{windows};

use crate::entry::ApplyTarget;
use crate::passes::patch_window;
use elf_source::{Counted, Out, Sink, Source};
use elf_table::{RunFault, fill};

/// The size of a window in bytes.
const WINDOW: usize = 64;

/// Writes the section, whose bytes are at the file offset `at`.
///
/// # Errors
/// Returns a refusal of an entry, only if the source returns other bytes than before; a fault of
/// the source or of the output.
pub(crate) fn write_by_windows<S: Source, W: Sink>(
    src: &mut Counted<S>,
    target: &ApplyTarget<'_>,
    at: u64,
    out: &mut Out<W>,
) -> Result<(), RunFault>
    requires { MayWrite src.old target.now at (at + target.now.size) }
    ensures did { Copies src.old src.new out.old out.new result NotForBudget
        (windows target.now.size * walk_all target.now + target.now.size) target.now.size }
    ensures text { (file : List ℕ) → src.old.seen.file ≡ Some file → OfPatches target.now at
        (λ patches text. WritesBytes out.old out.new result text) file }
{
    let size = target.size;
    let mut done = 0;
    'windows: while done < size {
        let mut bytes = [0; WINDOW];
        let count = (size - done).min(WINDOW as u64) as usize;
        write_window(src, target, at, done, &mut bytes[..count], out)?;
        done += count as u64;
    }
    Ok(())
}

/// Writes one window of the section, as many bytes at `low` as `window` has, at most 64; they are
/// left in it.
#[tactic(auto, using(crate::proofs::WindowSteps::stopping))]
fn write_window<S: Source, W: Sink>(
    src: &mut Counted<S>,
    target: &ApplyTarget<'_>,
    at: u64,
    low: u64,
    window: &mut [u8],
    out: &mut Out<W>,
) -> Result<(), RunFault>
    requires may { MayWrite src.old target.now at (at + target.now.size) }
    requires few { length window.old ≤ 64 }
    requires part { low + length window.old ≤ target.now.size }
    ensures did { Copies src.old src.new out.old out.new result NotForBudget
        (walk_all target.now + length window.old) (length window.old) }
    ensures text { (file : List ℕ) → src.old.seen.file ≡ Some file → OfPatches target.now at
        (λ patches text. WritesBytes out.old out.new result
        (slice text low (length window.old))) file }
{
    fill(src, at + low, window)?;
    patch_window(src, target, low, window)?;
    out.put(window)?;
    Ok(())
}
