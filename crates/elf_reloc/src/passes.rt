//! The passes over the relocation entries for a section.
ghost use Rattle.std.specs.Prelude.{◌≡◌, ◌+◌, ◌<◌, ◌^◌, ◌&&◌, nat_le, ℕ, List, IfOk};
ghost use Rattle.std.specs.Prelude.{length, true};
ghost use Rattle.elf_model.specs.Prelude.{clipped, put};
ghost use Rattle.elf_table.specs.Prelude.{CallDid, IsOpen, fault_of_result};
ghost use Rattle.elf_reloc.specs.Entries.{patch_as};
ghost use Rattle.elf_reloc.specs.Passes.{ChecksEntries, Folds, MayPatch, folded, rising, storing};
ghost use Rattle.elf_reloc.specs.Walk.{changes_all, entries_from, walk_all};

use crate::entry::{ApplyTarget, PlacedPatch};
use crate::walk::RelocationWalk;
use elf_source::{Counted, Source};
use elf_table::Fault;

/// The result of a pass that only checks.
#[derive(Clone, Copy)]
pub(crate) struct Checked {
    /// Whether the offsets of the entries that store bytes never decrease.
    pub(crate) rises: bool,
    /// The last of those offsets.
    pub(crate) low: u64,
    /// The number of entries.
    pub(crate) entries: u128,
}

/// Checks all entries.
///
/// # Errors
/// Returns the first refusal, or a fault of the source.
pub(crate) fn check<S: Source>(
    src: &mut Counted<S>,
    target: &ApplyTarget<'_>,
) -> Result<Checked, Fault>
    requires opened { IsOpen src.old target.now.file.loaded target.now.file.store.now }
    ensures counted { IfOk result (λ found. found.entries ≡ entries_from target.now 0) }
    ensures did { CallDid src.old src.new (fault_of_result result) (walk_all target.now)
        (λ file. ChecksEntries result (folded rising (true, 0) (changes_all file target.now))) }
{
    let mut entries = RelocationWalk::new();
    let mut rises = true;
    let mut low = 0;
    'entries: while let Some(placed) = entries.next(src, target)? {
        rises = still_rises(rises, low, placed.offset);
        low = placed.offset;
    }
    Ok(Checked {
        rises,
        low,
        entries: entries.count(),
    })
}

/// Returns `true` if offsets never decrease, with one more.
fn still_rises(rises: bool, low: u64, offset: u64) -> bool
    ensures { result ≡ (rises && nat_le low offset) }
{
    rises && low <= offset
}

/// Stores what the entries store into a window, which begins at an offset of the section.
///
/// # Errors
/// Returns the first refusal, or a fault of the source.
pub(crate) fn patch_window<S: Source>(
    src: &mut Counted<S>,
    target: &ApplyTarget<'_>,
    low: u64,
    window: &mut [u8],
) -> Result<(), Fault>
    requires { MayPatch src.old target.now low (length window.old) }
    ensures { CallDid src.old src.new (fault_of_result result) (walk_all target.now)
        (λ file. Folds result window.new
        (folded (storing low (length window.old)) window.old (changes_all file target.now))) }
{
    let mut entries = RelocationWalk::new();
    'entries: while let Some(placed) = entries.next(src, target)? {
        put_in(window, low, &placed);
    }
    Ok(())
}

/// Stores the part of some bytes that falls into a window, which begins at an offset.
pub(crate) fn put_in(window: &mut [u8], low: u64, placed: &PlacedPatch)
    requires window { low + length window.old < 2 ^ 64 }
    requires patch { placed.now.offset + length (patch_as placed.now).bytes < 2 ^ 64 }
    ensures { window.new ≡ put (clipped low (length window.old) (patch_as placed.now)) window.old }
{
    let bytes = placed.patch.bytes();
    let first = placed.offset.max(low);
    let end = (placed.offset + bytes.len() as u64).min(low + window.len() as u64);
    if first < end {
        let part = &bytes[(first - placed.offset) as usize..(end - placed.offset) as usize];
        window[(first - low) as usize..(end - low) as usize].copy_from_slice(part);
    }
}
