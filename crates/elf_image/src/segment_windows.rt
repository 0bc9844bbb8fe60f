//! The windows of a segment, as they are written.
ghost use Rattle.std.specs.Prelude.{◌≡◌, ◌+◌, ◌-◌, ◌<◌, ◌≤◌, ◌^◌, length, min, true, List, ℕ, Some, IfErr, IfOk};
ghost use Rattle.elf_model.specs.Bytes.{slice};
ghost use Rattle.elf_model.specs.Image.{ImageSource, SegmentWrite};
ghost use Rattle.elf_model.specs.Prelude.{IsBudgetRefusal};
ghost use Rattle.elf_model.specs.declared.causes.Refusal.{Refusal};
ghost use Rattle.elf_source.specs.Prelude.{ExceedsBudget, ReadsUpTo, file_by};
ghost use Rattle.elf_table.specs.Prelude.{CallReads, IsOfRead, fault_of_result};
ghost use Rattle.elf_table.specs.declared.run_fault.RunFault.TheVariants.{Refused};
ghost use Rattle.elf_image.specs.SegmentParts.{IsWindowOf};
ghost use Rattle.elf_image.specs.SegmentWrites.{IsMetByWrites, WritesFrom, window_cost};
ghost use Rattle.elf_image.specs.Within.{ImageWithin};
ghost use Rattle.elf_image.specs.Written.{MarksWrites, StopsImage, WritesWithinLimit, bytes_after};
ghost use Rattle.elf_image.specs.Written.{windows_cost};

use crate::changes::ImageFile;
use crate::marks::WindowMarks;
use crate::passes::patch_window;
use crate::window::{ImageWindow, SegmentBytes};
use elf_source::{Counted, Out, Sink, Source};
use elf_table::{Fault, RunFault};

/// The segment that is written.
#[derive(Clone, Copy)]
pub(crate) struct ImageTarget {
    pub(crate) index: u16,
    /// Its address.
    pub(crate) first: u64,
    /// Its bytes in the file.
    pub(crate) bytes: SegmentBytes,
    /// The number of its bytes in memory.
    pub(crate) size: u64,
    /// The number of bytes of a window.
    pub(crate) window: u64,
    /// Whether the fields that locate section headers are masked in its bytes.
    pub(crate) hides: bool,
}

/// A window of the segment: its offset, and whether a relocation stores something in it.
#[derive(Clone, Copy)]
struct WindowPlace {
    low: u64,
    met: bool,
}

/// Writes the segment, window by window. All relocations are checked.
///
/// # Errors
/// Returns a fault of the source or of the output; a prefix of the bytes was written.
pub(crate) fn write_segment_windows<S: Source, W: Sink>(
    src: &mut Counted<S>,
    image: &ImageFile<'_, '_>,
    target: &ImageTarget,
    marks: &WindowMarks,
    room: &mut [u8],
    out: &mut Out<W>,
) -> Result<(), RunFault>
    requires image { ImageWithin src.old.seen.size image.now }
    requires within { target.now.bytes.at + target.now.bytes.size ≤ src.old.seen.size }
    requires some { 16 ≤ target.now.window }
    requires room { target.now.window ≡ length room.old }
    requires masked { src.old.hides ≡ true }
    ensures costs { ReadsUpTo src.old src.new (windows_cost image.now target.now marks.now) }
    ensures refuses { IfErr result (λ fault. (refusal : Refusal) → fault ≡ Refused refusal →
        IsBudgetRefusal refusal →
        ExceedsBudget src.old src.new (windows_cost image.now target.now marks.now)) }
    ensures stops { IfErr result (StopsImage src.old src.new out.new) }
    ensures text { (source : ImageSource) (writes : List SegmentWrite) →
        WritesFrom src.old image.now source target.now writes →
        MarksWrites target.now.window target.now.index writes marks.now →
        WritesWithinLimit out.old out.new result (bytes_after source target.now writes) }
{
    let size = target.size;
    let mut low = 0;
    'windows: while low < size {
        let count = (size - low).min(target.window);
        let met = marks.is_marked(low / target.window);
        let place = WindowPlace { low, met };
        write_window(src, image, target, place, &mut room[0..count as usize], out)?;
        low += count;
    }
    Ok(())
}

/// Writes one window of the segment, as many bytes as `bytes` has; they are left in it.
///
/// # Errors
/// Returns a fault of the source or of the output; a prefix of the bytes was written.
fn write_window<S: Source, W: Sink>(
    src: &mut Counted<S>,
    image: &ImageFile<'_, '_>,
    target: &ImageTarget,
    place: WindowPlace,
    bytes: &mut [u8],
    out: &mut Out<W>,
) -> Result<(), RunFault>
    requires image { ImageWithin src.old.seen.size image.now }
    requires within { target.now.bytes.at + target.now.bytes.size ≤ src.old.seen.size }
    requires fits { place.low + length bytes.old < 2 ^ 64 }
    requires part { place.low + length bytes.old ≤ target.now.size }
    requires masked { src.old.hides ≡ true }
    ensures costs { ReadsUpTo src.old src.new
        (window_cost image.now target.now place (length bytes.old)) }
    ensures refuses { IfErr result (λ fault. (refusal : Refusal) → fault ≡ Refused refusal →
        IsBudgetRefusal refusal → ExceedsBudget src.old src.new
        (window_cost image.now target.now place (length bytes.old))) }
    ensures stops { IfErr result (StopsImage src.old src.new out.new) }
    ensures text { (source : ImageSource) (writes : List SegmentWrite) →
        WritesFrom src.old image.now source target.now writes →
        IsMetByWrites target.now writes place (length bytes.old) →
        WritesWithinLimit out.old out.new result
        (slice (bytes_after source target.now writes) place.low (length bytes.old)) }
{
    let mut window = read_window(src, target, place.low, bytes)?;
    if place.met {
        patch_window(src, image, target, &mut window)?;
    }
    out.put(window.bytes())?;
    Ok(())
}

/// Reads a window of a segment, whose fields that locate section headers are masked only if that is
/// asked for.
///
/// # Errors
/// Returns a fault of a read.
fn read_window<'w, S: Source>(
    src: &mut Counted<S>,
    target: &ImageTarget,
    low: u64,
    bytes: &'w mut [u8],
) -> Result<ImageWindow<'w>, Fault>
    requires within { target.now.bytes.at + target.now.bytes.size ≤ src.old.seen.size }
    requires fits { low + length bytes.old < 2 ^ 64 }
    requires masked { src.old.hides ≡ true }
    ensures costs { CallReads src.old src.new (fault_of_result result)
        (14 + min (target.now.bytes.size - low) (length bytes.old)) }
    ensures fault { IfErr result IsOfRead }
    ensures long { IfOk result (λ window. length window.bytes.now ≡ length bytes.old) }
    ensures shows { (whole : List ℕ) →
        file_by target.now.hides src.old.source.file ≡ Some whole → src.old.seen.size < 2 ^ 64 →
        IfOk result (IsWindowOf (slice whole target.now.bytes.at target.now.bytes.size) low) }
{
    src.mask_section_headers(target.hides);
    let window = ImageWindow::read(src, target.bytes, low, bytes);
    src.mask_section_headers(true);
    window
}
