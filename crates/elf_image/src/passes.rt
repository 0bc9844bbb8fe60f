//! The passes over what the relocations of a file change: one that checks all of them, and one for
//! each window that they meet.
ghost use Rattle.std.specs.Prelude.{◌≡◌, ◌+◌, ◌^◌, ◌<◌, ◌≤◌, ◌||◌, ℕ, length, List, [], ◌∷◌, IfErr, IfOk, Some};
ghost use Rattle.elf_model.specs.Image.{ImageSource, SegmentWrite, relocation_changes, writes_of};
ghost use Rattle.elf_model.specs.ImageCost.{MARKED_WINDOWS};
ghost use Rattle.elf_table.specs.Prelude.{CallReads, IsOfRead, fault_of_result};
ghost use Rattle.elf_image.specs.Changes.{StoresAs, image_pass};
ghost use Rattle.elf_image.specs.Chunks.{HoldsChunks};
ghost use Rattle.elf_image.specs.Marks.{is_window_marked};
ghost use Rattle.elf_image.specs.Relocated.{IsImageOf};
ghost use Rattle.elf_image.specs.SegmentParts.{IsWindowOf, KeepsEdges};
ghost use Rattle.elf_image.specs.Within.{ImageWithin};
ghost use Rattle.elf_image.specs.Written.{ChecksAll, IsTargetOf, PatchesWindow};
ghost use Rattle.elf_image.specs.Written.{MeetsBefore, bytes_before, is_marked_by};

use crate::changes::{ImageFile, PlacedBytes};
use crate::marks::WindowMarks;
use crate::segment_windows::ImageTarget;
use crate::walk::{ImageWalk, WalkStep};
use crate::window::ImageWindow;
use elf_source::{Counted, Source};
use elf_table::Fault;

/// Checks all relocations, and marks the windows of a segment that they meet.
///
/// # Errors
/// Returns the first refusal, or a fault of the source.
pub(crate) fn check<S: Source>(
    src: &mut Counted<S>,
    image: &ImageFile<'_, '_>,
    target: &ImageTarget,
) -> Result<WindowMarks, Fault>
    requires image { ImageWithin src.old.seen.size image.now }
    requires window { 0 < target.now.window }
    ensures costs { CallReads src.old src.new (fault_of_result result) (image_pass image.now) }
    ensures checks { (source : ImageSource) → src.old.seen.file ≡ Some source.file →
        IsImageOf source image.now →
        ChecksAll source image.now.leaves target.now.window target.now.index result }
    ensures chunks { (source : ImageSource) → src.old.seen.file ≡ Some source.file →
        IsImageOf source image.now → IfOk result (λ marks.
        HoldsChunks source.file image.now.told.ranges.first.at marks.chunks) }
{
    let mut marks = WindowMarks::new();
    let mut walk = ImageWalk::new(image, None);
    'steps: loop {
        if let Some(found) = walk.relative(image) {
            let change = walk.take_relative(image, &found);
            mark_change(&mut marks, target, &change);
            continue;
        }
        match walk.step(src, image)? {
            WalkStep::Stores(change) => mark_change(&mut marks, target, &change),
            WalkStep::End => {
                marks.chunks = walk.entries.chunks;
                return Ok(marks);
            }
            _ => {}
        }
    }
}

/// Marks the windows that a change meets, if it is one of the segment.
fn mark_change(marks: &mut WindowMarks, target: &ImageTarget, change: &PlacedBytes<'_>)
    requires { 0 < target.now.window }
    ensures { (k : ℕ) → k < MARKED_WINDOWS → is_window_marked marks.new.met k
        ≡ (is_window_marked marks.old.met k
        || is_marked_by target.now change.now.place change.now.width k) }
{
    if change.place.segment == target.index {
        marks.mark(change.place.offset, change.width, target.window);
    }
}

/// Stores into a window of a segment what the relocations store there.
pub(crate) fn patch_window<S: Source>(
    src: &mut Counted<S>,
    image: &ImageFile<'_, '_>,
    target: &ImageTarget,
    window: &mut ImageWindow<'_>,
) -> Result<(), Fault>
    requires { ImageWithin src.old.seen.size image.now }
    ensures costs { CallReads src.old src.new (fault_of_result result) (image_pass image.now) }
    ensures edges { KeepsEdges window.old window.new }
    ensures patches { (source : ImageSource) (writes : List SegmentWrite) →
        src.old.seen.file ≡ Some source.file → IsImageOf source image.now →
        IsTargetOf source target.now →
        writes_of image.now.leaves (relocation_changes source) ≡ Ok writes →
        IsWindowOf (bytes_before source target.now) window.old.low window.old →
        window.old.low + length window.old.bytes.now ≤ target.now.size →
        IfOk result (λ _. PatchesWindow target.now writes window.old window.new) }
    ensures unrefused { (source : ImageSource) (writes : List SegmentWrite) →
        src.old.seen.file ≡ Some source.file → IsImageOf source image.now →
        writes_of image.now.leaves (relocation_changes source) ≡ Ok writes →
        IfErr result IsOfRead }
{
    let wanted = Some(window.reach(target.first));
    let mut walk = ImageWalk::new(image, wanted);
    'steps: loop {
        if let Some(found) = walk.relative(image) {
            let change = walk.take_relative(image, &found);
            store_change(window, image, target, &change);
            continue;
        }
        match walk.step(src, image)? {
            WalkStep::Stores(change) => store_change(window, image, target, &change),
            WalkStep::End => return Ok(()),
            _ => {}
        }
    }
}

/// Stores into a window what a change stores there, if it is one of the segment.
fn store_change(
    window: &mut ImageWindow<'_>,
    image: &ImageFile<'_, '_>,
    target: &ImageTarget,
    change: &PlacedBytes<'_>,
)
    ensures edges { KeepsEdges window.old window.new }
    ensures stores { (source : ImageSource) (write : SegmentWrite) → IsImageOf source image.now →
        StoresAs source change.now write → MeetsBefore source target.now window.old change.now →
        window.old.low + length window.old.bytes.now < 2 ^ 64 →
        (write.segment ≡ target.now.index →
        write.stored.at + length write.stored.bytes < 2 ^ 64) →
        PatchesWindow target.now (write ∷ []) window.old window.new }
{
    if change.place.segment == target.index {
        window.store(change, image.base);
    }
}
