//! The call that writes the image of a segment.
ghost use Rattle.std.specs.Prelude.{◌≡◌, ◌+◌, ◌-◌, ◌*◌, ◌<◌, ◌≤◌, ◌++◌, ℕ, IfErr, List, length, None, Some};
ghost use Rattle.std.specs.Prelude.{true};
ghost use Rattle.elf_model.specs.Checks.{first_refusal, header_checks, load_checks};
ghost use Rattle.elf_model.specs.Image.{ImageSource, image};
ghost use Rattle.elf_model.specs.Records.{e_phnum, e_shnum};
ghost use Rattle.elf_model.specs.Style.{without_sections};
ghost use Rattle.elf_source.specs.Prelude.{ReadsUpTo};
ghost use Rattle.elf_table.specs.Prelude.{HoldsProgramHeaders};
ghost use Rattle.elf_hash.specs.Loading.{FitsSource};
ghost use Rattle.elf_image.specs.ImageWrites.{HasSource, IsMaskedFile, IsTooLarge};
ghost use Rattle.elf_image.specs.ImageWrites.{RefusesOverLimit, WritesImage, asked_image};
ghost use Rattle.elf_image.specs.ImageWrites.{image_ceiling, relocated_bytes, relocated_ceiling};
ghost use Rattle.elf_image.specs.ImageWrites.{relocated_cost, request_cost, request_items};
ghost use Rattle.elf_image.specs.Within.{ImageWithin};
ghost use Rattle.elf_image.specs.Written.{BudgetDecides, StopsImage, windows_cost};

use crate::changes::{ImageFile, told_relocations};
use crate::chunks::EntryChunks;
use crate::headers::{check_headers, load_image, wanted_segment};
use crate::image_items::ImageItems;
use crate::marks::WindowMarks;
use crate::passes::check;
use crate::segment_windows::{ImageTarget, write_segment_windows};
use crate::window::SegmentBytes;
use elf_record::{Cause, Phdr, Refusal};
use elf_source::{Counted, Out, Sink, Source};
use elf_table::{ExecutionView, Fault, HeaderStore, Loaded, RunFault};

/// Which image is written.
#[derive(Clone, Copy)]
pub struct ImageRequest<'a> {
    /// The index of the LOAD program header.
    pub segment: u16,
    /// The items.
    pub items: &'a ImageItems<'a>,
    /// Whether an entry that lacks an item changes nothing; then a symbol that another object may
    /// define lacks its item even if it is weak or defined here.
    pub leaves: bool,
    /// The largest number of bytes that are written.
    pub most: u64,
}

/// Writes the bytes that a LOAD segment has in memory after a loader has relocated the file. All
/// entries are checked before the first byte is written; then the segment is written in windows of
/// as many bytes as `window` has, at least 16. If a limit is set on the source no byte past it is
/// read.
///
/// # Errors
/// Returns the first refusal, with nothing written if the file is known: the header's and the
/// load's; `LoadOverlap`; `NotImage`, `LoadAlign` and `TableOutside`; `BadLink` at 0x38 for an
/// index that no LOAD program header has; `Budget` at the program header if the segment has more
/// bytes than `most`; those of the dynamic entries and of the tables; then those of the entries, in
/// the order in which a loader applies them. Returns `Budget` if the limit on the source is too
/// small: at a read before all entries are checked, otherwise at the segment's bytes in the file.
/// Returns a fault of the source or of the output; a prefix of the bytes was written.
pub fn write_image<S: Source, W: Sink>(
    src: &mut Counted<S>,
    store: &mut HeaderStore,
    request: &ImageRequest<'_>,
    window: &mut [u8],
    out: &mut Out<W>,
) -> Result<(), RunFault>
    requires { 16 ≤ length window.old }
    ensures slots { store.new.slots ≡ store.old.slots }
    ensures writes { (file : List ℕ) → src.old.seen.file ≡ Some file → WritesImage out.old out.new
        result (image file store.old.slots request.now.segment request.now.most
        (request_items request.now)) }
    ensures stops { IfErr result (StopsImage src.old src.new out.new) }
    ensures limits { (file : List ℕ) → src.old.seen.file ≡ Some file → IfErr result
        (RefusesOverLimit src.old
        (request_cost file (without_sections file) (length window.old) request.now)
        (IsTooLarge (without_sections file) request.now.segment request.now.most)
        (image file store.old.slots request.now.segment request.now.most
        (request_items request.now))) }
    ensures cost { (file : List ℕ) → src.old.seen.file ≡ Some file → src.new.asked ≤ src.old.asked
        + request_cost file (without_sections file) (length window.old) request.now }
    ensures reads { ReadsUpTo src.old src.new (image_ceiling src.old.seen.size
        store.old.slots (length window.old) request.now.most) }
{
    let hides = src.hides();
    src.mask_section_headers(true);
    let written = write_masked(src, store, &Masked { request, hides }, window, out);
    src.mask_section_headers(hides);
    written
}

/// A request for a file whose fields that locate section headers are masked, and whether they are
/// masked in the bytes of the segment too.
#[derive(Clone, Copy)]
struct Masked<'a> {
    request: &'a ImageRequest<'a>,
    hides: bool,
}

/// Writes the image.
fn write_masked<S: Source, W: Sink>(
    src: &mut Counted<S>,
    store: &mut HeaderStore,
    masked: &Masked<'_>,
    window: &mut [u8],
    out: &mut Out<W>,
) -> Result<(), RunFault>
    requires room { 16 ≤ length window.old }
    requires masked { src.old.hides ≡ true }
    ensures slots { store.new.slots ≡ store.old.slots }
    ensures writes { (whole file : List ℕ) → IsMaskedFile src.old masked.now.hides whole file →
        e_shnum file ≡ 0 → WritesImage out.old out.new result
        (asked_image whole file store.old.slots masked.now.request.now) }
    ensures stops { IfErr result (StopsImage src.old src.new out.new) }
    ensures limits { (whole file : List ℕ) → IsMaskedFile src.old masked.now.hides whole file →
        e_shnum file ≡ 0 → IfErr result (RefusesOverLimit src.old
        (request_cost whole file (length window.old) masked.now.request.now)
        (IsTooLarge file masked.now.request.now.segment masked.now.request.now.most)
        (asked_image whole file store.old.slots masked.now.request.now)) }
    ensures cost { (whole file : List ℕ) → IsMaskedFile src.old masked.now.hides whole file →
        e_shnum file ≡ 0 → src.new.asked ≤ src.old.asked
        + request_cost whole file (length window.old) masked.now.request.now }
    ensures reads { ReadsUpTo src.old src.new (image_ceiling src.old.seen.size
        store.old.slots (length window.old) masked.now.request.now.most) }
{
    let loaded = load_image(src, store)?;
    write_loaded(src, store, loaded, masked, window, out)
}

/// Writes the image of a loaded file.
fn write_loaded<S: Source, W: Sink>(
    src: &mut Counted<S>,
    store: &HeaderStore,
    loaded: Loaded,
    masked: &Masked<'_>,
    window: &mut [u8],
    out: &mut Out<W>,
) -> Result<(), RunFault>
    requires room { 16 ≤ length window.old }
    requires fits { FitsSource src.old.seen.size store.now loaded }
    requires masked { src.old.hides ≡ true }
    ensures writes { (whole file : List ℕ) → IsMaskedFile src.old masked.now.hides whole file →
        first_refusal (header_checks file ++ load_checks file store.now.slots) ≡ None →
        HoldsProgramHeaders file loaded store.now → WritesImage out.old out.new result
        (asked_image whole file store.now.slots masked.now.request.now) }
    ensures stops { IfErr result (StopsImage src.old src.new out.new) }
    ensures limits { (whole file : List ℕ) → IsMaskedFile src.old masked.now.hides whole file →
        first_refusal (header_checks file ++ load_checks file store.now.slots) ≡ None →
        HoldsProgramHeaders file loaded store.now → IfErr result (RefusesOverLimit src.old
        (request_cost whole file (length window.old) masked.now.request.now
        - (64 + 56 * e_phnum file))
        (IsTooLarge file masked.now.request.now.segment masked.now.request.now.most)
        (asked_image whole file store.now.slots masked.now.request.now)) }
    ensures cost { (whole file : List ℕ) → IsMaskedFile src.old masked.now.hides whole file →
        first_refusal (header_checks file ++ load_checks file store.now.slots) ≡ None →
        HoldsProgramHeaders file loaded store.now →
        64 + 56 * e_phnum file + src.new.asked ≤ src.old.asked
        + request_cost whole file (length window.old) masked.now.request.now }
    ensures reads { ReadsUpTo src.old src.new (src.old.seen.size
        + relocated_ceiling src.old.seen.size (length window.old)
        masked.now.request.now.most) }
{
    let request = masked.request;
    let view = ExecutionView { loaded, store };
    check_headers(&view)?;
    let header = wanted_segment(&view, request.segment, request.most)?;
    let told = told_relocations(src, &view)?;
    let mut image = ImageFile {
        view,
        items: request.items,
        base: request.items.base(),
        leaves: request.leaves,
        told,
        chunks: EntryChunks::new(),
    };
    let target = target_of(request.segment, &header, window.len() as u64, masked.hides);
    write_relocated(src, &mut image, &target, window, out)
}

/// Checks the relocations of a file whose headers are checked, and writes a segment with them.
fn write_relocated<S: Source, W: Sink>(
    src: &mut Counted<S>,
    image: &mut ImageFile<'_, '_>,
    target: &ImageTarget,
    window: &mut [u8],
    out: &mut Out<W>,
) -> Result<(), RunFault>
    requires image { ImageWithin src.old.seen.size image.old }
    requires within { target.now.bytes.at + target.now.bytes.size ≤ src.old.seen.size }
    requires some { 16 ≤ target.now.window }
    requires room { target.now.window ≡ length window.old }
    requires masked { src.old.hides ≡ true }
    ensures writes { (source : ImageSource) → HasSource src.old image.old source target.now →
        WritesImage out.old out.new result (relocated_bytes source image.old.leaves target.now) }
    ensures stops { IfErr result (StopsImage src.old src.new out.new) }
    ensures limits { (source : ImageSource) → HasSource src.old image.old source target.now →
        IfErr result (RefusesOverLimit src.old (relocated_cost source image.old target.now) ⊥
        (relocated_bytes source image.old.leaves target.now)) }
    ensures cost { (source : ImageSource) → HasSource src.old image.old source target.now →
        src.new.asked ≤ src.old.asked + relocated_cost source image.old target.now }
    ensures reads { ReadsUpTo src.old src.new
        (relocated_ceiling src.old.seen.size target.now.window target.now.size) }
{
    let marks = check(src, image, target)?;
    check_budget(src, image, target, &marks)?;
    image.chunks = marks.chunks;
    write_segment_windows(src, image, target, &marks, window, out)
}

/// Returns the segment of a program header, written in windows of a size.
fn target_of(index: u16, header: &Phdr, window: u64, hides: bool) -> ImageTarget
    requires { 16 ≤ window }
    ensures some { 16 ≤ result.window }
    ensures window { result.window ≡ window }
    ensures place { (result.index ≡ index) × (result.first ≡ header.now.p_vaddr)
        × (result.size ≡ header.now.p_memsz) }
    ensures held { (result.bytes.at ≡ header.now.p_offset)
        × (result.bytes.size ≡ header.now.p_filesz) }
    ensures hides { result.hides ≡ hides }
    ensures bytes { result.bytes.at + result.bytes.size
        ≡ header.now.p_offset + header.now.p_filesz }
{
    ImageTarget {
        index,
        first: header.p_vaddr,
        bytes: SegmentBytes {
            at: header.p_offset,
            size: header.p_filesz,
        },
        size: header.p_memsz,
        window,
        hides,
    }
}

/// Checks that what is left of a limit is enough for the passes that write.
///
/// # Errors
/// Returns `Budget` at the segment's bytes in the file.
fn check_budget<S: Source>(
    src: &Counted<S>,
    image: &ImageFile<'_, '_>,
    target: &ImageTarget,
    marks: &WindowMarks,
) -> Result<(), Fault>
    requires { 0 < target.now.window }
    ensures { BudgetDecides src.now target.now.bytes.at
        (windows_cost image.now target.now marks.now) result }
{
    let Some(left) = src.left() else {
        return Ok(());
    };
    let windows = target.size.div_ceil(target.window);
    let entries = u128::from(image.told.ranges.first.len())
        + u128::from(image.told.ranges.second.len());
    let each = 8 * u128::from(image.told.compact.len()) + 72 * entries;
    let walks = u128::from(marks.marked(windows)).saturating_mul(each);
    let bytes = u128::from(target.bytes.size) + 14 * u128::from(windows);
    if walks.saturating_add(bytes) > u128::from(left) {
        return Err(Fault::Refused(Refusal {
            at: target.bytes.at,
            cause: Cause::Budget,
        }));
    }
    Ok(())
}
