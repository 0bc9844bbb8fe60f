//! The image of a segment of a file in memory, written to memory of the caller.
ghost use Rattle.std.specs.Prelude.{◌≡◌, ◌≤◌, IfSome, length};
ghost use Rattle.elf_image.specs.ImageWrites.{request_items};
ghost use Rattle.elf_capi.specs.Images.{ImagesIn, image_reads};

use crate::call_status::status_from;
use crate::file_source::file_within;
use crate::lent_sink::ProbeSink;
use crate::listing::CallOutcome;
use elf_image::{ImageRequest, write_image};
use elf_source::Out;
use elf_table::HeaderStore;

/// An image to write, and how many bytes may be read, if limited.
#[derive(Clone, Copy)]
pub struct ImageInput<'a> {
    /// The segment and the items.
    pub request: ImageRequest<'a>,
    /// The read budget, if there is one.
    pub budget: Option<u64>,
}

/// Writes the image of a segment to the start of a buffer, in windows of as many bytes as `window`
/// has, and returns how many bytes were written. No more are read than the budget allows, if there
/// is one.
pub fn write_segment(
    file: &[u8],
    store: &mut HeaderStore,
    wanted: &ImageInput<'_>,
    window: &mut [u8],
    out: &mut [u8],
    outcome: &mut CallOutcome,
) -> usize
    requires { 16 ≤ length window.old }
    ensures slots { store.new.slots ≡ store.old.slots }
    ensures within { result ≤ length out.new }
    ensures text { ImagesIn file.now store.old.slots (length window.old) wanted.now out.new result
        outcome.new.told }
    ensures cost { outcome.new.asked ≤ image_reads file.now wanted.now.request.segment
        (length window.old) (request_items wanted.now.request) }
    ensures budget { IfSome wanted.now.budget (λ bytes. outcome.new.asked ≤ bytes) }
{
    let ProbeSink {
        buffer: _buffer,
        len,
        spare: _spare,
        failed: _failed,
    } = segment_to_sink(file, store, wanted, window, out, outcome);
    len
}

/// Writes the image of a segment to the start of a buffer, and returns the sink over it.
fn segment_to_sink<'a>(
    file: &[u8],
    store: &mut HeaderStore,
    wanted: &ImageInput<'_>,
    window: &mut [u8],
    out: &'a mut [u8],
    outcome: &mut CallOutcome,
) -> ProbeSink<'a>
    requires { 16 ≤ length window.old }
    ensures slots { store.new.slots ≡ store.old.slots }
    ensures same { result.buffer.ghost_name ≡ out.entry.ghost_name }
    ensures text { ImagesIn file.now store.old.slots (length window.old) wanted.now
        result.buffer.now result.len outcome.new.told }
    ensures cost { outcome.new.asked ≤ image_reads file.now wanted.now.request.segment
        (length window.old) (request_items wanted.now.request) }
    ensures budget { IfSome wanted.now.budget (λ bytes. outcome.new.asked ≤ bytes) }
{
    let mut src = file_within(file, wanted.budget);
    let mut out = Out::new(ProbeSink::new(out));
    let written = write_image(&mut src, store, &wanted.request, window, &mut out);
    outcome.asked = src.asked();
    let _ = src.into_inner();
    let sink = out.into_inner();
    outcome.told = status_from(&written, sink.spare.is_some());
    sink
}
