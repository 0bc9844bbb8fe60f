//! A listing of a file in memory, written to memory of the caller.
ghost use Rattle.std.specs.Prelude.{◌≡◌, ◌≤◌, IfSome, length};
ghost use Rattle.elf_model.specs.Cost.{listing_cost};
ghost use Rattle.elf_options.specs.Permitted.{style_of};
ghost use Rattle.elf_capi.specs.Shown.{ListsInMemory};

use crate::call_status::{CallStatus, status_from};
use crate::lent_sink::ProbeSink;
use elf_listing::show;
use elf_record::Parts;
use elf_source::{Counted, MemorySource, Out};
use elf_table::{Caps, HeaderStore};

/// The result of a call that writes to memory, and how many bytes of the file it requested.
#[derive(Clone, Copy)]
pub struct CallOutcome {
    pub told: CallStatus,
    pub asked: u128,
}

/// Lists a file to the start of a buffer, and returns how many bytes were written. The store has a
/// slot for each header that the caps allow.
pub fn write_listing(
    file: &[u8],
    store: &mut HeaderStore,
    caps: Caps,
    parts: Parts,
    out: &mut [u8],
    outcome: &mut CallOutcome,
) -> usize
    requires { store.old.slots ≡ caps.limits.headers }
    ensures within { result ≤ length out.new }
    ensures text { ListsInMemory file.now caps.entry parts.0 out.new result outcome.new.told }
    ensures cost { outcome.new.asked
        ≤ listing_cost file.now caps.entry.limits.headers (style_of caps.entry.style) parts.0 }
    ensures budget { IfSome caps.entry.limits.budget (λ bytes. outcome.new.asked ≤ bytes) }
{
    let ProbeSink {
        buffer: _buffer,
        len,
        spare: _spare,
        failed: _failed,
    } = list_to_sink(file, store, caps, parts, out, outcome);
    len
}

/// Lists a file to the start of a buffer, and returns the sink over it.
fn list_to_sink<'a>(
    file: &[u8],
    store: &mut HeaderStore,
    caps: Caps,
    parts: Parts,
    out: &'a mut [u8],
    outcome: &mut CallOutcome,
) -> ProbeSink<'a>
    requires { store.old.slots ≡ caps.limits.headers }
    ensures same { result.buffer.ghost_name ≡ out.entry.ghost_name }
    ensures text { ListsInMemory file.now caps.entry parts.0 result.buffer.now result.len
        outcome.new.told }
    ensures cost { outcome.new.asked
        ≤ listing_cost file.now caps.entry.limits.headers (style_of caps.entry.style) parts.0 }
    ensures budget { IfSome caps.entry.limits.budget (λ bytes. outcome.new.asked ≤ bytes) }
{
    let mut src = Counted::new(MemorySource::new(file));
    let mut out = Out::new(ProbeSink::new(out));
    let listed = show(&mut src, store, caps, parts, &mut out);
    outcome.asked = src.asked();
    let _ = src.into_inner();
    let sink = out.into_inner();
    outcome.told = status_from(&listed, sink.spare.is_some());
    sink
}
