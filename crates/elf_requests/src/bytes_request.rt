//! The request for the bytes of a section or of a program header.
ghost use Rattle.std.specs.Prelude.{◌≡◌, ◌^◌, ◌≤◌, if◌then◌else◌};
ghost use Rattle.elf_reloc.specs.Queried.{query_as};
ghost use Rattle.elf_requests.specs.Requests.{RunsBytes};

use elf_listing::show_stop;
use elf_model::Format;
use elf_reloc::{WantedBytes, write_bytes};
use elf_source::{Counted, Out, Sink, Source};
use elf_table::{HeaderStore, Limits, RunFault};

/// Writes the bytes of a section or of a program header, and returns status 0; or returns status 1,
/// with nothing written, if there is no section of the name; or writes the line of the refusal. If
/// there is a budget, no more is read; on return no limit is set.
///
/// # Errors
/// A refusal, whose line was written, or a fault of the source or of the output, with a prefix of
/// the bytes written.
pub(crate) fn write_raw<S: Source, W: Sink>(
    src: &mut Counted<S>,
    store: &mut HeaderStore,
    limits: Limits,
    query: &WantedBytes<'_>,
    out: &mut Out<W>,
) -> Result<u8, RunFault>
    requires { (store.old.slots ≡ limits.headers) × (src.old.asked ≤ 2 ^ 127) }
    ensures slots { store.new.slots ≡ store.old.slots }
    ensures runs { RunsBytes limits (query_as query.now) src.old src.new out.old out.new result }
{
    src.limit(limits.budget);
    match write_bytes(src, store, query, out) {
        Ok(written) => Ok(status_of(written)),
        Err(stop) => Err(show_stop(stop, Format::Columns, out)),
    }
}

/// Returns the status: 0 if the bytes were written, 1 if there is no section of the name.
fn status_of(written: bool) -> u8
    ensures { result ≡ (if written then 0 else 1) }
{
    if written { 0 } else { 1 }
}
