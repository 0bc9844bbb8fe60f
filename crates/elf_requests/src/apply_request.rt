//! The request for a section with its relocations applied.
ghost use Rattle.std.specs.Prelude.{◌≡◌, ◌^◌, ◌≤◌};
ghost use Rattle.elf_requests.specs.Requests.{RunsApply};

use elf_layout::Addresses;
use elf_listing::show_stop;
use elf_model::Format;
use elf_reloc::apply_with;
use elf_source::{Counted, Out, Sink, Source};
use elf_table::{HeaderStore, Limits, RunFault};

/// Writes a section's bytes with its relocations applied, and returns status 0; or writes the line
/// of the refusal. If there is a budget, no more is read; on return no limit is set.
///
/// # Errors
/// A refusal, whose line was written, or a fault of the source or of the output, with a prefix of
/// the text written.
pub(crate) fn write_applied<S: Source, W: Sink>(
    src: &mut Counted<S>,
    store: &mut HeaderStore,
    limits: Limits,
    section: u16,
    layout: &Addresses<'_>,
    out: &mut Out<W>,
) -> Result<u8, RunFault>
    requires { (store.old.slots ≡ limits.headers) × (src.old.asked ≤ 2 ^ 127) }
    ensures slots { store.new.slots ≡ store.old.slots }
    ensures runs { RunsApply limits section layout.now src.old src.new out.old out.new result }
{
    src.limit(limits.budget);
    match apply_with(src, store, section, layout, out) {
        Ok(_) => Ok(0),
        Err(stop) => Err(show_stop(stop, Format::Columns, out)),
    }
}
