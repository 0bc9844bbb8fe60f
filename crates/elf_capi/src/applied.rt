//! A section of a file in memory with its relocations applied, written to memory of the caller.
ghost use Rattle.std.specs.Prelude.{◌≡◌, ◌≤◌, IfSome, length};
ghost use Rattle.elf_model.specs.ApplyCost.{apply_cost_by_order};
ghost use Rattle.elf_capi.specs.Applied.{AppliesIn};

use crate::call_status::status_from;
use crate::file_source::file_within;
use crate::lent_sink::ProbeSink;
use crate::listing::CallOutcome;
use elf_layout::Addresses;
use elf_reloc::apply_with;
use elf_source::Out;
use elf_table::HeaderStore;

/// A section to write, the addresses for which it is written, and how many bytes may be read, if
/// limited.
#[derive(Clone, Copy)]
pub struct ApplyInput<'a> {
    /// The section's index.
    pub section: u16,
    /// The addresses.
    pub layout: &'a Addresses<'a>,
    /// The read budget, if there is one.
    pub budget: Option<u64>,
}

/// Writes a section to the start of a buffer, and returns how many bytes were written.
pub fn write_section(
    file: &[u8],
    store: &mut HeaderStore,
    wanted: &ApplyInput<'_>,
    out: &mut [u8],
    outcome: &mut CallOutcome,
) -> usize
    ensures slots { store.new.slots ≡ store.old.slots }
    ensures within { result ≤ length out.new }
    ensures text { AppliesIn file.now store.old.slots wanted.now out.new result outcome.new.told }
    ensures cost { outcome.new.asked ≤ apply_cost_by_order file.now store.old.slots
        wanted.now.section wanted.now.layout.now }
    ensures budget { IfSome wanted.now.budget (λ bytes. outcome.new.asked ≤ bytes) }
{
    let ProbeSink {
        buffer: _buffer,
        len,
        spare: _spare,
        failed: _failed,
    } = write_to_sink(file, store, wanted, out, outcome);
    len
}

/// Writes a section to the start of a buffer, and returns the sink over it.
fn write_to_sink<'a>(
    file: &[u8],
    store: &mut HeaderStore,
    wanted: &ApplyInput<'_>,
    out: &'a mut [u8],
    outcome: &mut CallOutcome,
) -> ProbeSink<'a>
    ensures slots { store.new.slots ≡ store.old.slots }
    ensures same { result.buffer.ghost_name ≡ out.entry.ghost_name }
    ensures text { AppliesIn file.now store.old.slots wanted.now result.buffer.now result.len
        outcome.new.told }
    ensures cost { outcome.new.asked ≤ apply_cost_by_order file.now store.old.slots
        wanted.now.section wanted.now.layout.now }
    ensures budget { IfSome wanted.now.budget (λ bytes. outcome.new.asked ≤ bytes) }
{
    let mut src = file_within(file, wanted.budget);
    let mut out = Out::new(ProbeSink::new(out));
    let applied = apply_with(&mut src, store, wanted.section, wanted.layout, &mut out);
    outcome.asked = src.asked();
    let _ = src.into_inner();
    let sink = out.into_inner();
    outcome.told = status_from(&applied, sink.spare.is_some());
    sink
}
