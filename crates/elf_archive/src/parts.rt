//! The listing of one member: that of the file that its data are.
ghost use Rattle.std.specs.Prelude.{◌≡◌, IfOk, IfSome};
ghost use Rattle.elf_model.specs.Prelude.{IsBudgetRefusal, placed_after};
ghost use Rattle.elf_options.specs.Permitted.{style_of};
ghost use Rattle.elf_archive.specs.Listed.{EndsPart, GoesThroughMember, HoldsPart, ListsMember};
ghost use Rattle.elf_archive.specs.Members.{extent_of};

use crate::magic_strings::has_elf_magic;
use crate::member::FileRange;
use elf_listing::list;
use elf_record::{Cause, Parts, Refusal};
use elf_source::{Counted, Out, RangeSource, Sink, Source};
use elf_table::{HeaderStore, ListingStyle, RunFault};

/// Lists a member that is an ELF file, if parts of a listing are requested, and returns its
/// listing's own refusal, with an offset in the member; the line of that is not written. The
/// member's data are `extent`, and the source is restored on return.
///
/// # Errors
/// A refusal for lack of budget or a fault of the source, with an offset in the archive, or a fault
/// of the output: a prefix of the listing was written.
pub(crate) fn list_member<S: Source, W: Sink>(
    src: &mut Counted<RangeSource<S>>,
    store: &mut HeaderStore,
    style: ListingStyle,
    parts: Parts,
    extent: FileRange,
    out: &mut Out<W>,
) -> Result<Option<Refusal>, RunFault>
    requires { HoldsPart src.old (extent_of extent) }
    ensures lists { GoesThroughMember (extent_of extent) store.old.slots store.new.slots
        (style_of style.entry) parts.0 src.old src.new out.old out.new result
        (λ style. ListsMember out.old out.new result) }
    ensures own { IfOk result (λ told. IfSome told (λ refusal. IsBudgetRefusal refusal → ⊥)) }
{
    if parts.known(style.gnu).0 == 0 {
        return Ok(None);
    }
    if !has_elf_magic(src, extent)? {
        return Ok(None);
    }
    src.narrow(extent.at, extent.size);
    let listed = list(src, store, style, parts, out);
    src.widen();
    end_part(listed, extent.at)
}

/// Returns how the listing of a member that begins at the file offset `start` ended: its own
/// refusal is a result.
///
/// # Errors
/// What stops the archive's listing too, with an offset in the file: a refusal for lack of budget,
/// a fault of the source or of the output.
fn end_part(listed: Result<(), RunFault>, start: u64) -> Result<Option<Refusal>, RunFault>
    ensures { EndsPart start listed result }
{
    match listed {
        Ok(()) => Ok(None),
        Err(RunFault::Refused(refusal)) => {
            if refusal.cause == Cause::Budget {
                return Err(RunFault::Refused(placed(refusal, start)));
            }
            Ok(Some(refusal))
        }
        Err(RunFault::Source { fault, at }) => Err(RunFault::Source {
            fault,
            at: start.saturating_add(at),
        }),
        Err(RunFault::Out(fault)) => Err(RunFault::Out(fault)),
    }
}

/// Returns a refusal of a member whose data begin at the file offset `start`, with an offset in the
/// file, saturating at 64 bits.
pub(crate) fn placed(refusal: Refusal, start: u64) -> Refusal
    ensures { result ≡ placed_after start refusal }
{
    Refusal {
        at: start.saturating_add(refusal.at),
        cause: refusal.cause,
    }
}
