//! What would help after a refusal of a section, or which value does not fit, printed on standard
//! error.
ghost use Rattle.std.specs.Prelude.{◌≡◌, ◌≤◌, ◌^◌, ℕ, List, None, Some, IfErr, false};
ghost use Rattle.elf_model.specs.Prelude.{explained, explanation, is_overflow, overflow_text, overflowed, why_refused};
ghost use Rattle.elf_source.specs.Source.{ReadsUpTo};
ghost use Rattle.elf_listing.specs.Prelude.{KeepsSourceUnlimited, StopSays};
ghost use Rattle.elf_reloc.specs.Explained.{explain_bytes, may_be_missing};
ghost use Rattle.elf_reloc.specs.Overflowed.{overflow_bytes};
ghost use Rattle.elfsee.specs.Explaining.{AsksRest, WroteUpTo, asks_why, reason_bytes, reason_bytes_in, reason_in};

use crate::needs_report::budget_left;
use elf_cli::{ERROR_LINE_BYTES, write_rest};
use elf_format::{show_missing, show_overflow};
use elf_layout::Addresses;
use elf_record::{Cause, Refusal};
use elf_reloc::{explain, explain_overflow};
use elf_requests::{Request, Task};
use elf_source::{Counted, Limited, Out, Sink, Source, WriteSink};
use elf_table::{HeaderStore, NameBuf, NameEnd, RunFault};
use std::alloc::Global;
use std::io::{BufWriter, Stderr};

/// Prints why a request to apply was refused, if the request asks for that.
///
/// If there is no memory for the line, or it cannot be written, only the refusal is reported. The
/// read budget covers all that was requested from the source since its count began: if it is
/// exhausted, nothing is printed.
pub fn report_missing_reason<S: Source>(
    alloc: Global,
    request: &Request<'_>,
    refusal: Refusal,
    src: &mut Counted<S>,
    store: &mut HeaderStore<'_>,
    errors: Stderr,
)
    ensures slots { store.new.slots ≡ store.old.slots }
    ensures quiet { asks_why request.now.task ≡ false → src.new ≡ src.old }
    ensures asks { AsksRest request.now.limits.budget src.old src.new
        (reason_bytes_in store.old.slots request.now.task refusal) }
{
    if asks_why(request) {
        if let Ok(errors) = BufWriter::with_capacity(alloc, ERROR_LINE_BYTES, errors) {
            report_into(request, refusal, src, store, errors);
        }
    }
}

/// Prints why a request to apply was refused, within the rest of the read budget.
fn report_into<S: Source>(
    request: &Request<'_>,
    refusal: Refusal,
    src: &mut Counted<S>,
    store: &mut HeaderStore<'_>,
    errors: BufWriter<Stderr>,
)
    ensures slots { store.new.slots ≡ store.old.slots }
    ensures asks { AsksRest request.now.limits.budget src.old src.new
        (reason_bytes_in store.old.slots request.now.task refusal) }
{
    let mut out = Out::new(WriteSink::new(errors));
    let _ = report_rest(request, refusal, src, store, &mut out);
    let _ = write_rest(out.into_inner().into_inner(), true);
}

/// Writes why a request to apply was refused, within the rest of the read budget. On
/// return no limit is set on the source.
///
/// # Errors
/// A refusal of the file, or because the budget is exhausted; a fault of the source or of the
/// output. A prefix of the line was written.
fn report_rest<S: Source, W: Sink>(
    request: &Request<'_>,
    refusal: Refusal,
    src: &mut Counted<S>,
    store: &mut HeaderStore<'_>,
    out: &mut Out<W>,
) -> Result<(), RunFault>
    ensures slots { store.new.slots ≡ store.old.slots }
    ensures asks { AsksRest request.now.limits.budget src.old src.new
        (reason_bytes_in store.old.slots request.now.task refusal) }
    ensures leaves { KeepsSourceUnlimited src.old src.new }
    ensures tells { (file : List ℕ) → src.old.seen.file ≡ Some file →
        WroteUpTo out.old out.new result (reason_in file request.now.task refusal) }
{
    let rest = budget_left(request.limits.budget, src.asked());
    src.within(
        rest,
        &mut |src| report_missing(request, refusal, src, store, out),
    )
}

/// Returns `true` if a request asks why a section was refused.
#[tactic(auto, unfolding(crate::specs::Explaining::asks_why))]
fn asks_why(request: &Request<'_>) -> bool
    ensures { result ≡ asks_why request.now.task }
{
    match request.task {
        Task::Apply { explain, .. } => explain,
        Task::Place { explain, .. } => explain,
        _ => false,
    }
}

/// Writes the line of what the layout of a request lacks, or of the value that does not fit, if
/// there is one.
///
/// # Errors
/// As for [`write_reason`].
#[tactic(auto, unfolding(crate::specs::Explaining::reason_in, crate::specs::Explaining::reason_bytes_in))]
fn report_missing<S: Source, W: Sink>(
    request: &Request<'_>,
    refusal: Refusal,
    src: &mut Counted<S>,
    store: &mut HeaderStore<'_>,
    out: &mut Out<W>,
) -> Result<(), RunFault>
    ensures slots { store.new.slots ≡ store.old.slots }
    ensures reads { ReadsUpTo src.old src.new
        (reason_bytes_in store.old.slots request.now.task refusal) }
    ensures tells { (file : List ℕ) → src.old.seen.file ≡ Some file →
        WroteUpTo out.old out.new result (reason_in file request.now.task refusal) }
{
    match request.task {
        Task::Apply {
            section,
            layout,
            ..
        } => {
            let addresses = Addresses::fixed(layout);
            write_reason(src, store, section, &addresses, refusal, out)
        }
        Task::Place {
            section,
            addresses,
            ..
        } => write_reason(src, store, section, addresses, refusal, out),
        _ => Ok(()),
    }
}

/// Writes the line of what a layout lacks, or of the value that does not fit, if there is one.
///
/// # Errors
/// A refusal of the file, or for lack of budget; a fault of the source or of the output. A prefix
/// of the line was written.
#[tactic(auto, unfolding(elf_model::specs::OverflowLine::why_refused))]
fn write_reason<S: Source, W: Sink>(
    src: &mut Counted<S>,
    store: &mut HeaderStore<'_>,
    section: u16,
    layout: &Addresses<'_>,
    refusal: Refusal,
    out: &mut Out<W>,
) -> Result<(), RunFault>
    ensures slots { store.new.slots ≡ store.old.slots }
    ensures reads { ReadsUpTo src.old src.new
        (reason_bytes store.old.slots layout.now refusal.cause) }
    ensures tells { (file : List ℕ) → src.old.seen.file ≡ Some file →
        WroteUpTo out.old out.new result (why_refused file section layout.now refusal) }
{
    if is_overflow(refusal.cause) {
        return write_overflow(src, store, section, layout, refusal.at, out);
    }
    write_missing(src, store, section, layout, refusal, out)
}

/// Returns `true` if an entry that is refused for this cause has a value that does not fit.
#[tactic(auto, unfolding(elf_model::specs::OverflowLine::is_overflow))]
fn is_overflow(cause: Cause) -> bool
    ensures { result ≡ is_overflow cause }
{
    matches!(cause, Cause::Overflow)
}

/// Writes the line of the value that does not fit, of the entry at a file offset, if there is one.
///
/// # Errors
/// As for [`write_reason`].
fn write_overflow<S: Source, W: Sink>(
    src: &mut Counted<S>,
    store: &mut HeaderStore<'_>,
    section: u16,
    layout: &Addresses<'_>,
    at: u64,
    out: &mut Out<W>,
) -> Result<(), RunFault>
    ensures slots { store.new.slots ≡ store.old.slots }
    ensures reads { ReadsUpTo src.old src.new (overflow_bytes store.old.slots layout.now) }
    ensures tells { (file : List ℕ) → src.old.seen.file ≡ Some file →
        WroteUpTo out.old out.new result (overflow_text (overflowed file section layout.now at)) }
{
    let mut name = NameBuf::new();
    if let Some((overflowed, end)) = explain_overflow(src, store, section, layout, at, &mut name)? {
        show_overflow(overflowed, name.bytes(), end == NameEnd::Cut, out)?;
    }
    Ok(())
}

/// Writes the line of what a layout lacks, if anything.
///
/// # Errors
/// A refusal of the file, or for lack of budget; a fault of the source or of the output. A prefix
/// of the line was written.
fn write_missing<S: Source, W: Sink>(
    src: &mut Counted<S>,
    store: &mut HeaderStore<'_>,
    section: u16,
    layout: &Addresses<'_>,
    refusal: Refusal,
    out: &mut Out<W>,
) -> Result<(), RunFault>
    ensures slots { store.new.slots ≡ store.old.slots }
    ensures unread { may_be_missing refusal.cause ≡ false → src.new ≡ src.old }
    ensures reads { ReadsUpTo src.old src.new (explain_bytes store.old.slots) }
    ensures says { IfErr result (StopSays src.old src.new out.new (explain_bytes store.old.slots)) }
    ensures tells { (file : List ℕ) → src.old.seen.file ≡ Some file →
        WroteUpTo out.old out.new result (explanation (explained file section layout.now refusal)) }
{
    let mut name = NameBuf::new();
    if let Some((missing, end)) = explain(src, store, section, layout, refusal, &mut name)? {
        show_missing(missing, name.bytes(), end == NameEnd::Cut, out)?;
    }
    Ok(())
}
