//! A section of a file in memory in a layout of any size, and what that lacks if it is refused.
ghost use Rattle.std.specs.Prelude.{◌≡◌, ◌+◌, ◌-◌, ◌≤◌, IfSome, length, option_map};
ghost use Rattle.elf_model.specs.ApplyCost.{apply_cost_by_order};
ghost use Rattle.elf_reloc.specs.Explained.{explain_bytes};
ghost use Rattle.elf_capi.specs.Applied.{AppliesFor};
ghost use Rattle.elf_capi.specs.Ends.{no_end};
ghost use Rattle.elf_capi.specs.LentLayouts.{CountsWritten, ExplainsRefusal, ExplainsTold};

use crate::applied::{ApplyInput, write_section};
use crate::call_status::CallStatus;
use crate::counts::short;
use crate::end::CallEnd;
use crate::file_source::file_within;
use crate::listing::CallOutcome;
use crate::missing::CallerMissing;
use elf_record::Refusal;
use elf_reloc::explain;
use elf_table::{Fault, HeaderStore, NameBuf};

/// Writes a section to the start of a buffer, sets in `missing` what its layout lacks if it is
/// refused, and returns how that ended. The counts are written to `end`.
pub fn place_section(
    file: &[u8],
    store: &mut HeaderStore,
    wanted: &ApplyInput<'_>,
    out: &mut [u8],
    missing: &mut CallerMissing,
    end: &mut CallEnd,
) -> CallStatus
    requires { end.old ≡ no_end }
    ensures applies { AppliesFor file.now store.old.slots wanted.now.budget wanted.now.section
        wanted.now.layout.now out.new end.new.written result }
    ensures explains { ExplainsTold file.now store.old.slots wanted.now.budget wanted.now.section
        wanted.now.layout.now (apply_cost_by_order file.now store.old.slots
        wanted.now.section wanted.now.layout.now) result missing.new }
    ensures written { CountsWritten end.new result }
    ensures within { end.new.written ≤ length out.new }
    ensures cost { end.new.asked ≤ apply_cost_by_order file.now store.old.slots
        wanted.now.section wanted.now.layout.now + explain_bytes store.old.slots }
    ensures budget { IfSome wanted.now.budget (λ bytes. end.new.asked ≤ bytes) }
    ensures clear { (end.new.cause ≡ 0) × (end.new.at ≡ 0) × (end.new.none ≡ 0) }
{
    let mut outcome = CallOutcome {
        told: CallStatus::BadCall,
        asked: 0,
    };
    let written = write_section(file, store, wanted, out, &mut outcome);
    if let CallStatus::Refused(refusal) = outcome.told {
        let more = report_missing(file, store, wanted, outcome.asked, refusal, missing);
        end.asked = short(outcome.asked.saturating_add(more));
        return CallStatus::Refused(refusal);
    }
    missing.clear();
    end.asked = short(outcome.asked);
    end.written = written as u64;
    outcome.told
}

/// Sets in `missing` what the layout lacks if a section was refused, for which `asked` bytes were
/// requested, and returns how many more were. Nothing is set if the budget is too small for it.
fn report_missing(
    file: &[u8],
    store: &mut HeaderStore,
    wanted: &ApplyInput<'_>,
    asked: u128,
    refusal: Refusal,
    missing: &mut CallerMissing,
) -> u128
    requires { IfSome wanted.now.budget (λ bytes. asked ≤ bytes) }
    ensures explains { ExplainsRefusal file.now store.old.slots wanted.now.budget
        wanted.now.section wanted.now.layout.now asked refusal missing.new }
    ensures cost { result ≤ explain_bytes store.old.slots }
    ensures budget { IfSome wanted.now.budget (λ bytes. asked + result ≤ bytes) }
{
    missing.clear();
    let mut src = file_within(file, rest_of(wanted.budget, asked));
    let mut name = NameBuf::new();
    let found = explain(
        &mut src,
        store,
        wanted.section,
        wanted.layout,
        refusal,
        &mut name,
    );
    let more = src.asked();
    let _ = src.into_inner();
    match found {
        Ok(Some((lack, end))) => {
            missing.report(&lack, end, name.bytes());
            more
        }
        Ok(None) => more,
        Err(Fault::Refused(_)) => more,
        Err(Fault::Source { .. }) => unreachable!(),
    }
}

/// Returns what is left of a budget after `asked` bytes.
fn rest_of(budget: Option<u64>, asked: u128) -> Option<u64>
    ensures { result ≡ option_map (λ bytes. bytes - asked) budget }
{
    match budget {
        Some(bytes) => Some(u128::from(bytes).saturating_sub(asked) as u64),
        None => None,
    }
}
