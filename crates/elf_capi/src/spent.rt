//! Rows within a budget: how many of them it allows, and what they count.
ghost use Rattle.std.specs.Prelude.{◌≡◌, ◌*◌, ◌/◌, ◌<◌, ◌≤◌, ℕ, IfSome, length, min, slice_index_or};
ghost use Rattle.elf_capi.specs.Rows.{next_at};
ghost use Rattle.elf_capi.specs.Limits.{budget_of};
ghost use Rattle.elf_capi.specs.Within.{StepsBudgeted, asked_more, budget_left, entries_looked, step_end};

use crate::counts::short;
use crate::end::CallEnd;
use crate::limits::{CallerLimits, budget_of};
use crate::rows::RowPosition;
use crate::table_row::{TableRow, next_rows};
use elf_record::sizes::DYNAMIC_BYTES;
use elf_record::{Cause, Refusal};

/// Reads the next rows to the start of `out` and steps over them, as [`next_rows`] does, and no
/// more than the budget of the limits has left; returns how many.
///
/// Their bytes count in `asked`. If more rows are left, and would fit, the budget ended it: then
/// `end` reports it, at the next row.
pub fn next_within<R: TableRow>(
    file: &[u8],
    limits: &CallerLimits,
    asked: &mut u64,
    rows: &mut RowPosition,
    out: &mut [R],
    end: &mut CallEnd,
) -> usize
    ensures steps { StepsBudgeted (length file.now) R.BYTES limits.now asked.old asked.new
        rows.old rows.new (length out.old) result end.new }
    ensures budget { IfSome (budget_of limits.now)
        (λ bytes. asked.old ≤ bytes → asked.new ≤ bytes) }
    ensures read { (k : ℕ) (none : R) → k < result →
        R.is_at file.now (next_at rows.old R.BYTES k) (slice_index_or out.new k none) }
{
    let room = room_left(limits, *asked, R::BYTES, out.len());
    let count = next_rows(file, rows, &mut out[..room]);
    count_bytes(u128::from(R::BYTES) * count as u128, asked);
    report_rest(file.len(), rows, R::BYTES, out.len() - count, end);
    count
}

/// Returns how many bytes may still be read if `asked` were requested; 2^64 - 1 if there is no
/// budget.
fn budget_left(limits: &CallerLimits, asked: u64) -> u64
    ensures { result ≡ budget_left (budget_of limits.now) asked }
{
    match budget_of(limits) {
        Some(budget) => budget.saturating_sub(asked),
        None => u64::MAX,
    }
}

/// Returns how many dynamic entries may still be read.
pub fn entries_left(limits: &CallerLimits, asked: u64) -> u64
    ensures { result ≡ budget_left (budget_of limits.now) asked / 16 }
{
    budget_left(limits, asked) / DYNAMIC_BYTES
}

/// Returns how many entries of `entry` bytes may still be read, at most as many as fit.
fn room_left(limits: &CallerLimits, asked: u64, entry: u64, room: usize) -> usize
    requires { 0 < entry }
    ensures { result ≡ min room (budget_left (budget_of limits.now) asked / entry) }
{
    (budget_left(limits, asked) / entry).min(room as u64) as usize
}

/// Counts more bytes; `asked` saturates at 2^64 - 1.
fn count_bytes(bytes: u128, asked: &mut u64)
    ensures { asked.new ≡ asked_more asked.old bytes }
{
    *asked = short(u128::from(*asked).saturating_add(bytes));
}

/// Counts the dynamic entries that an opening read, of at most `most`.
pub fn count_entries(
    opened: &Option<Result<Option<RowPosition>, Refusal>>,
    most: u64,
    asked: &mut u64,
)
    ensures { asked.new ≡ asked_more asked.old (16 * entries_looked most opened.now) }
{
    let looked = match opened {
        Some(Ok(Some(rows))) => rows.count,
        Some(
            Err(
                Refusal {
                    cause: Cause::Budget,
                    ..
                },
            ),
        ) => most,
        _ => 0,
    };
    count_bytes(16 * u128::from(looked), asked);
}

/// Reports whether the budget ended a step: if more rows are left, and there is room for `free`
/// rows.
fn report_rest(size: usize, rows: &RowPosition, entry: u64, free: usize, end: &mut CallEnd)
    requires { 0 < entry }
    ensures { end.new ≡ step_end size entry rows.now free }
{
    end.clear();
    if free > 0 && rows.next(size, entry, 1) > 0 {
        end.refuse(Refusal {
            at: rows.at + entry * rows.index,
            cause: Cause::Budget,
        });
    }
}
