//! Faults that are not reported for a file.
ghost use Rattle.std.specs.Prelude.{MatchBool};
ghost use Rattle.elf_library.specs.Sought.{IsReportedAlone};
ghost use Rattle.elf_model.specs.Budget.{IsBudgetRefusal};

use elf_record::{Cause, Refusal};
use elf_table::Fault;

/// Returns `true` if a fault of a lookup is not a refusal of the file: a read failed, or the budget
/// is exhausted.
pub fn is_reported_alone(fault: Fault) -> bool
    ensures { MatchBool result (IsReportedAlone fault) (IsReportedAlone fault → ⊥) }
{
    match fault {
        Fault::Refused(refusal) => is_budget_fault(refusal),
        Fault::Source { .. } => true,
    }
}

/// Returns `true` if a refusal is for lack of budget.
pub fn is_budget_fault(refusal: Refusal) -> bool
    ensures { MatchBool result (IsBudgetRefusal refusal) (IsBudgetRefusal refusal → ⊥) }
{
    matches!(refusal.cause, Cause::Budget)
}
