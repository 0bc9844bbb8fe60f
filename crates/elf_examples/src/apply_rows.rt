//! Worked relocations, each a theorem about the definitions that the prover computes.
ghost use Rattle.elf_examples.specs.ExamplesApply.{LaterStands, OverflowRefusesAll, EitherOrderIsApplied, CallIsApplied, CallIsRefused, SymbolsAreValued, NothingIsChecked, RequestInOrder, NoBytesAreApplied, LinkZeroCounts, EmptySymbolsApply, EmptyTablesApply, FaultsInterleave, NamesAreLookedAtLate, WeakCommonIsUndefined, UndefinedBeforeUnplaced, AppliedIsWritten};

/// Works out applied sections, and for what they are refused.
#[tactic(auto, unfolding(elf_model::proofs::OnLiterals::on_literals, crate::proofs::OnApplyExamples::on_examples))]
pub fn applied_sections()
    ensures later_stands { LaterStands }
    ensures overflow_refuses_all { OverflowRefusesAll }
    ensures either_order_is_applied { EitherOrderIsApplied }
    ensures call_is_applied { CallIsApplied }
    ensures call_is_refused { CallIsRefused }
    ensures symbols_are_valued { SymbolsAreValued }
    ensures nothing_is_checked { NothingIsChecked }
    ensures request_in_order { RequestInOrder }
    ensures no_bytes_are_applied { NoBytesAreApplied }
    ensures link_zero_counts { LinkZeroCounts }
    ensures empty_symbols_apply { EmptySymbolsApply }
    ensures empty_tables_apply { EmptyTablesApply }
    ensures faults_interleave { FaultsInterleave }
    ensures names_are_looked_at_late { NamesAreLookedAtLate }
    ensures weak_common_is_undefined { WeakCommonIsUndefined }
    ensures undefined_before_unplaced { UndefinedBeforeUnplaced }
    ensures applied_is_written { AppliedIsWritten }
{}
