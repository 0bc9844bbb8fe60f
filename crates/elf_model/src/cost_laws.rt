//! The laws of costs.
ghost use Rattle.elf_model.specs.CostLaws.{CostIsWithinCeiling, LastCostIsAdded, SumsGrow, PlacesDecideNothing, RowsCostWhatTheFileCosts, SegmentsCostWhatTheFileCosts, TablesCostKindByKind, AnyRowsAreWithinCeiling, AnySegmentsAreWithinCeiling};

/// No listing costs more than the ceiling, for any file, caps and parts.
#[tactic(auto, using(crate::proofs::CostLemmas::cost_within))]
pub fn cost_is_within_ceiling()
    ensures { CostIsWithinCeiling }
{}

/// The last cost of this many is added to the others.
pub fn last_cost_is_added()
    ensures { LastCostIsAdded }
{}

/// Some of the costs are no more than all.
pub fn sums_grow()
    ensures { SumsGrow }
{}

/// Whether the checks of a table pass does not depend on the offset of their refusals.
#[tactic(auto, using(crate::proofs::StoreLemmas::places_decide_nothing))]
pub fn places_decide_nothing()
    ensures { PlacesDecideNothing }
{}

/// Section headers that were copied from a file cost what they cost in the file.
#[tactic(auto, using(crate::proofs::StoreLemmas::rows_cost))]
pub fn rows_cost_what_the_file_costs()
    ensures { RowsCostWhatTheFileCosts }
{}

/// So do program headers.
#[tactic(auto, using(crate::proofs::StoreLemmas::segments_cost_rows))]
pub fn segments_cost_what_the_file_costs()
    ensures { SegmentsCostWhatTheFileCosts }
{}

/// The sum over all headers is the sum kind by kind.
#[tactic(auto, using(crate::proofs::StoreLemmas::by_kind))]
pub fn tables_cost_kind_by_kind()
    ensures { TablesCostKindByKind }
{}

/// For any bytes in the place of the section headers, the listing is within the ceiling.
pub fn any_rows_are_within_ceiling()
    ensures { AnyRowsAreWithinCeiling }
{}

/// And so it is without sections, for any bytes in the place of the program headers.
#[tactic(auto, using(crate::proofs::StoreLemmas::any_segments))]
pub fn any_segments_are_within_ceiling()
    ensures { AnySegmentsAreWithinCeiling }
{}
