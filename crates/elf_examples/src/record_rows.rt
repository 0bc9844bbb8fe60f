//! Worked lookups by the version records, and in small tables, each computed by the prover.
ghost use Rattle.elf_examples.specs.ExamplesRecords.{FlagsDecide, NothingIsCheckedOfNone, StringsAreTheirOwn, SmallTablesBySegments, MachinesName};

/// Works out lookups by the version records, and in small tables and other machines.
#[tactic(auto, unfolding(elf_model::proofs::OnLiterals::on_literals, elf_model::proofs::OnLoader::on_loader))]
pub fn record_lookups()
    ensures flags_decide { FlagsDecide }
    ensures nothing_is_checked_of_none { NothingIsCheckedOfNone }
    ensures strings_are_their_own { StringsAreTheirOwn }
    ensures small_tables_by_segments { SmallTablesBySegments }
    ensures machines_name { MachinesName }
{}
