//! Laws of archives, each proved from the definitions.
ghost use Rattle.elf_model.specs.ArchiveLaws.{ArchiveCostIsWithinCeiling, DataLieInTheFile};

/// The data of a member follow its header and end within the file.
#[tactic(auto, using(crate::proofs::ArchiveCosts::data_in_bounds))]
pub fn data_lie_in_the_file()
    ensures { DataLieInTheFile }
{}

/// No listing of an archive costs more than the ceiling, for any bytes, caps and parts.
#[tactic(auto, using(crate::proofs::ArchiveCosts::archive_cost_within))]
pub fn archive_cost_is_within_ceiling()
    ensures { ArchiveCostIsWithinCeiling }
{}
