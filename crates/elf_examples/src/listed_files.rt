//! Many files listed, and archives checked, each example computed by the prover.
ghost use Rattle.elf_examples.specs.ListedFiles.{PathLines, HeadedListings, ListStatuses, FileSorts, ArchiveFaults, MembersAlone, FaultsAfterNames};

/// Works out the line of a path, what a file is, and the fault of an archive.
#[tactic(auto, unfolding(elf_model::proofs::OnLiterals::on_literals))]
pub fn file_listings()
    ensures path_lines { PathLines }
    ensures headed_listings { HeadedListings }
    ensures list_statuses { ListStatuses }
    ensures file_sorts { FileSorts }
    ensures archive_faults { ArchiveFaults }
    ensures members_stand_alone { MembersAlone }
    ensures faults_after_names { FaultsAfterNames }
{}
