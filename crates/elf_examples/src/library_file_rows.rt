//! Worked examples of files that a search for a library opens, each computed by the prover.
ghost use Rattle.elf_examples.specs.ExamplesLibraryFiles.{LibrariesAreAccepted, OtherMachinesAreSkipped, OtherFilesAreRefused, ProgramsAreNoLibraries, FlagsAreRead};

/// Works out which files a search for a library accepts, skips and refuses.
#[tactic(auto, unfolding(elf_model::proofs::OnLiterals::on_literals, elf_model::proofs::OnLoader::on_loader, crate::proofs::OnGnuExamples::on_gnu_examples))]
pub fn library_files()
    ensures libraries_are_accepted { LibrariesAreAccepted }
    ensures other_machines_are_skipped { OtherMachinesAreSkipped }
    ensures other_files_are_refused { OtherFilesAreRefused }
    ensures programs_are_no_libraries { ProgramsAreNoLibraries }
    ensures flags_are_read { FlagsAreRead }
{}
