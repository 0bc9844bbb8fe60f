//! Worked examples of the versions that objects need and don't find, each computed by the prover.
ghost use Rattle.elf_examples.specs.ExamplesNeededVersions.{NeedsAreRead, NeedsAreFaulty, DefinitionsAreCompared, DefinitionsAreFaulty, DefinitionsAreMissing, VersionsAreLooked, FaultsEndAnObject, VersionLinesAreShown};

/// Works out which needed versions are defined, which are missing, and the lines for them.
#[tactic(auto, unfolding(elf_model::proofs::OnLiterals::on_literals, elf_model::proofs::OnLoader::on_loader, crate::proofs::OnGnuExamples::on_gnu_examples))]
pub fn missing_versions()
    ensures needs_are_read { NeedsAreRead }
    ensures needs_are_faulty { NeedsAreFaulty }
    ensures definitions_are_compared { DefinitionsAreCompared }
    ensures definitions_are_faulty { DefinitionsAreFaulty }
    ensures definitions_are_missing { DefinitionsAreMissing }
    ensures versions_are_looked { VersionsAreLooked }
    ensures faults_end_an_object { FaultsEndAnObject }
    ensures version_lines_are_shown { VersionLinesAreShown }
{}
