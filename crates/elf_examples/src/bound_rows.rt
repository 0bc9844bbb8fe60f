//! Worked bindings of the symbols of some objects, each computed by the prover.
ghost use Rattle.elf_examples.specs.ExamplesBoundSymbols.{FirstBinds, NoneBinds, FaultsAreTold, LinesTell, NeededFilesAreAsked, VersionsAreLacked, NeededNamesAreRefused, LastSymbolsAreBound, OtherLinesTell, NamesAndVersionsArePartedInObjects};

/// Works out what binds the symbols of some objects, and the lines for them.
#[tactic(auto, unfolding(elf_model::proofs::OnLiterals::on_literals, elf_model::proofs::OnLoader::on_loader, crate::proofs::OnBindings::on_bindings))]
pub fn symbol_bindings()
    ensures first_binds { FirstBinds }
    ensures none_binds { NoneBinds }
    ensures faults_are_told { FaultsAreTold }
    ensures lines_tell { LinesTell }
    ensures needed_files_are_asked { NeededFilesAreAsked }
    ensures versions_are_lacked { VersionsAreLacked }
    ensures needed_names_are_refused { NeededNamesAreRefused }
    ensures last_symbols_are_bound { LastSymbolsAreBound }
    ensures other_lines_tell { OtherLinesTell }
    ensures names_and_versions_are_parted_in_objects { NamesAndVersionsArePartedInObjects }
{}
