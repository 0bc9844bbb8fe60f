//! Worked lookups of symbols that are exported, or not, each computed by the prover.
ghost use Rattle.elf_examples.specs.ExamplesOffered.{NamesAreRefused, UndefinedByValue, ThreadLocalByPlace, BindingsOffer, TypesOffer, VisibilitiesOffer};

/// Works out which symbols a loader takes, by their values, types, bindings and names.
#[tactic(auto, unfolding(elf_model::proofs::OnLiterals::on_literals, elf_model::proofs::OnLoader::on_loader))]
pub fn exported_symbols()
    ensures names_are_refused { NamesAreRefused }
    ensures undefined_by_value { UndefinedByValue }
    ensures thread_local_by_place { ThreadLocalByPlace }
    ensures bindings_offer { BindingsOffer }
    ensures types_offer { TypesOffer }
    ensures visibilities_offer { VisibilitiesOffer }
{}
