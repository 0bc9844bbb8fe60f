//! Worked examples of lists of properties, each computed by the prover.
ghost use Rattle.elf_examples.specs.ExamplesProperties.{PropertyLists, FeatureRows, NoteRows, HostileNotes, FirstFeaturesCount, ListsBeforeCuts};

/// Works out lists of properties, and which notes have them.
#[tactic(auto, unfolding(elf_model::proofs::OnLiterals::on_literals, elf_model::proofs::OnLoader::on_loader, crate::proofs::OnTraits::on_traits))]
pub fn property_notes()
    ensures property_lists { PropertyLists }
    ensures feature_rows { FeatureRows }
    ensures note_rows { NoteRows }
    ensures hostile_notes { HostileNotes }
    ensures first_features_count { FirstFeaturesCount }
    ensures lists_before_cuts { ListsBeforeCuts }
{}
