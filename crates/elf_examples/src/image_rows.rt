//! Worked examples of the image of a segment, each computed by the prover.
ghost use Rattle.elf_examples.specs.ExamplesImage.{DynamicIsChecked, ImageHeadersAreChecked, ItemsSay, PlacesAreChecked, RangesAre, RelativeIsApplied, SegmentsAre, SymbolsAreBound};

/// Works out the first words of a segment that is relocated, or for what it is refused.
#[tactic(auto, unfolding(elf_model::proofs::OnLiterals::on_literals, elf_model::proofs::OnLoader::on_loader, elf_model::proofs::OnImage::on_image, crate::proofs::OnImages::on_images))]
pub fn image_words()
    ensures items_say { ItemsSay }
    ensures segments_are { SegmentsAre }
    ensures headers_are_checked { ImageHeadersAreChecked }
    ensures relative_is_applied { RelativeIsApplied }
    ensures dynamic_is_checked { DynamicIsChecked }
    ensures ranges_are { RangesAre }
    ensures places_are_checked { PlacesAreChecked }
    ensures symbols_are_bound { SymbolsAreBound }
{}
