//! Worked examples of what each relocation type stores in an image, each computed by the prover.
ghost use Rattle.elf_examples.specs.ExamplesImageTypes.{AddressesAreStored, DescriptorsAreStored, ImageCosts, PartialItemsLeave, PartsAreStored, ThreadValuesAreStored};

/// Works out what relocation types store, what items lack, and what is read.
#[tactic(auto, unfolding(elf_model::proofs::OnLiterals::on_literals, elf_model::proofs::OnLoader::on_loader, elf_model::proofs::OnImage::on_image, crate::proofs::OnImages::on_images))]
pub fn image_types()
    ensures addresses_are_stored { AddressesAreStored }
    ensures thread_values_are_stored { ThreadValuesAreStored }
    ensures parts_are_stored { PartsAreStored }
    ensures descriptors_are_stored { DescriptorsAreStored }
    ensures partial_items_leave { PartialItemsLeave }
    ensures image_costs { ImageCosts }
{}
