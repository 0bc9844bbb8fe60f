//! Worked searches in a loader's cache, each computed by the prover.
ghost use Rattle.elf_examples.specs.ExamplesLoaderCache.{EachShapeIsSearched, NamesAreOrdered, DamagedCachesAreSearched};

/// Works out the paths of names in a loader's cache, of each shape and damaged.
#[tactic(auto, unfolding(elf_model::proofs::OnLiterals::on_literals, elf_model::proofs::OnLoader::on_loader, crate::proofs::OnGnuExamples::on_gnu_examples))]
pub fn cache_searches()
    ensures each_shape_is_searched { EachShapeIsSearched }
    ensures names_are_ordered { NamesAreOrdered }
    ensures damaged_caches_are_searched { DamagedCachesAreSearched }
{}
