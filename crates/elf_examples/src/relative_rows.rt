//! Worked rows of relocations without addends and of relative relocations, each computed by the
//! prover.
ghost use Rattle.elf_examples.specs.ListedRelative.{AddressesEnd, BitmapsFollow, OthersAreGnu, TablesHaveHyphens, TypesAreInOrder, WordsHaveRows};

/// Works out the rows of words of relative relocations, and the order of sections of each type.
#[tactic(auto, unfolding(elf_model::proofs::OnLiterals::on_literals, crate::proofs::OnGnuExamples::on_gnu_examples, elf_model::specs::Text::short_hex, elf_model::specs::Text::without_zeros))]
pub fn relative_relocations()
    ensures words_have_rows { WordsHaveRows }
    ensures bitmaps_follow { BitmapsFollow }
    ensures addresses_end { AddressesEnd }
    ensures types_are_in_order { TypesAreInOrder }
    ensures tables_have_hyphens { TablesHaveHyphens }
    ensures others_are_gnu { OthersAreGnu }
{}
