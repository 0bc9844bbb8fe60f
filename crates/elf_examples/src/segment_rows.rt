//! Worked examples of what program headers and dynamic entries show, each computed by the prover.
ghost use Rattle.elf_examples.specs.ExamplesSegments.{RelroRows, RelroHostile, StackRows, PagesRows, EntryRows, TwoLoads};

/// Works out the traits that program headers and dynamic entries show.
#[tactic(auto, unfolding(elf_model::proofs::OnLiterals::on_literals, elf_model::proofs::OnLoader::on_loader, crate::proofs::OnTraits::on_traits))]
pub fn program_header_traits()
    ensures relro_rows { RelroRows }
    ensures relro_hostile { RelroHostile }
    ensures stack_rows { StackRows }
    ensures pages_rows { PagesRows }
    ensures entry_rows { EntryRows }
    ensures two_loads { TwoLoads }
{}
