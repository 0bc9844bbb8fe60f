//! What is required of a file.
ghost use Rattle.std.specs.Prelude.{◌≡◌};
ghost use Rattle.elf_model.specs.TraitWords.{has_word, is_program};
ghost use Rattle.elf_options.specs.Required.{required_word};

use elf_format::column_word;
use elf_model::{Hardening, ProgramKind};
use elf_options::RequiredTrait;

/// Returns `true` if a file has the word that is required for a column, or one of the alternatives.
pub(crate) fn has_word(traits: Hardening, wanted: &RequiredTrait<'_>) -> bool
    ensures { result ≡ has_word traits (required_word wanted.now) }
{
    wanted.allows(column_word(traits, wanted.column))
}

/// Returns `true` if traits are required of a file of this kind.
#[tactic(auto, unfolding(elf_model::specs::TraitWords::is_program))]
pub(crate) fn is_program(kind: ProgramKind) -> bool
    ensures { result ≡ is_program kind }
{
    match kind {
        ProgramKind::Exec | ProgramKind::Pie | ProgramKind::Static | ProgramKind::Lib => true,
        ProgramKind::Object | ProgramKind::Core | ProgramKind::Other => false,
    }
}
