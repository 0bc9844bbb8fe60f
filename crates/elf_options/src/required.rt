//! What is required of a file's traits.
ghost use Rattle.std.specs.Prelude.{◌≡◌, bytes_eq};
ghost use Rattle.std.specs.List.{list_any};
ghost use Rattle.elf_model.specs.Prelude.{alternatives};

use elf_model::TraitColumn;

/// A word that is required in a column, or one of some, separated by `|`.
#[derive(Clone, Copy)]
pub struct RequiredTrait<'a> {
    /// The column.
    pub column: TraitColumn,
    /// The required word, or the alternatives with `|` between them.
    pub word: &'a str,
}

impl<'a> RequiredTrait<'a> {
    /// Returns `true` if a word of the column is the required one, or one of the alternatives.
    pub fn allows(&self, word: &str) -> bool
        ensures { result ≡ list_any (bytes_eq word.now) (alternatives self.now.word.now) }
    {
        let mut rest = self.word;
        while let Some((other, others)) = rest.split_once('|') {
            if word == other {
                return true;
            }
            rest = others;
        }
        word == rest
    }
}
