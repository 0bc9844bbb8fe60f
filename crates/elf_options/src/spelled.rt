//! The required traits, parsed from texts.
ghost use Rattle.std.specs.Prelude.{◌≡◌, bytes_eq, map, option_map};
ghost use Rattle.std.specs.List.{list_all, list_any};
ghost use Rattle.elf_model.specs.Prelude.{alternatives};
ghost use Rattle.elf_options.specs.Required.{required_word};
ghost use Rattle.elf_options.specs.Spelled.{SpellsTraits, column_named, column_words};
ghost use Rattle.elf_options.specs.Spelled.{split_at_sign, parsed_trait_word, word_in};

use crate::required::RequiredTrait;
use elf_model::TraitColumn;

/// Parses a required trait: the name of a column, `=` and a word that the line of a file can have
/// in that column, as in `relro=full`, or some of them separated by `|`, as in `kind=pie|lib`.
/// Returns None for any other text.
#[tactic(auto, unfolding(crate::specs::Spelled::parsed_trait_word))]
pub fn parsed_trait_word(text: &str) -> Option<RequiredTrait<'_>>
    ensures { option_map required_word result ≡ parsed_trait_word text.now }
{
    let (name, word) = parted(text)?;
    word_in(column_named(name)?, word)
}

/// Returns what is before and after the first `=`.
fn parted(text: &str) -> Option<(&str, &str)>
    ensures { option_map (λ parts. (parts.0.now, parts.1.now)) result ≡ split_at_sign 61 text.now }
{
    text.split_once('=')
}

/// Returns the column of this name: that of the search path has its key in a line as another.
#[tactic(auto, unfolding(crate::specs::Spelled::column_named))]
fn column_named(name: &str) -> Option<TraitColumn>
    ensures { result ≡ column_named name.now }
{
    match name {
        "kind" => Some(TraitColumn::Kind),
        "relro" => Some(TraitColumn::Relro),
        "stack" => Some(TraitColumn::Stack),
        "pages" => Some(TraitColumn::Pages),
        "text" => Some(TraitColumn::Text),
        "cet" => Some(TraitColumn::Cet),
        "canary" => Some(TraitColumn::Canary),
        "fortify" => Some(TraitColumn::Fortify),
        "path" | "rpath" => Some(TraitColumn::Path),
        _ => None,
    }
}

/// Returns a word of a column, or some of them, if the line of a file can have each there.
fn word_in(column: TraitColumn, word: &str) -> Option<RequiredTrait<'_>>
    ensures { option_map required_word result ≡ word_in column word.now }
{
    if !are_among(word, column_words(column)) {
        return None;
    }
    Some(RequiredTrait { column, word })
}

/// Returns `true` if a word, or each of some separated by `|`, is one of the given ones.
fn are_among(text: &str, words: &[&str]) -> bool
    ensures { result ≡ list_all
        (λ word. list_any (bytes_eq word) (map (λ other. other.now) words.now))
        (alternatives text.now) }
{
    let mut rest = text;
    while let Some((word, others)) = rest.split_once('|') {
        if !is_among(word, words) {
            return false;
        }
        rest = others;
    }
    is_among(rest, words)
}

/// Returns `true` if a word is one of the given ones.
fn is_among(word: &str, mut words: &[&str]) -> bool
    ensures { result ≡ list_any (bytes_eq word.now) (map (λ other. other.now) words.entry.now) }
{
    while let [other, rest @ ..] = words {
        if word == *other {
            return true;
        }
        words = rest;
    }
    false
}

/// Returns the words that the lines of files can have in a column.
#[tactic(auto, unfolding(crate::specs::Spelled::column_words))]
fn column_words(column: TraitColumn) -> &'static [&'static str]
    ensures { map (λ word. word.now) result.now ≡ column_words column }
{
    match column {
        TraitColumn::Kind => &["exec", "pie", "static", "lib", "object", "core", "other"],
        TraitColumn::Relro => &["full", "partial", "none", "-"],
        TraitColumn::Stack => &["nx", "exec", "-"],
        TraitColumn::Pages => &["w^x", "wx", "-"],
        TraitColumn::Text => &["fixed", "patch", "-"],
        TraitColumn::Cet => &["ibt+shstk", "ibt", "shstk", "-"],
        TraitColumn::Canary => &["canary", "-"],
        TraitColumn::Fortify => &["fortify", "-"],
        TraitColumn::Path => &["rpath", "runpath", "-"],
    }
}

/// Just those texts are words of some file.
pub fn spells_traits()
    ensures { SpellsTraits }
{}
