//! The hardening traits of one symbol.
ghost use Rattle.std.specs.Prelude.{◌≡◌, true};
ghost use Rattle.elf_model.specs.Traits.{marked_by, no_symbol_traits};
ghost use Rattle.elf_loader.specs.Marks.{AddsNone, symbol_traits_of};

use crate::symbol_names::{is_fortify_call, is_stack_protector};

/// The hardening traits of symbols.
#[derive(Clone, Copy)]
pub(crate) struct SymbolTraits {
    /// Whether one is of the stack protector.
    pub(crate) canary: bool,
    /// Whether an undefined one is a fortified function.
    pub(crate) fortify: bool,
}

/// Returns the traits with those of one more symbol, by its name, and whether it is undefined.
pub(crate) fn marked_by(marks: SymbolTraits, name: &[u8], undefined: bool) -> SymbolTraits
    ensures { symbol_traits_of result ≡ marked_by (symbol_traits_of marks) name.now undefined }
{
    SymbolTraits {
        canary: marks.canary || is_stack_protector(name),
        fortify: marks.fortify || (undefined && is_fortify_call(name)),
    }
}

/// Returns the traits of no symbol.
pub(crate) fn no_symbol_traits() -> SymbolTraits
    ensures { symbol_traits_of result ≡ no_symbol_traits }
{
    SymbolTraits {
        canary: false,
        fortify: false,
    }
}

/// Returns `true` if no symbol adds a trait to these, whatever its name, by whether it is undefined.
pub(crate) fn adds_none(marks: SymbolTraits, undefined: bool) -> bool
    ensures { result ≡ true → AddsNone (symbol_traits_of marks) undefined }
{
    marks.canary && (marks.fortify || !undefined)
}
