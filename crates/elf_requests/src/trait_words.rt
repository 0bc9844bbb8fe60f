//! The required traits of an argument.
ghost use Rattle.std.specs.Prelude.{◌≡◌, ◌⊎◌, ◌++◌, ◌∷◌, [], true, false, IfErr, IfOk, Some};
ghost use Rattle.std.specs.Prelude.{map, option_map};
ghost use Rattle.elf_options.specs.Prelude.{parsed_trait_word, required_words};
ghost use Rattle.elf_requests.specs.AskedTraits.{AreRequired, IsWordFault, NamesPiece, is_unknown};
ghost use Rattle.elf_cli.specs.declared.faults.RequestFault.TheVariants.{Memory};

use elf_cli::RequestFault;
use elf_options::{RequiredTrait, parsed_trait_word};
use std::alloc::Global;

/// Returns the required traits that an argument names; none if there is no argument.
///
/// # Errors
/// `UnknownTrait` with the first piece of the option's value that is not a word of any column;
/// `Memory` if out of memory.
pub(crate) fn required_of<'a>(
    alloc: Global,
    require: Option<&'a str>,
) -> Result<Vec<RequiredTrait<'a>>, RequestFault>
    ensures words { IfOk result (λ words.
        AreRequired (option_map (λ text. text.now) require.entry) words.items) }
    ensures refused { IfErr result (IsWordFault (option_map (λ text. text.now) require.entry)) }
{
    match require {
        Some(text) => required_in(alloc, text),
        None => Ok(Vec::new(alloc)),
    }
}

/// Returns the traits that the comma-separated pieces of a text name.
///
/// # Errors
/// `UnknownTrait` with the first piece that is not a word of any column; `Memory` if out of memory.
fn required_in<'a>(alloc: Global, text: &'a str) -> Result<Vec<RequiredTrait<'a>>, RequestFault>
    ensures words { IfOk result (λ words. AreRequired (Some text.now) words.items) }
    ensures refused { IfErr result (IsWordFault (Some text.now)) }
{
    let mut required = Vec::new(alloc);
    let mut rest = text;
    while let Some((piece, behind)) = rest.split_once(',') {
        if let Err(fault) = put_required(alloc, &mut required, piece) {
            return Err(fault);
        }
        rest = behind;
    }
    match put_required(alloc, &mut required, rest) {
        Ok(()) => Ok(required),
        Err(fault) => Err(fault),
    }
}

/// Appends the trait that a piece names to the required ones.
///
/// # Errors
/// `UnknownTrait` with the piece if it is not a word of any column; `Memory` if out of memory.
fn put_required<'a>(
    alloc: Global,
    required: &mut Vec<RequiredTrait<'a>>,
    piece: &'a str,
) -> Result<(), RequestFault>
    ensures put { IfOk result (λ _. map Some (required_words required.new.items)
        ≡ map Some (required_words required.old.items) ++ parsed_trait_word piece.now ∷ []) }
    ensures known { IfOk result (λ _. is_unknown piece.now ≡ false) }
    ensures refused { IfErr result (λ fault. (fault ≡ Memory)
        ⊎ (NamesPiece piece.now fault × (is_unknown piece.now ≡ true))) }
{
    let Some(word) = parsed_trait_word(piece) else {
        return Err(unknown_trait(alloc, piece));
    };
    match required.push(word) {
        Ok(()) => Ok(()),
        Err(_) => Err(RequestFault::Memory),
    }
}

/// Returns the fault that names a piece; `Memory` if out of memory for it.
fn unknown_trait(alloc: Global, piece: &str) -> RequestFault
    ensures { (result ≡ Memory) ⊎ NamesPiece piece.now result }
{
    match String::from_str(alloc, piece) {
        Ok(word) => RequestFault::UnknownTrait(word),
        Err(_) => RequestFault::Memory,
    }
}
