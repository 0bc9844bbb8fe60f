//! Exported symbols.
ghost use Rattle.std.specs.Prelude.{◌≡◌, ℕ, ◌∷◌, [], List};
ghost use Rattle.elf_model.specs.Prelude.{STB_GLOBAL, STB_GNU_UNIQUE, STB_WEAK, STT_COMMON, STT_FUNC, STT_GNU_IFUNC, STT_NOTYPE, STT_OBJECT, STT_TLS, STV_DEFAULT, STV_PROTECTED, is_among, is_exported};
ghost use Rattle.elf_record.specs.Sym.{IsSym};

use elf_record::Sym;
use elf_record::gnu_numbers::{STB_GNU_UNIQUE, STT_GNU_IFUNC};
use elf_record::numbers::{
    SHN_ABS, SHN_UNDEF, STB_GLOBAL, STB_WEAK, STT_COMMON, STT_FUNC, STT_NOTYPE, STT_OBJECT,
    STT_TLS, STV_DEFAULT, STV_PROTECTED,
};

/// Returns `true` if a symbol is exported to other files, by the rules of GNU's dynamic loader. It
/// is not both undefined and of thread-local storage; it has a value, or it is absolute or of
/// thread-local storage, for which 0 is a value; its type is none, that of an object, of a
/// function, of a common block, of thread-local storage or of an indirect function; it is global,
/// weak or unique; and its visibility is default or protected (gABI 4, Symbol Table). An undefined
/// symbol with a value is exported: it is a function whose address the program publishes.
#[tactic(auto, unfolding(elf_model::specs::Loader::is_exported))]
pub fn is_exported(symbol: &Sym) -> bool
    ensures { (file : List ℕ) (at : ℕ) → IsSym file at symbol.now → result ≡ is_exported file at }
{
    let is_tls = symbol.kind() == STT_TLS;
    !(is_tls && symbol.st_shndx == SHN_UNDEF)
        && (symbol.st_value != 0 || symbol.st_shndx == SHN_ABS || is_tls)
        && has_offered_type(symbol.kind())
        && has_offered_binding(symbol.binding())
        && has_offered_visibility(symbol.visibility())
}

// Returns `true` if symbols of a type may be exported.
fn has_offered_type(kind: u8) -> bool
    ensures { result ≡ is_among kind
        (STT_NOTYPE ∷ STT_OBJECT ∷ STT_FUNC ∷ STT_COMMON ∷ STT_TLS ∷ STT_GNU_IFUNC ∷ []) }
{
    kind == STT_NOTYPE
        || kind == STT_OBJECT
        || kind == STT_FUNC
        || kind == STT_COMMON
        || kind == STT_TLS
        || kind == STT_GNU_IFUNC
}

// Returns `true` if symbols of a binding may be exported.
fn has_offered_binding(binding: u8) -> bool
    ensures { result ≡ is_among binding (STB_GLOBAL ∷ STB_WEAK ∷ STB_GNU_UNIQUE ∷ []) }
{
    binding == STB_GLOBAL || binding == STB_WEAK || binding == STB_GNU_UNIQUE
}

// Returns `true` if symbols of a visibility may be exported.
fn has_offered_visibility(visibility: u8) -> bool
    ensures { result ≡ is_among visibility (STV_DEFAULT ∷ STV_PROTECTED ∷ []) }
{
    visibility == STV_DEFAULT || visibility == STV_PROTECTED
}
