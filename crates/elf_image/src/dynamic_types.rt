//! The relocation types that a loader applies (x86-64 psABI, Relocation Types).
ghost use Rattle.std.specs.Prelude.{◌≡◌, ℕ, List};
ghost use Rattle.elf_model.specs.ImageValues.{changed_size, dynamic_type, is_thread_local, uses_no_symbol};
ghost use Rattle.elf_image.specs.Values.{IsUsed};

use elf_model::DynamicType;
use elf_record::Sym;
use elf_record::gnu_numbers::{
    R_X86_64_DTPMOD64, R_X86_64_DTPOFF64, R_X86_64_IRELATIVE, R_X86_64_TLSDESC, R_X86_64_TPOFF64,
};
use elf_record::numbers::{
    R_X86_64_32, R_X86_64_64, R_X86_64_COPY, R_X86_64_GLOB_DAT, R_X86_64_JUMP_SLOT, R_X86_64_PC32,
    R_X86_64_RELATIVE,
};

/// Returns the relocation type of a number, if it is one that a loader applies.
#[tactic(auto, unfolding(elf_model::specs::ImageValues::dynamic_type, elf_model::specs::ImageValues::dynamic_type_in, elf_model::specs::ImageValues::dynamic_types))]
pub(crate) fn dynamic_type(kind: u32) -> Option<DynamicType>
    ensures { result ≡ dynamic_type kind }
{
    match kind {
        R_X86_64_64 => Some(DynamicType::Absolute),
        R_X86_64_PC32 => Some(DynamicType::RelativeLow),
        R_X86_64_32 => Some(DynamicType::Low),
        R_X86_64_COPY => Some(DynamicType::Copy),
        R_X86_64_GLOB_DAT => Some(DynamicType::Address),
        R_X86_64_JUMP_SLOT => Some(DynamicType::Call),
        R_X86_64_RELATIVE => Some(DynamicType::Relative),
        R_X86_64_DTPMOD64 => Some(DynamicType::Module),
        R_X86_64_DTPOFF64 => Some(DynamicType::BlockOffset),
        R_X86_64_TPOFF64 => Some(DynamicType::ThreadOffset),
        R_X86_64_TLSDESC => Some(DynamicType::Descriptor),
        R_X86_64_IRELATIVE => Some(DynamicType::Resolved),
        _ => None,
    }
}

/// Returns `true` if a type does not use the symbol of its entry.
pub(crate) fn uses_no_symbol(found: DynamicType) -> bool
    ensures { result ≡ uses_no_symbol found }
{
    matches!(found, DynamicType::Relative | DynamicType::Resolved)
}

/// Returns `true` if the symbol of a type is a thread-local one.
pub(crate) fn is_thread_local(found: DynamicType) -> bool
    ensures { result ≡ is_thread_local found }
{
    matches!(
        found,
        DynamicType::Module
            | DynamicType::BlockOffset
            | DynamicType::ThreadOffset
            | DynamicType::Descriptor
    )
}

/// Returns how many bytes an entry of a type may change, by its symbol.
#[tactic(auto, unfolding(elf_model::specs::ImageValues::changed_size))]
pub(crate) fn changed_size(found: DynamicType, symbol: &Sym) -> u64
    ensures { (file : List ℕ) (at index : ℕ) → IsUsed found file at index symbol.now →
        result ≡ changed_size found file at }
{
    match found {
        DynamicType::Low | DynamicType::RelativeLow => 4,
        DynamicType::Copy => symbol.st_size,
        DynamicType::Descriptor => 16,
        _ => 8,
    }
}
