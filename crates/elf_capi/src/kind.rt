//! The kinds of rows of sections.
ghost use Rattle.std.specs.Prelude.{◌≡◌, ℕ, List};
ghost use Rattle.elf_record.specs.Shdr.{IsShdr};
ghost use Rattle.elf_capi.specs.TableOpenings.{holds};

use elf_record::Shdr;
use elf_record::gnu_numbers::SHT_GNU_VERSYM;
use elf_record::numbers::{SHT_DYNAMIC, SHT_RELA};
use elf_table::holds_symbols;

/// A kind of rows that a section may have.
#[derive(Clone, Copy)]
pub enum RowKind {
    /// Symbols, of a section of type SYMTAB or DYNSYM (gABI 4, Symbol Table).
    Symbols,
    /// Relocation entries with addends, of a section of type RELA (gABI 4, Relocation).
    Relocations,
    /// Dynamic entries, of a section of type DYNAMIC (gABI 5, Dynamic Section).
    Dynamic,
    /// Entries of symbols' versions, of a section of type GNU_versym (Linux Standard Base Core,
    /// Symbol Versioning).
    VersionWords,
}

/// Returns `true` if a section holds rows of a kind, by its type.
pub(crate) fn holds(header: &Shdr, kind: RowKind) -> bool
    ensures { (file : List ℕ) (at : ℕ) → IsShdr file at header.now →
        result ≡ holds kind file at }
{
    match kind {
        RowKind::Symbols => holds_symbols(header),
        RowKind::Relocations => header.sh_type == SHT_RELA,
        RowKind::Dynamic => header.sh_type == SHT_DYNAMIC,
        RowKind::VersionWords => header.sh_type == SHT_GNU_VERSYM,
    }
}
