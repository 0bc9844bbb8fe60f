//! The rows of tables of relocations without addends.
ghost use Rattle.std.proofs.Common.{rules};
ghost use Rattle.elf_capi.specs.RelocationRows.{IsRelocationWord, IsShortEntry};

use crate::table_row::TableRow;
use elf_record::sizes::{REL_BYTES, RELR_BYTES};
use elf_record::u64_at;

/// A relocation entry without an addend, 16 bytes (gABI 4, Relocation).
#[repr(C)]
#[derive(Clone, Copy)]
pub struct ShortEntry {
    /// The place of the relocation.
    pub r_offset: u64,
    /// The symbol's index, in the high 32 bits, and the relocation's type, in the low 32.
    pub r_info: u64,
}

impl TableRow for ShortEntry {
    const BYTES: u64 = REL_BYTES;

    ghost BYTES = { 16 };

    ghost is_at = { IsShortEntry };

    ghost some = { Prim.search rules };

    fn read(file: &[u8], at: usize) -> ShortEntry {
        ShortEntry {
            r_offset: u64_at(file, at),
            r_info: u64_at(file, at + 8),
        }
    }
}

/// A word of relative relocations (gABI 4, Relative Relocation Table).
impl TableRow for u64 {
    const BYTES: u64 = RELR_BYTES;

    ghost BYTES = { 8 };

    ghost is_at = { IsRelocationWord };

    ghost some = { Prim.search rules };

    fn read(file: &[u8], at: usize) -> u64 {
        u64_at(file, at)
    }
}
