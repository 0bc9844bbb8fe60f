//! The entries of symbols' versions.
ghost use Rattle.std.proofs.Common.{rules};
ghost use Rattle.elf_capi.specs.VersionRecords.{IsVersionWord};

use crate::table_row::TableRow;
use elf_record::sizes::SYMBOL_VERSION_BYTES;
use elf_record::{u16_at, version_number};

/// The version of a symbol (Linux Standard Base Core, Symbol Versioning).
#[repr(C)]
#[derive(Clone, Copy)]
pub struct Versym {
    /// Its version index, below 2^15; 0 and 1 are no version's.
    pub number: u16,
    /// 1 if it is hidden: a lookup by name alone does not match the symbol; otherwise 0.
    pub is_hidden: u16,
}

impl TableRow for Versym {
    const BYTES: u64 = SYMBOL_VERSION_BYTES;

    ghost BYTES = { 2 };

    ghost is_at = { IsVersionWord };

    ghost some = { Prim.search rules };

    fn read(file: &[u8], at: usize) -> Versym {
        let word = u16_at(file, at);
        let number = version_number(word);
        Versym {
            number,
            is_hidden: u16::from(word != number),
        }
    }
}
