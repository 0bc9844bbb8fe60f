//! Symbols, relocation entries and dynamic entries as rows: the records that a listing reads, laid
//! out as C has them.
ghost use Rattle.std.proofs.Common.{rules};
ghost use Rattle.elf_record.specs.Prelude.{IsDyn, IsRela, IsSym};

use crate::table_row::TableRow;
use elf_record::sizes::{DYNAMIC_BYTES, RELOCATION_BYTES, SYMBOL_BYTES};
use elf_record::{Dyn, Rela, Sym};
use elf_table::chunk_at;

impl TableRow for Sym {
    const BYTES: u64 = SYMBOL_BYTES;

    ghost BYTES = { 24 };

    ghost is_at = { IsSym };

    ghost some = { Prim.search rules };

    fn read(file: &[u8], at: usize) -> Sym {
        Sym::decode(chunk_at(file, at))
    }
}

impl TableRow for Rela {
    const BYTES: u64 = RELOCATION_BYTES;

    ghost BYTES = { 24 };

    ghost is_at = { IsRela };

    ghost some = { Prim.search rules };

    fn read(file: &[u8], at: usize) -> Rela {
        Rela::decode(chunk_at(file, at))
    }
}

impl TableRow for Dyn {
    const BYTES: u64 = DYNAMIC_BYTES;

    ghost BYTES = { 16 };

    ghost is_at = { IsDyn };

    ghost some = { Prim.search rules };

    fn read(file: &[u8], at: usize) -> Dyn {
        Dyn::decode(chunk_at(file, at))
    }
}
