//! The exports that read the next rows of a table of a file in memory.
ghost use Rattle.std.specs.Prelude.{length};
ghost use Rattle.elf_record.specs.Prelude.{IsDyn, IsRela, IsSym};
ghost use Rattle.elf_capi.specs.Prelude.{IsVersionWord, ReadsNext};

use elf_capi::{RowPosition, Versym, next_rows};
use elf_record::{Dyn, Rela, Sym};

/// Reads the next symbols to the start of `out`, as many as there are and as fit, steps over them,
/// and returns how many (gABI 4, Symbol Table).
#[unsafe(no_mangle)]
pub extern "C" fn elfsee_next_symbols(file: &[u8], rows: &mut RowPosition, out: &mut [Sym]) -> usize
    ensures { ReadsNext 24 IsSym file.now rows.old rows.new (length out.old) out.new result }
{
    next_rows(file, rows, out)
}

/// Reads the next relocation entries, as [`elfsee_next_symbols`] does symbols (gABI 4, Relocation).
#[unsafe(no_mangle)]
pub extern "C" fn elfsee_next_relocations(
    file: &[u8],
    rows: &mut RowPosition,
    out: &mut [Rela],
) -> usize
    ensures { ReadsNext 24 IsRela file.now rows.old rows.new (length out.old) out.new result }
{
    next_rows(file, rows, out)
}

/// Reads the next dynamic entries, as [`elfsee_next_symbols`] does symbols (gABI 5, Dynamic
/// Section).
#[unsafe(no_mangle)]
pub extern "C" fn elfsee_next_dynamic(file: &[u8], rows: &mut RowPosition, out: &mut [Dyn]) -> usize
    ensures { ReadsNext 16 IsDyn file.now rows.old rows.new (length out.old) out.new result }
{
    next_rows(file, rows, out)
}

/// Reads the next entries of symbols' versions to the start of `out`, as many as there are and as
/// fit, steps over them, and returns how many (Linux Standard Base Core, Symbol Versioning).
#[unsafe(no_mangle)]
pub extern "C" fn elfsee_next_version_words(
    file: &[u8],
    rows: &mut RowPosition,
    out: &mut [Versym],
) -> usize
    ensures { ReadsNext 2 IsVersionWord file.now rows.old rows.new (length out.old) out.new result }
{
    next_rows(file, rows, out)
}
