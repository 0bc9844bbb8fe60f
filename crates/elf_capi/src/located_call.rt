//! The relocations of a file in memory that its dynamic entries locate.
ghost use Rattle.std.specs.Prelude.{◌≡◌, ◌≤◌, IfSome, length};
ghost use Rattle.elf_model.specs.Style.{without_sections};
ghost use Rattle.elf_capi.specs.LocatedTables.{located_table_cost};
ghost use Rattle.elf_capi.specs.Located.{ReadsLocated, numbered_table};

use crate::counts::short;
use crate::file_source::file_within;
use crate::located_tables::located_rows;
use crate::rows::RowPosition;
use elf_model::RelocationTable;
use elf_record::Refusal;
use elf_table::{Fault, HeaderStore};

/// Finds a table of them by the program headers, within a read budget, if there is one. `asked` is
/// set to the number of bytes requested.
///
/// # Errors
/// Those of [`located_rows`].
pub fn open_located(
    file: &[u8],
    store: &mut HeaderStore,
    budget: Option<u64>,
    table: RelocationTable,
    asked: &mut u64,
) -> Result<Option<RowPosition>, Refusal>
    ensures reads { ReadsLocated (without_sections file.now) store.old.slots budget
        (length file.now) table result }
    ensures cost { asked.new ≤ located_table_cost (without_sections file.now) store.old.slots }
    ensures budget { IfSome budget (λ bytes. asked.new ≤ bytes) }
{
    let mut src = file_within(file, budget);
    src.mask_section_headers(true);
    let found = located_rows(&mut src, store, table);
    *asked = short(src.asked());
    let _ = src.into_inner();
    match found {
        Ok(rows) => Ok(rows),
        Err(Fault::Refused(refusal)) => Err(refusal),
        Err(Fault::Source { .. }) => unreachable!(),
    }
}

/// Returns the table of a number, in the order in which a loader applies them: 0 at DT_RELR, 1 at
/// DT_REL, 2 at DT_RELA, 3 at DT_JMPREL.
pub fn relocation_table(number: u32) -> Option<RelocationTable>
    ensures { result ≡ numbered_table number }
{
    match number {
        0 => Some(RelocationTable::Relr),
        1 => Some(RelocationTable::Rel),
        2 => Some(RelocationTable::Rela),
        3 => Some(RelocationTable::Jmprel),
        _ => None,
    }
}
