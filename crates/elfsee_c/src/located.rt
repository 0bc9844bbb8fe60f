//! The exports for the relocations of a file in memory that its dynamic entries locate.
ghost use Rattle.std.specs.Prelude.{◌≡◌, ◌≤◌, IfSome, length};
ghost use Rattle.elf_model.specs.Style.{without_sections};
ghost use Rattle.elf_capi.specs.Prelude.{IsRelocationWord, IsShortEntry, ReadsNext, budget_of, headers_of};
ghost use Rattle.elf_capi.specs.LocatedTables.{located_table_cost};
ghost use Rattle.elf_capi.specs.Located.{HasLocated, OpensLocated};

use elf_capi::{
    CallEnd, CallerLimits, RowPosition, ShortEntry, checked_limits, next_rows, open_located,
    relocation_table, report_opened,
};
use elf_record::Refusal;
use elf_table::HeaderStore;

/// Finds a table of relocations by the program headers and the first segment of dynamic entries,
/// and sets `rows` before its first row, without a string table (gABI 5, Dynamic Section).
///
/// `table` is 0 for that at DT_RELR, 1 at DT_REL, 2 at DT_RELA and 3 at DT_JMPREL, which is the
/// order in which a loader applies them. Its rows are words of 8 bytes, entries of 16 bytes without
/// addends, or of 24 bytes with addends, as `entry` of the position says; that at DT_JMPREL has
/// either. `room` holds the file's headers during the call.
///
/// Returns 0 if it was found, 1 if the file is refused or the budget is exhausted, 2 if the file has
/// no such table, and 4 if the limits, the room or the table are out of range.
#[unsafe(no_mangle)]
pub extern "C" fn elfsee_located_relocations(
    file: &[u8],
    limits: &CallerLimits,
    table: u32,
    room: &mut [u8],
    rows: &mut RowPosition,
    end: &mut CallEnd,
) -> u32
    ensures { HasLocated file.now limits.now (length room.old) table
        result rows.old rows.new end.new }
{
    let mut asked = 0;
    let opened = open_in(file, limits, table, room, &mut asked);
    let status = report_opened(opened, rows, end);
    end.asked = asked;
    status
}

/// Finds it; returns `None` for a call with a number out of range. The number of bytes requested is
/// written to `asked`.
fn open_in(
    file: &[u8],
    limits: &CallerLimits,
    table: u32,
    room: &mut [u8],
    asked: &mut u64,
) -> Option<Result<Option<RowPosition>, Refusal>>
    requires { asked.old ≡ 0 }
    ensures opens { OpensLocated file.now limits.now (length room.old) table result }
    ensures cost { asked.new ≤ located_table_cost (without_sections file.now)
        (headers_of limits.now (length room.old)) }
    ensures budget { IfSome (budget_of limits.now) (λ bytes. asked.new ≤ bytes) }
{
    let limits = checked_limits(limits, room.len())?;
    let table = relocation_table(table)?;
    let mut store = HeaderStore::over(room, limits.headers);
    Some(open_located(file, &mut store, limits.budget, table, asked))
}

/// Reads the next relocation entries without addends to the start of `out`, as many as there are and
/// as fit, steps over them, and returns how many (gABI 4, Relocation).
#[unsafe(no_mangle)]
pub extern "C" fn elfsee_next_short_relocations(
    file: &[u8],
    rows: &mut RowPosition,
    out: &mut [ShortEntry],
) -> usize
    ensures { ReadsNext 16 IsShortEntry file.now rows.old rows.new (length out.old) out.new result }
{
    next_rows(file, rows, out)
}

/// Reads the next words of relative relocations, as [`elfsee_next_short_relocations`] does entries
/// (gABI 4, Relative Relocation Table).
#[unsafe(no_mangle)]
pub extern "C" fn elfsee_next_relative_words(
    file: &[u8],
    rows: &mut RowPosition,
    out: &mut [u64],
) -> usize
    ensures { ReadsNext 8 IsRelocationWord file.now rows.old rows.new (length out.old) out.new
        result }
{
    next_rows(file, rows, out)
}
