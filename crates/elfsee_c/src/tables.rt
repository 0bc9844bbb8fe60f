//! The exports that open the rows of a section of a file in memory.
ghost use Rattle.std.specs.Prelude.{length};
ghost use Rattle.elf_capi.specs.Prelude.{OpensRows, ReturnsOpened};
ghost use Rattle.elf_capi.specs.declared.kind.RowKind.TheVariants.{Relocations, Symbols, VersionWords};
ghost use Rattle.elf_capi.specs.declared.kind.RowKind.TheVariants.{Dynamic};

use elf_capi::{CallEnd, CallerLimits, RowKind, RowPosition, open_rows, report_opened};

/// Checks the symbol table that a section of a file holds, and sets `rows` before its first row.
///
/// The number of headers is limited by the limits, and by the room, at 64 bytes each; no byte of
/// the room is read. Of the section headers only those of the section names, of the section, and of
/// what it links to are read (gABI 4, Symbol Table).
///
/// Returns 0 if the checks pass, 2 if the file has no such section or it holds no symbols, 1 if a
/// check fails that a listing makes up to the table's first row, with the first that does in `end`,
/// and 4 for limits out of range or room of less than 64 bytes.
#[unsafe(no_mangle)]
pub extern "C" fn elfsee_symbols(
    file: &[u8],
    limits: &CallerLimits,
    section: u16,
    room: &[u8],
    rows: &mut RowPosition,
    end: &mut CallEnd,
) -> u32
    ensures { ReturnsOpened (OpensRows Symbols file.now limits.now (length room.now) section)
        result rows.old rows.new end.new }
{
    let opened = open_rows(file, limits, room.len(), section, RowKind::Symbols);
    report_opened(opened, rows, end)
}

/// Checks the table of relocation entries that a section of a file holds, as [`elfsee_symbols`]
/// does symbols; its type is RELA. The string table with it is that of the symbols that the section
/// refers to (gABI 4, Relocation).
#[unsafe(no_mangle)]
pub extern "C" fn elfsee_relocations(
    file: &[u8],
    limits: &CallerLimits,
    section: u16,
    room: &[u8],
    rows: &mut RowPosition,
    end: &mut CallEnd,
) -> u32
    ensures { ReturnsOpened (OpensRows Relocations file.now limits.now (length room.now) section)
        result rows.old rows.new end.new }
{
    let opened = open_rows(file, limits, room.len(), section, RowKind::Relocations);
    report_opened(opened, rows, end)
}

/// Checks the table of dynamic entries that a section of a file holds, as [`elfsee_symbols`] does
/// symbols; its type is DYNAMIC. The entries are those up to and including the first DT_NULL, or
/// all (gABI 5, Dynamic Section).
#[unsafe(no_mangle)]
pub extern "C" fn elfsee_dynamic(
    file: &[u8],
    limits: &CallerLimits,
    section: u16,
    room: &[u8],
    rows: &mut RowPosition,
    end: &mut CallEnd,
) -> u32
    ensures { ReturnsOpened (OpensRows Dynamic file.now limits.now (length room.now) section)
        result rows.old rows.new end.new }
{
    let opened = open_rows(file, limits, room.len(), section, RowKind::Dynamic);
    report_opened(opened, rows, end)
}

/// Checks the table of symbols' versions that a section of a file holds, as [`elfsee_symbols`] does
/// symbols; its type is GNU_versym.
///
/// There is one entry for each symbol of the table that it links to, as far as it has entries, and
/// no string table with them (Linux Standard Base Core, Symbol Versioning).
#[unsafe(no_mangle)]
pub extern "C" fn elfsee_version_words(
    file: &[u8],
    limits: &CallerLimits,
    section: u16,
    room: &[u8],
    rows: &mut RowPosition,
    end: &mut CallEnd,
) -> u32
    ensures { ReturnsOpened (OpensRows VersionWords file.now limits.now (length room.now) section)
        result rows.old rows.new end.new }
{
    let opened = open_rows(file, limits, room.len(), section, RowKind::VersionWords);
    report_opened(opened, rows, end)
}
