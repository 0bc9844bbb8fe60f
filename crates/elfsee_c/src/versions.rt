//! The exports that iterate over the version definitions and needs of a file in memory.
ghost use Rattle.std.specs.Prelude.{length};
ghost use Rattle.elf_capi.specs.Prelude.{OpensRecords, ReturnsOpened, ReturnsRead, StepsRecord};

use elf_capi::{
    CallEnd, CallerLimits, RecordRow, VersionRecordPosition, checked_limits, next_record,
    records_in, report_opened, report_row,
};

/// Checks the table of version definitions or needs that a section of a file holds, and sets
/// `records` before its first record.
///
/// The number of headers is limited by the limits, and by the room, at 64 bytes each; no byte of
/// the room is read. Of the section headers only those of the section names, of the section, and of
/// what it links to are read (Linux Standard Base Core, Symbol Versioning).
///
/// Returns 0 if the checks pass, 2 if the file has no such section or it holds neither, 1 if a
/// check fails that a listing makes up to the table's first record, with the first that does in
/// `end`, and 4 for limits out of range or room of less than 64 bytes.
#[unsafe(no_mangle)]
pub extern "C" fn elfsee_version_records(
    file: &[u8],
    limits: &CallerLimits,
    section: u16,
    room: &[u8],
    records: &mut VersionRecordPosition,
    end: &mut CallEnd,
) -> u32
    ensures { ReturnsOpened (OpensRecords file.now limits.now (length room.now) section)
        result records.old records.new end.new }
{
    report_opened(
        checked_limits(limits, room.len()).map(|limits| records_in(file, &limits, section)),
        records,
        end,
    )
}

/// Reads the next record and steps over it (Linux Standard Base Core, Symbol Versioning).
///
/// Returns 0 if it was read, 2 after the last, and 1 if there is no record, with `VersionCut`,
/// `BadVersion` or `VersionIndex` in `end`, at what led there or at the record. If it was not read,
/// `records` is unchanged.
#[unsafe(no_mangle)]
pub extern "C" fn elfsee_next_version_record(
    file: &[u8],
    records: &mut VersionRecordPosition,
    row: &mut RecordRow,
    end: &mut CallEnd,
) -> u32
    ensures { ReturnsRead (StepsRecord file.now records.old records.new)
        result row.old row.new end.new }
{
    report_row(next_record(file, records), row, end)
}
