//! The records of symbol versions of a section, after the checks of its table.
ghost use Rattle.std.specs.Prelude.{◌≡◌, ℕ, List};
ghost use Rattle.elf_record.specs.Shdr.{IsShdr};
ghost use Rattle.elf_capi.specs.VersionRecords.{ReadsRecords, first_kind, starting};

use crate::memory_file::MemoryFile;
use crate::record_row::kind_number;
use crate::records::VersionRecordPosition;
use crate::section_tables::record_names;
use elf_note::record_bytes;
use elf_record::gnu_numbers::{SHT_GNU_VERDEF, SHT_GNU_VERNEED};
use elf_record::{Refusal, Shdr, VersionKind};
use elf_table::{Fault, Limits, Names};

/// Checks the table of version definitions or needs that a section of a file in memory holds, and
/// returns a position before its first record.
///
/// Returns `None` if the file has no such section, or one of another type than GNU_verdef and
/// GNU_verneed. Only the section headers of the section names, of the section, and of what it links
/// to are read (Linux Standard Base Core, Symbol Versioning).
///
/// # Errors
/// The first check that fails of those that a listing makes up to the table's first record, with
/// the given number of headers allowed.
pub fn records_in(
    file: &[u8],
    limits: &Limits,
    section: u16,
) -> Result<Option<VersionRecordPosition>, Refusal>
    ensures { ReadsRecords file.now limits.now.headers section result }
{
    let held = match MemoryFile::load(file, limits) {
        Ok(held) => held,
        Err(refusal) => return Err(refusal),
    };
    if section >= held.sections() {
        return Ok(None);
    }
    let header = held.section(section);
    let Some(kind) = first_kind(&header) else {
        return Ok(None);
    };
    match record_names(&held, section) {
        Ok(names) => Ok(Some(first_records(&header, kind, held.place(section), names))),
        Err(Fault::Refused(refusal)) => Err(refusal),
        // No check is a fault of the source.
        Err(Fault::Source { .. }) => Ok(None),
    }
}

/// Returns the kind of the first record of a section, by its type.
fn first_kind(header: &Shdr) -> Option<VersionKind>
    ensures { (file : List ℕ) (at : ℕ) → IsShdr file at header.now → result ≡ first_kind file at }
{
    match header.sh_type {
        SHT_GNU_VERDEF => Some(VersionKind::Definition),
        SHT_GNU_VERNEED => Some(VersionKind::File),
        _ => None,
    }
}

/// Returns a position before the first record of a section whose header is at a file offset; after
/// the last if it is empty.
fn first_records(header: &Shdr, kind: VersionKind, at: u64, names: Names) -> VersionRecordPosition
    ensures { (file : List ℕ) (place : ℕ) → IsShdr file place header.now → at ≡ place →
        result ≡ starting file kind place names }
{
    let size = header.sh_size;
    VersionRecordPosition {
        at: header.sh_offset,
        size,
        place: 0,
        from: at,
        owner: 0,
        left: size / record_bytes(kind),
        strings_at: names.at(),
        strings_len: names.size(),
        kind: if size == 0 { 0 } else { kind_number(kind) },
        none: 0,
    }
}
