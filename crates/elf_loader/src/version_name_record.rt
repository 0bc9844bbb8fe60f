//! The record that names the version of an index.
ghost use Rattle.std.specs.Prelude.{◌≡◌, ℕ, List, Option, None, Some, IfOk, IfSome};
ghost use Rattle.elf_loader.specs.Naming.{HasFile, IsFileIf, NamedInBounds, NamesFile, NamesRecord};
ghost use Rattle.elf_loader.specs.Tables.{OfAnyTable, OfTable, OfTables, max_records_of, max_versions_of};
ghost use Rattle.elf_model.specs.Prelude.{VisitedRecord, file_before, file_or, max_records, names_version_index};
ghost use Rattle.elf_hash.specs.Symbols.{VersionRecordsInBounds, DynamicSymbolsInBounds};
ghost use Rattle.elf_note.specs.Reading.{IsVersion};

use elf_hash::{DynamicSymbols, VersionRecordTable};
use elf_note::{VersionCursor, VersionRecord};
use elf_record::{VersionKind, version_number};
use elf_source::{Counted, Source};
use elf_table::{Fault, Names};

/// A record that names the version of an index, with the strings of its name.
#[derive(Clone, Copy)]
pub struct VersionNameRecord {
    /// The record.
    pub record: VersionRecord,
    /// The strings of its name.
    pub names: Names,
    /// The record of the needed file whose version it is; none for a definition.
    pub file: Option<VersionRecord>,
}

/// Returns the first record of a table that names the version of an index, if one does, with the
/// strings of its name. No record after it is read. `file` is the last record of a needed file that
/// was visited.
///
/// # Errors
/// As for [`VersionCursor::advance`], for the records before it.
pub(crate) fn name_in_table<S: Source>(
    src: &mut Counted<S>,
    records: &VersionRecordTable,
    number: u16,
    file: &mut Option<VersionRecord>,
) -> Result<Option<VersionNameRecord>, Fault>
    requires within { VersionRecordsInBounds src.old.seen.size records.now }
    ensures did { NamesRecord src.old src.new number result
        (max_records records.now.kind records.now.table.count) (OfTable records.now) }
    ensures lies { IfOk result (NamedInBounds src.old.seen.size) }
    ensures file { (bytes : List ℕ) → src.old.seen.file ≡ Some bytes → OfTable records.now bytes
        (λ all left. NamesFile bytes number all left file.old file.new result) }
{
    let mut cursor = VersionCursor::one_by_one(records.kind, records.head, records.table);
    'records: while let Some(given) = cursor.advance(src)? {
        if names_version_index(&given, number) {
            return Ok(Some(VersionNameRecord {
                record: given,
                names: records.names,
                file: *file,
            }));
        }
        *file = file_of(&given, *file);
    }
    Ok(None)
}

/// Returns the record of the needed file of the next record, after one more record.
fn file_of(given: &VersionRecord, before: Option<VersionRecord>) -> Option<VersionRecord>
    ensures { (bytes : List ℕ) (met : VisitedRecord) (told : Option VisitedRecord) →
        IsVersion bytes met given.now →
        IsFileIf bytes told before → IsFileIf bytes (file_or met told) result }
{
    match given.kind {
        VersionKind::File => Some(*given),
        _ => before,
    }
}

/// Returns the first record of the definitions, and otherwise of the needs, that names the version
/// of an index, if one does, with the strings of its name. No record after it is read.
///
/// # Errors
/// As for [`VersionCursor::advance`], for the records before it.
pub fn name_of<S: Source>(
    src: &mut Counted<S>,
    symbols: &DynamicSymbols,
    number: u16,
) -> Result<Option<VersionNameRecord>, Fault>
    requires lies { DynamicSymbolsInBounds src.old.seen.size symbols.now }
    ensures did { NamesRecord src.old src.new number result (max_versions_of symbols.now)
        (OfTables symbols.now) }
    ensures lies { IfOk result (NamedInBounds src.old.seen.size) }
    ensures file { (bytes : List ℕ) → src.old.seen.file ≡ Some bytes → OfTables symbols.now bytes
        (λ all left. HasFile bytes (file_before bytes number None all) result) }
{
    let mut file = None;
    if let Some(named) = name_in_any(src, &symbols.definitions, number, &mut file)? {
        return Ok(Some(named));
    }
    name_in_any(src, &symbols.needs, number, &mut file)
}

// Returns the first record of a table that names the version of an index, if there is a table and
// one does.
fn name_in_any<S: Source>(
    src: &mut Counted<S>,
    records: &Option<VersionRecordTable>,
    number: u16,
    file: &mut Option<VersionRecord>,
) -> Result<Option<VersionNameRecord>, Fault>
    requires within { IfSome records.now (VersionRecordsInBounds src.old.seen.size) }
    ensures did { NamesRecord src.old src.new number result (max_records_of records.now)
        (OfAnyTable records.now) }
    ensures lies { IfOk result (NamedInBounds src.old.seen.size) }
    ensures file { (bytes : List ℕ) → src.old.seen.file ≡ Some bytes → OfAnyTable records.now bytes
        (λ all left. NamesFile bytes number all left file.old file.new result) }
{
    match records {
        None => Ok(None),
        Some(records) => name_in_table(src, records, number, file),
    }
}

// Returns `true` if a record names the version of an index.
fn names_version_index(given: &VersionRecord, number: u16) -> bool
    ensures { (file : List ℕ) (met : VisitedRecord) → IsVersion file met given.now →
        result ≡ names_version_index file number met }
{
    given.names_version() && version_number(given.number) == number
}
