//! The indices of the version that the query names.
ghost use Rattle.std.specs.Prelude.{ℕ, ◌+◌, ◌<◌, ◌≤◌, ◌∷◌, List, length};
ghost use Rattle.elf_table.specs.Prelude.{CallDid, StringsInBounds, fault_of_result, strings_in};
ghost use Rattle.elf_loader.specs.Comparing.{ComparesOne, ComparesRecords};
ghost use Rattle.elf_loader.specs.Tables.{OfTable};
ghost use Rattle.elf_model.specs.Prelude.{Meets, VERSION_NUMBERS, VersionRecordRead, VisitedRecord, compared_with, max_records, number_in, pad64};
ghost use Rattle.elf_hash.specs.Symbols.{VersionRecordsInBounds};
ghost use Rattle.elf_note.specs.Reading.{IsVersion};

use crate::version_index_set::VersionIndexSet;
use elf_hash::VersionRecordTable;
use elf_note::{VersionCursor, VersionRecord};
use elf_record::version_number;
use elf_source::{Counted, Source};
use elf_table::{Fault, Names};

/// Compares the records of a table that name a version with the wanted one, and inserts the indices
/// of those that match into a set.
///
/// # Errors
/// As for [`VersionCursor::advance`], and a fault of a name at the record that holds it.
pub(crate) fn compare_table<S: Source>(
    src: &mut Counted<S>,
    records: &VersionRecordTable,
    version: &[u8],
    numbers: &mut VersionIndexSet,
) -> Result<(), Fault>
    requires most { length version.now ≤ 4096 }
    requires within { VersionRecordsInBounds src.old.seen.size records.now }
    ensures { ComparesRecords src.old src.new version.now numbers.old numbers.new result
        (max_records records.now.kind records.now.table.count) (OfTable records.now) }
{
    let mut cursor = VersionCursor::one_by_one(records.kind, records.head, records.table);
    'records: while let Some(given) = cursor.advance(src)? {
        compare_record(src, &records.names, &given, version, numbers)?;
    }
    Ok(())
}

// Compares a record with the wanted version, if it names one.
fn compare_record<S: Source>(
    src: &mut Counted<S>,
    names: &Names,
    given: &VersionRecord,
    version: &[u8],
    numbers: &mut VersionIndexSet,
) -> Result<(), Fault>
    requires most { length version.now ≤ 4096 }
    requires within { StringsInBounds src.old.seen.size names.now }
    requires small { number_in given.now.number < VERSION_NUMBERS }
    ensures { CallDid src.old src.new (fault_of_result result) (pad64 (length version.now + 1))
        (λ file. (met : VisitedRecord) (others : List VersionRecordRead) →
        IsVersion file met given.now →
        ComparesOne numbers.old numbers.new
        (compared_with file version.now (Meets (strings_in file names.now) met ∷ others))
        (compared_with file version.now others) result) }
{
    if !given.names_version() {
        return Ok(());
    }
    let off = u64::from(given.name);
    if names.equals(src, off, given.named_at, version)? {
        numbers.insert(version_number(given.number));
    }
    Ok(())
}
