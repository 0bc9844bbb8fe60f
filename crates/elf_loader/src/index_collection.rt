//! The indices of the wanted version, from all version records.
ghost use Rattle.std.specs.Prelude.{◌≤◌, length, IfSome};
ghost use Rattle.elf_table.specs.Ledger.{CallDid, fault_of_result};
ghost use Rattle.elf_loader.specs.Comparing.{CollectsNumbers, ComparesRecords, comparing_bytes};
ghost use Rattle.elf_loader.specs.Tables.{OfAnyTable, OfTables, max_records_of, max_versions_of};
ghost use Rattle.elf_options.specs.Wants.{asked_of};
ghost use Rattle.elf_model.specs.Prelude.{LookupTables as IsScopeOf, asked_name, record_cost, version_indices};
ghost use Rattle.elf_hash.specs.Symbols.{IsDynamicSymbols, VersionRecordsInBounds, DynamicSymbolsInBounds};

use crate::name_comparison::compare_table;
use crate::version_index_set::VersionIndexSet;
use elf_hash::{DynamicSymbols, VersionRecordTable};
use elf_options::VersionQuery;
use elf_source::{Counted, Source};
use elf_table::Fault;

// Compares the records of a table, if there is one.
fn compare_any<S: Source>(
    src: &mut Counted<S>,
    records: &Option<VersionRecordTable>,
    version: &[u8],
    numbers: &mut VersionIndexSet,
) -> Result<(), Fault>
    requires most { length version.now ≤ 4096 }
    requires within { IfSome records.now (VersionRecordsInBounds src.old.seen.size) }
    ensures { ComparesRecords src.old src.new version.now numbers.old numbers.new result
        (max_records_of records.now) (OfAnyTable records.now) }
{
    match records {
        None => Ok(()),
        Some(records) => compare_table(src, records, version, numbers),
    }
}

// Compares the records of the definitions and then of the needs.
fn compare_all<S: Source>(
    src: &mut Counted<S>,
    symbols: &DynamicSymbols,
    version: &[u8],
    numbers: &mut VersionIndexSet,
) -> Result<(), Fault>
    requires most { length version.now ≤ 4096 }
    requires lies { DynamicSymbolsInBounds src.old.seen.size symbols.now }
    ensures { ComparesRecords src.old src.new version.now numbers.old numbers.new result
        (max_versions_of symbols.now) (OfTables symbols.now) }
{
    compare_any(src, &symbols.definitions, version, numbers)?;
    compare_any(src, &symbols.needs, version, numbers)
}

/// Returns the indices of the version that the query names, if it names one and the symbols have
/// versions; otherwise none. All version records are read then.
///
/// # Errors
/// Returns the first record that is refused, as [`elf_note::VersionCursor::advance`] does, or whose
/// name has a fault, at the structure that holds the name: of the definitions and then of the
/// needs.
pub fn version_indices<S: Source>(
    src: &mut Counted<S>,
    symbols: &DynamicSymbols,
    asked: &VersionQuery<'_>,
) -> Result<VersionIndexSet, Fault>
    requires most { IfSome (asked_name (asked_of asked.now)) (λ version. length version ≤ 4096) }
    requires lies { DynamicSymbolsInBounds src.old.seen.size symbols.now }
    ensures { CallDid src.old src.new (fault_of_result result)
        (comparing_bytes (asked_of asked.now) (max_versions_of symbols.now))
        (λ file. (scope : IsScopeOf) → IsDynamicSymbols file scope.symbols symbols.now →
        CollectsNumbers src.old src.new (record_cost (asked_of asked.now))
        (version_indices file scope (asked_of asked.now)) result) }
{
    let mut numbers = VersionIndexSet::new();
    let Some(_words) = &symbols.words else {
        return Ok(numbers);
    };
    let Some(version) = asked.name() else {
        return Ok(numbers);
    };
    compare_all(src, symbols, version, &mut numbers)?;
    Ok(numbers)
}
