//! What the lookups in a file have in common, read once.
ghost use Rattle.std.specs.Prelude.{◌≡◌, ⊤, IfOk, IfSome, IsTrue, MatchBool};
ghost use Rattle.elf_library.specs.Looks.{ReadsReady};
ghost use Rattle.elf_library.specs.Ready.{HasNoNul, NamesEnd, ReturnsReady, ready_bytes, table_where};
ghost use Rattle.elf_hash.specs.Prelude.{IsLookupTables, LookupTablesInBounds, VersionRecordsInBounds, place_of_table};
ghost use Rattle.elf_table.specs.Ledger.{CallDid, fault_of_result};
ghost use Rattle.elf_model.specs.LoaderScope.{LookupTables as IsScopeOf};
ghost use Rattle.elf_options.specs.Wants.{asked_of};

use crate::kept_filter::KeptFilter;
use elf_hash::{HashTable, LookupTables, VersionRecordTable, counts};
use elf_loader::version_indices;
use elf_options::VersionQuery;
use elf_source::{Counted, Source};
use elf_table::Fault;

/// Returns the hash table as [`ready_table`] does, and reads the first words of its filter if they
/// are kept. What is refused or fails is skipped.
pub(crate) fn ready_with_filter<S: Source>(
    src: &mut Counted<S>,
    scope: &LookupTables,
    keeps: bool,
    filter: &mut KeptFilter,
) -> Option<HashTable>
    requires { LookupTablesInBounds src.old.seen.size scope.now }
    ensures { ReadsReady scope.now result filter.new src.old src.new }
{
    let ready = ready_table(src, scope);
    filter.load_if(keeps, src, &scope.hash);
    ready.unwrap_or(None)
}

/// Returns the hash table with its counts, if these and the file's records of versions are such
/// that no lookup is refused before its walk: each record can be read, and its string table ends in
/// a NUL.
///
/// # Errors
/// A fault of the counts or of the records, or of a read.
pub(crate) fn ready_table<S: Source>(
    src: &mut Counted<S>,
    scope: &LookupTables,
) -> Result<Option<HashTable>, Fault>
    requires { LookupTablesInBounds src.old.seen.size scope.now }
    ensures did { CallDid src.old src.new (fault_of_result result) (ready_bytes src.old.seen.size)
        (λ file. (told : IsScopeOf) → IsLookupTables file told scope.now →
        ReturnsReady file told result) }
    ensures place { IfOk result (λ ready.
        IfSome ready (λ table. place_of_table table ≡ scope.now.hash)) }
{
    let table = counts(src, &scope.hash)?;
    let symbols = &scope.symbols;
    let _numbers = version_indices(src, symbols, &VersionQuery::Version(&[]))?;
    let definitions_end = ends_in_nul(src, &symbols.definitions)?;
    let needs_end = ends_in_nul(src, &symbols.needs)?;
    Ok(table_where(definitions_end, needs_end, table))
}

/// Returns a table, if both hold.
fn table_where(one: bool, other: bool, table: HashTable) -> Option<HashTable>
    ensures { result ≡ table_where one other table }
{
    if one && other { Some(table) } else { None }
}

/// Checks whether the string table of a table of records, if there is one, ends in a NUL.
///
/// # Errors
/// A read fault.
fn ends_in_nul<S: Source>(
    src: &mut Counted<S>,
    records: &Option<VersionRecordTable>,
) -> Result<bool, Fault>
    requires { IfSome records.now (VersionRecordsInBounds src.old.seen.size) }
    ensures { CallDid src.old src.new (fault_of_result result) 64
        (λ file. IfOk result (λ ends. IsTrue ends → IfSome records.now (NamesEnd file))) }
{
    let Some(records) = records else {
        return Ok(true);
    };
    let size = records.names.size();
    if records.table.is_empty() || size == 0 {
        return Ok(false);
    }
    let ends = records.names.equals(src, size - 1, records.head, &[])?;
    Ok(ends)
}

/// Returns `true` if the name of the wanted version has a NUL.
pub(crate) fn has_nul(asked: &VersionQuery<'_>) -> bool
    ensures { MatchBool result ⊤ (HasNoNul (asked_of asked.now)) }
{
    match asked.name() {
        Some(version) => version.contains(&0),
        None => false,
    }
}
