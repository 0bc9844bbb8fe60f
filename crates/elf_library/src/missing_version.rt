//! Whether a file lacks a version.
ghost use Rattle.std.specs.Prelude.{◌≡◌, ◌≤◌, length, MatchBool};
ghost use Rattle.elf_library.specs.Lacking.{HasNoTable, definition_if, definitions_of};
ghost use Rattle.elf_hash.specs.Prelude.{ReturnsAs};
ghost use Rattle.elf_table.specs.Ledger.{CallDid, fault_of_result};
ghost use Rattle.elf_loader.specs.Prelude.{comparing_bytes, max_versions_of};
ghost use Rattle.elf_model.specs.Prelude.{LookupTables as IsScopeOf, Version, lacks_version};
ghost use Rattle.elf_hash.specs.Symbols.{IsDynamicSymbols, DynamicSymbolsInBounds};

use elf_hash::{DynamicSymbols, VersionRecordTable};
use elf_loader::version_indices;
use elf_options::VersionQuery;
use elf_record::VersionKind;
use elf_source::{Counted, Source};
use elf_table::Fault;

/// Checks whether a file defines versions, and none with a name of at most 4,096 bytes.
///
/// # Errors
/// Those of [`version_indices`], of the definitions.
pub(crate) fn lacks_version<S: Source>(
    src: &mut Counted<S>,
    symbols: &DynamicSymbols,
    version: &[u8],
) -> Result<bool, Fault>
    requires most { length version.now ≤ 4096 }
    requires lies { DynamicSymbolsInBounds src.old.seen.size symbols.now }
    ensures { CallDid src.old src.new (fault_of_result result)
        (comparing_bytes (Version version.now) (max_versions_of symbols.now))
        (λ file. (told : IsScopeOf) → IsDynamicSymbols file told.symbols symbols.now →
        ReturnsAs (lacks_version file told.symbols version.now) result) }
{
    if symbols.words.is_none() {
        return Ok(false);
    }
    let own = definitions_of(symbols);
    if is_bare(&own) {
        return Ok(false);
    }
    let numbers = version_indices(src, &own, &VersionQuery::Version(version))?;
    Ok(numbers.is_empty())
}

/// Returns `true` if symbols have no table of records.
fn is_bare(symbols: &DynamicSymbols) -> bool
    ensures { MatchBool result (HasNoTable symbols.now) (HasNoTable symbols.now → ⊥) }
{
    symbols.definitions.is_none() && symbols.needs.is_none()
}

/// Returns the symbols with only those of their tables of records that are definitions.
fn definitions_of(symbols: &DynamicSymbols) -> DynamicSymbols
    ensures { result ≡ definitions_of symbols.now }
{
    DynamicSymbols {
        index: symbols.index,
        table: symbols.table,
        names: symbols.names,
        words: symbols.words,
        definitions: definition_if(symbols.definitions),
        needs: definition_if(symbols.needs),
    }
}

/// Returns a table of records, if there is one and it is of definitions.
fn definition_if(records: Option<VersionRecordTable>) -> Option<VersionRecordTable>
    ensures { result ≡ definition_if records }
{
    match records {
        Some(table) => match table.kind {
            VersionKind::Definition => Some(table),
            VersionKind::File | VersionKind::Need => None,
        },
        None => None,
    }
}
