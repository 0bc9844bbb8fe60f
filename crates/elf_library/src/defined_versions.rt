//! Whether a file defines a version that another needs.
ghost use Rattle.std.specs.Prelude.{◌≡◌, ◌+◌, ◌*◌, ◌/◌, ◌≤◌, ◌∷◌, [], List, None, Some, Ok, if◌then◌else◌, length};
ghost use Rattle.elf_table.specs.Prelude.{CallDid, StringsInBounds, fault_of_result, strings_in};
ghost use Rattle.elf_model.specs.Prelude.{Meets, Version, VersionRecordRead, VersionRecordTable as IsTableOf, VisitedRecord, define_version, max_records, pad64, readings_of, record_cost, state_by_records, state_by_segments};
ghost use Rattle.elf_model.specs.declared.states.VersionState.TheVariants as state;
ghost use Rattle.elf_model.specs.declared.versions.VersionKind.TheVariants.{Definition};
ghost use Rattle.elf_hash.specs.Prelude.{IsVersionRecordTable, ReturnsAs, VersionRecordsInBounds};
ghost use Rattle.elf_note.specs.Reading.{IsVersion};
ghost use Rattle.elf_library.specs.NeedWalks.{DefinesOne, needed_of};
ghost use Rattle.elf_library.specs.VersionTables.{AreVersionsOf, FileVersionsInBounds};

use crate::faults::is_reported_alone;
use crate::needed_versions::NeedsWalk;
use crate::version_tables::FileVersions;
use elf_hash::VersionRecordTable;
use elf_model::VersionState;
use elf_note::{VersionCursor, VersionRecord};
use elf_source::{Counted, Source};
use elf_table::{Fault, Names};

/// Returns the state of a needed version that a file should have, by the records of its
/// definitions, or `None` if it is not listed: it is there, it is weak, or the file has a version
/// symbol table and no definitions.
///
/// # Errors
/// A read fault, or a refusal for lack of budget.
pub(crate) fn state_in<S: Source>(
    src: &mut Counted<S>,
    versions: &FileVersions,
    needed: &NeedsWalk,
) -> Result<Option<VersionState>, Fault>
    requires lies { FileVersionsInBounds src.old.seen.size versions.now }
    ensures did { CallDid src.old src.new (fault_of_result result)
        (src.old.seen.size / 8 * record_cost (Version needed.now.name))
        (λ file. AreVersionsOf file versions.now →
        ReturnsAs (Ok (state_by_segments file (needed_of needed.now))) result) }
{
    let found = match versions.definitions {
        Ok(found) => found,
        Err(_) => return Ok(Some(VersionState::Refused)),
    };
    let Some(records) = found else {
        return Ok(state_without(versions.has_versym));
    };
    match defines(src, &records, needed.name.bytes(), needed.hash) {
        Ok(defined) => Ok(state_by(defined, needed.weak)),
        Err(fault) if is_reported_alone(fault) => Err(fault),
        Err(_) => Ok(Some(VersionState::Refused)),
    }
}

/// Returns the state of a version of a file that has no definitions.
fn state_without(has_versym: bool) -> Option<VersionState>
    ensures { result ≡ (if has_versym then None else Some state.Bare) }
{
    if has_versym {
        return None;
    }
    Some(VersionState::Bare)
}

/// Returns the state of a version that a file defines or not.
fn state_by(defined: bool, weak: bool) -> Option<VersionState>
    ensures { result ≡ state_by_records weak (Ok defined) }
{
    if defined || weak {
        return None;
    }
    Some(VersionState::NoVersion)
}

/// Checks whether definitions have a version of at most 4,096 bytes: one of them has its hash, and
/// its name is the first of the definition's. Its flags are ignored.
///
/// # Errors
/// Those of [`VersionCursor::advance`], and a fault of the name of a definition with the hash, at
/// the structure that holds the name: of the definitions before the version.
fn defines<S: Source>(
    src: &mut Counted<S>,
    records: &VersionRecordTable,
    version: &[u8],
    hash: u32,
) -> Result<bool, Fault>
    requires most { length version.now ≤ 4096 }
    requires within { VersionRecordsInBounds src.old.seen.size records.now }
    ensures did { CallDid src.old src.new (fault_of_result result)
        (max_records records.now.kind records.now.table.count
        * (28 + pad64 (length version.now + 1)))
        (λ file. (told : IsTableOf) → IsVersionRecordTable file told records.now →
        records.now.kind ≡ Definition →
        ReturnsAs (define_version file version.now hash (readings_of file told [])) result) }
{
    let mut cursor = VersionCursor::one_by_one(records.kind, records.head, records.table);
    'records: while let Some(given) = cursor.advance(src)? {
        if is_version(src, &records.names, &given, version, hash)? {
            return Ok(true);
        }
    }
    Ok(false)
}

/// Checks whether a definition is of a version of at most 4,096 bytes.
///
/// # Errors
/// A fault of its name, if it has the hash.
fn is_version<S: Source>(
    src: &mut Counted<S>,
    names: &Names,
    given: &VersionRecord,
    version: &[u8],
    hash: u32,
) -> Result<bool, Fault>
    requires most { length version.now ≤ 4096 }
    requires within { StringsInBounds src.old.seen.size names.now }
    ensures did { CallDid src.old src.new (fault_of_result result)
        (pad64 (length version.now + 1))
        (λ file. (met : VisitedRecord) (others : List VersionRecordRead) →
        IsVersion file met given.now → met.kind ≡ Definition → DefinesOne
        (define_version file version.now hash (Meets (strings_in file names.now) met ∷ others))
        (define_version file version.now hash others) result) }
{
    if given.hash != hash {
        return Ok(false);
    }
    names.equals(src, u64::from(given.name), given.named_at, version)
}
