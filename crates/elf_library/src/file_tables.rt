//! The tables of a file in which names are looked up.
ghost use Rattle.std.specs.Prelude.{◌≡◌, IfOk};
ghost use Rattle.elf_hash.specs.Prelude.{LookupTablesInBounds};
ghost use Rattle.elf_library.specs.Kept.{FindsFileTables};
ghost use Rattle.elf_library.specs.VersionTables.{FileVersionsInBounds};

use crate::faults::is_reported_alone;
use crate::version_tables::{FileVersions, find_file_versions, refused_versions};
use elf_hash::{LookupTables, find_lookup_tables};
use elf_source::{Counted, Source};
use elf_table::{Fault, HeaderStore};

/// The tables of a file.
#[derive(Clone, Copy)]
pub(crate) struct FileTables {
    /// Those that a lookup searches.
    pub scope: LookupTables,
    /// Those of symbol versions.
    pub versions: FileVersions,
}

/// Finds the tables that a lookup searches, and those of symbol versions; if these are refused
/// where the others were not, since the source returned other bytes, that is their refusal.
///
/// # Errors
/// Those of [`find_lookup_tables`]; then a read fault, or a refusal for lack of budget.
pub(crate) fn find_tables<S: Source>(
    source: &mut Counted<S>,
    store: &mut HeaderStore,
) -> Result<FileTables, Fault>
    ensures finds { FindsFileTables store.old.slots source.old source.new result }
    ensures slots { store.new.slots ≡ store.old.slots }
    ensures within { IfOk result (λ found. LookupTablesInBounds source.old.seen.size found.scope) }
    ensures versions { IfOk result (λ found.
        FileVersionsInBounds source.old.seen.size found.versions) }
{
    let scope = find_lookup_tables(source, store)?;
    match find_file_versions(source, store) {
        Ok(versions) => Ok(FileTables { scope, versions }),
        Err(fault) if is_reported_alone(fault) => Err(fault),
        Err(fault) => Ok(FileTables {
            scope,
            versions: refused_versions(fault),
        }),
    }
}
