//! The symbols and the version tables by the program headers.
ghost use Rattle.std.specs.Prelude.{◌≡◌, ◌/◌, ◌<◌, ◌≤◌, ◌^◌, ℕ, List, IfSome, option_map};
ghost use Rattle.elf_model.specs.Prelude.{checks_of_row, records_of_tag, rest_checks, rows_checks, segment_at, segment_strings, segment_words, tagged_row, words_row};
ghost use Rattle.elf_model.specs.declared.versions.VersionKind.TheVariants.{Need};
ghost use Rattle.elf_table.specs.Prelude.{ChecksThenValue, HoldsProgramHeaders, StringsInBounds, strings_in};
ghost use Rattle.elf_hash.specs.Entries.{AreTaggedEntries, dynamic_entry_at};
ghost use Rattle.elf_hash.specs.Headers.{FindsIn};
ghost use Rattle.elf_hash.specs.Segments.{AreRowsSymbols, TellSymbols, rows_records, version_rows};
ghost use Rattle.elf_hash.specs.Symbols.{VersionRecordsInBounds, DynamicSymbolsInBounds};
ghost use Rattle.elf_hash.specs.Versions.{AreInFront, AreVersions, VersionsInBounds};

use crate::dyn_entry::{DynEntry, DynamicTags};
use crate::symbols::{DynamicSymbols, VersionRecordTable, VersymTable};
use crate::versions::VersionTables;
use elf_record::sizes::{SYMBOL_BYTES, SYMBOL_VERSION_BYTES};
use elf_record::{Cause, VersionKind};
use elf_table::{ExecutionView, Fault, Names, Table, refused};

/// Returns the symbols that the entries of a segment locate, with their names and versions. `row`
/// is the file offset of the entry of the hash table.
///
/// # Errors
/// Returns the first check that fails: `Unmapped` at `row` if no entry locates the symbols or their
/// strings, or holds the size of these; those of [`ExecutionView::rest`] for the symbols and of
/// [`ExecutionView::mapped`]; those of the version tables.
pub(crate) fn segment_symbols(
    view: &ExecutionView<'_>,
    segment: u16,
    found: &DynamicTags,
    row: u64,
) -> Result<DynamicSymbols, Fault>
    requires small { view.now.loaded.size < 2 ^ 63 }
    ensures { FindsIn HoldsProgramHeaders view.now.loaded view.now.store.now result
        DynamicSymbolsInBounds (λ bytes.
        (at : ℕ) → AreTaggedEntries bytes at found.now →
        ChecksThenValue (rows_checks bytes at row) (AreRowsSymbols bytes segment at) result) }
{
    let Some((symtab, strtab, strsz)) = symbol_entries(found) else {
        return refused(row, Cause::Unmapped);
    };
    let rest = view.rest(symtab.value, symtab.at)?;
    let names = view.mapped(strtab.value, strsz.value, strtab.at)?;
    let versions = segment_versions(view, segment, found, names)?;
    Ok(DynamicSymbols {
        index: segment,
        table: rows_in(rest, SYMBOL_BYTES),
        names,
        words: versions.words,
        definitions: versions.definitions,
        needs: versions.needs,
    })
}

/// Returns the entries that locate symbols and their strings, and hold the size of these.
pub(crate) fn symbol_entries(found: &DynamicTags) -> Option<(DynEntry, DynEntry, DynEntry)>
    ensures { TellSymbols found.now result }
{
    let Some(symtab) = found.symtab else {
        return None;
    };
    let Some(strtab) = found.strtab else {
        return None;
    };
    let Some(strsz) = found.strsz else {
        return None;
    };
    Some((symtab, strtab, strsz))
}

/// Returns as many rows of `entry` bytes as fit into a range.
pub(crate) fn rows_in(bytes: Table, entry: u64) -> Table
    requires bytes { bytes.entry ≡ 1 }
    requires entry { (0 < entry) × (entry ≤ 4096) }
    ensures { result ≡ record { at = bytes.at; count = bytes.count / entry; entry = entry } }
{
    let _ = bytes.entry();
    Table::new(bytes.at(), bytes.len() / entry, entry)
}

/// Returns the version tables that the entries of a segment locate, whose names are in the symbols'
/// strings; nothing without an entry of the version symbol table, or without one of the definitions
/// or the needs.
///
/// # Errors
/// Those of [`ExecutionView::rest`] for the versym entries, for the definitions and for the needs.
fn segment_versions(
    view: &ExecutionView<'_>,
    segment: u16,
    found: &DynamicTags,
    names: Names,
) -> Result<VersionTables, Fault>
    requires small { view.now.loaded.size < 2 ^ 63 }
    requires names { StringsInBounds view.now.loaded.size names }
    ensures { FindsIn HoldsProgramHeaders view.now.loaded view.now.store.now result
        VersionsInBounds (λ bytes.
        (at : ℕ) → AreTaggedEntries bytes at found.now →
        strings_in bytes names ≡ segment_strings bytes at → ChecksThenValue (version_rows bytes at)
        (AreVersions bytes (segment_words bytes segment at) (rows_records bytes at)) result) }
{
    let Some(entry) = words_entry(found) else {
        return Ok(VersionTables {
            words: None,
            definitions: None,
            needs: None,
        });
    };
    let rest = view.rest(entry.value, entry.at)?;
    let definitions = segment_records(view, found.verdef, VersionKind::Definition, names)?;
    let needs = segment_records(view, found.verneed, VersionKind::File, names)?;
    let words = VersymTable {
        words: rows_in(rest, SYMBOL_VERSION_BYTES),
        head: entry.at,
        index: segment,
    };
    Ok(VersionTables {
        words: Some(words),
        definitions,
        needs,
    })
}

/// Returns the entry of the version symbol table, if there is one of the definitions or of the
/// needs. Without them no versym entry names a version, and a loader does not read these.
fn words_entry(found: &DynamicTags) -> Option<DynEntry>
    ensures { (bytes : List ℕ) (at : ℕ) → AreTaggedEntries bytes at found.now →
        result ≡ option_map (dynamic_entry_at bytes) (words_row bytes at) }
{
    if found.verdef.is_none() && found.verneed.is_none() {
        return None;
    }
    found.versym
}

/// Returns the definitions, or the needs, that an entry locates, if there is one.
///
/// # Errors
/// Those of [`ExecutionView::rest`].
pub fn segment_records(
    view: &ExecutionView<'_>,
    entry: Option<DynEntry>,
    kind: VersionKind,
    names: Names,
) -> Result<Option<VersionRecordTable>, Fault>
    requires kind { kind ≡ Need → ⊥ }
    requires small { view.now.loaded.size < 2 ^ 63 }
    requires names { StringsInBounds view.now.loaded.size names }
    ensures { FindsIn HoldsProgramHeaders view.now.loaded view.now.store.now result
        (λ size found. IfSome found (VersionRecordsInBounds size)) (λ bytes. (at tag : ℕ) →
        entry ≡ option_map (dynamic_entry_at bytes) (tagged_row bytes at tag) →
        strings_in bytes names ≡ segment_strings bytes at →
        ChecksThenValue (checks_of_row (tagged_row bytes at tag) (rest_checks bytes))
        (AreInFront bytes (records_of_tag bytes at tag kind)) result) }
{
    let Some(entry) = entry else {
        return Ok(None);
    };
    let table = view.rest(entry.value, entry.at)?;
    Ok(Some(VersionRecordTable {
        kind,
        head: entry.at,
        table,
        names,
    }))
}
