//! The call that looks up a name as a loader does.
ghost use Rattle.std.specs.Prelude.{◌≡◌, ℕ, ◌+◌, ◌*◌, ◌/◌, None, Ok};
ghost use Rattle.elf_hash.specs.Prelude.{GivesWalked, IsTable, LookupTablesInBounds, place_of_table, walk_bytes};
ghost use Rattle.elf_loader.specs.Answering.{IsSymbolWithVersym};
ghost use Rattle.elf_loader.specs.Lookups.{AreShort, LooksOn, LooksThrough, MayLookOn, lookup_bytes};
ghost use Rattle.elf_loader.specs.Lookups.{looked_with, match_bytes};
ghost use Rattle.elf_loader.specs.NumberSets.{has_number};
ghost use Rattle.elf_loader.specs.Tables.{max_versions_of};
ghost use Rattle.elf_loader.specs.Telling.{telling_bytes};
ghost use Rattle.elf_model.specs.Prelude.{ChainResult as NoteScan, asked_name, loaded_in, looked_at, looked_by, record_cost, version_indices, walk_in};
ghost use Rattle.elf_options.specs.Wants.{asked_of, query_of};

use crate::found::version_of;
use crate::index_collection::version_indices;
use crate::lookup::{FoundSymbol, SymbolLookup};
use crate::version_index_set::VersionIndexSet;
use crate::version_matcher::VersionMatcher;
use elf_hash::{ChainResult, HashTable, LookupTables, counts, find_lookup_tables, walk};
use elf_options::SymbolQuery;
use elf_source::{Counted, Source};
use elf_table::{Fault, HeaderStore, NameBuf};

/// Looks up a name in a file, alone or with a version, as GNU's dynamic loader does (gABI 5,
/// Dynamic Linking; Linux Standard Base Core, Symbol Versioning): by the file's hash table, the GNU
/// one or otherwise the SysV one, the first symbol of the name's chain that has the name, is
/// exported ([`crate::is_exported`]) and whose version matches. The tables that it searches are
/// those of [`find_lookup_tables`], and the headers are loaded into the store. With `by_segments`
/// they are found by the program headers also if there are section headers: the file is read with
/// zeros for e_shoff, e_shnum and e_shstrndx. The name and the version of the query have at most
/// 4,096 bytes each. If the name of the symbol's version is read, `name` holds it, or its first 256
/// bytes; otherwise the contents of `name` are unspecified.
///
/// If the source's file is known the result is that of the file, and so is the refusal; no more is
/// read than the lookup costs, also if the source fails.
///
/// # Errors
/// Returns the first check that fails: those of [`find_lookup_tables`]; `HashShape` at the header
/// or entry that locates the hash table if its counts do not fit its size; if the query names a
/// version, those of [`elf_note::VersionCursor::advance`] for the definitions and the needs, and a
/// fault of a version's name at the record that holds it; on the way `HashIndex` at the word that
/// leads to a symbol index which no symbol and no chain word has, in a SysV hash table `HashCycle`
/// at the bucket's word if the chain is cyclic, a fault of a symbol's name at the symbol,
/// `VersionCut` at the header or entry that locates the version symbol table if a symbol has no
/// entry; if the name of the symbol's version is read, the refusals of the records before the one
/// with its version index and of its name, and `VersionIndex` at the symbol's versym entry if no
/// record has the index. Otherwise returns a fault of the source, or `Budget` if a read exceeds the
/// limit, at the offset of the read.
pub fn look_up<S: Source>(
    src: &mut Counted<S>,
    store: &mut HeaderStore,
    wanted: &SymbolQuery<'_>,
    by_segments: bool,
    name: &mut NameBuf,
) -> Result<SymbolLookup, Fault>
    requires { AreShort (query_of wanted.now) }
    ensures did { LooksThrough src.old src.new (looked_at by_segments) store.old.slots
        (query_of wanted.now) name.new result }
    ensures slots { store.new.slots ≡ store.old.slots }
{
    if !by_segments {
        return lookup_and_read_version(src, store, wanted, name);
    }
    let hides = src.hides();
    src.mask_section_headers(true);
    let found = lookup_and_read_version(src, store, wanted, name);
    src.mask_section_headers(hides);
    found
}

/// Looks up in the file that the source shows.
///
/// # Errors
/// Those of [`find_lookup_tables`], and of [`look_in`].
fn lookup_and_read_version<S: Source>(
    src: &mut Counted<S>,
    store: &mut HeaderStore,
    wanted: &SymbolQuery<'_>,
    name: &mut NameBuf,
) -> Result<SymbolLookup, Fault>
    requires { AreShort (query_of wanted.now) }
    ensures did { LooksThrough src.old src.new (λ file. file) store.old.slots
        (query_of wanted.now) name.new result }
    ensures slots { store.new.slots ≡ store.old.slots }
{
    let scope = find_lookup_tables(src, store)?;
    look_in(src, &scope, wanted, name)
}

/// Looks up in the tables that a lookup searches.
///
/// # Errors
/// Those of the table's counts, and of [`search_hash_table`].
fn look_in<S: Source>(
    src: &mut Counted<S>,
    scope: &LookupTables,
    wanted: &SymbolQuery<'_>,
    name: &mut NameBuf,
) -> Result<SymbolLookup, Fault>
    requires { MayLookOn src.old scope.now (query_of wanted.now) }
    ensures { LooksOn src.old src.new scope.now (query_of wanted.now) name.new result 28
        (lookup_bytes 28 src.old.seen.size (query_of wanted.now))
        (λ file told leaves. leaves 0 (loaded_in file told (query_of wanted.now))) }
{
    let table = counts(src, &scope.hash)?;
    search_hash_table(src, scope, &table, wanted, name)
}

/// Looks up in a hash table with its counts: finds the indices of the wanted version, and walks
/// along the chain.
///
/// # Errors
/// Those of [`version_indices`], and of [`search_chain`].
fn search_hash_table<S: Source>(
    src: &mut Counted<S>,
    scope: &LookupTables,
    table: &HashTable,
    wanted: &SymbolQuery<'_>,
    name: &mut NameBuf,
) -> Result<SymbolLookup, Fault>
    requires may { MayLookOn src.old scope.now (query_of wanted.now) }
    requires place { place_of_table table.now ≡ scope.now.hash }
    ensures { LooksOn src.old src.new scope.now (query_of wanted.now) name.new result 12
        (lookup_bytes 12 src.old.seen.size (query_of wanted.now)) (λ file told leaves.
        IsTable file told table.now → leaves 0 (looked_with file told (query_of wanted.now)
        (version_indices file told (query_of wanted.now).asked))) }
{
    let numbers = version_indices(src, &scope.symbols, &wanted.asked)?;
    search_chain(src, scope, table, wanted, &numbers, name)
}

/// Walks along the chain of the wanted name for the symbol that matches, and finds its version.
///
/// # Errors
/// Those of [`walk`], and of [`version_of`].
fn search_chain<S: Source>(
    src: &mut Counted<S>,
    scope: &LookupTables,
    table: &HashTable,
    wanted: &SymbolQuery<'_>,
    numbers: &VersionIndexSet,
    name: &mut NameBuf,
) -> Result<SymbolLookup, Fault>
    requires may { MayLookOn src.old scope.now (query_of wanted.now) }
    requires place { place_of_table table.now ≡ scope.now.hash }
    ensures { LooksOn src.old src.new scope.now (query_of wanted.now) name.new result 12
        (walk_bytes 12 (scope.now.hash.size / 4) (scope.now.hash.size / 4)
        (match_bytes (query_of wanted.now))
        + telling_bytes (asked_of wanted.now.asked) (max_versions_of scope.now.symbols))
        (λ file told leaves. (before : ℕ) → IsTable file told table.now →
        (asked_name (asked_of wanted.now.asked) ≡ None → before ≡ 0) →
        leaves (before * record_cost (asked_of wanted.now.asked))
        (looked_by file told (asked_of wanted.now.asked) before
        (walk_in file told (query_of wanted.now) (has_number numbers.now)))) }
{
    let trial = VersionMatcher {
        symbols: &scope.symbols,
        wanted,
        numbers,
    };
    let walked = walk(src, table, wanted.name, &trial)?;
    answer_of(src, scope, wanted, &walked, name)
}

/// Returns the result of a lookup by a walk, with the version of the symbol that it finds.
///
/// # Errors
/// Those of [`version_of`].
fn answer_of<S: Source>(
    src: &mut Counted<S>,
    scope: &LookupTables,
    wanted: &SymbolQuery<'_>,
    walked: &ChainResult,
    name: &mut NameBuf,
) -> Result<SymbolLookup, Fault>
    requires { LookupTablesInBounds src.old.seen.size scope.now }
    ensures { LooksOn src.old src.new scope.now (query_of wanted.now) name.new result 0
        (telling_bytes (asked_of wanted.now.asked) (max_versions_of scope.now.symbols))
        (λ file told leaves. (walk : NoteScan) (before : ℕ) →
        GivesWalked (IsSymbolWithVersym file scope.now.symbols) walk (Ok walked.now) →
        (asked_name (asked_of wanted.now.asked) ≡ None → before ≡ 0) →
        leaves (walk_bytes (before * record_cost (asked_of wanted.now.asked)) walk.read walk.tried
        (match_bytes (query_of wanted.now)))
        (looked_by file told (asked_of wanted.now.asked) before walk)) }
{
    let Some(found) = walked.found else {
        return Ok(SymbolLookup::Absent {
            tried: walked.tried,
        });
    };
    let version = version_of(src, &scope.symbols, &wanted.asked, &found, name)?;
    Ok(SymbolLookup::Found(FoundSymbol {
        section: scope.symbols.index,
        machine: scope.machine,
        index: found.index,
        symbol: found.answer.symbol,
        version,
        tried: walked.tried,
    }))
}
