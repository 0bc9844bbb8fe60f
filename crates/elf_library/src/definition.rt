//! The symbol of a file that defines a name.
ghost use Rattle.std.specs.Prelude.{◌≡◌, ℕ, ◌+◌, ◌*◌, ◌/◌, ◌≤◌, length, IfSome};
ghost use Rattle.elf_library.specs.Looks.{FindsDefiner};
ghost use Rattle.elf_library.specs.Definers.{DefinesOn, SaysDefines, definer_with, the_defined};
ghost use Rattle.elf_library.specs.Indices.{AreIndicesOf, KeepsIndices};
ghost use Rattle.elf_library.specs.Ready.{HasNoNul, IsReadyTable, IsReadyIf};
ghost use Rattle.elf_hash.specs.Prelude.{DynamicSymbolsInBounds, IsTable, index_of, place_of_table, walk_bytes};
ghost use Rattle.elf_loader.specs.Prelude.{IsSymbolWithVersym, MayLookOn, has_number, lookup_bytes, match_bytes};
ghost use Rattle.elf_model.specs.Prelude.{definer_by, definer_walk, definition_in, pad64, record_cost, version_indices};
ghost use Rattle.elf_options.specs.Wants.{query_of};

use crate::kept_indices::KeptIndices;
use crate::ready::has_nul;
use elf_hash::{
    ChainResult, HashTable, LookupTables, Matcher, SymbolMatch, counts, excludes, walk,
};
use elf_loader::{VersionIndexSet, VersionMatcher, version_indices};
use elf_options::SymbolQuery;
use elf_record::numbers::SHN_UNDEF;
use elf_source::{Counted, Source};
use elf_table::Fault;

/// A matcher for the symbols that match a query and are not undefined.
#[derive(Clone, Copy)]
struct DefinitionMatcher<'a> {
    /// The matcher that ignores whether symbols are defined.
    offered: VersionMatcher<'a>,
}

impl<'a> Matcher for DefinitionMatcher<'a> {
    ghost symbols = { λ t. t.offered.symbols.now.table.count };

    ghost cost = { λ t. 26 + pad64 (length t.offered.wanted.now.name.now + 1) };

    ghost is_at = { λ t file. IsSymbolWithVersym file t.offered.symbols.now };

    ghost lies = { λ t size.
        DynamicSymbolsInBounds size t.offered.symbols.now
        × (length t.offered.wanted.now.name.now ≤ 4096) };

    ghost is_of = { λ t file says.
        SaysDefines file t.offered.symbols.now (query_of t.offered.wanted.now)
        (has_number t.offered.numbers.now) says };

    fn tried<S: Source>(
        &self,
        src: &mut Counted<S>,
        index: u64,
    ) -> Result<Option<SymbolMatch>, Fault> {
        Ok(if_defined(self.offered.tried(src, index)?))
    }
}

/// Returns the result of a matcher, unless its symbol is undefined.
fn if_defined(answer: Option<SymbolMatch>) -> Option<SymbolMatch>
    ensures { result ≡ the_defined answer }
{
    match answer {
        Some(answer) if answer.symbol.st_shndx != SHN_UNDEF => Some(answer),
        _ => None,
    }
}

/// Looks up the symbol that defines what is wanted, in the lookup tables, as glibc's dynamic loader
/// does: the first of the name's chain that has the name, is exported, is not undefined and whose
/// version matches. Returns its index. The version's indices are kept, or those that are kept are
/// taken, and then no record of versions is read.
///
/// # Errors
/// Those of [`elf_loader::look_up`] after finding the lookup tables, except those of reading the
/// name of the symbol's version, which is not read.
pub(crate) fn find_definer<S: Source>(
    src: &mut Counted<S>,
    scope: &LookupTables,
    ready: &Option<HashTable>,
    wanted: &SymbolQuery<'_>,
    kept: &mut KeptIndices,
) -> Result<Option<u64>, Fault>
    requires may { MayLookOn src.old scope.now (query_of wanted.now) }
    requires place { IfSome ready.now (λ table. place_of_table table ≡ scope.now.hash) }
    ensures finds { FindsDefiner scope.now ready.now (query_of wanted.now) kept.old.places
        src.old src.new result }
    ensures kept { KeepsIndices src.old.seen scope.now kept.old.places kept.new.places }
{
    match ready {
        Some(table) if !has_nul(&wanted.asked) => {
            definition_unless(src, scope, table, wanted, kept)
        }
        _ => definition_counted(src, scope, wanted, kept),
    }
}

/// Reads the counts of the hash table, and searches it.
///
/// # Errors
/// Those of [`counts`], and of [`definition_in_table`].
fn definition_counted<S: Source>(
    src: &mut Counted<S>,
    scope: &LookupTables,
    wanted: &SymbolQuery<'_>,
    kept: &mut KeptIndices,
) -> Result<Option<u64>, Fault>
    requires { MayLookOn src.old scope.now (query_of wanted.now) }
    ensures did { DefinesOn src.old src.new scope.now (query_of wanted.now) result 28
        (lookup_bytes 28 src.old.seen.size (query_of wanted.now)) (λ file told leaves.
        AreIndicesOf file told kept.old.places →
        leaves 0 (definition_in file told (query_of wanted.now))) }
    ensures kept { KeepsIndices src.old.seen scope.now kept.old.places kept.new.places }
{
    let table = counts(src, &scope.hash)?;
    definition_in_table(src, scope, &table, wanted, kept)
}

/// Searches a hash table whose counts, and whose file's records of versions, have no fault, unless
/// the table excludes the name.
///
/// # Errors
/// Those of [`definition_in_table`].
fn definition_unless<S: Source>(
    src: &mut Counted<S>,
    scope: &LookupTables,
    table: &HashTable,
    wanted: &SymbolQuery<'_>,
    kept: &mut KeptIndices,
) -> Result<Option<u64>, Fault>
    requires may { MayLookOn src.old scope.now (query_of wanted.now) }
    requires place { place_of_table table.now ≡ scope.now.hash }
    requires plain { HasNoNul (query_of wanted.now).asked }
    ensures did { DefinesOn src.old src.new scope.now (query_of wanted.now) result 28
        (lookup_bytes 28 src.old.seen.size (query_of wanted.now)) (λ file told leaves.
        IsReadyTable file told table.now → AreIndicesOf file told kept.old.places →
        leaves 0 (definition_in file told (query_of wanted.now))) }
    ensures kept { KeepsIndices src.old.seen scope.now kept.old.places kept.new.places }
{
    if excludes(src, table, wanted.name)? {
        return Ok(None);
    }
    definition_in_table(src, scope, table, wanted, kept)
}

/// Searches a hash table with its counts: finds the indices of the wanted version, if they are not
/// kept, and walks the chain.
///
/// # Errors
/// Those of [`version_indices`], and of [`definition_along`].
fn definition_in_table<S: Source>(
    src: &mut Counted<S>,
    scope: &LookupTables,
    table: &HashTable,
    wanted: &SymbolQuery<'_>,
    kept: &mut KeptIndices,
) -> Result<Option<u64>, Fault>
    requires may { MayLookOn src.old scope.now (query_of wanted.now) }
    requires place { place_of_table table.now ≡ scope.now.hash }
    ensures did { DefinesOn src.old src.new scope.now (query_of wanted.now) result 12
        (lookup_bytes 12 src.old.seen.size (query_of wanted.now)) (λ file told leaves.
        IsTable file told table.now → AreIndicesOf file told kept.old.places → leaves 0
        (definer_with file told (query_of wanted.now)
        (version_indices file told (query_of wanted.now).asked))) }
    ensures kept { KeepsIndices src.old.seen scope.now kept.old.places kept.new.places }
{
    let place = kept.use_place(&wanted.asked);
    if let Some(numbers) = kept.get(place, &wanted.asked) {
        return definition_along(src, scope, table, wanted, numbers);
    }
    let numbers = version_indices(src, &scope.symbols, &wanted.asked)?;
    let found = definition_along(src, scope, table, wanted, &numbers);
    kept.keep(place, &wanted.asked, numbers);
    found
}

/// Walks the chain of the wanted name to the symbol that defines it.
///
/// # Errors
/// Those of [`walk`].
fn definition_along<S: Source>(
    src: &mut Counted<S>,
    scope: &LookupTables,
    table: &HashTable,
    wanted: &SymbolQuery<'_>,
    numbers: &VersionIndexSet,
) -> Result<Option<u64>, Fault>
    requires may { MayLookOn src.old scope.now (query_of wanted.now) }
    requires place { place_of_table table.now ≡ scope.now.hash }
    ensures { DefinesOn src.old src.new scope.now (query_of wanted.now) result 12
        (walk_bytes 12 (scope.now.hash.size / 4) (scope.now.hash.size / 4)
        (match_bytes (query_of wanted.now))) (λ file told leaves. (before : ℕ) →
        IsTable file told table.now → leaves (before * record_cost (query_of wanted.now).asked)
        (definer_by before (definer_walk file told (query_of wanted.now)
        (has_number numbers.now)))) }
{
    let trial = DefinitionMatcher {
        offered: VersionMatcher {
            symbols: &scope.symbols,
            wanted,
            numbers,
        },
    };
    let walked = walk(src, table, wanted.name, &trial)?;
    Ok(index_found(&walked))
}

/// Returns the index of the symbol that a walk finds.
fn index_found(walked: &ChainResult) -> Option<u64>
    ensures { result ≡ index_of walked.now.found }
{
    match walked.found {
        Some(found) => Some(found.index),
        None => None,
    }
}
