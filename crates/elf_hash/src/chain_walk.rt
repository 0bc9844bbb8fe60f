//! The counts of a hash table of either style, and the walk in it.
ghost use Rattle.std.specs.Prelude.{◌≡◌, ℕ, ◌+◌, ◌/◌, ◌≤◌, Bool, List, Result, IfOk};
ghost use Rattle.elf_table.specs.Ledger.{CallDid, fault_of_result};
ghost use Rattle.elf_hash.specs.SearchedTables.{HasCounts, IsPlaceIn, IsTable, HashTableInBounds, ReturnsExcluded, counts_bytes, place_of_table, walked_in};
ghost use Rattle.elf_hash.specs.Walks.{WalksChain, walk_bytes};
ghost use Rattle.elf_model.specs.Prelude.{LookupTables};
ghost use Rattle.elf_model.specs.declared.causes.Refusal.{Refusal};

use crate::chain_result::ChainResult;
use crate::gnu_walk::{gnu_walk, start};
use crate::hash_functions::{gnu_hash, sysv_hash};
use crate::hash_style::HashStyle;
use crate::matcher::Matcher;
use crate::place::HashTableLocation;
use crate::sysv_walk::sysv_walk;
use crate::table::HashTable;
use crate::table_counts::{gnu_counts, sysv_counts};
use elf_source::{Counted, Source};
use elf_table::Fault;

/// Reads the counts of the hash table at a location: four words of a GNU hash table, two of a SysV
/// one (gABI 5, Hash Table). The table ends at or below the source's length.
///
/// # Errors
/// Returns `HashShape` at the header or entry that locates the table if there is no bucket, or if
/// the words before the chains, or in a SysV hash table all words that the counts require, do not
/// fit into its size; in a GNU hash table also if the number of its filter's words is no power of
/// two, or if its shift leaves no bits of a hash. Otherwise returns a fault of a read.
pub fn counts<S: Source>(
    src: &mut Counted<S>,
    place: &HashTableLocation,
) -> Result<HashTable, Fault>
    requires { place.now.at + place.now.size ≤ src.old.seen.size }
    ensures did { CallDid src.old src.new (fault_of_result result) (counts_bytes place.now.kind)
        (λ file. (scope : LookupTables) → IsPlaceIn scope place.now → HasCounts file scope result) }
    ensures same { IfOk result (λ table. place_of_table table ≡ place.now) }
{
    match place.kind {
        HashStyle::Gnu => Ok(HashTable::Gnu(gnu_counts(src, place)?)),
        HashStyle::Sysv => Ok(HashTable::Sysv(sysv_counts(src, place)?)),
    }
}

/// Walks along the chain of a name's hash, up to the first symbol that matches or to the chain's
/// end: in a SysV hash table (gABI 5, Hash Table) from word to word, in a GNU one from symbol to
/// symbol, unless its filter or an empty bucket excludes the name. The table ends at or below the
/// source's length, and the matcher covers all of its symbols.
///
/// If the source's file is known the result is that of the file, and so is the refusal. No more is
/// read than a filter's word, a bucket's word, each chain word that is read and what the tries
/// read, also if the source fails.
///
/// # Errors
/// Returns `HashIndex` at the word that leads to an index that no symbol and no chain word has. In
/// a SysV hash table returns `HashCycle` at the bucket's word if as many steps as there are chains
/// found no match. Returns the matcher's own refusal if a symbol cannot be tried. Otherwise returns
/// a fault of a read.
pub fn walk<S: Source, T: Matcher>(
    src: &mut Counted<S>,
    table: &HashTable,
    name: &[u8],
    trial: &T,
) -> Result<ChainResult, Fault>
    requires within { HashTableInBounds src.old.seen.size table.now }
    requires known { (place_of_table table.now).symbols ≤ T.symbols trial.now }
    requires lies { T.lies trial.now src.old.seen.size }
    ensures { CallDid src.old src.new (fault_of_result result) (walk_bytes 12
        ((place_of_table table.now).size / 4) ((place_of_table table.now).size / 4)
        (T.cost trial.now))
        (λ file. (scope : LookupTables) (says : ℕ → Result Bool Refusal) →
        IsTable file scope table.now →
        T.is_of trial.now file says → WalksChain (T.is_at trial.now file) 12 (T.cost trial.now)
        (walked_in file scope name.now says) src.old src.new result) }
{
    match table {
        HashTable::Gnu(table) => gnu_walk(src, table, gnu_hash(name), trial),
        HashTable::Sysv(table) => sysv_walk(src, table, sysv_hash(name), trial),
    }
}

/// Returns `true` if a table excludes a name without reading any chain: a GNU hash table by its
/// filter or an empty bucket. Then no symbol is tried for the name, with any matcher. The table
/// ends at or below the source's length. No more is read than a filter's word and a bucket's word.
///
/// # Errors
/// Returns a fault of a read.
pub fn excludes<S: Source>(
    src: &mut Counted<S>,
    table: &HashTable,
    name: &[u8],
) -> Result<bool, Fault>
    requires { HashTableInBounds src.old.seen.size table.now }
    ensures { CallDid src.old src.new (fault_of_result result) 12
        (λ file. (scope : LookupTables) → IsTable file scope table.now →
        ReturnsExcluded file scope name.now result) }
{
    match table {
        HashTable::Gnu(table) => match start(src, table, gnu_hash(name))? {
            None => Ok(true),
            Some(_) => Ok(false),
        },
        HashTable::Sysv(_) => Ok(false),
    }
}
