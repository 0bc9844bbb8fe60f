//! The walk along a chain of a GNU hash table.
ghost use Rattle.std.specs.Prelude.{◌≡◌, ℕ, ◌+◌, ◌-◌, ◌*◌, ◌/◌, ◌%◌, ◌^◌, ◌<◌, ◌≤◌, ◌&&◌, Bool, List, Result};
ghost use Rattle.elf_table.specs.Ledger.{CallDid, fault_of_result};
ghost use Rattle.elf_hash.specs.Counts.{IsGnu};
ghost use Rattle.elf_hash.specs.Trials.{TriesDefinedSymbol};
ghost use Rattle.elf_hash.specs.Walks.{HoldsHash, Starts, WalksChain, walk_bytes};
ghost use Rattle.elf_model.specs.Prelude.{HashTable as Place, cost_where, gnu_looked_up, hash_bits_match, is_chain_end, is_set};
ghost use Rattle.elf_model.specs.declared.causes.Refusal.{Refusal};

use crate::answer::SymbolMatch;
use crate::chain_result::{ChainMatch, ChainResult};
use crate::gnu_table::GnuHashTable;
use crate::matcher::Matcher;
use crate::word_reads::{read_filter, read_word};
use elf_record::Cause;
use elf_source::{Counted, Source};
use elf_table::{Fault, refused};

/// Searches the symbols of a hash for one that matches: not at all if the filter or an empty bucket
/// excludes the hash, otherwise along their chain.
///
/// # Errors
/// Returns `HashIndex` at the word that leads to a symbol index which is below the first, not below
/// the number of symbols, or has no chain word in the table. Returns the matcher's own refusal if a
/// symbol cannot be tried. Otherwise returns a fault of a read.
pub(crate) fn gnu_walk<S: Source, T: Matcher>(
    src: &mut Counted<S>,
    table: &GnuHashTable,
    hash: u32,
    trial: &T,
) -> Result<ChainResult, Fault>
    requires within { table.now.place.at + table.now.place.size ≤ src.old.seen.size }
    requires known { table.now.place.symbols ≤ T.symbols trial.now }
    requires lies { T.lies trial.now src.old.seen.size }
    ensures did { CallDid src.old src.new (fault_of_result result)
        (walk_bytes 12 (table.now.place.size / 4) (table.now.place.size / 4) (T.cost trial.now))
        (λ file. (at : Place) (says : ℕ → Result Bool Refusal) → IsGnu file at table.now →
        T.is_of trial.now file says → WalksChain (T.is_at trial.now file) 12 (T.cost trial.now)
        (gnu_looked_up file at hash says) src.old src.new result) }
{
    match start(src, table, hash)? {
        None => Ok(ChainResult {
            found: None,
            tried: 0,
            read: 0,
        }),
        Some(start) => along_chain(src, table, hash, start, trial),
    }
}

/// Returns the index of the first symbol of a hash's chain, unless the filter or an empty bucket
/// excludes the hash.
///
/// # Errors
/// Returns a fault of a read.
pub(crate) fn start<S: Source>(
    src: &mut Counted<S>,
    table: &GnuHashTable,
    hash: u32,
) -> Result<Option<u32>, Fault>
    requires within { table.now.place.at + table.now.place.size ≤ src.old.seen.size }
    ensures did { CallDid src.old src.new (fault_of_result result) 12
        (λ file. (at : Place) → IsGnu file at table.now → Starts file at.place hash result) }
{
    let word = read_filter(src, table.filter_at(hash))?;
    if !filter_may_contain(table, word, hash) {
        return Ok(None);
    }
    let start = read_word(src, table.bucket_at(hash))?;
    Ok(if start == 0 { None } else { Some(start) })
}

/// Returns `true` if the filter's word for a hash has both bits of the hash.
fn filter_may_contain(table: &GnuHashTable, word: u64, hash: u32) -> bool
    ensures { result ≡ (is_set word (hash % 64) && is_set word (hash / 2 ^ table.now.shift % 64)) }
{
    is_set(word, hash % 64) && is_set(word, (hash >> table.shift) % 64)
}

/// Returns `true` if a bit of a word is set.
fn is_set(word: u64, bit: u32) -> bool
    requires { bit < 64 }
    ensures { result ≡ is_set word bit }
{
    (word >> bit) % 2 == 1
}

/// Walks along the chain of a hash from its first symbol.
///
/// # Errors
/// Those of [`gnu_walk`].
fn along_chain<S: Source, T: Matcher>(
    src: &mut Counted<S>,
    table: &GnuHashTable,
    hash: u32,
    start: u32,
    trial: &T,
) -> Result<ChainResult, Fault>
    requires within { table.now.place.at + table.now.place.size ≤ src.old.seen.size }
    requires known { table.now.place.symbols ≤ T.symbols trial.now }
    requires lies { T.lies trial.now src.old.seen.size }
    ensures did { CallDid src.old src.new (fault_of_result result)
        (walk_bytes 0 (table.now.place.size / 4) (table.now.place.size / 4) (T.cost trial.now))
        (λ file. (at : Place) (says : ℕ → Result Bool Refusal) → IsGnu file at table.now →
        T.is_of trial.now file says → HoldsHash file at.place hash start →
        WalksChain (T.is_at trial.now file) 0 (T.cost trial.now)
        (gnu_looked_up file at hash says) src.old src.new result) }
{
    let mut at = table.bucket_at(hash);
    let mut index = u64::from(start);
    let mut tried = 0;
    let mut read = 0;
    while table.has(index) {
        at = table.chain_at(index);
        let word = read_word(src, at)?;
        let is_wanted = hash_bits_match(word, hash);
        read += 1;
        tried += one_where(is_wanted);
        if let Some(answer) = tried_where(src, trial, index, is_wanted)? {
            let found = Some(ChainMatch { index, answer });
            return Ok(ChainResult { found, tried, read });
        }
        if is_chain_end(word) {
            let found = None;
            return Ok(ChainResult { found, tried, read });
        }
        index += 1;
    }
    refused(at, Cause::HashIndex)
}

/// Returns `true` if a chain word is of a hash: it has the hash's bits except the lowest.
fn hash_bits_match(word: u32, hash: u32) -> bool
    ensures { result ≡ hash_bits_match word hash }
{
    word / 2 == hash / 2
}

/// Returns `true` if a chain word says that its symbol is the last of the chain.
pub(crate) fn is_chain_end(word: u32) -> bool
    ensures { result ≡ is_chain_end word }
{
    word % 2 == 1
}

/// Returns 1 if the argument is `true`, otherwise 0.
fn one_where(is_so: bool) -> u64
    ensures { result ≡ cost_where is_so 1 }
{
    if is_so { 1 } else { 0 }
}

/// Tries the symbol of an index, if it is to be tried, and returns it if it matches.
///
/// # Errors
/// Those of [`Matcher::tried`].
fn tried_where<S: Source, T: Matcher>(
    src: &mut Counted<S>,
    trial: &T,
    index: u64,
    is_wanted: bool,
) -> Result<Option<SymbolMatch>, Fault>
    requires below { index < T.symbols trial.now }
    requires lies { T.lies trial.now src.old.seen.size }
    ensures { CallDid src.old src.new (fault_of_result result)
        (cost_where is_wanted (T.cost trial.now))
        (λ file. (says : ℕ → Result Bool Refusal) → T.is_of trial.now file says →
        TriesDefinedSymbol is_wanted (T.is_at trial.now file) says index result) }
{
    if is_wanted {
        trial.tried(src, index)
    } else {
        Ok(None)
    }
}
