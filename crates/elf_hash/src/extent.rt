//! The number of symbols that a hash table covers.
ghost use Rattle.std.specs.Prelude.{◌≡◌, ℕ, ◌+◌, ◌-◌, ◌*◌, ◌<◌, ◌≤◌, List, length, IfOk};
ghost use Rattle.elf_table.specs.Ledger.{CallDid, IsRead, fault_of_result};
ghost use Rattle.elf_hash.specs.Counts.{IsGnu, IsTablePlace};
ghost use Rattle.elf_hash.specs.Extents.{SymbolsBegin, EndsChain, ReturnsExtent, last_in};
ghost use Rattle.elf_hash.specs.SearchedTables.{IsTable, HashTableInBounds, place_of_table};
ghost use Rattle.elf_model.specs.Prelude.{HashTable as Place, LookupTables, before_strings, field, gnu_symbols, max_bucket, slice, unfound};

use crate::gnu_table::GnuHashTable;
use crate::gnu_walk::is_chain_end;
use crate::place::HashTableLocation;
use crate::table::HashTable;
use crate::word_reads::read_word;
use elf_record::sizes::SYMBOL_BYTES;
use elf_record::word;
use elf_source::{Counted, Source};
use elf_table::{Cursor, Fault, Row};

/// Returns the number of symbols by a hash table, no more than fit into the symbol table: for a
/// SysV one (gABI 5, Hash Table) the number of chains; for a GNU one those before the first that it
/// covers, and those of chains, of which the last begins at the largest bucket value; if none is
/// found in it and that first is 1, which means nothing, those that fit before their strings, if
/// the table does not lie between. `symbols` and `strings` are the file offsets at which these
/// begin. It reads the buckets' words and those of that chain, each at most once; the table ends at
/// or below the source's length.
///
/// # Errors
/// Returns a fault of a read, or the refusal `Budget`, at the offset of the read.
pub fn symbol_extent<S: Source>(
    src: &mut Counted<S>,
    table: &HashTable,
    symbols: u64,
    strings: u64,
) -> Result<u64, Fault>
    requires within { HashTableInBounds src.old.seen.size table.now }
    ensures did { CallDid src.old src.new (fault_of_result result) (place_of_table table.now).size
        (λ file. (scope : LookupTables) → IsTable file scope table.now →
        SymbolsBegin scope symbols strings → ReturnsExtent file scope src.old src.new result) }
    ensures few { IfOk result (λ count. count ≤ (place_of_table table.now).symbols) }
{
    match table {
        HashTable::Gnu(table) => {
            let before = before_strings(&table.place, symbols, strings);
            gnu_extent(src, table, before)
        }
        HashTable::Sysv(table) => Ok(u64::from(table.nchain).min(table.place.symbols)),
    }
}

/// Returns the number of symbols that fit before their strings; none if the hash table lies
/// between, or not that many fit.
#[tactic(auto, unfolding(elf_model::specs::Traits::before_strings))]
fn before_strings(table: &HashTableLocation, symbols: u64, strings: u64) -> u64
    ensures value { (at : Place) → IsTablePlace at table.now →
        result ≡ before_strings at symbols strings }
    ensures few { result ≤ table.now.symbols }
{
    let rows = strings.saturating_sub(symbols) / SYMBOL_BYTES;
    let between = symbols < table.at && table.at < strings;
    if between || rows > table.symbols {
        return 0;
    }
    rows
}

/// Returns the number of symbols if none is found, with `before` of them before their strings and
/// room for `room`: those before the first that the table covers, unless that is 1, which the usual
/// linker writes in any case.
#[tactic(auto, unfolding(elf_model::specs::Traits::unfound))]
fn unfound(first: u32, before: u64, room: u64) -> u64
    requires { before ≤ room }
    ensures value { result ≡ unfound first before room }
    ensures few { result ≤ room }
{
    let least = u64::from(first).min(room);
    if first == 1 {
        return before.max(least);
    }
    least
}

/// Does the same for a GNU hash table, with `before` symbols before their strings.
///
/// # Errors
/// Returns a fault of a read.
fn gnu_extent<S: Source>(
    src: &mut Counted<S>,
    table: &GnuHashTable,
    before: u64,
) -> Result<u64, Fault>
    requires within { table.now.place.at + table.now.place.size ≤ src.old.seen.size }
    requires few { before ≤ table.now.place.symbols }
    ensures did { CallDid src.old src.new (fault_of_result result) table.now.place.size
        (λ file. (at : Place) → IsGnu file at table.now →
        EndsChain (4 * table.now.nbucket) (gnu_symbols file at before) src.old src.new result) }
    ensures few { IfOk result (λ count. count ≤ table.now.place.symbols) }
{
    let start = max_bucket(src, table)?;
    if start < table.first {
        return Ok(unfound(table.first, before, table.place.symbols));
    }
    chain_end(src, table, u64::from(start))
}

/// Returns the largest bucket value.
///
/// # Errors
/// Returns a fault of a read.
fn max_bucket<S: Source>(src: &mut Counted<S>, table: &GnuHashTable) -> Result<u32, Fault>
    requires within { table.now.place.at + table.now.place.size ≤ src.old.seen.size }
    ensures did { CallDid src.old src.new (fault_of_result result) (4 * table.now.nbucket)
        (λ file. (at : Place) → IsGnu file at table.now →
        IsRead result (max_bucket file at.place table.now.nbucket)) }
{
    let mut cursor = Cursor::new(table.buckets());
    let mut highest = 0;
    'words: while cursor.advance(src)? {
        let word = word_in(&cursor.row());
        highest = highest.max(word);
    }
    Ok(highest)
}

/// Decodes the word in a row of four bytes.
fn word_in(row: &Row<'_>) -> u32
    requires { length row.now.bytes.now ≡ 4 }
    ensures { (file : List ℕ) (at : ℕ) → row.now.bytes.now ≡ slice file at 4 →
        result ≡ field file at 4 }
{
    word(row.bytes.first_chunk().unwrap())
}

/// Returns the number of symbols up to the end of the chain that begins at a symbol index: one more
/// than the index of its last, or of the first on the way that has no chain word; no more than
/// there are.
///
/// # Errors
/// Returns a fault of a read.
fn chain_end<S: Source>(
    src: &mut Counted<S>,
    table: &GnuHashTable,
    start: u64,
) -> Result<u64, Fault>
    requires within { table.now.place.at + table.now.place.size ≤ src.old.seen.size }
    requires first { table.now.first ≤ start }
    ensures did { CallDid src.old src.new (fault_of_result result)
        (table.now.place.size - 4 * table.now.nbucket)
        (λ file. (at : Place) → IsGnu file at table.now →
        EndsChain 0 (last_in file at start) src.old src.new result) }
    ensures few { IfOk result (λ count. count ≤ table.now.place.symbols) }
{
    let mut index = start;
    'chain: while index < table.place.symbols {
        if !table.has(index) {
            return Ok(next_below(index, table.place.symbols));
        }
        let word = read_word(src, table.chain_at(index))?;
        index += 1;
        if is_chain_end(word) {
            return Ok(index);
        }
    }
    Ok(table.place.symbols)
}

/// Returns the number after one that is below another.
fn next_below(index: u64, count: u64) -> u64
    requires { index < count }
    ensures { result ≡ index + 1 }
{
    index + 1
}
