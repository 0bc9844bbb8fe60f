//! The walk along a chain of a SysV hash table.
ghost use Rattle.std.specs.Prelude.{◌≡◌, ℕ, ◌+◌, ◌<◌, ◌≤◌, Bool, List, Result, IfOk, IsTrue};
ghost use Rattle.elf_table.specs.Ledger.{CallDid, fault_of_result};
ghost use Rattle.elf_hash.specs.Counts.{IsSysv};
ghost use Rattle.elf_hash.specs.Walks.{IsShort, WalksChain, walk_bytes};
ghost use Rattle.elf_model.specs.Prelude.{HashTable as Place, is_sysv_index, sysv_walked};
ghost use Rattle.elf_model.specs.declared.causes.Refusal.{Refusal};

use crate::answer::SymbolMatch;
use crate::chain_result::{ChainMatch, ChainResult};
use crate::matcher::Matcher;
use crate::sysv_table::SysvHashTable;
use crate::word_reads::read_word;
use elf_record::Cause;
use elf_source::{Counted, Source};
use elf_table::{Fault, refused};

/// Walks along the chain of a hash, up to the symbol that matches or to the chain's end.
///
/// # Errors
/// Returns `HashIndex` at a word that is not below the number of chains and of symbols. Returns
/// `HashCycle` at the word of the bucket if as many steps as there are chains found no match: the
/// chain is cyclic. Returns the matcher's own refusal if a symbol cannot be tried. Otherwise
/// returns a fault of a read.
pub(crate) fn sysv_walk<S: Source, T: Matcher>(
    src: &mut Counted<S>,
    table: &SysvHashTable,
    hash: u32,
    trial: &T,
) -> Result<ChainResult, Fault>
    requires within { table.now.place.at + table.now.place.size ≤ src.old.seen.size }
    requires known { table.now.place.symbols ≤ T.symbols trial.now }
    requires lies { T.lies trial.now src.old.seen.size }
    ensures did { CallDid src.old src.new (fault_of_result result)
        (walk_bytes 4 table.now.nchain table.now.nchain (T.cost trial.now))
        (λ file. (at : Place) (says : ℕ → Result Bool Refusal) → IsSysv file at table.now →
        T.is_of trial.now file says → WalksChain (T.is_at trial.now file) 4 (T.cost trial.now)
        (sysv_walked file at hash says) src.old src.new result) }
    ensures short { IfOk result (IsShort table.now.nchain) }
{
    let bucket = table.bucket_at(hash);
    let mut at = bucket;
    let mut index = read_word(src, at)?;
    let mut tried = 0;
    while index != 0 {
        if !is_index(table, index) {
            return refused(at, Cause::HashIndex);
        }
        if tried == u64::from(table.nchain) {
            return refused(bucket, Cause::HashCycle);
        }
        tried += 1;
        if let Some(answer) = trial.tried(src, u64::from(index))? {
            return Ok(stepped(Some(found_at(index, answer)), tried));
        }
        at = table.chain_at(index);
        index = read_word(src, at)?;
    }
    Ok(stepped(None, tried))
}

/// Returns `true` if a word is an index of a chain and of a symbol.
fn is_index(table: &SysvHashTable, word: u32) -> bool
    ensures below { IsTrue result →
        (word < table.now.nchain) × (word < table.now.place.symbols) }
    ensures is { (file : List ℕ) (at : Place) → IsSysv file at table.now →
        result ≡ is_sysv_index file at word }
{
    word < table.nchain && u64::from(word) < table.place.symbols
}

/// Returns the match of the symbol of an index.
fn found_at(index: u32, answer: SymbolMatch) -> ChainMatch
    ensures { result ≡ record { index = index; answer = answer } }
{
    ChainMatch {
        index: u64::from(index),
        answer,
    }
}

/// Returns the result after `steps` steps, each of which tries a symbol and counts for a chain
/// word.
fn stepped(found: Option<ChainMatch>, steps: u64) -> ChainResult
    ensures { result ≡ record { found = found; tried = steps; read = steps } }
{
    ChainResult {
        found,
        tried: steps,
        read: steps,
    }
}
