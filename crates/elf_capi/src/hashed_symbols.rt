//! The dynamic symbols of a file, as a loader sees them.
ghost use Rattle.std.specs.Prelude.{◌≡◌, ◌+◌, ◌*◌, ◌<◌, ◌≤◌, IfOk};
ghost use Rattle.elf_table.specs.Ledger.{CallDid, fault_of_result};
ghost use Rattle.elf_capi.specs.Hashed.{FindsHashed, hashed_bytes};

use crate::rows::RowPosition;
use elf_hash::{DynamicSymbols, find_lookup_tables};
use elf_record::sizes::SYMBOL_BYTES;
use elf_source::{Counted, Source};
use elf_table::{Fault, HeaderStore};

/// Returns the symbols that a file's hash table covers, among which a loader looks up names.
///
/// They are found by the section headers, or if there are none by the program headers and their
/// dynamic entries ([`find_lookup_tables`]). Their number is the number of chain entries in a SysV
/// table; in a GNU table they extend to the end of the last chain, or, if no symbol is found in it,
/// to as many as fit before their string table (gABI 5, Hash Table). The position returned is
/// before the first, with their string table. The headers are loaded into the store.
///
/// If the source's file is known, the result is the file's own, and so is the refusal.
///
/// # Errors
/// The first that fails: those of [`find_lookup_tables`], then those of
/// [`elf_hash::LookupTables::symbol_count`]. Otherwise a fault of the source, or `Budget` if a read
/// exceeds the limit, at the offset that was requested.
pub fn hashed_rows<S: Source>(
    src: &mut Counted<S>,
    store: &mut HeaderStore,
) -> Result<RowPosition, Fault>
    ensures did { CallDid src.old src.new (fault_of_result result)
        (hashed_bytes src.old.seen.size store.old.slots)
        (λ file. FindsHashed file store.old.slots src.old src.new result) }
    ensures slots { store.new.slots ≡ store.old.slots }
    ensures within { IfOk result (λ rows.
        0 < rows.count → rows.at + 24 * rows.count ≤ src.old.seen.size) }
{
    let scope = find_lookup_tables(src, store)?;
    let count = scope.symbol_count(src)?;
    Ok(rows_of(&scope.symbols, count))
}

/// Returns a position before the first of `count` symbols.
fn rows_of(symbols: &DynamicSymbols, count: u64) -> RowPosition
    ensures { result ≡ record {
      at = symbols.now.table.at;
      count = count;
      index = 0;
      entry = 24;
      strings_at = symbols.now.names.at;
      strings_len = symbols.now.names.size;
    } }
{
    RowPosition {
        at: symbols.table.at(),
        count,
        index: 0,
        entry: SYMBOL_BYTES,
        strings_at: symbols.names.at(),
        strings_len: symbols.names.size(),
    }
}
