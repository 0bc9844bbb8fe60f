//! The symbols of a file that a loader knows.
ghost use Rattle.std.specs.Prelude.{◌≡◌, ℕ, ◌+◌, ◌<◌, ◌^◌, IfOk, Some};
ghost use Rattle.elf_model.specs.Prelude.{dynamic_segment_index};
ghost use Rattle.elf_table.specs.Prelude.{CallDid, HoldsProgramHeaders, fault_of_result};
ghost use Rattle.elf_loader.specs.Known.{FindsKnown, KnownLie, passed_over};

use elf_hash::{DynamicSymbols, HashTable, counts, find_in_segments};
use elf_record::numbers::PT_DYNAMIC;
use elf_record::{Cause, Refusal};
use elf_source::{Counted, Source};
use elf_table::{ExecutionView, Fault};

/// The symbols that a loader knows, with the hash table by which it looks them up. It holds no
/// bytes.
#[derive(Clone, Copy)]
pub(crate) struct CountedSymbols {
    /// The symbols.
    pub(crate) symbols: DynamicSymbols,
    /// The hash table, with its counts.
    pub(crate) table: HashTable,
}

/// Returns the symbols that a loader knows; none in a file without dynamic entries, or without a
/// hash table.
///
/// # Errors
/// For a file with dynamic entries those of [`find_in_segments`] except `NoHash`, and those of
/// [`counts`].
pub(crate) fn known_symbols<S: Source>(
    src: &mut Counted<S>,
    view: &ExecutionView<'_>,
) -> Result<Option<CountedSymbols>, Fault>
    requires size { view.now.loaded.size ≡ src.old.seen.size }
    requires small { view.now.loaded.size < 2 ^ 63 }
    ensures did { CallDid src.old src.new (fault_of_result result) (src.old.seen.size + 16)
        (λ file. HoldsProgramHeaders file view.now.loaded view.now.store.now →
        FindsKnown file src.old src.new result) }
    ensures within { IfOk result (KnownLie src.old.seen.size) }
{
    match view.first_segment(PT_DYNAMIC) {
        Some(_) => listed_symbols(src, view),
        None => Ok(None),
    }
}

/// Does the same for a file with dynamic entries.
fn listed_symbols<S: Source>(
    src: &mut Counted<S>,
    view: &ExecutionView<'_>,
) -> Result<Option<CountedSymbols>, Fault>
    requires size { view.now.loaded.size ≡ src.old.seen.size }
    requires small { view.now.loaded.size < 2 ^ 63 }
    ensures did { CallDid src.old src.new (fault_of_result result) (src.old.seen.size + 16)
        (λ file. HoldsProgramHeaders file view.now.loaded view.now.store.now →
        (index : ℕ) → dynamic_segment_index file ≡ Some index →
        FindsKnown file src.old src.new result) }
    ensures within { IfOk result (KnownLie src.old.seen.size) }
{
    let scope = match find_in_segments(src, view) {
        Ok(scope) => scope,
        Err(fault) => return without_hash(fault),
    };
    let table = counts(src, &scope.hash)?;
    Ok(Some(CountedSymbols {
        symbols: scope.symbols,
        table,
    }))
}

/// Returns no symbols if there is no hash table, otherwise the fault.
fn without_hash(fault: Fault) -> Result<Option<CountedSymbols>, Fault>
    ensures { result ≡ passed_over fault }
{
    match fault {
        Fault::Refused(
            Refusal {
                at: _,
                cause: Cause::NoHash,
            },
        ) => Ok(None),
        _ => Err(fault),
    }
}
