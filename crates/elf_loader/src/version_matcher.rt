//! Which symbols match.
ghost use Rattle.std.specs.Prelude.{◌≡◌, ◌+◌, ◌<◌, ◌≤◌, length};
ghost use Rattle.elf_table.specs.Ledger.{CallDid, fault_of_result};
ghost use Rattle.elf_loader.specs.Answering.{SaysOf, IsSymbolWithVersym, ReturnsAnswer};
ghost use Rattle.elf_loader.specs.NumberSets.{has_number};
ghost use Rattle.elf_options.specs.Wants.{query_of};
ghost use Rattle.elf_model.specs.Prelude.{DynamicSymbols as AreSymbolsOf, answers, pad64};
ghost use Rattle.elf_hash.specs.Symbols.{IsDynamicSymbols, DynamicSymbolsInBounds};

use crate::exported::is_exported;
use crate::version_index_set::VersionIndexSet;
use crate::version_match::version_fits;
use elf_hash::{DynamicSymbols, Matcher, SymbolMatch};
use elf_options::SymbolQuery;
use elf_source::{Counted, Source};
use elf_table::Fault;

/// A matcher of symbols for a query, with the indices of the wanted version.
#[derive(Clone, Copy)]
pub struct VersionMatcher<'a> {
    /// The symbols.
    pub symbols: &'a DynamicSymbols,
    /// The query.
    pub wanted: &'a SymbolQuery<'a>,
    /// The indices of the wanted version.
    pub numbers: &'a VersionIndexSet,
}

impl<'a> Matcher for VersionMatcher<'a> {
    ghost symbols = { λ t. t.symbols.now.table.count };

    ghost cost = { λ t. 26 + pad64 (length t.wanted.now.name.now + 1) };

    ghost is_at = { λ t file. IsSymbolWithVersym file t.symbols.now };

    ghost lies = { λ t size.
        DynamicSymbolsInBounds size t.symbols.now × (length t.wanted.now.name.now ≤ 4096) };

    ghost is_of = { λ t file says.
        SaysOf file t.symbols.now (query_of t.wanted.now) (has_number t.numbers.now) says };

    fn tried<S: Source>(
        &self,
        src: &mut Counted<S>,
        index: u64,
    ) -> Result<Option<SymbolMatch>, Fault> {
        answering(src, self.symbols, self.wanted, self.numbers, index)
    }
}

// Returns the symbol of an index, if it matches: it has the wanted name, it is exported, and its
// version matches, if the indices of the wanted version are known. It reads the symbol, its name
// and its versym entry.
//
// # Errors
// Returns a refusal of the symbol's name, as [`elf_table::Names::equals`] does, at the symbol;
// `VersionCut` at the header or entry that locates the version symbol table, if the symbol has no
// entry. Otherwise returns a fault of a read.
fn answering<S: Source>(
    src: &mut Counted<S>,
    symbols: &DynamicSymbols,
    wanted: &SymbolQuery<'_>,
    numbers: &VersionIndexSet,
    index: u64,
) -> Result<Option<SymbolMatch>, Fault>
    requires most { length wanted.now.name.now ≤ 4096 }
    requires below { index < symbols.now.table.count }
    requires lies { DynamicSymbolsInBounds src.old.seen.size symbols.now }
    ensures { CallDid src.old src.new (fault_of_result result)
        (26 + pad64 (length wanted.now.name.now + 1))
        (λ file. (told : AreSymbolsOf) → IsDynamicSymbols file told symbols.now →
        ReturnsAnswer file symbols.now index
        (answers file told (query_of wanted.now) (has_number numbers.now) index) result) }
{
    let symbol = symbols.table.symbol(src, index)?;
    let place = symbols.table.place(index);
    let off = u64::from(symbol.st_name);
    if !symbols.names.equals(src, off, place, wanted.name)? {
        return Ok(None);
    }
    if !is_exported(&symbol) {
        return Ok(None);
    }
    let fit = version_fits(src, &symbols.words, &wanted.asked, numbers, index)?;
    if !fit.fits {
        return Ok(None);
    }
    Ok(Some(SymbolMatch {
        symbol,
        version: fit.version,
    }))
}
