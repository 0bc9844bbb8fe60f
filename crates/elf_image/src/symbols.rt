//! The dynamic symbol that an entry refers to.
ghost use Rattle.std.specs.Prelude.{◌≡◌, ◌+◌, ◌*◌, ℕ, List, IfSome};
ghost use Rattle.elf_model.specs.ImageItems.{is_looked_up};
ghost use Rattle.elf_model.specs.LoaderScope.{segment_symbols};
ghost use Rattle.elf_model.specs.Tables.{SYMBOL_SIZE};
ghost use Rattle.elf_record.specs.Sym.{IsSym};
ghost use Rattle.elf_table.specs.Ledger.{CallDid, fault_of_result};
ghost use Rattle.elf_image.specs.Relocated.{AreEntrySymbols, ReadsAfter, located_symbol_checks};
ghost use Rattle.elf_image.specs.Within.{IsTableWithin};

use elf_record::numbers::STB_LOCAL;
use elf_record::{Cause, Sym};
use elf_source::{Counted, Source};
use elf_table::{Fault, Table, refused};

/// The visibility of a symbol that other objects may refer to and define (gABI 4, Symbol
/// Visibility).
const STV_DEFAULT: u8 = 0;
/// The visibility of a symbol that other objects may refer to.
const STV_PROTECTED: u8 = 3;

/// Returns symbol 0, which has no fields.
pub(crate) fn no_symbol() -> Sym {
    Sym {
        st_value: 0,
        st_size: 0,
        st_name: 0,
        st_shndx: 0,
        st_info: 0,
        st_other: 0,
    }
}

/// Reads the symbol of an index, to which the entry at the file offset `at` refers.
///
/// # Errors
/// Returns `BadLink` at `at` without a symbol table, `SymbolIndex` there if it has no symbol of the
/// index. A fault of the read, or the refusal `Budget`, points to the symbol.
pub(crate) fn read_symbol<S: Source>(
    src: &mut Counted<S>,
    symbols: Option<Table>,
    index: u32,
    at: u64,
) -> Result<Sym, Fault>
    requires { IfSome symbols (IsTableWithin 24 src.old.seen.size) }
    ensures { CallDid src.old src.new (fault_of_result result) 24 (λ file. (header : ℕ) →
        AreEntrySymbols file header symbols →
        ReadsAfter (located_symbol_checks file header at index)
        (IsSym file ((segment_symbols file header).0 + SYMBOL_SIZE * index)) result) }
{
    let Some(table) = symbols else {
        return refused(at, Cause::BadLink);
    };
    let index = u64::from(index);
    if index >= table.len() {
        return refused(at, Cause::SymbolIndex);
    }
    table.symbol(src, index)
}

/// Returns `true` if a loader looks a symbol up in all objects: it is not local, and its visibility
/// is DEFAULT or PROTECTED (gABI 4, Symbol Binding).
pub(crate) fn is_looked_up(symbol: &Sym) -> bool
    ensures { (file : List ℕ) (at : ℕ) → IsSym file at symbol.now →
        result ≡ is_looked_up file at }
{
    let visibility = symbol.visibility();
    symbol.binding() != STB_LOCAL && (visibility == STV_DEFAULT || visibility == STV_PROTECTED)
}
