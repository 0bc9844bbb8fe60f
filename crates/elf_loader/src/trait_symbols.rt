//! The hardening traits of the symbols of a file.
ghost use Rattle.std.specs.Prelude.{◌≡◌, ℕ, ◌+◌, ◌-◌, ◌*◌, ◌<◌, ◌≤◌, List, length, true, IfErr};
ghost use Rattle.elf_table.specs.Prelude.{CallDid, IsReadFault, StringsInBounds, TableInBounds, fault_of_result, strings_in};
ghost use Rattle.elf_model.specs.Prelude.{DynamicSymbols as AreSymbolsOf, marks_from, no_symbol_traits, slice};
ghost use Rattle.elf_note.specs.Ahead.{IsAheadOf, ReadsOnCredit, WhereAgrees};
ghost use Rattle.elf_record.specs.Sym.{IsSym};
ghost use Rattle.elf_hash.specs.Symbols.{IsDynamicSymbols, DynamicSymbolsInBounds};
ghost use Rattle.elf_loader.specs.Marks.{ReturnsMarks, marks_in, symbol_traits_of, marks_with};

use crate::symbol_names::NAME_CAP;
use crate::symbol_traits::{SymbolTraits, adds_none, marked_by, no_symbol_traits};
use elf_hash::DynamicSymbols;
use elf_note::{NameIndex, ReadAhead};
use elf_record::Sym;
use elf_record::numbers::SHN_UNDEF;
use elf_record::sizes::SYMBOL_BYTES;
use elf_source::{Counted, Source};
use elf_table::{Cursor, Fault, NameBuf, NameEnd, Names, Row, Table};

/// Returns the traits of `count` symbols, all except the first, which is not a symbol (gABI 4,
/// Symbol Table). There are at least that many. Each reads at most 88 bytes, with its name.
///
/// # Errors
/// Those of [`ReadAhead::name`], at the symbol. Otherwise a fault of a read.
pub(crate) fn find_symbol_traits<S: Source>(
    src: &mut Counted<S>,
    symbols: &DynamicSymbols,
    count: u64,
) -> Result<SymbolTraits, Fault>
    requires few { count ≤ symbols.now.table.count }
    requires lie { DynamicSymbolsInBounds src.old.seen.size symbols.now }
    ensures { CallDid src.old src.new (fault_of_result result) ((count - 1) * 88)
        (λ file. (told : AreSymbolsOf) → IsDynamicSymbols file told symbols.now →
        ReturnsMarks (marks_from file told no_symbol_traits 1 (count - 1)) result) }
{
    if count < 2 {
        return Ok(no_symbol_traits());
    }
    let rows = rows_after_first(&symbols.table, count);
    symbol_traits_of_rows(src, rows, symbols.names, no_symbol_traits())
}

/// Returns `count` rows of a table of symbols except the first of them; there are at least two.
fn rows_after_first(table: &Table, count: u64) -> Table
    requires entry { table.now.entry ≡ 24 }
    requires some { 2 ≤ count }
    requires few { count ≤ table.now.count }
    ensures { result ≡ record { at = table.now.at + 24; count = count - 1; entry = 24 } }
{
    let _ = table.entry();
    Table::new(table.place(1), count - 1, SYMBOL_BYTES)
}

/// Returns the traits of the symbols of a table, with those before.
///
/// # Errors
/// Those of [`ReadAhead::name`], at the symbol. Otherwise a fault of a read.
fn symbol_traits_of_rows<S: Source>(
    src: &mut Counted<S>,
    rows: Table,
    names: Names,
    before: SymbolTraits,
) -> Result<SymbolTraits, Fault>
    requires entry { rows.entry ≡ 24 }
    requires within { TableInBounds src.old.seen.size rows }
    requires names { StringsInBounds src.old.seen.size names }
    ensures { CallDid src.old src.new (fault_of_result result) (rows.count * 88)
        (λ file. ReturnsMarks
        (marks_in file rows.at (strings_in file names) (symbol_traits_of before)
        rows.count) result) }
{
    let mut ahead = ReadAhead::new();
    let mut name = NameBuf::new();
    let mut marks = before;
    let mut cursor = Cursor::new(rows);
    'symbols: while cursor.advance(src)? {
        marks = with_symbol(src, &mut ahead, &mut name, &cursor.row(), names, marks)?;
    }
    Ok(marks)
}

/// Returns the traits with those of the symbol in a row of 24 bytes. A name that adds none is not
/// read, unless it may have a fault.
///
/// # Errors
/// Those of [`ReadAhead::name`].
fn with_symbol<S: Source>(
    src: &mut Counted<S>,
    ahead: &mut ReadAhead,
    name: &mut NameBuf,
    row: &Row<'_>,
    names: Names,
    marks: SymbolTraits,
) -> Result<SymbolTraits, Fault>
    requires bytes { length row.now.bytes.now ≡ 24 }
    requires names { StringsInBounds src.old.seen.size names }
    ensures spends { ReadsOnCredit src.old src.new ahead.old.credit ahead.new.credit 64 }
    ensures says { IfErr result (IsReadFault src.old src.new (ahead.old.credit + 64)) }
    ensures agrees { WhereAgrees src.old.seen.file ahead.old (λ file. IsAheadOf file ahead.new) }
    ensures tells { WhereAgrees src.old.seen.file ahead.old (λ file.
        row.now.bytes.now ≡ slice file row.now.at 24 →
        ReturnsMarks (marks_with file row.now.at (strings_in file names) (symbol_traits_of marks))
        result) }
{
    let symbol = symbol_in(row);
    let off = u64::from(symbol.st_name);
    let undefined = symbol.st_shndx == SHN_UNDEF;
    if adds_none(marks, undefined) && has_no_fault(names, off) {
        return Ok(marks);
    }
    let at = row.at;
    match ahead.name(src, NameIndex { names, off, at }, NAME_CAP, name)? {
        NameEnd::Whole => Ok(marked_by(marks, name.bytes(), undefined)),
        NameEnd::Cut => Ok(marks),
    }
}

/// Returns `true` if the name at an index has no fault, wherever it ends: more bytes follow the
/// index than are read of a name.
fn has_no_fault(names: Names, off: u64) -> bool
    ensures { result ≡ true → off + 63 < names.size }
{
    names.size().saturating_sub(off) > u64::from(NAME_CAP.bytes)
}

/// Decodes the symbol in a row of 24 bytes.
fn symbol_in(row: &Row<'_>) -> Sym
    requires { length row.now.bytes.now ≡ 24 }
    ensures { (file : List ℕ) (at : ℕ) → row.now.bytes.now ≡ slice file at 24 →
        IsSym file at result }
{
    Sym::decode(row.bytes.first_chunk().unwrap())
}
