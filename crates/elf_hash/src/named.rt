//! The match of a symbol by its name alone.
ghost use Rattle.std.specs.Prelude.{◌≤◌, length};
ghost use Rattle.elf_hash.specs.Lookups.{symbol_bytes};
ghost use Rattle.elf_hash.specs.Trials.{SaysHasName};
ghost use Rattle.elf_record.specs.Sym.{IsSym};
ghost use Rattle.elf_table.specs.Prelude.{SymbolTableInBounds, row_at};

use crate::answer::SymbolMatch;
use crate::matcher::Matcher;
use elf_source::{Counted, Source};
use elf_table::{Fault, Names, Table};

/// Matches the symbols of a table that have a name, with any version and section index: one read of
/// a symbol, and its name is compared.
#[derive(Clone, Copy)]
pub(crate) struct NameMatcher<'a> {
    /// The symbols, rows of 24 bytes.
    pub symbols: Table,
    /// The names of the symbols.
    pub names: Names,
    /// The name, at most 4,096 bytes, without a NUL.
    pub wanted: &'a [u8],
}

impl<'a> Matcher for NameMatcher<'a> {
    ghost symbols = { λ t. t.symbols.count };

    ghost cost = { λ t. symbol_bytes (length t.wanted.now) };

    ghost is_at = { λ t file index answer. IsSym file (row_at t.symbols index) answer.symbol };

    ghost lies = { λ t size.
        SymbolTableInBounds size (t.symbols, t.names) × (length t.wanted.now ≤ 4096) };

    ghost is_of = { λ t file says. SaysHasName file t.symbols t.names t.wanted.now says };

    fn tried<S: Source>(
        &self,
        src: &mut Counted<S>,
        index: u64,
    ) -> Result<Option<SymbolMatch>, Fault> {
        let symbol = self.symbols.symbol(src, index)?;
        let place = self.symbols.place(index);
        let off = u64::from(symbol.st_name);
        let is_wanted = self.names.equals(src, off, place, self.wanted)?;
        let version = None;
        Ok(if is_wanted {
            Some(SymbolMatch { symbol, version })
        } else {
            None
        })
    }
}
