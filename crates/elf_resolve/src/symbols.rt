//! The symbols of a file.
ghost use Rattle.std.specs.Prelude.{◌≡◌, map};
ghost use Rattle.elf_model.specs.LinkKeys.{entry_named as named_entry};
ghost use Rattle.elf_resolve.specs.Symbols.{TakesSymbol, TakesSymbols, UsesName, symbol_record};

use crate::steps::{ends_at, prepared};
use crate::table::{KeyFault, KeyTable, NEW_KEY};
use elf_model::{KeyEntry, SymbolUse};

/// A symbol of a file.
#[derive(Clone, Copy)]
pub struct Symbol<'a> {
    /// Its name, with its version as `NAME@VERSION` if it has one.
    pub name: &'a [u8],
    /// The name without the version, if that is the default one.
    pub default_name: Option<&'a [u8]>,
    /// How it uses its keys.
    pub symbol: SymbolUse,
}

impl<'a> KeyTable<'a> {
    /// Returns what is known of a name.
    #[tactic(auto, unfolding(elf_model::specs::LinkKeys::entry_named))]
    pub fn entry_named(&self, name: &[u8]) -> KeyEntry
        ensures { result ≡ named_entry self.now.keys name.now }
    {
        match self.find(name) {
            None => NEW_KEY,
            Some(index) => self.entry(index),
        }
    }

    /// Uses a name by a symbol of a row.
    ///
    /// # Errors
    /// Returns a `KeyFault` if there is no room.
    pub fn use_name(
        &mut self,
        name: &[u8],
        symbol: SymbolUse,
        row: Option<u32>,
    ) -> Result<(), KeyFault>
        ensures { UsesName self.old self.new name.now symbol row result }
    {
        let index = self.enter(name)?;
        self.use_key(index, symbol, row)?;
        Ok(())
    }

    /// Takes a symbol of a row.
    ///
    /// # Errors
    /// Returns a `KeyFault` if there is no room.
    pub fn take(&mut self, symbol: Symbol, row: Option<u32>) -> Result<(), KeyFault>
        ensures { TakesSymbol self.old self.new (symbol_record symbol.entry) row result }
    {
        let entry = self.entry_named(symbol.name);
        self.use_name(symbol.name, symbol.symbol, row)?;
        let Some(name) = symbol.default_name else {
            return Ok(());
        };
        if ends_at(prepared(entry, symbol.symbol).state, symbol.symbol.role) {
            return Ok(());
        }
        self.use_name(name, symbol.symbol, row)?;
        Ok(())
    }

    /// Takes the symbols of a file in order.
    ///
    /// # Errors
    /// Returns a `KeyFault` if there is no room.
    pub fn take_symbols(&mut self, symbols: &[Symbol], row: Option<u32>) -> Result<(), KeyFault>
        ensures { TakesSymbols self.old self.new (map symbol_record symbols.now) row result }
    {
        for i in 0..symbols.len() {
            self.take(symbols[i], row)?;
        }
        Ok(())
    }
}
