//! Which symbols are shown.
ghost use Rattle.std.specs.Prelude.{◌≡◌};
ghost use Rattle.elf_model.specs.SymbolFilters.{every_symbol, is_narrow, shows_symbol};

/// Which symbols of a listing are shown: those that meet each condition that is set.
#[derive(Clone, Copy)]
pub struct SymbolFilter {
    /// Whether only defined symbols are shown, whose section is not SHN_UNDEF (gABI 4, Symbol
    /// Table).
    pub defined: bool,
    /// Whether only undefined symbols are shown.
    pub undefined: bool,
    /// Whether only the symbols of SHT_DYNSYM sections are shown.
    pub dynamic: bool,
}

impl SymbolFilter {
    /// Returns the filter that shows every symbol.
    pub fn every_symbol() -> SymbolFilter
        ensures { result ≡ every_symbol }
    {
        SymbolFilter {
            defined: false,
            undefined: false,
            dynamic: false,
        }
    }

    /// Returns `true` if a condition is set.
    pub fn is_narrow(self) -> bool
        ensures { result ≡ is_narrow self }
    {
        self.defined || self.undefined || self.dynamic
    }

    /// Returns `true` if a symbol is shown, by whether it is defined and whether it is of an
    /// SHT_DYNSYM section.
    pub fn shows(self, is_defined: bool, is_dynamic: bool) -> bool
        ensures { result ≡ shows_symbol self is_defined is_dynamic }
    {
        if self.defined && !is_defined {
            return false;
        }
        if self.undefined && is_defined {
            return false;
        }
        !self.dynamic || is_dynamic
    }
}
