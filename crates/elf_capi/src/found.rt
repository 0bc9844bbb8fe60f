//! The result of a lookup, as C sees it.
ghost use Rattle.std.specs.Prelude.{◌≡◌};
ghost use Rattle.elf_capi.specs.Found.{no_symbol, nothing_after};

use elf_record::Sym;

/// What a lookup found; all 0 if it found nothing, except the steps.
#[repr(C)]
#[derive(Clone, Copy)]
pub struct LookupFields {
    /// The symbol.
    pub symbol: Sym,
    /// Its index in its section.
    pub index: u32,
    /// How many names were compared.
    pub steps: u32,
    /// The index of the section that has the symbol.
    pub section: u16,
    /// Always 0.
    pub none: u16,
    /// Always 0.
    pub none_behind: u32,
}

impl LookupFields {
    /// Sets that nothing was found, and no name compared.
    pub fn clear(&mut self)
        ensures { self.new ≡ nothing_after 0 }
    {
        *self = LookupFields {
            symbol: no_symbol(),
            index: 0,
            steps: 0,
            section: 0,
            none: 0,
            none_behind: 0,
        };
    }
}

/// Returns a symbol of zeros, for a lookup that found none.
pub fn no_symbol() -> Sym
    ensures { result ≡ no_symbol }
{
    Sym {
        st_value: 0,
        st_size: 0,
        st_name: 0,
        st_shndx: 0,
        st_info: 0,
        st_other: 0,
    }
}
