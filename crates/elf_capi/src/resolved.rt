//! The result of a loader's lookup, as C sees it.
ghost use Rattle.std.specs.Prelude.{◌≡◌, Some};
ghost use Rattle.elf_capi.specs.Resolved.{HasSymbol, SameSymbol, ReturnsFoundVersion, nothing_resolved};

use crate::found::no_symbol;
use elf_loader::{FoundSymbol, FoundVersion, VersionName};
use elf_record::{Sym, version_number};
use elf_table::{ByteRange, NameEnd};

/// What a loader's lookup found; all 0 if it found nothing, except the number of symbols tried.
#[repr(C)]
#[derive(Clone, Copy)]
pub struct Resolved {
    /// The symbol.
    pub symbol: Sym,
    /// Its index among the symbols.
    pub index: u64,
    /// How many symbols were tried.
    pub tried: u64,
    /// Where the name of its version lies in the file, or the first 256 bytes of it; no bytes if a
    /// version was requested, if it has no name and if there are no versions.
    pub version: ByteRange,
    /// 1 if the file has versions of symbols, otherwise 0.
    pub has_version: u32,
    /// 1 if the version is hidden: a lookup by name alone does not match it; otherwise 0.
    pub is_hidden: u32,
    /// 1 if the name of the version has more bytes, otherwise 0.
    pub is_cut: u32,
    /// The index of the section that has the symbol, or of the program header of the dynamic
    /// entries.
    pub section: u16,
    /// The index of the section of version indices, or of that program header.
    pub words: u16,
    /// The version index, below 2^15.
    pub number: u16,
    /// Always 0.
    pub none: u16,
    /// Always 0.
    pub none_behind: u32,
}

impl Resolved {
    /// Sets that nothing was found, and no symbol tried.
    pub fn clear(&mut self)
        ensures { self.new ≡ nothing_resolved 0 }
    {
        *self = Resolved {
            symbol: no_symbol(),
            index: 0,
            tried: 0,
            version: ByteRange { at: 0, len: 0 },
            has_version: 0,
            is_hidden: 0,
            is_cut: 0,
            section: 0,
            words: 0,
            number: 0,
            none: 0,
            none_behind: 0,
        };
    }

    /// Sets a symbol; `told` bytes of the name of its version are available.
    pub fn report(&mut self, found: &FoundSymbol, told: u64)
        requires { self.old ≡ nothing_resolved 0 }
        ensures symbol { HasSymbol self.new found.now }
        ensures version { ReturnsFoundVersion self.new told found.now.version }
    {
        self.symbol = found.symbol;
        self.index = found.index;
        self.tried = found.tried;
        self.section = found.section;
        if let Some(version) = &found.version {
            self.report_version(version, told);
        }
    }

    /// Sets a version.
    fn report_version(&mut self, version: &FoundVersion, told: u64)
        requires none { (self.old.version ≡ record { at = 0; len = 0 }) × (self.old.is_cut ≡ 0) }
        ensures version { ReturnsFoundVersion self.new told (Some version.now) }
        ensures others { SameSymbol self.old self.new }
    {
        let number = version_number(version.word);
        self.has_version = 1;
        self.is_hidden = u32::from(version.word != number);
        self.words = version.index;
        self.number = number;
        if let VersionName::Told(end) = version.name {
            self.version = ByteRange {
                at: version.name_at,
                len: told,
            };
            self.is_cut = u32::from(end == NameEnd::Cut);
        }
    }
}
