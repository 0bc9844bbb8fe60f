//! The name and the version that a symbol references.
ghost use Rattle.std.specs.Prelude.{◌≡◌};
ghost use Rattle.elf_library.specs.Sought.{asked_if};
ghost use Rattle.elf_loader.specs.Lookups.{AreShort};
ghost use Rattle.elf_options.specs.Wants.{query_of};

use elf_options::{SymbolQuery, VersionQuery};
use elf_table::NameBuf;

/// The name and the version that a symbol references.
#[derive(Drop)]
pub struct ReferenceNames {
    /// The name.
    pub name: NameBuf,
    /// The version, if it needs one.
    pub version: NameBuf,
    /// The needed file from which it needs that version.
    pub file: NameBuf,
    /// Whether it needs a version.
    pub versioned: bool,
}

impl ReferenceNames {
    /// Creates empty names.
    pub fn new() -> ReferenceNames {
        ReferenceNames {
            name: NameBuf::new(),
            version: NameBuf::new(),
            file: NameBuf::new(),
            versioned: false,
        }
    }

    /// Returns the symbol query.
    pub fn wanted(&self) -> SymbolQuery<'_>
        ensures short { AreShort (query_of result) }
        ensures name { (query_of result).name ≡ self.now.name }
        ensures asked { (query_of result).asked ≡ asked_if self.now.versioned self.now.version }
    {
        let name = self.name.bytes();
        if !self.versioned {
            return SymbolQuery {
                name,
                asked: VersionQuery::NoVersion,
            };
        }
        SymbolQuery {
            name,
            asked: VersionQuery::Version(self.version.bytes()),
        }
    }
}
