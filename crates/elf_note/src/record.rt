//! A record of symbol versions that a cursor yields.
ghost use Rattle.std.specs.Prelude.{◌≡◌, ℕ, List};
ghost use Rattle.elf_model.specs.Versions.{VisitedRecord, names_version};
ghost use Rattle.elf_note.specs.Reading.{IsVersion};

use elf_record::VersionKind;

/// The flag of the definition that names the file itself.
const BASE: u16 = 1;

/// A record of definitions or needs (Linux Standard Base Core, Symbol Versioning). A needed file
/// has no version index, no flags and no hash: these are 0.
#[derive(Clone, Copy)]
pub struct VersionRecord {
    /// Its kind.
    pub kind: VersionKind,
    /// Its file offset.
    pub at: u64,
    /// Its version index, with the hidden bit.
    pub number: u16,
    /// Its flags.
    pub flags: u16,
    /// The hash of its name.
    pub hash: u32,
    /// The file offset of the structure that holds the index of its name: a definition's first
    /// name, otherwise the record. Refusals of the name point to it.
    pub named_at: u64,
    /// The index of its name in the string table.
    pub name: u32,
}

impl VersionRecord {
    /// Returns `true` if the record names a version: a needed version does, and a definition that
    /// does not name the file itself (Linux Standard Base Core, Symbol Versioning).
    #[tactic(auto, unfolding(elf_model::specs::Versions::names_version, elf_model::specs::Versions::flags_word))]
    pub fn names_version(&self) -> bool
        ensures { (file : List ℕ) (met : VisitedRecord) → IsVersion file met self.now →
            result ≡ names_version file met }
    {
        match self.kind {
            VersionKind::Definition => self.flags & BASE == 0,
            VersionKind::File => false,
            VersionKind::Need => true,
        }
    }
}
