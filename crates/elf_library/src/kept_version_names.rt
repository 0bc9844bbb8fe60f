//! The names of versions that are kept.
ghost use Rattle.std.specs.Prelude.{◌≡◌, ℕ, List, IfSome, IsFalse, true};
ghost use Rattle.elf_model.specs.Prelude.{DynamicSymbols as AreSymbolsOf};
ghost use Rattle.elf_library.specs.VersionNames.{HaveVersionNames, HasVersionName};

use crate::kept_indices::ShortName;
use crate::reference::{SOUGHT_CAP, VersionReference};
use elf_note::VersionRecord;
use elf_table::NameBuf;

/// The maximum number of versions whose names are kept.
const MOST_NAMES: usize = 16;

/// The version with an index.
#[derive(Drop)]
struct NamedVersion {
    number: u16,
    name: ShortName,
    // The record of the needed file that it is of, if there is one.
    file: Option<VersionRecord>,
}

/// The names of versions of a file by their indices: of at most sixteen, with at most 32
/// bytes.
#[derive(Drop)]
pub(crate) struct KeptVersionNames {
    keeps: bool,
    // Each is at the place of its index, the remainder of a division by their number.
    places: [Option<NamedVersion>; MOST_NAMES],
}

impl KeptVersionNames {
    /// Creates an empty list, to which nothing is added until [`KeptVersionNames::keep_if`].
    pub(crate) fn new() -> KeptVersionNames
        ensures { (file : List ℕ) (told : AreSymbolsOf) → HaveVersionNames file told result.places }
    {
        KeptVersionNames {
            keeps: false,
            places: [
                None, None, None, None, None, None, None, None, None, None, None, None, None, None,
                None, None,
            ],
        }
    }

    /// Sets whether names are kept from now on.
    pub(crate) fn keep_if(&mut self, keeps: bool)
        ensures set { self.new.keeps ≡ keeps }
        ensures same { self.new.places ≡ self.old.places }
    {
        self.keeps = keeps;
    }

    /// Returns the version with an index, with its name in `name`, if it is kept.
    pub(crate) fn get(&self, number: u16, name: &mut NameBuf) -> Option<VersionReference>
        ensures versioned { IfSome result (λ found. found.versioned ≡ true) }
        ensures named { IfSome result (λ found. (file : List ℕ) (told : AreSymbolsOf) →
            HaveVersionNames file told self.now.places →
            HasVersionName file told number name.new found.file) }
    {
        match &self.places[usize::from(number) % MOST_NAMES] {
            Some(kept) if kept.number == number => {
                name.clear();
                name.add(kept.name.as_slice(), SOUGHT_CAP);
                Some(VersionReference {
                    versioned: true,
                    file: kept.file,
                })
            }
            _ => None,
        }
    }

    /// Keeps the version with an index instead of the one at its place, if names are kept and its
    /// name has at most 32 bytes.
    pub(crate) fn keep(&mut self, number: u16, bytes: &[u8], file: Option<VersionRecord>)
        ensures known { (whole : List ℕ) (told : AreSymbolsOf) →
            HaveVersionNames whole told self.old.places →
            HasVersionName whole told number bytes.now file →
            HaveVersionNames whole told self.new.places }
        ensures unless { IsFalse self.old.keeps → self.new ≡ self.old }
    {
        if !self.keeps {
            return;
        }
        let mut name = ShortName::new();
        if name.try_extend_from_slice(bytes).is_ok() {
            self.places[usize::from(number) % MOST_NAMES] = Some(NamedVersion {
                number,
                name,
                file,
            });
        }
    }
}
