//! The indices of versions that are kept.
ghost use Rattle.std.specs.Prelude.{◌≡◌, ℕ, ◌<◌, List, IfSome};
ghost use Rattle.elf_model.specs.LoaderScope.{LookupTables as IsScopeOf};
ghost use Rattle.elf_library.specs.Indices.{AreIndicesOf, AreNumbersOf, PutsIndices};
ghost use Rattle.elf_options.specs.Wants.{asked_of};

use arrayvec::ArrayVec;
use elf_loader::VersionIndexSet;
use elf_options::VersionQuery;

/// The maximum number of versions whose indices are kept.
const MOST_VERSIONS: usize = 16;

/// The name of a version of which something is kept.
pub(crate) type ShortName = ArrayVec<u8, 32>;

/// The indices that a file has for a version.
#[derive(Drop)]
struct VersionIndices {
    name: ShortName,
    numbers: VersionIndexSet,
}

/// The indices that a file has for versions that were looked up lately: for at most sixteen,
/// with names of at most 32 bytes.
#[derive(Drop)]
pub(crate) struct KeptIndices {
    keeps: bool,
    // A bit for each place that was used since all were: the first without one is replaced next.
    used: u16,
    places: [Option<VersionIndices>; MOST_VERSIONS],
}

impl KeptIndices {
    /// Creates an empty list, to which nothing is added until [`KeptIndices::keep_if`].
    pub(crate) fn new() -> KeptIndices
        ensures { (file : List ℕ) (told : IsScopeOf) → AreIndicesOf file told result.places }
    {
        KeptIndices {
            keeps: false,
            used: 0,
            places: [
                None, None, None, None, None, None, None, None, None, None, None, None, None, None,
                None, None,
            ],
        }
    }

    /// Sets whether indices are kept from now on.
    pub(crate) fn keep_if(&mut self, keeps: bool)
        ensures set { self.new.keeps ≡ keeps }
        ensures same { self.new.places ≡ self.old.places }
    {
        self.keeps = keeps;
    }

    /// Returns the place of the wanted version: where its indices are kept, otherwise a place that
    /// was not used lately. From now on it was.
    pub(crate) fn use_place(&mut self, asked: &VersionQuery<'_>) -> usize
        ensures place { result < 16 }
        ensures same { self.new.places ≡ self.old.places }
        ensures keeps { self.new.keeps ≡ self.old.keeps }
    {
        let place = self.place_of(asked);
        self.used = used_with(self.used, place);
        place
    }

    /// Returns the place of the wanted version.
    fn place_of(&self, asked: &VersionQuery<'_>) -> usize
        ensures { result < 16 }
    {
        if let Some(name) = asked.name() {
            for place in 0..MOST_VERSIONS {
                if self.has_at(place, name) {
                    return place;
                }
            }
        }
        self.used.trailing_ones() as usize % MOST_VERSIONS
    }

    /// Returns `true` if the version of which indices are kept at a place has a name.
    fn has_at(&self, place: usize, name: &[u8]) -> bool
        requires { place < 16 }
    {
        match &self.places[place] {
            Some(kept) => kept.name.len() == name.len() && kept.name.as_slice() == name,
            None => false,
        }
    }

    /// Returns the indices that are kept at a place, if they are those of the wanted version.
    pub(crate) fn get(&self, place: usize, asked: &VersionQuery<'_>) -> Option<&VersionIndexSet>
        requires { place < 16 }
        ensures { IfSome result (λ numbers. (file : List ℕ) (told : IsScopeOf) →
            AreIndicesOf file told self.now.places →
            AreNumbersOf file told (asked_of asked.now) numbers.now) }
    {
        let name = asked.name()?;
        match &self.places[place] {
            Some(kept) if kept.name.as_slice() == name => Some(&kept.numbers),
            _ => None,
        }
    }

    /// Keeps the indices of the wanted version at a place, instead of those that are kept there, if
    /// indices are kept and its name has at most 32 bytes.
    pub(crate) fn keep(&mut self, place: usize, asked: &VersionQuery<'_>, numbers: VersionIndexSet)
        requires { place < 16 }
        ensures known { (file : List ℕ) (tables : IsScopeOf) →
            AreIndicesOf file tables self.old.places →
            AreNumbersOf file tables (asked_of asked.now) numbers →
            AreIndicesOf file tables self.new.places }
        ensures puts { PutsIndices self.old self.new place (asked_of asked.now) numbers }
    {
        if !self.keeps {
            return;
        }
        let Some(version) = asked.name() else {
            return;
        };
        let mut name = ShortName::new();
        if name.try_extend_from_slice(version).is_ok() {
            self.places[place] = Some(VersionIndices { name, numbers });
        }
    }
}

/// Returns the places that were used lately, after the use of one: of that one alone, if all were.
fn used_with(used: u16, place: usize) -> u16
    requires { place < 16 }
{
    let bit = 1_u16 << place;
    let both = used | bit;
    if both == u16::MAX { bit } else { both }
}
