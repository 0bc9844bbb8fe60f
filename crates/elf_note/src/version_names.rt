//! The names of version indices.
ghost use Rattle.std.specs.Prelude.{◌≡◌, ℕ, ◌<◌, List, [], ◌∷◌, ◌++◌, None, length, slice_set};
ghost use Rattle.elf_table.specs.Prelude.{CallDid, TableInBounds, fault_of_result};
ghost use Rattle.elf_model.specs.Versions.{VisitedRecord, VERSION_NUMBERS, named_by, names_version, number_in};
ghost use Rattle.elf_note.specs.NumberNames.{GivesName, IsNameOfRecord, NameFits, NamesNumbers, ReadsNumberNames, name_at};
ghost use Rattle.elf_note.specs.Reading.{IsCursorOf, IsVersion, unread, versions_left};

use crate::record::VersionRecord;
use crate::version_cursor::VersionCursor;
use elf_record::{VersionKind, version_number};
use elf_source::{Counted, Source};
use elf_table::Fault;
use std::marker::Model;

/// The bound of version indices: each is below it.
const NUMBERS: usize = elf_record::VERSION_NUMBERS as usize;

/// The size in bytes of the fixed storage of [`VersionNames`].
pub const NUMBER_NAMES_BYTES: usize = 8 * NUMBERS;

/// The number of places if those of all version indices are kept.
pub const ALL_PLACES: usize = NUMBERS;

/// The location of the name of a version index.
#[derive(Clone, Copy, PartialEq, Eq)]
pub enum VersionNameRef {
    /// No record names the version index.
    Nowhere,
    /// A definition does: the index in the string table of the definitions.
    Defined(u32),
    /// A need does: the index in the string table of the needs.
    Needed(u32),
}

/// The locations of the names of the version indices 0 to 1,023: for each index that of the first
/// record that names its version. So the names of all symbols' versions are found in one walk over
/// definitions and needs.
#[derive(Drop)]
pub struct VersionNames {
    names: [VersionNameRef; NUMBERS],
}

impl Model for VersionNames {
    ghost use Rattle.std.specs.Prelude.{◌≡◌, List, length};
    ghost use Rattle.elf_model.specs.Versions.{VERSION_NUMBERS};
    ghost use Rattle.elf_note.specs.declared.version_names.VersionNameRef.{VersionNameRef as IsNameAt};

    ghost Value = { List IsNameAt };

    ghost view = { λ n. n.names };

    ghost invariant = { λ n. length n.names ≡ VERSION_NUMBERS };
}

impl VersionNames {
    /// Creates a table in which no version index has a name.
    pub fn new() -> VersionNames
        ensures { (file : List ℕ) (places : List ℕ) → NamesNumbers file [] result places }
    {
        VersionNames {
            names: [VersionNameRef::Nowhere; NUMBERS],
        }
    }

    /// Returns the location of the name of a version index.
    pub fn name(&self, number: u16) -> VersionNameRef
        ensures is { result ≡ name_at self.now number }
        ensures fits { NameFits number result }
        ensures named { (file : List ℕ) (records : List VisitedRecord) (places : List ℕ) →
            NamesNumbers file records self.now places →
            IsNameOfRecord file (named_by file number records) result }
    {
        if usize::from(number) < NUMBERS {
            self.names[usize::from(number)]
        } else {
            VersionNameRef::Nowhere
        }
    }

    /// Adds a record whose version index is below 1,024, after others: it names its index if none
    /// of them does. For the first version indices, as many as there are `places`, it stores the
    /// file offset of the structure that holds the index of the name.
    pub fn take(&mut self, given: &VersionRecord, places: &mut [u64])
        requires { number_in given.now.number < VERSION_NUMBERS }
        ensures names { (file : List ℕ) (records : List VisitedRecord) (met : VisitedRecord) →
            IsVersion file met given.now → NamesNumbers file records self.old places.old →
            NamesNumbers file (records ++ met ∷ []) self.new places.new }
        ensures count { length places.new ≡ length places.old }
    {
        let number = usize::from(version_number(given.number));
        if self.names[number] == VersionNameRef::Nowhere {
            self.names[number] = names(given);
            put_place(places, number, given.named_at);
        }
    }

    /// Adds all records that a cursor still yields, after others, as [`VersionNames::take`] does.
    /// The bytes read here count as those of the cursor's calls.
    ///
    /// # Errors
    /// As for [`VersionCursor::advance`]. Then some of the records were added.
    pub fn take_all<S: Source>(
        &mut self,
        src: &mut Counted<S>,
        cursor: &mut VersionCursor,
        places: &mut [u64],
    ) -> Result<(), Fault>
        requires going { cursor.old.failed ≡ None }
        requires within { TableInBounds src.old.seen.size cursor.old.held.table }
        ensures count { length places.new ≡ length places.old }
        ensures did { CallDid src.old src.new (fault_of_result result) (unread cursor.old)
            (λ file. IsCursorOf file cursor.old → (records : List VisitedRecord) →
            NamesNumbers file records self.old places.old → ReadsNumberNames file records
            (versions_left file cursor.old) self.new places.new result) }
    {
        'records: while let Some(given) = cursor.advance(src)? {
            self.take(&given, places);
        }
        Ok(())
    }
}

// Stores the place of a version index, if there is room for it.
fn put_place(places: &mut [u64], number: usize, at: u64)
    ensures { places.new ≡ slice_set places.old number at }
{
    if number < places.len() {
        places[number] = at;
    }
}

// Returns the name that a record gives its version index, if it names a version.
#[tactic(auto, unfolding(elf_model::specs::Versions::names_version, elf_model::specs::Versions::flags_word))]
fn names(given: &VersionRecord) -> VersionNameRef
    ensures { (file : List ℕ) (met : VisitedRecord) → IsVersion file met given.now →
        GivesName file met (names_version file met) result }
{
    match given.kind {
        VersionKind::Definition => {
            if given.names_version() {
                VersionNameRef::Defined(given.name)
            } else {
                VersionNameRef::Nowhere
            }
        }
        VersionKind::File => VersionNameRef::Nowhere,
        VersionKind::Need => VersionNameRef::Needed(given.name),
    }
}
