//! The names of the versions of a shared library, by their indexes.
ghost use Rattle.std.specs.Prelude.{◌≡◌, ◌<◌, ◌≤◌, ◌++◌, ◌==◌, bit_and, if◌then◌else◌, IfOk, List, [], ◌∷◌, ℕ, None};
ghost use Rattle.elf_model.specs.Records.{sh_offset};
ghost use Rattle.elf_model.specs.declared.versions.VersionKind.TheVariants.{Definition, File, Need};
ghost use Rattle.elf_resolve.specs.LibraryVersions.{NumberedName, version_names};
ghost use Rattle.elf_resolve.specs.StringBuffers.{HoldsText};
ghost use Rattle.elf_resolve.specs.VersionTexts.{text_of_number};
ghost use Rattle.elf_resolve.specs.VersionWalks.{FindsNumber, HoldsVersionNames, HoldsNoNames, HoldsVersions, IsRecordPlace, ReadsNames, ReadsVersionRecord, ReadsVersions, after_file, state_at};

use crate::link_faults::{LinkFault, file_refused};
use crate::string_buffer::{HeldText, StringBuffer};
use crate::version_records::{
    RecordPlace, VersionSection, bytes_at, first_record, half, long, next_place, past_all,
    place_after, record_at,
};
use crate::version_room::{MOST_VERSIONS, VersionNames};
use elf_record::Cause;
use std::alloc::{AllocError, Global};

/// The bit of a version index that hides a symbol from references without a version.
pub(crate) const HIDDEN: u16 = 0x8000;

/// The flag of the definition that is the library's own name (LSB Core, Symbol Versioning).
const VER_FLG_BASE: u16 = 1;

/// The size of a version definition in bytes.
const DEFINITION_BYTES: usize = 20;

/// The size of a name of a version definition in bytes.
const AUXILIARY_BYTES: usize = 8;

/// The size of a version need in bytes, and of a version of one.
const NEED_BYTES: usize = 16;

impl VersionNames {
    /// Creates names of no version.
    ///
    /// # Errors
    /// Out of memory.
    pub(crate) fn new(alloc: Global) -> Result<VersionNames, AllocError>
        ensures { IfOk result (λ made. HoldsNoNames made) }
    {
        Ok(VersionNames {
            defined: vec![in alloc; None; MOST_VERSIONS]?,
            needed: vec![in alloc; None; MOST_VERSIONS]?,
        })
    }

    /// Forgets all names.
    pub(crate) fn clear(&mut self)
        ensures { HoldsNoNames self.new }
    {
        forget(&mut self.defined);
        forget(&mut self.needed);
    }

    /// Returns the name of a version that the library defines.
    pub(crate) fn defined(&self, number: u16) -> Option<HeldText>
        ensures { result ≡ text_of_number self.now.defined.items number }
    {
        name_in(&self.defined, number)
    }

    /// Returns the name of a version that the library needs.
    pub(crate) fn needed(&self, number: u16) -> Option<HeldText>
        ensures { result ≡ text_of_number self.now.needed.items number }
    {
        name_in(&self.needed, number)
    }

    /// Reads the names of the definitions in a section.
    ///
    /// # Errors
    /// `VersionCut` at what leads to a record that is not in the section, `BadVersion` at one of
    /// another form, `VersionIndex` at one whose index is too large; those of the names.
    pub(crate) fn read_definitions(
        &mut self,
        strings: &StringBuffer,
        table: VersionSection,
    ) -> Result<(), LinkFault>
        ensures needed { self.new.needed ≡ self.old.needed }
        ensures reads { (file : List ℕ) (at : ℕ) →
            HoldsVersions file strings.now.bytes at table →
            HoldsVersionNames strings.now.bytes self.old.defined.items [] →
            ReadsNames (version_names Definition file at) strings.now.bytes
            self.new.defined.items result }
    {
        let mut next = first_record(table);
        for _ in 0..table.records.size / DEFINITION_BYTES {
            let Some(place) = next else {
                return Ok(());
            };
            next = self.read_definition(strings, table, place)?;
        }
        past_all(next)
    }

    /// Reads a definition, and returns the place of the next.
    ///
    /// # Errors
    /// Those of [`VersionNames::read_definitions`].
    fn read_definition(
        &mut self,
        strings: &StringBuffer,
        table: VersionSection,
        place: RecordPlace,
    ) -> Result<Option<RecordPlace>, LinkFault>
        ensures needed { self.new.needed ≡ self.old.needed }
        ensures reads { (file : List ℕ) (at start from : ℕ) (names : List NumberedName) →
            HoldsVersions file strings.now.bytes at table →
            IsRecordPlace (sh_offset file at) start from place →
            HoldsVersionNames strings.now.bytes self.old.defined.items names →
            ReadsVersionRecord file strings.now.bytes at (state_at Definition 0 start from) names
            self.new.defined.items None result }
    {
        let record = record_at(strings, table, place, DEFINITION_BYTES)?;
        let number = number_of(half(record, 4), place.at)?;
        let name = place_after(place, long(record, 12));
        let bytes = bytes_at(strings, table, name, AUXILIARY_BYTES)?;
        let text = strings.name(table.strings, u64::from(long(bytes, 0)), name.at)?;
        set_defined(&mut self.defined, half(record, 2), number, text);
        Ok(next_place(place, long(record, 16)))
    }

    /// Reads the names of the versions of the needs in a section.
    ///
    /// # Errors
    /// Those of [`VersionNames::read_definitions`].
    pub(crate) fn read_needs(
        &mut self,
        strings: &StringBuffer,
        table: VersionSection,
    ) -> Result<(), LinkFault>
        ensures defined { self.new.defined ≡ self.old.defined }
        ensures reads { (file : List ℕ) (at : ℕ) →
            HoldsVersions file strings.now.bytes at table →
            HoldsVersionNames strings.now.bytes self.old.needed.items [] →
            ReadsNames (version_names File file at) strings.now.bytes self.new.needed.items
            result }
    {
        let most = table.records.size / NEED_BYTES;
        let mut left = most;
        let mut next = first_record(table);
        for _ in 0..most {
            let Some(place) = next else {
                return Ok(());
            };
            let Some(rest) = left.checked_sub(1) else {
                break;
            };
            let record = record_at(strings, table, place, NEED_BYTES)?;
            let inner = place_after(place, long(record, 8));
            left = self.read_versions(strings, table, inner, rest)?;
            next = next_place(place, long(record, 12));
        }
        past_all(next)
    }

    /// Reads the versions of a need, at most `left` of them, and returns how many are left.
    ///
    /// # Errors
    /// Those of [`VersionNames::read_definitions`].
    fn read_versions(
        &mut self,
        strings: &StringBuffer,
        table: VersionSection,
        first: RecordPlace,
        left: usize,
    ) -> Result<usize, LinkFault>
        ensures defined { self.new.defined ≡ self.old.defined }
        ensures fewer { IfOk result (λ rest. rest ≤ left) }
        ensures reads { (file : List ℕ) (at owner start from : ℕ) (names : List NumberedName) →
            HoldsVersions file strings.now.bytes at table →
            IsRecordPlace (sh_offset file at) start from first →
            HoldsVersionNames strings.now.bytes self.old.needed.items names →
            ReadsVersions file strings.now.bytes at owner start from left names
            self.new.needed.items result }
    {
        let mut next = Some(first);
        for count in 0..left {
            let Some(place) = next else {
                return Ok(left.saturating_sub(count));
            };
            next = self.read_version(strings, table, place)?;
        }
        past_all(next)?;
        Ok(0)
    }

    /// Reads a version of a need, and returns the place of the next.
    ///
    /// # Errors
    /// Those of [`VersionNames::read_definitions`].
    fn read_version(
        &mut self,
        strings: &StringBuffer,
        table: VersionSection,
        place: RecordPlace,
    ) -> Result<Option<RecordPlace>, LinkFault>
        ensures defined { self.new.defined ≡ self.old.defined }
        ensures reads { (file : List ℕ) (at owner start from : ℕ) (names : List NumberedName) →
            HoldsVersions file strings.now.bytes at table →
            IsRecordPlace (sh_offset file at) start from place →
            HoldsVersionNames strings.now.bytes self.old.needed.items names →
            ReadsVersionRecord file strings.now.bytes at (state_at Need owner start from) names
            self.new.needed.items (after_file file at owner) result }
    {
        let record = bytes_at(strings, table, place, NEED_BYTES)?;
        let number = number_of(half(record, 6), place.at)?;
        let text = strings.name(table.strings, u64::from(long(record, 8)), place.at)?;
        set_name(&mut self.needed, number, text);
        Ok(next_place(place, long(record, 12)))
    }
}

/// Returns a version index without the bit that hides a symbol.
///
/// # Errors
/// `VersionIndex` at a file offset if it is too large.
fn number_of(number: u16, at: u64) -> Result<u16, LinkFault>
    ensures { FindsNumber number at result }
{
    let number = number % HIDDEN;
    if number as usize >= MOST_VERSIONS {
        return file_refused(at, Cause::VersionIndex);
    }
    Ok(number)
}

/// Forgets all names.
fn forget(names: &mut [Option<HeldText>])
    ensures { (number : ℕ) → text_of_number names.new number ≡ None }
{
    names.fill(None);
}

/// Returns the name of a version index.
fn name_in(names: &[Option<HeldText>], number: u16) -> Option<HeldText>
    ensures { result ≡ text_of_number names.now number }
{
    match names.get(number as usize) {
        Some(name) => *name,
        None => None,
    }
}

/// Sets the name of the version index of a definition, unless its flags say that it is the name of
/// the library.
fn set_defined(names: &mut [Option<HeldText>], flags: u16, number: u16, name: HeldText)
    ensures { (bytes : List ℕ) (known : List NumberedName) (is : List ℕ) →
        number < MOST_VERSIONS → HoldsVersionNames bytes names.old known → HoldsText bytes name is →
        HoldsVersionNames bytes names.new (known ++
        (if bit_and flags 1 == 0 then record { number = number; name = is } ∷ [] else [])) }
{
    if flags & VER_FLG_BASE == 0 {
        set_name(names, number, name);
    }
}

/// Sets the name of a version index, unless it has one.
fn set_name(names: &mut [Option<HeldText>], number: u16, name: HeldText)
    ensures { (bytes : List ℕ) (known : List NumberedName) (is : List ℕ) →
        number < MOST_VERSIONS → HoldsVersionNames bytes names.old known → HoldsText bytes name is →
        HoldsVersionNames bytes names.new (known ++ record { number = number; name = is } ∷ []) }
{
    let place = number as usize;
    if place < names.len() && names[place].is_none() {
        names[place] = Some(name);
    }
}
