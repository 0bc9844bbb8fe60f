//! The versions that a file needs, one by one.
ghost use Rattle.std.specs.Prelude.{◌≡◌, ◌∷◌, [], ℕ, List};
ghost use Rattle.elf_table.specs.Prelude.{CallDid, StringsInBounds, fault_of_result, strings_in};
ghost use Rattle.elf_model.specs.Prelude.{Meets, SOUGHT_BYTES, VersionRecordRead, VersionRecordTable as IsTableOf, VisitedRecord, name_bytes, needed_versions, readings_of};
ghost use Rattle.elf_hash.specs.Prelude.{IsVersionRecordTable, VersionRecordsInBounds};
ghost use Rattle.elf_note.specs.Reading.{IsVersion};
ghost use Rattle.elf_library.specs.NeedWalks.{ReadsNextNeed, GoesOnIf, IsNeedsOf, ReturnsNeed, StepsNeeds, StepsNeedsOf, need_bytes, needs_left};

use crate::reference::whole_name;
use elf_hash::VersionRecordTable;
use elf_note::{VersionCursor, VersionRecord};
use elf_record::VersionKind;
use elf_source::{Counted, Source};
use elf_table::{Fault, NameBuf};

/// The flag of a needed version that need not be there (Linux Standard Base Core, Symbol
/// Versioning).
const WEAK: u16 = 2;

/// A walk over the versions that a file needs, with the last one that was read.
#[derive(Drop)]
pub struct NeedsWalk {
    records: VersionRecordTable,
    cursor: VersionCursor,
    /// The name of the file that should have the versions that follow.
    pub library: NameBuf,
    /// The name of the last version that was read.
    pub name: NameBuf,
    /// Its hash.
    pub hash: u32,
    /// Whether it need not be there.
    pub weak: bool,
}

impl NeedsWalk {
    /// Creates a walk before the first of the records.
    pub fn new(records: &VersionRecordTable) -> NeedsWalk
        ensures steps { (size : ℕ) → VersionRecordsInBounds size records.now →
            StepsNeeds size result }
        ensures starts { (file : List ℕ) (told : IsTableOf) →
            IsVersionRecordTable file told records.now → IsNeedsOf file told result
            × (needs_left file told result
            ≡ needed_versions file [] (readings_of file told [])) }
    {
        NeedsWalk {
            records: *records,
            cursor: VersionCursor::one_by_one(records.kind, records.head, records.table),
            library: NameBuf::new(),
            name: NameBuf::new(),
            hash: 0,
            weak: false,
        }
    }

    /// Reads the next record, with its name. Returns whether it is of a needed version, or `None`
    /// after the last.
    ///
    /// # Errors
    /// Those of [`VersionCursor::advance`]. At the record: a fault of its name, as for
    /// [`Names::read`], and `TooLong` if that has more than 4,096 bytes. Otherwise a read fault, or
    /// a refusal for lack of budget.
    pub(crate) fn advance<S: Source>(&mut self, src: &mut Counted<S>) -> Result<Option<bool>, Fault>
        requires { StepsNeeds src.old.seen.size self.old }
        ensures { ReadsNextNeed self.old self.new src.old src.new result }
    {
        let Some(given) = self.cursor.advance(src)? else {
            return Ok(None);
        };
        Ok(Some(self.take(src, &given)?))
    }

    /// Reads the name of a record: that of a file whose versions follow, or of a version. Returns
    /// whether it is of a needed version.
    ///
    /// # Errors
    /// Those of its name.
    fn take<S: Source>(
        &mut self,
        src: &mut Counted<S>,
        given: &VersionRecord,
    ) -> Result<bool, Fault>
        requires { StringsInBounds src.old.seen.size self.old.records.names }
        ensures did { CallDid src.old src.new (fault_of_result result) (name_bytes SOUGHT_BYTES)
            (λ file. (met : VisitedRecord) (others : List VersionRecordRead) →
            IsVersion file met given.now → ReturnsNeed
            (needed_versions file self.old.library
            (Meets (strings_in file self.old.records.names) met ∷ others))
            (needed_versions file self.new.library others) self.new result) }
        ensures same { (self.new.cursor ≡ self.old.cursor)
            × (self.new.records ≡ self.old.records) }
    {
        let off = u64::from(given.name);
        match given.kind {
            VersionKind::File => {
                whole_name(
                    src,
                    self.records.names,
                    off,
                    given.named_at,
                    &mut self.library,
                )?;
                Ok(false)
            }
            VersionKind::Definition => {
                whole_name(src, self.records.names, off, given.named_at, &mut self.name)?;
                Ok(false)
            }
            VersionKind::Need => {
                whole_name(src, self.records.names, off, given.named_at, &mut self.name)?;
                self.hash = given.hash;
                self.weak = given.flags & WEAK != 0;
                Ok(true)
            }
        }
    }
}
