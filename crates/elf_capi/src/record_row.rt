//! A record of symbol versions, in a form that callers can store.
ghost use Rattle.std.specs.Prelude.{◌≡◌, ℕ, List};
ghost use Rattle.elf_model.specs.Versions.{VisitedRecord};
ghost use Rattle.elf_note.specs.Reading.{IsVersion};
ghost use Rattle.elf_capi.specs.VersionRecords.{IsRecordRow, kind_number};

use elf_note::VersionRecord;
use elf_record::VersionKind;

/// A record of version definitions or needs, field by field (Linux Standard Base Core, Symbol
/// Versioning). A needed file has no version index, no flags and no hash: these are 0.
#[repr(C)]
#[derive(Clone, Copy)]
pub struct RecordRow {
    /// Its file offset.
    pub at: u64,
    /// The file offset of the structure that holds the index of its name: a definition's first
    /// name, otherwise the record.
    pub named_at: u64,
    /// The index of its name in the string table.
    pub name: u32,
    /// The hash of its name.
    pub hash: u32,
    /// Its version index, with the bit 2^15 that hides it.
    pub number: u16,
    /// Its flags.
    pub flags: u16,
    /// What it is: 1 a definition, 2 a needed file, 3 a version needed of one.
    pub kind: u32,
}

impl RecordRow {
    /// Returns the fields of a record.
    pub(crate) fn of(given: &VersionRecord) -> RecordRow
        ensures { (file : List ℕ) (met : VisitedRecord) → IsVersion file met given.now →
            IsRecordRow file met result }
    {
        RecordRow {
            at: given.at,
            named_at: given.named_at,
            name: given.name,
            hash: given.hash,
            number: given.number,
            flags: given.flags,
            kind: kind_number(given.kind),
        }
    }
}

/// Returns the number of a kind of record.
pub(crate) fn kind_number(kind: VersionKind) -> u32
    ensures { result ≡ kind_number kind }
{
    match kind {
        VersionKind::Definition => 1,
        VersionKind::File => 2,
        VersionKind::Need => 3,
    }
}
