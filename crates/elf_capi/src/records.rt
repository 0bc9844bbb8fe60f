//! A position in a walk over the records of symbol versions, and steps over them.
ghost use Rattle.std.specs.Prelude.{◌≡◌, ◌+◌, ◌≤◌, ◌^◌, ◌<◌, IfSome, length, option_map};
ghost use Rattle.elf_model.specs.declared.versions.VersionKind.TheVariants.{Need};
ghost use Rattle.elf_note.specs.Prelude.{IsPositionInTable, KnowsAhead, record_position_of};
ghost use Rattle.elf_note.specs.declared.record_position.RecordPosition.{RecordPosition as IsStanding};
ghost use Rattle.elf_capi.specs.VersionRecords.{GoesOnTo, StepsRecord, bytes_within, standing_in};

use crate::record_row::{RecordRow, kind_number};
use elf_note::{RecordPosition, VersionCursor};
use elf_record::sizes::VERSION_NEED_BYTES;
use elf_record::{Refusal, Verneed, VersionKind};
use elf_source::{Counted, MemorySource};
use elf_table::{Fault, Table, chunk_at};

/// A position in a walk over the records of a table of definitions or needs: plain numbers, which a
/// caller may store anywhere and copy. Each step checks them again, so that no numbers are invalid.
#[repr(C)]
#[derive(Clone, Copy)]
pub struct VersionRecordPosition {
    /// The file offset of the table's first byte.
    pub at: u64,
    /// How many bytes it has.
    pub size: u64,
    /// The offset in the table of the next record.
    pub place: u64,
    /// The file offset of what led there: a refusal reports it.
    pub from: u64,
    /// The offset in the table of the needed file, if a version needed of it is next.
    pub owner: u64,
    /// How many records may still be visited.
    pub left: u64,
    /// The file offset of the string table of their names; 0 if there is none.
    pub strings_at: u64,
    /// The size of that string table in bytes; 0 if there is none.
    pub strings_len: u64,
    /// What is next: 1 a definition, 2 a needed file, 3 a version needed of one; nothing for any
    /// other number.
    pub kind: u32,
    /// Always 0.
    pub none: u32,
}

/// Reads the next record and steps over it; returns `None` after the last (Linux Standard Base
/// Core, Symbol Versioning).
///
/// # Errors
/// If there is no valid record:
///
/// - `VersionCut` at what led there, if it is not in the table or if as many records were visited
///   as fit, and at the record whose name is not in the table.
/// - `BadVersion` at one of another layout.
/// - `VersionIndex` at one whose version index is 1,024 or more.
///
/// The position is unchanged then.
pub fn next_record(
    file: &[u8],
    records: &mut VersionRecordPosition,
) -> Result<Option<RecordRow>, Refusal>
    ensures { StepsRecord file.now records.old records.new result }
{
    let table = records.table(file.len() as u64);
    let Some(standing) = records.standing(file, table) else {
        return Ok(None);
    };
    let mut src = Counted::new(MemorySource::new(file));
    let mut cursor = VersionCursor::resumed(table, Some(standing), records.left);
    let met = cursor.advance(&mut src);
    let _ = src.into_inner();
    match met {
        Ok(Some(record)) => {
            records.go(cursor.standing());
            Ok(Some(RecordRow::of(&record)))
        }
        Ok(None) => Ok(None),
        Err(Fault::Refused(refusal)) => Err(refusal),
        Err(Fault::Source { .. }) => unreachable!(),
    }
}

impl VersionRecordPosition {
    /// Returns the bytes of the table that lie within a file of the given size.
    fn table(&self, size: u64) -> Table
        ensures at { result.at ≡ self.now.at }
        ensures count { result.count ≡ bytes_within size self.now }
        ensures bytes { result.entry ≡ 1 }
        ensures small { bytes_within size self.now < 2 ^ 64 }
    {
        Table::new(self.at, self.size.min(size.saturating_sub(self.at)), 1)
    }

    /// Returns where the walk is in the bytes of its table.
    fn standing(&self, file: &[u8], table: Table) -> Option<RecordPosition>
        requires at { table.at ≡ self.now.at }
        requires count { table.count ≡ bytes_within (length file.now) self.now }
        ensures is_at { option_map record_position_of result ≡ standing_in table.count self.now }
        ensures knows { KnowsAhead file.now table.at result }
        ensures fits { IfSome result (IsPositionInTable table.count 28) }
        ensures owned { IfSome result (λ s. s.kind ≡ Need → s.owner + 16 ≤ table.count) }
    {
        let size = table.len();
        match self.kind {
            1 if self.owner <= size => Some(self.standing_at(VersionKind::Definition, 0)),
            2 if self.owner <= size => Some(self.standing_at(VersionKind::File, 0)),
            3 if u128::from(self.owner) + u128::from(VERSION_NEED_BYTES) <= u128::from(size) => {
                let needed = Verneed::decode(chunk_at(file, (self.at + self.owner) as usize));
                Some(self.standing_at(VersionKind::Need, needed.vn_next))
            }
            _ => None,
        }
    }

    /// Returns where the walk is, before a record of a kind.
    fn standing_at(&self, kind: VersionKind, files: u32) -> RecordPosition
        ensures { result ≡ record {
          kind = kind;
          place = self.now.place;
          from = self.now.from;
          owner = self.now.owner;
          files = files;
        } }
    {
        RecordPosition {
            kind,
            place: u128::from(self.place),
            from: self.from,
            owner: self.owner,
            files,
        }
    }

    /// Moves to where a record leads, with one record fewer that may be visited.
    fn go(&mut self, next: Option<RecordPosition>)
        requires { 0 < self.old.left }
        ensures { GoesOnTo self.old self.new next }
    {
        self.left -= 1;
        match next {
            Some(standing) => {
                self.kind = kind_number(standing.kind);
                self.place = standing.place.min(u128::from(u64::MAX)) as u64;
                self.from = standing.from;
                self.owner = standing.owner;
            }
            None => self.kind = 0,
        }
    }
}
