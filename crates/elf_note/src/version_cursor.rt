//! A cursor over the records of symbol versions.
ghost use Rattle.std.specs.Prelude.{◌≡◌, ℕ, ◌+◌, ◌-◌, ◌*◌, ◌^◌, ◌<◌, ◌≤◌, List, false, Some, None, Err, IfOk, IfErr, IfSome};
ghost use Rattle.elf_table.specs.Prelude.{CallDid, IsOfRead, TableInBounds, fault_of_result};
ghost use Rattle.elf_table.specs.declared.fault.Fault.{Fault};
ghost use Rattle.elf_model.specs.Prelude.{max_records};
ghost use Rattle.elf_model.specs.declared.versions.VersionKind.TheVariants.{Need};
ghost use Rattle.elf_note.specs.Reading.{IsPositionInTable, IsCursorOf, KeepsWalk, LeavesVisited, LeavesWalk, MeetsIn};
ghost use Rattle.elf_note.specs.Reading.{StartsVersions, StepsIn, bytes_each, unread, why_stopped_now};

use crate::record::VersionRecord;
use crate::record_position::{RecordPosition, bytes_each, first, record_bytes};
use crate::record_reader::read_record;
use crate::table_buffer::TableBuffer;
use elf_record::sizes::{VERSION_DEFINITION_BYTES, VERSION_NAME_BYTES};
use elf_record::{Cause, VersionKind};
use elf_source::{Counted, Source};
use elf_table::{Fault, Table, refused};
use std::marker::Model;

/// A cursor over the records of a table of definitions, or of needs (Linux Standard Base Core,
/// Symbol Versioning). It follows the distances in the records, and reads no count. A table of at
/// most 4,096 bytes is read at once, if that is no more than its records may read: each 20 bytes
/// and 8 for its name, or 16, for as many consecutive records as fit in the table. In any other
/// table each record is read alone.
#[derive(Drop)]
pub struct VersionCursor {
    held: TableBuffer,
    standing: Option<RecordPosition>,
    left: u64,
    each: u64,
    failed: Option<Fault>,
}

impl Model for VersionCursor {
    ghost use Rattle.std.specs.Prelude.{◌≡◌, ◌+◌, ◌^◌, ◌<◌, ◌≤◌, IfSome};
    ghost use Rattle.elf_note.specs.Reading.{IsPositionInTable, VersionCursorState};

    ghost Value = { VersionCursorState };

    ghost view = { λ c. record {
      held = c.held;
      standing = c.standing;
      left = c.left;
      each = c.each;
      failed = c.failed;
    } };

    ghost invariant = { λ c. (c.held.table.at + c.held.table.count < 2 ^ 64)
        × IfSome c.standing (IsPositionInTable c.held.table.count c.each) };
}

impl VersionCursor {
    /// Creates a cursor before the first record of `table`, whose rows are single bytes and which
    /// ends within the source's length: of definitions, or of needed files with their versions. The
    /// header or tag that describes the table is at the file offset `head`; refusals point to it if
    /// there is no record at the table's first byte. The bytes read here count as those of the
    /// cursor's calls.
    ///
    /// # Errors
    /// Returns a fault of the read of the whole table, or the refusal `Budget`, at its first byte.
    pub fn new<S: Source>(
        src: &mut Counted<S>,
        kind: VersionKind,
        head: u64,
        table: Table,
    ) -> Result<VersionCursor, Fault>
        requires bytes { table.entry ≡ 1 }
        requires kind { kind ≡ Need → ⊥ }
        requires within { TableInBounds src.old.seen.size table }
        ensures did { CallDid src.old src.new (fault_of_result result)
            (max_records kind table.count * bytes_each kind)
            (λ file. IfOk result (IsCursorOf file)) }
        ensures fault { IfErr result IsOfRead }
        ensures account { IfOk result (λ c. src.new.asked + unread c
            ≤ src.old.asked + max_records kind table.count * bytes_each kind) }
        ensures starts { IfOk result (StartsVersions kind head table) }
    {
        let size = table.len();
        let left = size / record_bytes(kind);
        let each = bytes_each(kind);
        let held = TableBuffer::load(src, table, left.saturating_mul(each))?;
        Ok(VersionCursor {
            held,
            standing: first(kind, head, size),
            left,
            each,
            failed: None,
        })
    }

    /// Creates a cursor as [`VersionCursor::new`] does, but one that reads each record alone, for
    /// any size of the table: for a walk that may end before the table does. A step reads no more
    /// than its record may.
    pub fn one_by_one(kind: VersionKind, head: u64, table: Table) -> VersionCursor
        requires bytes { table.entry ≡ 1 }
        requires kind { kind ≡ Need → ⊥ }
        ensures starts { StartsVersions kind head table result }
        ensures alone { result.held.whole ≡ false }
        ensures agrees { (file : List ℕ) → IsCursorOf file result }
    {
        let size = table.len();
        VersionCursor {
            held: TableBuffer::unread(table),
            standing: first(kind, head, size),
            left: size / record_bytes(kind),
            each: bytes_each(kind),
            failed: None,
        }
    }

    /// Creates a cursor that reads each record alone, and resumes another walk over `table`, whose
    /// rows are single bytes: at most `left` records are visited.
    pub fn resumed(table: Table, standing: Option<RecordPosition>, left: u64) -> VersionCursor
        requires bytes { table.entry ≡ 1 }
        requires fits { IfSome standing (IsPositionInTable table.count 28) }
        ensures its_table { result.held.table ≡ table }
        ensures alone { result.held.whole ≡ false }
        ensures is_at { result.standing ≡ standing }
        ensures left { result.left ≡ left }
        ensures going { result.failed ≡ None }
    {
        VersionCursor {
            held: TableBuffer::unread(table),
            standing,
            left,
            each: VERSION_DEFINITION_BYTES + VERSION_NAME_BYTES,
            failed: None,
        }
    }

    /// Returns the position of the walk; `None` after the last record.
    pub fn standing(&self) -> Option<RecordPosition>
        ensures is { result ≡ self.now.standing }
        ensures fits { IfSome result (IsPositionInTable self.now.held.table.count self.now.each) }
    {
        self.standing
    }

    /// Advances to the next record, or returns `None` after the last. All calls together read no
    /// more than the consecutive records that fit in the table may.
    ///
    /// # Errors
    /// Returns a refusal if there is no valid record: `VersionCut` at the structure that led there,
    /// if the record is not in the table or as many records were visited as fit in it, and at the
    /// record whose name is not in the table; `BadVersion` at one of another layout; `VersionIndex`
    /// at one whose version index is 1,024 or more. Otherwise returns a fault of a read, or the
    /// refusal `Budget`, at the offset of the read. Each later call returns the same fault and
    /// reads nothing.
    pub fn advance<S: Source>(
        &mut self,
        src: &mut Counted<S>,
    ) -> Result<Option<VersionRecord>, Fault>
        requires { TableInBounds src.old.seen.size self.old.held.table }
        ensures did { CallDid src.old src.new (why_stopped_now self.old.failed result)
            (unread self.old - unread self.new)
            (λ file. IsCursorOf file self.old → StepsIn file self.old self.new result) }
        ensures keeps { KeepsWalk self.old self.new }
        ensures leaves { LeavesWalk self.old self.new result }
    {
        if let Some(fault) = self.failed {
            return Err(fault);
        }
        let Some(stand) = self.standing else {
            return Ok(None);
        };
        match self.meet(src, &stand) {
            Ok(record) => Ok(Some(record)),
            Err(fault) => {
                self.failed = Some(fault);
                Err(fault)
            }
        }
    }

    // Visits the next record.
    fn meet<S: Source>(
        &mut self,
        src: &mut Counted<S>,
        stand: &RecordPosition,
    ) -> Result<VersionRecord, Fault>
        requires within { TableInBounds src.old.seen.size self.old.held.table }
        requires is_at { self.old.standing ≡ Some stand.now }
        requires going { self.old.failed ≡ None }
        ensures did { CallDid src.old src.new (fault_of_result result)
            (unread self.old - unread self.new)
            (λ file. IsCursorOf file self.old → MeetsIn file self.old self.new result) }
        ensures keeps { KeepsWalk self.old self.new }
        ensures leaves { LeavesVisited self.old self.new result }
    {
        let size = self.held.table().len();
        let end = stand.place + u128::from(record_bytes(stand.kind));
        if self.left == 0 || end > u128::from(size) {
            return refused(stand.from, Cause::VersionCut);
        }
        self.left -= 1;
        let step = read_record(&self.held, src, stand)?;
        self.standing = step.next;
        Ok(step.record)
    }
}
