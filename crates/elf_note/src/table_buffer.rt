//! The bytes of a table of symbol versions.
ghost use Rattle.std.specs.Prelude.{◌≡◌, ℕ, ◌+◌, ◌^◌, ◌≤◌, ◌<◌, List, length, false, IfOk, MatchResult, None};
ghost use Rattle.elf_model.specs.Bytes.{slice};
ghost use Rattle.elf_table.specs.Prelude.{CallDid, IsOfRead, TableInBounds, fault_of_result};
ghost use Rattle.elf_note.specs.Reading.{DidHeld, GivesBytes, HasUpTo, IsHeldOf, unheld};

use elf_source::{Counted, Source};
use elf_table::{Fault, Table, fill};
use std::marker::Model;

/// The largest number of bytes of a table that are held.
pub const VERSIONS_BUFFER_BYTES: usize = 4096;

/// The bytes of a table whose rows are single bytes: all of them are held, or none.
#[derive(Drop)]
pub(crate) struct TableBuffer {
    table: Table,
    whole: bool,
    bytes: [u8; VERSIONS_BUFFER_BYTES],
}

impl Model for TableBuffer {
    ghost use Rattle.std.specs.Prelude.{◌≡◌, ◌+◌, ◌^◌, ◌<◌, ◌≤◌, true, take};
    ghost use Rattle.elf_note.specs.Reading.{BufferedTable};

    ghost Value = { BufferedTable };

    ghost view = { λ t. record {
      table = t.table;
      whole = t.whole;
      bytes = take t.table.count t.bytes;
    } };

    ghost invariant = { λ t. (t.table.entry ≡ 1) × (t.table.at + t.table.count < 2 ^ 64)
        × (t.whole ≡ true → t.table.count ≤ 4096) };
}

impl TableBuffer {
    /// Reads the bytes of `table`, which ends within the source's length. It reads all at once if
    /// they are at most `most` and at most 4,096, and otherwise nothing.
    ///
    /// # Errors
    /// Returns a fault of the read, or the refusal `Budget`, at the table's first byte.
    pub(crate) fn load<S: Source>(
        src: &mut Counted<S>,
        table: Table,
        most: u64,
    ) -> Result<TableBuffer, Fault>
        requires bytes { table.entry ≡ 1 }
        requires within { TableInBounds src.old.seen.size table }
        ensures did { CallDid src.old src.new (fault_of_result result) most
            (λ file. IfOk result (IsHeldOf file)) }
        ensures holds { MatchResult result (λ held. (held.table ≡ table)
            × (src.new.asked + unheld held most ≤ src.old.asked + most)) IsOfRead }
    {
        let _ = table.entry();
        let size = table.len();
        if size > most || size > VERSIONS_BUFFER_BYTES as u64 {
            return Ok(TableBuffer::unread(table));
        }
        let mut bytes = [0; VERSIONS_BUFFER_BYTES];
        if size > 0 {
            fill(src, table.at(), &mut bytes[..size as usize])?;
        }
        Ok(TableBuffer {
            table,
            whole: true,
            bytes,
        })
    }

    /// Creates a buffer of `table` that holds none of its bytes.
    pub(crate) fn unread(table: Table) -> TableBuffer
        requires { table.entry ≡ 1 }
        ensures its_table { result.table ≡ table }
        ensures none { result.whole ≡ false }
    {
        let _ = table.entry();
        TableBuffer {
            table,
            whole: false,
            bytes: [0; VERSIONS_BUFFER_BYTES],
        }
    }

    /// Returns the table.
    pub(crate) fn table(&self) -> Table
        ensures is { result ≡ self.now.table }
        ensures bytes { self.now.table.entry ≡ 1 }
        ensures ends { self.now.table.at + self.now.table.count < 2 ^ 64 }
    {
        self.table
    }

    /// Fills `out`, at most 4,096 bytes, with the table's bytes at a place: without a read if they
    /// are held, otherwise by one.
    ///
    /// # Errors
    /// Returns a fault of the read, or the refusal `Budget`, at the first of these bytes. Then the
    /// contents of `out` are unspecified.
    pub(crate) fn read<S: Source>(
        &self,
        src: &mut Counted<S>,
        place: u64,
        out: &mut [u8],
    ) -> Result<(), Fault>
        requires has { HasUpTo src.old.seen.size self.now (place + length out.old) }
        requires small { length out.old ≤ 4096 }
        requires some { 0 < length out.old }
        ensures did { DidHeld src.old src.new self.now result (length out.old) (λ file.
            GivesBytes (slice file (self.now.table.at + place) (length out.old)) out.new result) }
    {
        if self.whole {
            let end = place as usize + out.len();
            out.copy_from_slice(&self.bytes[place as usize..end]);
            return Ok(());
        }
        fill(src, self.table.at() + place, out)
    }
}
