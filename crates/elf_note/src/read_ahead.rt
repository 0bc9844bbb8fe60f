//! Names and symbols that rows refer to, read ahead.
ghost use Rattle.std.specs.Prelude.{◌≡◌, ℕ, ◌+◌, ◌-◌, ◌*◌, ◌^◌, ◌<◌, ◌≤◌, [], length, min};
ghost use Rattle.std.specs.Prelude.{IfErr, IfOk};
ghost use Rattle.elf_model.specs.Prelude.{name_bytes, shown, slice};
ghost use Rattle.elf_record.specs.Sym.{IsSym};
ghost use Rattle.elf_table.specs.Prelude.{IsOfRead, NameRead, Searched, StringsInBounds, TableInBounds, row_at, strings_in};
ghost use Rattle.elf_note.specs.Ahead.{LosesAt, ReadsAhead, WhereAgrees};

use crate::name_index::NameIndex;
use crate::read_buffer::ReadBuffer;
use elf_record::sizes::SYMBOL_BYTES;
use elf_record::{Cause, Sym};
use elf_source::{Counted, Source};
use elf_table::{Fault, NameBuf, NameEnd, NameLimit, Table, find_nul, refused};
use std::marker::Model;

/// The largest number of bytes of names that are held.
pub(crate) const NAMES_BYTES: usize = 4096;
/// The largest number of bytes of symbols that are held: 136 symbols.
pub(crate) const SYMBOLS_BYTES: usize = 3264;
/// The number of bytes of a name that are read if it does not follow the last one.
const PIECE: u64 = 64;

/// The names and the symbols that the rows of tables refer to, read ahead. Each call adds the bytes
/// that it may read to a credit, and reads what it needs; if names or symbols follow one another it
/// reads more at once, up to 4,096 bytes, as far as the credit allows. All calls together read no
/// more than they may.
#[derive(Drop)]
pub struct ReadAhead {
    names: ReadBuffer<NAMES_BYTES>,
    symbols: ReadBuffer<SYMBOLS_BYTES>,
    credit: u64,
}

impl Model for ReadAhead {
    ghost use Rattle.elf_note.specs.Ahead.{ReadAheadState};

    ghost Value = { ReadAheadState };

    ghost view = { λ r. record { names = r.names; symbols = r.symbols; credit = r.credit } };
}

impl ReadAhead {
    /// Creates a value with nothing read and no credit.
    pub fn new() -> ReadAhead
        ensures { (result.names.bytes ≡ []) × (result.symbols.bytes ≡ []) × (result.credit ≡ 0) }
    {
        ReadAhead {
            names: ReadBuffer::new(PIECE),
            symbols: ReadBuffer::new(SYMBOL_BYTES),
            credit: 0,
        }
    }

    /// Reads the name at an index of a string table into `name`: the bytes before its NUL, or its
    /// first `cap` bytes if it has more (gABI 4, String Table). An empty string table has the empty
    /// name at index 0. Bytes that are not held are read in pieces of at most 4,096 bytes, until
    /// the first NUL is held, and never past the string table's end; `name_bytes` of the cap is
    /// added to the credit, and the bytes that are read are taken from it. After a fault the
    /// contents of `name` are unspecified, and after a fault of a read no names are held.
    ///
    /// # Errors
    /// Returns a refusal at the entry that holds the index: `NameOutside` if the index is not below
    /// the table's size, `NameUnended` if no more than `cap` bytes are left and none is a NUL;
    /// `Budget`, only if a limit is set, at the offset of the piece that exceeds it. Otherwise
    /// returns a fault of the source, at the first byte of the name that was not held.
    pub fn name<S: Source>(
        &mut self,
        src: &mut Counted<S>,
        index: NameIndex,
        cap: NameLimit,
        name: &mut NameBuf,
    ) -> Result<NameEnd, Fault>
        requires { StringsInBounds src.old.seen.size index.names }
        ensures ahead { ReadsAhead src.old src.new self.old self.new result (name_bytes cap.bytes)
            (index.names.size - index.off) }
        ensures forgets { IfErr result (λ fault. IsOfRead fault → self.new.names.bytes ≡ []) }
        ensures read { WhereAgrees src.old.seen.file self.old (λ file. NameRead index.at result
            name.new (shown (strings_in file index.names) index.off cap.bytes)) }
    {
        name.clear();
        self.credit = self.credit.saturating_add(name_cost(cap));
        let size = index.names.size();
        if size == 0 && index.off == 0 {
            return Ok(NameEnd::Whole);
        }
        if index.off >= size {
            return refused(index.at, Cause::NameOutside);
        }
        let left = size - index.off;
        let want = left.min(u64::from(cap.bytes) + 1);
        if self.search(src, index, want, cap, name)? {
            return Ok(NameEnd::Whole);
        }
        if left > u64::from(cap.bytes) {
            return Ok(NameEnd::Cut);
        }
        refused(index.at, Cause::NameUnended)
    }

    /// Reads the symbol at the index `index`, which is below `len()`, of a table with rows of 24
    /// bytes (gABI 4, Symbol Table). 24 bytes are added to the credit, and the bytes that are read,
    /// which start at the symbol, are taken from it.
    ///
    /// # Errors
    /// Returns a fault of the read, or the refusal `Budget`, at the symbol's offset. Then no
    /// symbols are held.
    pub fn symbol<S: Source>(
        &mut self,
        src: &mut Counted<S>,
        table: &Table,
        index: u64,
    ) -> Result<Sym, Fault>
        requires row { (table.now.entry ≡ 24) × (index < table.now.count) }
        requires within { TableInBounds src.old.seen.size table.now }
        ensures ahead { ReadsAhead src.old src.new self.old self.new result 24
            ((table.now.count - index) * 24) }
        ensures loses { IfErr result (LosesAt (row_at table.now index) self.new.symbols) }
        ensures read { WhereAgrees src.old.seen.file self.old (λ file.
            IfOk result (IsSym file (row_at table.now index))) }
    {
        self.credit = self.credit.saturating_add(SYMBOL_BYTES);
        let at = table.place(index);
        let end = table.at() + table.len() * table.entry();
        self.symbols
            .fill_buf(src, at, SYMBOL_BYTES, end, &mut self.credit)?;
        Ok(Sym::decode(whole(self.symbols.part(at, SYMBOL_BYTES))))
    }

    // Searches `want` bytes of a name, or fewer up to the first NUL, and adds those before it to
    // `name`, as far as `cap`. Returns whether there is a NUL.
    fn search<S: Source>(
        &mut self,
        src: &mut Counted<S>,
        index: NameIndex,
        want: u64,
        cap: NameLimit,
        name: &mut NameBuf,
    ) -> Result<bool, Fault>
        requires empty { name.old ≡ [] }
        requires few { (index.off + want ≤ index.names.size) × (want ≤ self.old.credit) }
        requires within { StringsInBounds src.old.seen.size index.names }
        ensures ahead { ReadsAhead src.old src.new self.old self.new result 0
            (index.names.size - index.off) }
        ensures loses { IfErr result (λ fault. IsOfRead fault × (self.new.names.bytes ≡ [])) }
        ensures searched { WhereAgrees src.old.seen.file self.old (λ file. Searched
            (slice file (index.names.at + index.off) want) cap.bytes result name.new) }
    {
        let end = index.names.at() + index.names.size();
        let start = index.names.at() + index.off;
        let mut done: u64 = 0;
        while done < want {
            let at = start + done;
            self.names.fill_buf(src, at, 1, end, &mut self.credit)?;
            let piece = self.names.part(at, want - done);
            if let Some(place) = find_nul(piece) {
                name.add(&piece[..place], cap);
                return Ok(true);
            }
            name.add(piece, cap);
            done += piece.len() as u64;
        }
        Ok(false)
    }
}

// Returns the bytes of a symbol as an array.
fn whole(bytes: &[u8]) -> &[u8; 24]
    requires { length bytes.now ≡ 24 }
    ensures { result.now ≡ bytes.now }
{
    bytes.first_chunk().unwrap()
}

// Returns the number of bytes that a name may read, in whole pieces of 64 bytes.
fn name_cost(cap: NameLimit) -> u64
    ensures value { result ≡ name_bytes cap.bytes }
    ensures enough { cap.bytes + 1 ≤ result }
{
    (u64::from(cap.bytes) + PIECE) / PIECE * PIECE
}
