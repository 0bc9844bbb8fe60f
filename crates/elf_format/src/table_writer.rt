//! A writer that turns the lines of a listing into a table.
ghost use Rattle.std.specs.Prelude.{◌≡◌, ◌+◌, ◌<◌, ◌≤◌, ◌++◌, true, false, None, List, [], length, take, slice_index, IfOk, OnOk};
ghost use Rattle.std.specs.Io.KnownBytes.{Appends, WriteAppends, append_known};
ghost use Rattle.std.specs.Io.{WritesAtMost};
ghost use Rattle.elf_model.specs.TableTexts.{before_line, state_at_end, table_from, table_start};
ghost use Rattle.elf_model.specs.Prelude.{name_of, headings};
ghost use Rattle.std.specs.Prelude.{option_copied};
ghost use Rattle.elf_format.specs.TableWriters.{HasNoInnerNewline, Renders, is_table, with_rows};

use crate::name_tables::name_of;
use arrayvec::ArrayVec;
use elf_model::{Format, LinePlace, TableState};
use elf_source::{Out, OutFault, WriteSink};
use std::io::{self, Error, ErrorKind, Write};
use std::marker::Model;

/// How many bytes of rows are collected before they are written.
const ROWS_BYTES: usize = 4_096;

/// Rows of a table that are not yet written.
type Rows = ArrayVec<u8, ROWS_BYTES>;

/// A writer over another, which writes lines as a table, or as they are: in a table a line has no
/// letter, and before a line of another letter come an empty line and the names of its columns.
#[derive(Drop)]
pub struct TableWriter<W: Write> {
    out: Out<WriteSink<W>>,
    is_table: bool,
    state: TableState,
}

impl<W: Write> Model for TableWriter<W> {
    ghost use Rattle.elf_format.specs.TableWriters.{TableWriting};

    ghost Value = { TableWriting };

    ghost view = { λ s. record { below = s.out.taken; is_table = s.is_table; state = s.state } };
}

impl<W: Write> TableWriter<W> {
    /// Creates a writer of lines of a format over `writer`, before the first line.
    pub fn new(writer: W, format: Format) -> Self
        ensures below { result.below ≡ W.contents writer }
        ensures kind { result.is_table ≡ is_table format }
        ensures state { result.state ≡ table_start }
    {
        TableWriter {
            out: Out::new(WriteSink::new(writer)),
            is_table: matches!(format, Format::Table),
            state: TableState {
                place: LinePlace::Letter,
                letter: 0,
            },
        }
    }

    /// Writes bytes, in a table as what they become.
    ///
    /// # Errors
    /// A fault of the writer below.
    fn put(&mut self, bytes: &[u8]) -> Result<(), OutFault>
        ensures { OnOk result (Renders self.old self.new bytes.now) }
    {
        if self.is_table {
            return self.put_rows(bytes);
        }
        self.out.put(bytes)
    }

    /// Writes what bytes of a table become, in pieces of at most `ROWS_BYTES`; a line that is longer
    /// is a piece of its own.
    ///
    /// # Errors
    /// A fault of the writer below.
    fn put_rows(&mut self, bytes: &[u8]) -> Result<(), OutFault>
        requires { self.old.is_table ≡ true }
        ensures { OnOk result (Renders self.old self.new bytes.now) }
    {
        let mut rows = Rows::new();
        let mut done = 0;
        while done < bytes.len() {
            done += self.put_next(&bytes[done..], &mut rows)?;
        }
        self.out.put(&rows)
    }

    /// Adds to the rows what the first bytes of a table become, at most those of one line; returns
    /// how many these are. Rows that leave no space are written before.
    ///
    /// # Errors
    /// A fault of the writer below.
    fn put_next(&mut self, bytes: &[u8], rows: &mut Rows) -> Result<usize, OutFault>
        requires some { 0 < length bytes.now }
        requires kind { self.old.is_table ≡ true }
        ensures within { IfOk result (λ count. (0 < count) × (count ≤ length bytes.now)) }
        ensures puts { IfOk result (λ count. Renders (with_rows self.old rows.old.items)
            (with_rows self.new rows.new.items) (take count bytes.now)) }
    {
        match self.state.place {
            LinePlace::Letter => {
                begin_line(self.state.letter, bytes[0], rows, &mut self.out)?;
                self.state.place = LinePlace::Space;
                self.state.letter = bytes[0];
                Ok(1)
            }
            LinePlace::Space => {
                self.state.place = LinePlace::Fields;
                Ok(1)
            }
            LinePlace::Fields => {
                let count = line_end(bytes);
                add(&bytes[..count], rows, &mut self.out)?;
                if bytes[count - 1] == b'\n' {
                    self.state.place = LinePlace::Letter;
                }
                Ok(count)
            }
        }
    }
}

/// Adds to the rows what comes before a line of a letter.
///
/// # Errors
/// A fault of the output.
#[tactic(auto, using(crate::proofs::TableLaws::appends_nothing, crate::proofs::TableLaws::appends_more))]
fn begin_line<W: Write>(
    last: u8,
    letter: u8,
    rows: &mut Rows,
    out: &mut Out<WriteSink<W>>,
) -> Result<(), OutFault>
    ensures { OnOk result (Appends (append_known out.old.taken rows.old.items)
        (append_known out.new.taken rows.new.items) (before_line last letter)) }
{
    if letter == last {
        return Ok(());
    }
    if last != 0 {
        add(b"\n", rows, out)?;
    }
    if let Some(names) = column_names(letter) {
        add(names.as_bytes(), rows, out)?;
        add(b"\n", rows, out)?;
    }
    Ok(())
}

/// Adds bytes to the rows. If they do not fit, the rows are written first; if they do not fit then,
/// they are written as well.
///
/// # Errors
/// A fault of the output.
fn add<W: Write>(bytes: &[u8], rows: &mut Rows, out: &mut Out<WriteSink<W>>) -> Result<(), OutFault>
    ensures { OnOk result (Appends (append_known out.old.taken rows.old.items)
        (append_known out.new.taken rows.new.items) bytes.now) }
{
    if rows.try_extend_from_slice(bytes).is_ok() {
        return Ok(());
    }
    out.put(rows)?;
    rows.clear();
    if rows.try_extend_from_slice(bytes).is_ok() {
        return Ok(());
    }
    out.put(bytes)
}

/// Returns the length of the line at the beginning of some bytes, with its newline; or of all bytes
/// if no line ends in them.
fn line_end(bytes: &[u8]) -> usize
    requires { 0 < length bytes.now }
    ensures within { (0 < result) × (result ≤ length bytes.now) }
    ensures one { HasNoInnerNewline bytes.now result }
{
    let mut end = 0;
    while end + 1 < bytes.len() && bytes[end] != b'\n' {
        end += 1;
    }
    end + 1
}

impl<W: Write> Write for TableWriter<W> {
    /// Writes all of `buf`, in a table as what it becomes.
    fn write(&mut self, buf: &[u8]) -> io::Result<usize>
        ensures bound { WritesAtMost result buf.now }
        ensures bytes { WriteAppends None None result buf.now }
        ensures all { IfOk result (λ count. count ≡ length buf.now) }
        ensures renders { OnOk result (Renders self.old self.new buf.now) }
    {
        match self.put(buf) {
            Ok(()) => Ok(buf.len()),
            Err(_) => Err(Error::from(ErrorKind::Other)),
        }
    }

    fn flush(&mut self) -> io::Result<()> {
        Ok(())
    }
}

/// Returns the names of the columns of the lines of a letter, if they have columns.
fn column_names(letter: u8) -> Option<&'static str>
    ensures { option_copied result ≡ name_of headings letter }
{
    name_of(&HEADINGS, u64::from(letter))
}

/// The names of the columns, by the letters of their lines.
const HEADINGS: [(u64, &str); 17] = [
    (
        b'H' as u64,
        "type machine      entry     phoff     shoff    flags phnum shnum shstrndx",
    ),
    (
        b'S' as u64,
        "index type          flags             address    offset      size link  info name",
    ),
    (
        b'P' as u64,
        "index type     permissions offset   vaddr        paddr    filesz     memsz align",
    ),
    (
        b'Y' as u64,
        "table      index        value      size type    binding visibility place name",
    ),
    (
        b'R' as u64,
        "table    offset type                   symbol    addend name",
    ),
    (b'N' as u64, "index     type namesz descsz name descriptor"),
    (b'D' as u64, "index tag                     value string"),
    (b'V' as u64, "index kind number flags    hash name"),
    (b'X' as u64, "table      index number hidden name"),
    (b'F' as u64, "answer      steps"),
    (b'A' as u64, "index    offset      size name"),
    (b'C' as u64, "state            place cause          path"),
    (
        b'T' as u64,
        "kind   relro   stack pages text  cet       canary fortify rpath   path",
    ),
    (b'L' as u64, "index name [by] path"),
    (b'I' as u64, "state    path"),
    (b'U' as u64, "object provider state version"),
    (
        b'B' as u64,
        "object    symbol state  definer definition name",
    ),
];
