//! The lines of a file header and of a refusal.
ghost use Rattle.std.specs.Prelude.{◌≡◌, ℕ, ◌+◌, ◌≤◌, ◌++◌, List, length, IfSome, codes, decimal, option_copied};
ghost use Rattle.arrayvec.specs.ArrayVec.{array_vec_len};
ghost use Rattle.elf_model.specs.Prelude.{cause_meaning, cause_word, entry_words, fault_row_text, file_types, header_line, name_of, refusal_line, refusal_line_in, told_line};
ghost use Rattle.elf_model.specs.Lines.{fault_line};
ghost use Rattle.elf_record.specs.Ehdr.{IsEhdr};
ghost use Rattle.elf_source.specs.Output.{OutPuts};

use crate::columns::{LineBuf, line_of, put};
use crate::fields::{begin, put_closing, put_half, put_hex_field, put_name_or_hex, put_text};
use crate::name_tables::name_of;
use crate::render::{Columns, Json, Render};
use crate::short_hexadecimal::put_short_hex;
use elf_model::{FaultRow, Format};
use elf_record::numbers::{ET_CORE, ET_DYN, ET_EXEC, ET_NONE, ET_REL};
use elf_record::{Cause, Ehdr, Refusal};
use elf_source::{Out, OutFault, Sink};
use itoa::Buffer;

/// Returns the `H` line of a file header: type, machine, entry point, the offsets of the program
/// headers and the section headers, flags, their numbers, and the section of the section names
/// (gABI 4, ELF Header).
#[tactic(auto, unfolding(elf_model::specs::Lines::header_line))]
pub fn header_row<R: Render>(header: &Ehdr) -> LineBuf
    ensures { (file : List ℕ) → IsEhdr file 0 header.now →
        result.items ≡ header_line R.FORMAT file }
{
    let kind = u64::from(header.e_type);
    let mut line = LineBuf::new();
    begin::<R>(&mut line, b"H");
    put_name_or_hex::<R>(&mut line, b"type", 4, 4, file_type_name(kind), kind);
    put_half::<R>(&mut line, b"machine", header.e_machine, b' ');
    put_hex_field::<R>(&mut line, b"entry", 16, 12, header.e_entry, b' ');
    put_hex_field::<R>(&mut line, b"phoff", 16, 9, header.e_phoff, b' ');
    put_hex_field::<R>(&mut line, b"shoff", 16, 9, header.e_shoff, b' ');
    put_hex_field::<R>(&mut line, b"flags", 8, 8, u64::from(header.e_flags), b' ');
    put_half::<R>(&mut line, b"phnum", header.e_phnum, b' ');
    put_half::<R>(&mut line, b"shnum", header.e_shnum, b' ');
    put_half::<R>(&mut line, b"shstrndx", header.e_shstrndx, b'\n');
    put_closing::<R>(&mut line);
    line
}

/// Returns the `!` line of a fault: the file offset that it points to, and the word for its cause.
pub(crate) fn fault_row<R: Render>(at: u64, cause: &str) -> LineBuf
    requires { length cause.now ≤ 18 }
    ensures { result.items ≡ fault_line R.FORMAT at cause.now }
{
    let mut line = LineBuf::new();
    begin::<R>(&mut line, b"!");
    put_hex_field::<R>(&mut line, b"place", 16, 9, at, b' ');
    put_text::<R>(&mut line, b"cause", 0, cause.as_bytes(), b'\n');
    put_closing::<R>(&mut line);
    line
}

/// Returns the `!` line of a fault in a table: the file offset that it points to, the row that it
/// is in, and what its cause means.
#[tactic(auto, unfolding(elf_model::specs::Lines::told_line, elf_model::specs::Text::right_in))]
pub(crate) fn meaning_row(at: u64, row: FaultRow, meaning: &str) -> LineBuf
    requires { length meaning.now ≤ 80 }
    ensures { result.items ≡ told_line at (fault_row_text row ++ meaning.now) }
{
    let mut line = line_of(b"! 0x");
    put_short_hex(&mut line, 0, b"", at, b':');
    put(&mut line, b" ");
    put_fault_row(&mut line, row);
    put(&mut line, meaning.as_bytes());
    put(&mut line, b"\n");
    line
}

/// Appends the row that a fault is in, in words; nothing if it is not known.
#[tactic(auto, unfolding(elf_model::specs::Lines::fault_row_text))]
fn put_fault_row(line: &mut LineBuf, row: FaultRow)
    requires { array_vec_len line.old + 64 ≤ 256 }
    ensures items { line.new.items ≡ line.old.items ++ fault_row_text row }
    ensures len { array_vec_len line.new ≤ array_vec_len line.old + 64 }
{
    match row {
        FaultRow::NoRow => {}
        FaultRow::FileHeader => put(line, b"file header: "),
        FaultRow::SectionHeader(index) => put_header(line, b"section header ", index),
        FaultRow::ProgramHeader(index) => put_header(line, b"program header ", index),
        FaultRow::Section(index, entry) => put_entry(line, b"section ", index, entry),
        FaultRow::Segment(index, entry) => put_entry(line, b"segment ", index, entry),
    }
}

/// Appends the kind of a header and its index.
fn put_header(line: &mut LineBuf, kind: &[u8], index: u16)
    requires room { array_vec_len line.old + 64 ≤ 256 }
    requires short { length kind.now ≤ 15 }
    ensures items { line.new.items
        ≡ line.old.items ++ (kind.now ++ decimal index ++ codes ": ") }
    ensures len { array_vec_len line.new ≤ array_vec_len line.old + 64 }
{
    put(line, kind);
    put(line, Buffer::new().format(index).as_bytes());
    put(line, b": ");
}

/// Appends what a table is in, its index, and the number of an entry if one is given.
#[tactic(auto, unfolding(elf_model::specs::Lines::entry_words))]
fn put_entry(line: &mut LineBuf, kind: &[u8], index: u16, entry: Option<u64>)
    requires room { array_vec_len line.old + 64 ≤ 256 }
    requires short { length kind.now ≤ 15 }
    ensures items { line.new.items
        ≡ line.old.items ++ (kind.now ++ decimal index ++ entry_words entry ++ codes ": ") }
    ensures len { array_vec_len line.new ≤ array_vec_len line.old + 64 }
{
    put(line, kind);
    put(line, Buffer::new().format(index).as_bytes());
    if let Some(number) = entry {
        put(line, b", entry ");
        put(line, Buffer::new().format(number).as_bytes());
    }
    put(line, b": ");
}

/// Writes the line of a refusal whose row is not known, as [`show_refusal_in`] does.
///
/// # Errors
/// Returns a fault of the output; a prefix of the line was written.
pub fn show_refusal<W: Sink>(
    refusal: Refusal,
    format: Format,
    out: &mut Out<W>,
) -> Result<(), OutFault>
    ensures puts { OutPuts out.old out.new result (refusal_line format refusal) }
{
    show_refusal_in(refusal, FaultRow::NoRow, format, out)
}

/// Writes the line of a refusal: `!`, the file offset that it points to in 16 hexadecimal digits,
/// and the word for its cause; or these as an object; or in a table the row that it is in and what
/// the cause means.
///
/// # Errors
/// Returns a fault of the output; a prefix of the line was written.
#[tactic(auto, unfolding(elf_model::specs::Lines::refusal_line_in))]
pub fn show_refusal_in<W: Sink>(
    refusal: Refusal,
    row: FaultRow,
    format: Format,
    out: &mut Out<W>,
) -> Result<(), OutFault>
    ensures puts { OutPuts out.old out.new result (refusal_line_in format row refusal) }
{
    match format {
        Format::Columns => out.put(&fault_row::<Columns>(refusal.at, cause_word(refusal.cause))),
        Format::Object => out.put(&fault_row::<Json>(refusal.at, cause_word(refusal.cause))),
        Format::Table => out.put(&meaning_row(refusal.at, row, cause_meaning(refusal.cause))),
    }
}

/// Returns the word for a cause in a listing.
#[tactic(auto, unfolding(elf_model::specs::Causes::cause_word))]
pub fn cause_word(cause: Cause) -> &'static str
    ensures word { result.now ≡ cause_word cause }
    ensures short { length result.now ≤ 18 }
{
    CAUSE_WORDS[cause as usize]
}

/// The words for the causes, in the order of `Cause`.
const CAUSE_WORDS: [&str; 40] = [
    "short",
    "not-elf",
    "class",
    "data",
    "version",
    "extended-numbering",
    "too-many-headers",
    "entry-size",
    "table-outside",
    "bad-link",
    "not-strings",
    "size-not-whole",
    "name-outside",
    "name-unended",
    "note-cut",
    "no-hash",
    "hash-shape",
    "hash-index",
    "hash-cycle",
    "unsupported",
    "overflow",
    "not-rel",
    "unplaced",
    "undefined",
    "place-outside",
    "symbol-index",
    "too-long",
    "budget",
    "unmapped",
    "thin",
    "not-archive",
    "member-cut",
    "version-cut",
    "version-index",
    "load-overlap",
    "relr",
    "not-image",
    "load-align",
    "repeat",
    "table-written",
];

/// Returns what a cause means, in plain words.
#[tactic(auto, unfolding(elf_model::specs::Causes::cause_meaning))]
fn cause_meaning(cause: Cause) -> &'static str
    ensures meaning { result.now ≡ cause_meaning cause }
    ensures short { length result.now ≤ 80 }
{
    CAUSE_MEANINGS[cause as usize]
}

/// What the causes mean, in the order of `Cause`.
const CAUSE_MEANINGS: [&str; 40] = [
    "the file is shorter than a file header",
    "not an ELF file",
    "not a 64-bit file",
    "not a little-endian file",
    "the version is not 1",
    "a count is stored in section 0, which is not read",
    "more headers than --headers allows",
    "the entries of the table do not have the standard's size",
    "the table extends past the end of the file",
    "the index names no section, or none of the type needed",
    "the section is not a string table",
    "the size of the table is not a multiple of its entries' size",
    "the name begins after the end of its string table",
    "the name does not end before the end of its string table",
    "the table of notes ends within a note",
    "the file has no hash table",
    "the hash table has no room for what its counts say",
    "the hash table names no symbol",
    "a chain of the hash table does not end",
    "the type is not supported",
    "the value does not fit (relocation truncated to fit)",
    "not a relocatable file for x86-64",
    "the section of the symbol has no address",
    "the symbol has no value (undefined reference)",
    "the place is not in the section",
    "the symbol table has no such symbol",
    "the file has 2^63 bytes or more",
    "--max-read does not suffice",
    "no LOAD segment contains the table",
    "a thin archive: the members are in other files",
    "not an archive",
    "there is no member of an archive",
    "the table of versions ends before the record",
    "no record names the version",
    "a LOAD segment begins on a page of the previous one, or below it",
    "no address precedes the word, or its addresses end past 2^64",
    "not a program or a shared library for x86-64",
    "a LOAD segment is not in whole pages at its address",
    "a second dynamic entry with the tag",
    "a relocation would change the tables of relocations",
];

/// Returns the name of an object file type.
fn file_type_name(kind: u64) -> Option<&'static str>
    ensures name { option_copied result ≡ name_of file_types kind }
    ensures short { IfSome result (λ name. length name.now ≤ 4) }
{
    name_of(&FILE_TYPES, kind)
}

/// The object file types (gABI 4, ELF Header).
const FILE_TYPES: [(u64, &str); 5] = [
    (ET_NONE as u64, "NONE"),
    (ET_REL as u64, "REL"),
    (ET_EXEC as u64, "EXEC"),
    (ET_DYN as u64, "DYN"),
    (ET_CORE as u64, "CORE"),
];
