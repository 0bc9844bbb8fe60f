//! The checks of one section by its header.
ghost use Rattle.std.specs.Prelude.{◌≡◌, ℕ, ◌<◌, ◌≤◌, List, IfOk, IfErr, MatchResult};
ghost use Rattle.elf_model.specs.Apply.{has_no_bytes};
ghost use Rattle.elf_model.specs.Checks.{is_symbol_table};
ghost use Rattle.elf_record.specs.Shdr.{IsShdr};
ghost use Rattle.elf_table.specs.Faults.{IsOfCheck};
ghost use Rattle.elf_table.specs.Sections.{byte_rows, rows_of, table_of, string_table_of};
ghost use Rattle.elf_table.specs.Tables.{Spans, StringsInBounds};

use crate::fault::{Fault, refused};
use crate::names::Names;
use crate::ranges::is_out_of_bounds;
use crate::table::Table;
use elf_record::numbers::{SHT_DYNSYM, SHT_NOBITS, SHT_NULL, SHT_STRTAB, SHT_SYMTAB};
use elf_record::{Cause, Shdr};

/// Returns the section as a table of rows of `entry` bytes, 1 to 4,096, in a file of `size` bytes.
/// A section of size 0 is not checked. No bytes are read.
///
/// # Errors
/// Returns the first check that fails, at the offset `place`: `EntrySize` if sh_entsize is another
/// size, `SizeNotWhole` if sh_size is no multiple of it, `TableOutside` if the section ends past
/// the end of the file.
pub fn checked_table(header: &Shdr, size: u64, place: u64, entry: u64) -> Result<Table, Fault>
    requires { (0 < entry) × (entry ≤ 4096) }
    ensures value { (bytes : List ℕ) (at : ℕ) → IsShdr bytes at header.now →
        result ≡ table_of bytes at size place entry }
    ensures lies { MatchResult result (Spans size entry header.now.sh_size) IsOfCheck }
{
    if header.sh_size != 0 && header.sh_entsize != entry {
        return refused(place, Cause::EntrySize);
    }
    checked_rows(header.sh_offset, header.sh_size, entry, size, place)
}

/// Returns the `bytes` bytes at the offset `offset` as rows of `entry` bytes, in a file of `size`
/// bytes. An empty range is not checked.
///
/// # Errors
/// Returns the first check that fails, at the offset `place`: `SizeNotWhole` if `bytes` is no
/// multiple of `entry`, `TableOutside` if they end past the end of the file.
pub fn checked_rows(
    offset: u64,
    bytes: u64,
    entry: u64,
    size: u64,
    place: u64,
) -> Result<Table, Fault>
    requires { (0 < entry) × (entry ≤ 4096) }
    ensures value { result ≡ rows_of size offset bytes place entry }
    ensures lies { MatchResult result (Spans size entry bytes) IsOfCheck }
{
    if bytes == 0 {
        return Ok(Table::new(offset, 0, entry));
    }
    if bytes % entry != 0 {
        return refused(place, Cause::SizeNotWhole);
    }
    if is_out_of_bounds(size, offset, bytes) {
        return refused(place, Cause::TableOutside);
    }
    Ok(Table::new(offset, bytes / entry, entry))
}

/// Returns the `bytes` bytes at the offset `offset` as rows of one byte, in a file of `size` bytes.
/// An empty range is not checked.
///
/// # Errors
/// Returns `TableOutside` at the offset `place` if they end past the end of the file.
pub fn checked_bytes(offset: u64, bytes: u64, size: u64, place: u64) -> Result<Table, Fault>
    ensures value { result ≡ byte_rows size offset bytes place }
    ensures lies { MatchResult result (Spans size 1 bytes) IsOfCheck }
{
    if bytes != 0 && is_out_of_bounds(size, offset, bytes) {
        return refused(place, Cause::TableOutside);
    }
    Ok(Table::new(offset, bytes, 1))
}

/// Returns the section as a string table, in a file of `size` bytes. No bytes are read (gABI 4,
/// String Table).
///
/// # Errors
/// Returns the first check that fails, at the offset `place`: `NotStrings` if the section is of
/// another type, `TableOutside` if it ends past the end of the file.
pub fn checked_strings(header: &Shdr, size: u64, place: u64) -> Result<Names, Fault>
    ensures value { (bytes : List ℕ) (at : ℕ) → IsShdr bytes at header.now →
        result ≡ string_table_of bytes at size place }
    ensures within { IfOk result (StringsInBounds size) }
    ensures refusal { IfErr result IsOfCheck }
{
    if header.sh_type != SHT_STRTAB {
        return refused(place, Cause::NotStrings);
    }
    if is_out_of_bounds(size, header.sh_offset, header.sh_size) {
        return refused(place, Cause::TableOutside);
    }
    Ok(Names::new(header.sh_offset, header.sh_size))
}

/// Returns `true` if the section holds symbols, by its type: SYMTAB or DYNSYM (gABI 4, Section
/// Types).
pub fn holds_symbols(header: &Shdr) -> bool
    ensures { (file : List ℕ) (at : ℕ) → IsShdr file at header.now →
        result ≡ is_symbol_table file at }
{
    header.sh_type == SHT_SYMTAB || header.sh_type == SHT_DYNSYM
}

/// Returns `true` if the section has no bytes in the file, by its type: NOBITS or NULL (gABI 4,
/// Section Types).
pub fn has_no_bytes(header: &Shdr) -> bool
    ensures { (file : List ℕ) (at : ℕ) → IsShdr file at header.now →
        result ≡ has_no_bytes file at }
{
    header.sh_type == SHT_NOBITS || header.sh_type == SHT_NULL
}
