//! The rows of a section, after the checks of its table.
ghost use Rattle.std.specs.Prelude.{◌≡◌, ◌<◌, IfErr, min};
ghost use Rattle.elf_model.specs.Records.{section_at};
ghost use Rattle.elf_table.specs.Faults.{IsOfCheck};
ghost use Rattle.elf_capi.specs.CallOpenings.{OpensRows};
ghost use Rattle.elf_capi.specs.declared.kind.RowKind.TheVariants.{Dynamic};
ghost use Rattle.elf_capi.specs.ListedEntries.{ReadsListed};
ghost use Rattle.elf_capi.specs.TableOpenings.{OpensTable, ReadsRows, linked_names};

use crate::dynamic_table::{listed_rows, listed_within};
use crate::kind::{RowKind, holds};
use crate::limits::{CallerLimits, checked_limits};
use crate::memory_file::MemoryFile;
use crate::rows::RowPosition;
use crate::section_tables::dynamic_entries;
use elf_record::Refusal;
use elf_table::{Fault, Limits, Names, Table};

/// Checks the table of a kind that a section of a file in memory holds, with what the limits and
/// the given bytes of room allow, and returns a position before its first row; or `None` for a call
/// with a number out of range. The position is `None` if the file has no such section or it holds
/// no such rows.
///
/// With relocation entries the string table is that of the symbols that they refer to, and dynamic
/// entries are those up to and including the first DT_NULL. Only the section headers of the section
/// names, of the section, and of what it links to are read.
pub fn open_rows(
    file: &[u8],
    limits: &CallerLimits,
    room: usize,
    section: u16,
    kind: RowKind,
) -> Option<Result<Option<RowPosition>, Refusal>>
    ensures { OpensRows kind file.now limits.now room section result }
{
    let limits = checked_limits(limits, room)?;
    Some(rows_in(file, &limits, section, kind))
}

/// Checks such a table, as [`open_rows`] does.
///
/// # Errors
/// The first check that fails of those that a listing makes up to the table's first row, with the
/// given number of headers allowed.
fn rows_in(
    file: &[u8],
    limits: &Limits,
    section: u16,
    kind: RowKind,
) -> Result<Option<RowPosition>, Refusal>
    ensures { ReadsRows kind file.now limits.now.headers section result }
{
    let held = match MemoryFile::load(file, limits) {
        Ok(held) => held,
        Err(refusal) => return Err(refusal),
    };
    if section >= held.sections() || !holds(&held.section(section), kind) {
        return Ok(None);
    }
    match opened(&held, section, kind) {
        Ok(rows) => Ok(Some(rows)),
        Err(Fault::Refused(refusal)) => Err(refusal),
        // No check is a fault of the source.
        Err(Fault::Source { .. }) => Ok(None),
    }
}

/// Checks the table of dynamic entries that a section of a file in memory holds, as [`open_rows`]
/// does, if at most `most` entries have to be read to know which are listed.
///
/// # Errors
/// As for [`open_rows`], and then `Budget` if more have to be read, at the first of those.
pub fn dynamic_within(
    file: &[u8],
    limits: &Limits,
    section: u16,
    most: u64,
) -> Result<Option<RowPosition>, Refusal>
    ensures { ReadsListed (ReadsRows Dynamic file.now limits.now.headers section) most result }
{
    let held = match MemoryFile::load(file, limits) {
        Ok(held) => held,
        Err(refusal) => return Err(refusal),
    };
    if section >= held.sections() || !holds(&held.section(section), RowKind::Dynamic) {
        return Ok(None);
    }
    match dynamic_entries(&held, section) {
        Ok(found) => match listed_within(file, RowPosition::of(found.0, found.1), most) {
            Ok(rows) => Ok(Some(rows)),
            Err(refusal) => Err(refusal),
        },
        Err(Fault::Refused(refusal)) => Err(refusal),
        // No check is a fault of the source.
        Err(Fault::Source { .. }) => Ok(None),
    }
}

/// Returns the rows of a section of a file.
///
/// # Errors
/// The first check of its table that fails.
fn opened(held: &MemoryFile<'_>, section: u16, kind: RowKind) -> Result<RowPosition, Fault>
    requires { section < held.now.headers.header.e_shnum }
    ensures opens { let file = held.now.bytes.now in
        OpensTable kind file (section_at file section) result }
    ensures refusal { IfErr result IsOfCheck }
{
    match kind {
        RowKind::Symbols => {
            let (table, names) = held.loaded.symbols(&held.headers, section)?;
            Ok(RowPosition::of(table, names))
        }
        RowKind::Relocations => {
            let (table, linked) = held.loaded.relocations(&held.headers, section)?;
            Ok(RowPosition::of(table, names_of(linked)))
        }
        RowKind::Dynamic => {
            let (table, names) = dynamic_entries(held, section)?;
            Ok(listed_rows(held.bytes, RowPosition::of(table, names)))
        }
        RowKind::VersionWords => {
            let (table, symbols) = held.loaded.symbol_versions(&held.headers, section)?;
            Ok(words_of(table, symbols))
        }
    }
}

/// Returns the version entries of the given number of symbols, as far as there are any.
fn words_of(words: Table, symbols: u64) -> RowPosition
    ensures { result ≡ record {
      at = words.at;
      count = min words.count symbols;
      index = 0;
      entry = words.entry;
      strings_at = 0;
      strings_len = 0;
    } }
{
    let mut rows = RowPosition::of(words, Names::new(0, 0));
    rows.count = rows.count.min(symbols);
    rows
}

/// Returns the string table of symbols; no bytes if there are no symbols.
fn names_of(symbols: Option<(Table, Names)>) -> Names
    ensures { result ≡ linked_names symbols }
{
    match symbols {
        Some((_, names)) => names,
        None => Names::new(0, 0),
    }
}
