//! The dynamic entries that say how a file is relocated.
ghost use Rattle.std.specs.Prelude.{◌≡◌, ◌+◌, ◌*◌, ◌/◌, ◌^◌, ◌<◌, ◌≤◌, ℕ, List, IfOk, None, is_some};
ghost use Rattle.elf_model.specs.ImageChecks.{repeat_checks};
ghost use Rattle.elf_model.specs.Records.{d_tag, p_filesz, p_offset};
ghost use Rattle.elf_model.specs.Tables.{DYNAMIC_SIZE};
ghost use Rattle.elf_record.specs.Dyn.{IsDyn};
ghost use Rattle.elf_table.specs.Prelude.{CallDid, TableInBounds, fault_of_result, size_of};
ghost use Rattle.elf_hash.specs.Entries.{entry_here, first_entry};
ghost use Rattle.elf_image.specs.Located.{AreImageRows, found_rows, row_in, rows_with};
ghost use Rattle.elf_image.specs.Relocated.{ReadsAfter};

use elf_hash::{DynEntry, TableEntries};
use elf_note::{dynamic_rows, entry_in};
use elf_record::gnu_numbers::{DT_RELACOUNT, DT_RELR, DT_RELRENT, DT_RELRSZ};
use elf_record::numbers::{
    DT_FLAGS, DT_JMPREL, DT_PLTREL, DT_PLTRELSZ, DT_REL, DT_RELA, DT_RELAENT, DT_RELASZ, DT_RELENT,
    DT_RELSZ, DT_SYMTAB, DT_TEXTREL,
};
use elf_record::{Cause, Dyn};
use elf_source::{Counted, Source};
use elf_table::{Fault, Row, Table, refused};

/// The entry with each of the tags that say how a file is relocated, if there is one.
#[derive(Clone, Copy)]
pub(crate) struct ImageRows {
    /// DT_RELR, DT_RELRSZ, DT_RELRENT.
    pub(crate) compact: TableEntries,
    /// DT_REL, DT_RELSZ, DT_RELENT.
    pub(crate) plain: TableEntries,
    /// DT_RELA, DT_RELASZ, DT_RELAENT.
    pub(crate) addends: TableEntries,
    /// DT_JMPREL, DT_PLTRELSZ, DT_PLTREL.
    pub(crate) calls: TableEntries,
    /// DT_SYMTAB.
    pub(crate) symbols: Option<DynEntry>,
    /// DT_TEXTREL.
    pub(crate) text: Option<DynEntry>,
    /// DT_FLAGS.
    pub(crate) flags: Option<DynEntry>,
    /// DT_RELACOUNT.
    pub(crate) relative: Option<DynEntry>,
    /// How many entries were read.
    pub(crate) count: u64,
}

/// Iterates over the dynamic entries of a table, up to and including the first DT_NULL, and returns
/// the entry with each of the tags. It reads each byte of the table at most once.
///
/// # Errors
/// Returns `Repeat` at the first entry with one of the tags that an entry before it has; a fault of
/// a read, or the refusal `Budget`, at an entry's offset.
pub(crate) fn image_rows<S: Source>(src: &mut Counted<S>, table: Table) -> Result<ImageRows, Fault>
    requires rows { table.entry ≡ 16 }
    requires within { TableInBounds src.old.seen.size table }
    ensures did { CallDid src.old src.new (fault_of_result result) (size_of table)
        (λ file. (at : ℕ) → table.at ≡ p_offset file at →
        table.count ≡ p_filesz file at / DYNAMIC_SIZE →
        ReadsAfter (repeat_checks file at) (AreImageRows file at) result) }
    ensures few { IfOk result (λ rows. rows.count < 2 ^ 60) }
{
    let _ = table.entry();
    let mut rows = no_rows();
    let mut cursor = dynamic_rows(table);
    'entries: while cursor.advance(src)? {
        let row = cursor.row();
        let entry = entry_in(&row);
        if is_repeated(&rows, tag_of(&entry)) {
            return refused(row.at, Cause::Repeat);
        }
        rows = with_row(&rows, &row, &entry);
    }
    Ok(rows)
}

/// Returns no entries.
pub(crate) fn no_rows() -> ImageRows
    ensures count { result.count ≡ 0 }
    ensures none { (tag : ℕ) → row_in (found_rows result) tag ≡ None }
{
    let none = TableEntries {
        address: None,
        size: None,
        row: None,
    };
    ImageRows {
        compact: none,
        plain: none,
        addends: none,
        calls: none,
        symbols: None,
        text: None,
        flags: None,
        relative: None,
        count: 0,
    }
}

/// Returns the tag of an entry.
fn tag_of(entry: &Dyn) -> u64
    ensures { (file : List ℕ) (at : ℕ) → IsDyn file at entry.now → result ≡ d_tag file at }
{
    entry.d_tag.cast_unsigned()
}

/// Returns `true` if there is an entry with a tag among those that were read.
fn is_repeated(rows: &ImageRows, tag: u64) -> bool
    ensures { result ≡ is_some (row_in (found_rows rows.now) tag) }
{
    row_of(rows, tag).is_some()
}

/// Returns the entry with one of the tags, if it was read.
#[tactic(auto, unfolding(crate::specs::Located::row_in))]
fn row_of(rows: &ImageRows, tag: u64) -> Option<DynEntry>
    ensures { result ≡ row_in (found_rows rows.now) tag }
{
    match tag {
        DT_PLTRELSZ => rows.calls.size,
        DT_SYMTAB => rows.symbols,
        DT_RELA => rows.addends.address,
        DT_RELASZ => rows.addends.size,
        DT_RELAENT => rows.addends.row,
        DT_REL => rows.plain.address,
        DT_RELSZ => rows.plain.size,
        DT_RELENT => rows.plain.row,
        DT_PLTREL => rows.calls.row,
        DT_TEXTREL => rows.text,
        DT_JMPREL => rows.calls.address,
        DT_FLAGS => rows.flags,
        DT_RELRSZ => rows.compact.size,
        DT_RELR => rows.compact.address,
        DT_RELRENT => rows.compact.row,
        DT_RELACOUNT => rows.relative,
        _ => None,
    }
}

/// Returns the entries, with one more after those that were read.
fn with_row(rows: &ImageRows, row: &Row<'_>, entry: &Dyn) -> ImageRows
    requires { row.now.index < 2 ^ 60 }
    ensures count { result.count ≡ row.now.index + 1 }
    ensures rows { (file : List ℕ) → IsDyn file row.now.at entry.now →
        found_rows result ≡ rows_with file row.now.at (found_rows rows.now) }
{
    let at = row.at;
    ImageRows {
        compact: with_table_row(&rows.compact, (DT_RELR, DT_RELRSZ, DT_RELRENT), at, entry),
        plain: with_table_row(&rows.plain, (DT_REL, DT_RELSZ, DT_RELENT), at, entry),
        addends: with_table_row(&rows.addends, (DT_RELA, DT_RELASZ, DT_RELAENT), at, entry),
        calls: with_table_row(&rows.calls, (DT_JMPREL, DT_PLTRELSZ, DT_PLTREL), at, entry),
        symbols: first_of(rows.symbols, DT_SYMTAB, at, entry),
        text: first_of(rows.text, DT_TEXTREL, at, entry),
        flags: first_of(rows.flags, DT_FLAGS, at, entry),
        relative: first_of(rows.relative, DT_RELACOUNT, at, entry),
        count: row.index + 1,
    }
}

/// Returns the entries of a table, with one more after those that were read; `tags` are those of
/// the address, of the size and of the rows.
fn with_table_row(rows: &TableEntries, tags: (u64, u64, u64), at: u64, entry: &Dyn) -> TableEntries
    ensures { (file : List ℕ) → IsDyn file at entry.now → result ≡ record {
      address = first_entry rows.now.address (entry_here file at tags.0);
      size = first_entry rows.now.size (entry_here file at tags.1);
      row = first_entry rows.now.row (entry_here file at tags.2);
    } }
{
    TableEntries {
        address: first_of(rows.address, tags.0, at, entry),
        size: first_of(rows.size, tags.1, at, entry),
        row: first_of(rows.row, tags.2, at, entry),
    }
}

/// Returns an entry that was found before, or this one if it has the tag.
fn first_of(found: Option<DynEntry>, tag: u64, at: u64, entry: &Dyn) -> Option<DynEntry>
    ensures { (file : List ℕ) → IsDyn file at entry.now →
        result ≡ first_entry found (entry_here file at tag) }
{
    if found.is_none() && tag_of(entry) == tag {
        return Some(DynEntry {
            at,
            value: entry.d_un,
        });
    }
    found
}
