//! The relative relocations of sections.
ghost use Rattle.std.specs.Prelude.{◌≡◌, ◌<◌, ◌≤◌, ◌+◌, ◌*◌, ◌/◌, ◌%◌, ◌^◌, ◌==◌, true, None, IfSome};
ghost use Rattle.elf_model.specs.Prelude.{base_after};
ghost use Rattle.elf_listing.specs.Choosing.{ShowsRows};
ghost use Rattle.elf_listing.specs.HeadersListed.{ListsHeader};
ghost use Rattle.elf_listing.specs.Parts.{relative_part};
ghost use Rattle.elf_listing.specs.RelativeListed.{ListsAddress, ListsBit, ListsBits, ListsWord};
ghost use Rattle.elf_listing.specs.RowLayouts.{relr_layout};
ghost use Rattle.elf_listing.specs.TableRows.{BeginsTable, IsTableOf, ListsRows};

use crate::listing::Listing;
use crate::row_cursor::RowCursor;
use crate::row_places::place_of_relr;
use crate::row_selection::{AllRows, RowSelection, SelectedRows};
use elf_format::{Columns, Json, LinePrefix, Render, Tabular, relr_prefix};
use elf_model::Format;
use elf_record::gnu_numbers::SHT_RELR;
use elf_record::sizes::RELR_BYTES;
use elf_record::{Cause, Refusal, u64_at};
use elf_source::{Sink, Source};
use elf_table::{Cursor, NameEnd, RunFault, Table};

/// The last address of eight bytes that end at 2^64.
const MAX_ADDRESS: u128 = 0xffff_ffff_ffff_fff8;
/// The number of bits of a bitmap, after its lowest one.
const BITMAP_BITS: u32 = 63;
/// The number of bytes in memory that a bitmap is about.
const BITMAP_BYTES: u128 = 504;

/// A word of relative relocations, an address or a bitmap (gABI 4, Relative Relocation Table).
#[derive(Clone, Copy)]
pub struct RelrWord {
    /// The index of its section.
    pub section: u16,
    /// Its offset in the file.
    pub at: u64,
    /// Its value.
    pub word: u64,
}

/// Shows the relative relocations of a section, an `R` line each, if it has any.
pub(crate) fn list_relative<S: Source, W: Sink>(
    listing: &mut Listing<'_, '_, '_, '_, S, W>,
    index: u16,
) -> Result<(), RunFault>
    requires { index < listing.old.file.store.now.loaded }
    ensures { ListsHeader relative_part listing.old listing.new result index }
{
    if listing.file.section(index).sh_type != SHT_RELR {
        return Ok(());
    }
    let table = listing.file.table(index, RELR_BYTES)?;
    list_words(listing, table, index)
}

/// Shows the rows of the words of a table in the rendering of the style.
pub(crate) fn list_words<S: Source, W: Sink>(
    listing: &mut Listing<'_, '_, '_, '_, S, W>,
    table: Table,
    section: u16,
) -> Result<(), RunFault>
    requires { IsTableOf listing.old.src.now.seen.size (relr_layout section) None table }
    ensures { ListsRows listing.old listing.new result (relr_layout section) None table }
{
    match listing.style.format {
        Format::Columns => words_of::<Columns, S, W>(listing, table, section),
        Format::Object => words_of::<Json, S, W>(listing, table, section),
        Format::Table => words_of::<Tabular, S, W>(listing, table, section),
    }
}

/// Shows the rows of the words in one rendering.
fn words_of<R: Render, S: Source, W: Sink>(
    listing: &mut Listing<'_, '_, '_, '_, S, W>,
    table: Table,
    section: u16,
) -> Result<(), RunFault>
    requires format { R.FORMAT ≡ listing.old.style.format }
    requires table { IsTableOf listing.old.src.now.seen.size (relr_layout section) None table }
    ensures { ListsRows listing.old listing.new result (relr_layout section) None table }
{
    if listing.has_selection() {
        return words_in::<R, SelectedRows, S, W>(listing, table, section);
    }
    words_in::<R, AllRows, S, W>(listing, table, section)
}

/// Shows the rows that the style selects, up to the first refusal, composing all their lines in one
/// buffer. Each table is shown by a separate call, so that its window is dropped from the stack
/// when it returns.
#[inline(never)]
fn words_in<R: Render, C: RowSelection, S: Source, W: Sink>(
    listing: &mut Listing<'_, '_, '_, '_, S, W>,
    table: Table,
    section: u16,
) -> Result<(), RunFault>
    requires format { R.FORMAT ≡ listing.old.style.format }
    requires rows { ShowsRows C.SELECTS listing.old.style }
    requires table { IsTableOf listing.old.src.now.seen.size (relr_layout section) None table }
    ensures { ListsRows listing.old listing.new result (relr_layout section) None table }
{
    let mut front = LinePrefix::new();
    let mut base = None;
    let mut cursor = word_cursor(table);
    'words: while cursor.advance(listing.src)? {
        let row = cursor.row();
        let word = RelrWord {
            section,
            at: row.at,
            word: u64_at(row.bytes, 0),
        };
        let next = base_after(base, word.word, row.index);
        word_rows::<R, C, S, W>(listing, &mut front, &word, base)?;
        base = next;
    }
    Ok(())
}

/// Returns a cursor before the first word of a table.
fn word_cursor(table: Table) -> RowCursor
    requires { table.entry ≡ 8 }
    ensures { BeginsTable (relr_layout 0) table result }
{
    RowCursor::All(Cursor::new(table))
}

/// Returns the address of a bitmap's first word in memory after a word of a table, if there is one,
/// by that before it. The word has an index in its table.
fn base_after(base: Option<u128>, word: u64, index: u64) -> Option<u128>
    requires { IfSome base (λ address. address ≤ 2 ^ 64 + 504 * index) }
    ensures value { result ≡ base_after base word }
    ensures few { IfSome base (λ address. address + 504 < 2 ^ 128) }
    ensures next { IfSome result (λ address. address ≤ 2 ^ 64 + 504 * (index + 1)) }
{
    if word % 2 == 0 {
        return Some(u128::from(word) + 8);
    }
    match base {
        None => None,
        Some(address) => Some(address + BITMAP_BYTES),
    }
}

/// Shows the rows of a word: of its address, or of the bits of a bitmap, whose first word in memory
/// has the address `base`.
fn word_rows<R: Render, C: RowSelection, S: Source, W: Sink>(
    listing: &mut Listing<'_, '_, '_, '_, S, W>,
    front: &mut LinePrefix,
    word: &RelrWord,
    base: Option<u128>,
) -> Result<(), RunFault>
    requires format { R.FORMAT ≡ listing.old.style.format }
    requires rows { ShowsRows C.SELECTS listing.old.style }
    requires base { IfSome base (λ address. address + 504 < 2 ^ 128) }
    ensures { ListsWord listing.old listing.new result word.now base }
{
    if word.word % 2 == 0 {
        return address_row::<R, C, S, W>(listing, front, word, u128::from(word.word));
    }
    let Some(address) = base else {
        return Err(RunFault::Refused(Refusal {
            at: word.at,
            cause: Cause::Relr,
        }));
    };
    bit_rows::<R, C, S, W>(listing, front, word, address)
}

/// Shows the rows of the bits of a bitmap that are set, up to the first refusal.
fn bit_rows<R: Render, C: RowSelection, S: Source, W: Sink>(
    listing: &mut Listing<'_, '_, '_, '_, S, W>,
    front: &mut LinePrefix,
    word: &RelrWord,
    base: u128,
) -> Result<(), RunFault>
    requires format { R.FORMAT ≡ listing.old.style.format }
    requires rows { ShowsRows C.SELECTS listing.old.style }
    requires base { base + 504 < 2 ^ 128 }
    ensures { ListsBits listing.old listing.new result word.now base 63 }
{
    let mut bit = 0;
    'bits: while bit < BITMAP_BITS {
        bit_row::<R, C, S, W>(listing, front, word, base, bit)?;
        bit += 1;
    }
    Ok(())
}

/// Shows the row of a bit of a bitmap, if it is set. Bits count from 0 after the lowest one.
fn bit_row<R: Render, C: RowSelection, S: Source, W: Sink>(
    listing: &mut Listing<'_, '_, '_, '_, S, W>,
    front: &mut LinePrefix,
    word: &RelrWord,
    base: u128,
    bit: u32,
) -> Result<(), RunFault>
    requires format { R.FORMAT ≡ listing.old.style.format }
    requires rows { ShowsRows C.SELECTS listing.old.style }
    requires base { base + 504 < 2 ^ 128 }
    requires bit { bit < 63 }
    ensures { ListsBit listing.old listing.new result word.now base bit }
{
    if (word.word >> (bit + 1)) % 2 == 0 {
        return Ok(());
    }
    let address = base + 8 * u128::from(bit);
    address_row::<R, C, S, W>(listing, front, word, address)
}

/// Shows the row of an address that a word gives, if it is selected. If its eight bytes end past
/// 2^64, it is refused at the word.
fn address_row<R: Render, C: RowSelection, S: Source, W: Sink>(
    listing: &mut Listing<'_, '_, '_, '_, S, W>,
    front: &mut LinePrefix,
    word: &RelrWord,
    address: u128,
) -> Result<(), RunFault>
    requires format { R.FORMAT ≡ listing.old.style.format }
    requires rows { ShowsRows C.SELECTS listing.old.style }
    ensures { ListsAddress listing.old listing.new result word.now address }
{
    if address > MAX_ADDRESS {
        return Err(RunFault::Refused(Refusal {
            at: word.at,
            cause: Cause::Relr,
        }));
    }
    let address = address as u64;
    listing.name.clear();
    let place = place_of_relr(listing.file_type(), word.at, address);
    if !listing.is_row_shown::<C>(&place, NameEnd::Whole, None, &[]) {
        return Ok(());
    }
    relr_prefix::<R>(front, word.section, address);
    listing.named_line(front, NameEnd::Whole)
}
