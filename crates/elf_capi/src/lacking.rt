//! The entries of a file in memory that lack an item of its image.
ghost use Rattle.std.specs.Prelude.{◌≡◌, ◌≤◌, IfOk, length};
ghost use Rattle.elf_hash.specs.Loading.{FitsSource};
ghost use Rattle.elf_image.specs.Missing.{IsAliveIn};
ghost use Rattle.elf_capi.specs.Images.{ReturnsLacking};

use crate::causes::cause_number;
use crate::counts::short;
use crate::end::CallEnd;
use crate::file_source::file_within;
use elf_image::{ImageItems, LackingEntry, MissingEntries, load_image};
use elf_record::Refusal;
use elf_source::{Counted, MemorySource};
use elf_table::{Fault, HeaderStore, Loaded};

/// An entry that lacks an item, as C has it.
#[repr(C)]
#[derive(Clone, Copy)]
pub struct LackingRow {
    /// Its offset in the file.
    pub at: u64,
    /// Its place, an address of the file.
    pub place: u64,
    /// Its type.
    pub kind: u32,
    /// The index of its symbol.
    pub symbol: u32,
    /// The number of the cause for which the image is refused without the item.
    pub cause: u32,
    /// Always 0.
    pub none: u32,
}

/// Writes the entries that lack an item to the start of `out`, as many as fit, after the first
/// `passed` of them; returns how many. `asked` is set to the number of bytes requested.
///
/// # Errors
/// The first check that fails: of the headers, of the dynamic entries, of the tables, or of an
/// entry up to the last that is written; or `Budget`.
pub fn next_lacking(
    file: &[u8],
    store: &mut HeaderStore,
    wanted: &LackingInput<'_>,
    out: &mut [LackingRow],
    asked: &mut u64,
) -> Result<usize, Refusal>
    ensures within { IfOk result (λ count. count ≤ length out.old) }
{
    let mut src = file_within(file, wanted.budget);
    src.mask_section_headers(true);
    let found = load_rows(&mut src, store, wanted, out);
    *asked = short(src.asked());
    match found {
        Ok(count) => Ok(count),
        Err(Fault::Refused(refusal)) => Err(refusal),
        // A source in memory has no fault.
        Err(Fault::Source { .. }) => Ok(0),
    }
}

/// Which entries are wanted, and how many bytes may be read, if limited.
#[derive(Clone, Copy)]
pub struct LackingInput<'a> {
    /// The items.
    pub items: &'a ImageItems<'a>,
    /// How many entries come before them.
    pub passed: u64,
    /// The read budget, if there is one.
    pub budget: Option<u64>,
}

/// Loads the file, and writes the entries.
fn load_rows(
    src: &mut Counted<MemorySource<'_>>,
    store: &mut HeaderStore<'_>,
    wanted: &LackingInput<'_>,
    out: &mut [LackingRow],
) -> Result<usize, Fault>
    ensures within { IfOk result (λ count. count ≤ length out.old) }
{
    let loaded = load_image(src, store)?;
    rows_of(src, loaded, store, wanted, out)
}

/// Writes the entries of a loaded file.
fn rows_of(
    src: &mut Counted<MemorySource<'_>>,
    loaded: Loaded,
    store: &HeaderStore<'_>,
    wanted: &LackingInput<'_>,
    out: &mut [LackingRow],
) -> Result<usize, Fault>
    requires { FitsSource src.old.seen.size store.now loaded }
    ensures within { IfOk result (λ count. count ≤ length out.old) }
{
    let mut missing = MissingEntries::open(src, store, loaded, wanted.items)?;
    if !pass_over(src, &mut missing, wanted.passed)? {
        return Ok(0);
    }
    write_rows(src, &mut missing, out)
}

/// Goes past some entries; returns `true` if there are as many.
fn pass_over(
    src: &mut Counted<MemorySource<'_>>,
    missing: &mut MissingEntries<'_, '_>,
    passed: u64,
) -> Result<bool, Fault>
    requires { IsAliveIn src.old.seen.size missing.old }
    ensures { IfOk result (λ _. IsAliveIn src.new.seen.size missing.new) }
{
    let mut left = passed;
    'entries: while left > 0 {
        if missing.next(src)?.is_none() {
            return Ok(false);
        }
        left -= 1;
    }
    Ok(true)
}

/// Writes the entries that are left, as many as fit; returns how many.
fn write_rows(
    src: &mut Counted<MemorySource<'_>>,
    missing: &mut MissingEntries<'_, '_>,
    out: &mut [LackingRow],
) -> Result<usize, Fault>
    requires { IsAliveIn src.old.seen.size missing.old }
    ensures within { IfOk result (λ count. count ≤ length out.old) }
{
    let mut count = 0;
    'rows: while count < out.len() {
        let Some(entry) = missing.next(src)? else {
            return Ok(count);
        };
        out[count] = row_of(&entry);
        count += 1;
    }
    Ok(count)
}

/// Returns an entry as C has it.
fn row_of(entry: &LackingEntry) -> LackingRow {
    LackingRow {
        at: entry.at,
        place: entry.place,
        kind: entry.kind,
        symbol: entry.symbol,
        cause: cause_number(entry.cause),
        none: 0,
    }
}

/// Adds the entries that were written to `index`, and returns the status. `None` is a call with a
/// number out of range.
pub fn report_lacking(
    found: Option<Result<usize, Refusal>>,
    index: &mut u64,
    end: &mut CallEnd,
) -> u32
    ensures tells { ReturnsLacking result index.old index.new end.new found }
    ensures clear { (end.new.written ≡ 0) × (end.new.asked ≡ 0) × (end.new.none ≡ 0) }
{
    end.clear();
    match found {
        Some(Ok(0)) => 2,
        Some(Ok(count)) => {
            *index = index.saturating_add(count as u64);
            0
        }
        Some(Err(refusal)) => {
            end.refuse(refusal);
            1
        }
        None => 4,
    }
}
