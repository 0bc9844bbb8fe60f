//! The exports that read rows within a budget: what they read counts, over all tables.
ghost use Rattle.std.specs.Prelude.{◌≤◌, IfSome, length};
ghost use Rattle.elf_record.specs.Prelude.{IsDyn, IsRela, IsSym};
ghost use Rattle.elf_capi.specs.Prelude.{IsVersionWord, OpensAlways, OpensEntries, OpensRows, ReadsSegmentDynamic, ReadsBudgeted, ReturnsEntries, budget_of};
ghost use Rattle.elf_capi.specs.declared.kind.RowKind.TheVariants.{Dynamic as DynamicRows};

use elf_capi::{
    CallEnd, CallerLimits, RowPosition, Versym, checked_limits, count_entries, dynamic_within,
    entries_left, next_within, report_opened, segment_dynamic_within,
};
use elf_record::{Dyn, Refusal, Rela, Sym};

/// Checks the table of dynamic entries that a section of a file holds, as
/// [`elfsee_dynamic`](crate::tables::elfsee_dynamic) does, within the budget of the limits.
///
/// Each entry up to and including the first DT_NULL counts 16 bytes in `asked`, which adds up what
/// all calls given it read (gABI 5, Dynamic Section).
///
/// Returns as that call does, and 1 with `Budget` in `end`, at the first entry that was not read,
/// if `asked` would exceed the budget. Without a budget it is only counted.
#[unsafe(no_mangle)]
pub extern "C" fn elfsee_dynamic_within(
    file: &[u8],
    limits: &CallerLimits,
    section: u16,
    room: &[u8],
    asked: &mut u64,
    rows: &mut RowPosition,
    end: &mut CallEnd,
) -> u32
    ensures tells { ReturnsEntries
        (OpensRows DynamicRows file.now limits.now (length room.now) section)
        limits.now asked.old asked.new result rows.old rows.new end.new }
    ensures budget { IfSome (budget_of limits.now)
        (λ bytes. asked.old ≤ bytes → asked.new ≤ bytes) }
{
    let most = entries_left(limits, *asked);
    let opened = open_within(file, limits, section, room.len(), most);
    count_entries(&opened, most, asked);
    report_opened(opened, rows, end)
}

/// Checks the dynamic entries of a segment, as
/// [`elfsee_segment_dynamic`](crate::loads::elfsee_segment_dynamic) does, within the budget of the
/// limits as [`elfsee_dynamic_within`] does (gABI 5, Dynamic Section).
#[unsafe(no_mangle)]
pub extern "C" fn elfsee_segment_dynamic_within(
    file: &[u8],
    limits: &CallerLimits,
    segment: u16,
    asked: &mut u64,
    rows: &mut RowPosition,
    end: &mut CallEnd,
) -> u32
    ensures tells { ReturnsEntries (OpensAlways (ReadsSegmentDynamic file.now segment))
        limits.now asked.old asked.new result rows.old rows.new end.new }
    ensures budget { IfSome (budget_of limits.now)
        (λ bytes. asked.old ≤ bytes → asked.new ≤ bytes) }
{
    let most = entries_left(limits, *asked);
    let opened = Some(segment_dynamic_within(file, segment, most));
    count_entries(&opened, most, asked);
    report_opened(opened, rows, end)
}

/// Reads the next symbols, as [`elfsee_next_symbols`](crate::steps::elfsee_next_symbols) does, and
/// no more than the budget of the limits has left: each counts 24 bytes in `asked`.
///
/// If more rows are left, and would fit, the budget ended it: then `Budget` is in `end`, at the
/// next row.
#[unsafe(no_mangle)]
pub extern "C" fn elfsee_next_symbols_within(
    file: &[u8],
    limits: &CallerLimits,
    asked: &mut u64,
    rows: &mut RowPosition,
    out: &mut [Sym],
    end: &mut CallEnd,
) -> usize
    ensures { ReadsBudgeted 24 IsSym file.now limits.now asked.old asked.new rows.old rows.new
        (length out.old) out.new result end.new }
{
    next_within(file, limits, asked, rows, out, end)
}

/// Reads the next relocation entries, as [`elfsee_next_symbols_within`] does symbols.
#[unsafe(no_mangle)]
pub extern "C" fn elfsee_next_relocations_within(
    file: &[u8],
    limits: &CallerLimits,
    asked: &mut u64,
    rows: &mut RowPosition,
    out: &mut [Rela],
    end: &mut CallEnd,
) -> usize
    ensures { ReadsBudgeted 24 IsRela file.now limits.now asked.old asked.new rows.old rows.new
        (length out.old) out.new result end.new }
{
    next_within(file, limits, asked, rows, out, end)
}

/// Reads the next dynamic entries, as [`elfsee_next_symbols_within`] does symbols; each counts 16
/// bytes.
#[unsafe(no_mangle)]
pub extern "C" fn elfsee_next_dynamic_within(
    file: &[u8],
    limits: &CallerLimits,
    asked: &mut u64,
    rows: &mut RowPosition,
    out: &mut [Dyn],
    end: &mut CallEnd,
) -> usize
    ensures { ReadsBudgeted 16 IsDyn file.now limits.now asked.old asked.new rows.old rows.new
        (length out.old) out.new result end.new }
{
    next_within(file, limits, asked, rows, out, end)
}

/// Reads the next entries of symbols' versions, as
/// [`elfsee_next_version_words`](crate::steps::elfsee_next_version_words) does, and no more than
/// the budget of the limits has left: each counts 2 bytes in `asked`.
///
/// If more rows are left, and would fit, the budget ended it: then `Budget` is in `end`, at the
/// next row.
#[unsafe(no_mangle)]
pub extern "C" fn elfsee_next_version_words_within(
    file: &[u8],
    limits: &CallerLimits,
    asked: &mut u64,
    rows: &mut RowPosition,
    out: &mut [Versym],
    end: &mut CallEnd,
) -> usize
    ensures { ReadsBudgeted 2 IsVersionWord file.now limits.now asked.old asked.new
        rows.old rows.new (length out.old) out.new result end.new }
{
    next_within(file, limits, asked, rows, out, end)
}

/// Checks the table of dynamic entries of which at most `most` are read, with the given bytes of
/// room; returns `None` for a call with a number out of range.
fn open_within(
    file: &[u8],
    limits: &CallerLimits,
    section: u16,
    room: usize,
    most: u64,
) -> Option<Result<Option<RowPosition>, Refusal>>
    ensures { OpensEntries (OpensRows DynamicRows file.now limits.now room section) most result }
{
    let limits = checked_limits(limits, room)?;
    Some(dynamic_within(file, &limits, section, most))
}
