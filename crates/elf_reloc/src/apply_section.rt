//! Relocations applied to a section.
ghost use Rattle.std.specs.Prelude.{◌≡◌, ◌+◌, ◌*◌, ◌<◌, ◌≤◌, ◌==◌, ◌||◌, nat_lt, not, true, ℕ};
ghost use Rattle.std.specs.Prelude.{List, length, None, Some, IfOk, IfErr};
ghost use Rattle.elf_model.specs.Prelude.{applied, apply_cost_by_order, entries_for, is_compressed, section_at};
ghost use Rattle.elf_record.specs.Shdr.{IsShdr};
ghost use Rattle.elf_source.specs.Growth.{OutGrows};
ghost use Rattle.elf_table.specs.Prelude.{HoldsSectionHeaders, IsOfCheck};
ghost use Rattle.elf_reloc.specs.Applied.{Applies, AppliesFile, AppliesLoaded, AppliesTarget};
ghost use Rattle.elf_reloc.specs.Applied.{ApplySays, HasSection, HeldIs, MayApply, RoomFor};
ghost use Rattle.elf_reloc.specs.Applied.{ReadsWithin, BudgetTooSmall, WritesWithin, WroteMost};
ghost use Rattle.elf_reloc.specs.Applied.{apply_ceiling, passes_cost, write_passes};
ghost use Rattle.elf_reloc.specs.InOrder.{OffsetsAscend};
ghost use Rattle.elf_reloc.specs.Queried.{EndsWithin, FindsAs, held_range_of, one_range};
ghost use Rattle.elf_reloc.specs.Walk.{entries_from, walk_all};
ghost use Rattle.elf_reloc.specs.Windows.{Copies, MayWrite, NotForBudget, OfPatches, WritesBytes};
ghost use Rattle.elf_reloc.specs.Windows.{windows};

use crate::entry::ApplyTarget;
use crate::in_order::write_one_pass;
use crate::passes::{Checked, check};
use crate::windows::write_by_windows;
use elf_layout::{Addresses, Layout};
use elf_record::numbers::{EM_X86_64, ET_REL};
use elf_record::{Cause, Refusal, SectionFlags, Shdr};
use elf_source::{Counted, Out, Sink, Source};
use elf_table::{
    Fault, HeaderStore, Loaded, RunFault, SectionView, has_no_bytes, header, is_out_of_bounds,
    load, refused,
};

/// The result of applying relocations.
#[derive(Clone, Copy)]
pub struct Applied {
    /// The number of bytes of the section, all of which were written.
    pub size: u64,
    /// The number of relocation entries for the section, including those that store nothing.
    pub entries: u128,
}

/// Returns the file offset and the number of the section's bytes; none for a section without bytes
/// in the file.
#[tactic(auto, unfolding(crate::proofs::Words::request))]
fn held(file: &SectionView<'_>, section: u16) -> Result<(u64, u64), Fault>
    ensures refusal { IfErr result IsOfCheck }
    ensures within { IfOk result (λ found. found.0 + found.1 ≤ file.now.loaded.size) }
    ensures held { (bytes : List ℕ) → HoldsSectionHeaders bytes file.now.loaded file.now.store.now →
        HeldIs bytes section result }
{
    let header = file.loaded.header();
    if header.e_type != ET_REL {
        return refused(0x10, Cause::NotRel);
    }
    if header.e_machine != EM_X86_64 {
        return refused(0x12, Cause::NotRel);
    }
    if !is_section(section, header.e_shnum) {
        return refused(0x3c, Cause::BadLink);
    }
    if is_compressed(&file.section(section)) {
        return refused(file.place(section), Cause::Unsupported);
    }
    held_range(file, section)
}

/// Returns the file offset and the number of the bytes that a section has in the file.
pub(crate) fn held_range(file: &SectionView<'_>, section: u16) -> Result<(u64, u64), Fault>
    requires { section < file.now.loaded.header.e_shnum }
    ensures refusal { IfErr result IsOfCheck }
    ensures within { IfOk result (EndsWithin file.now.loaded.size) }
    ensures held { (bytes : List ℕ) → HoldsSectionHeaders bytes file.now.loaded file.now.store.now →
        FindsAs one_range result (held_range_of bytes (section_at bytes section)) }
{
    let size = file.loaded.size();
    let found = file.section(section);
    if has_no_bytes(&found) {
        return Ok((0, 0));
    }
    if is_out_of_bounds(size, found.sh_offset, found.sh_size) {
        return refused(file.place(section), Cause::TableOutside);
    }
    Ok((found.sh_offset, found.sh_size))
}

/// Returns `true` if an index names a section that has relocations: section 0 has none.
pub(crate) fn is_section(section: u16, count: u16) -> bool
    ensures { result ≡ not (section == 0 || not (nat_lt section count)) }
{
    section != 0 && section < count
}

/// Returns `true` if a section is compressed, so that relocation entries refer to other bytes than
/// those in the file (gABI 4, Section Compression).
fn is_compressed(header: &Shdr) -> bool
    ensures { (bytes : List ℕ) (at : ℕ) → IsShdr bytes at header.now →
        result ≡ is_compressed bytes at }
{
    header.sh_flags & SectionFlags::COMPRESSED.0 == SectionFlags::COMPRESSED.0
}

/// Writes the section, whose bytes are at the file offset `at`: in one pass if the offsets of the
/// entries never decrease, otherwise window by window.
fn write_section<S: Source, W: Sink>(
    src: &mut Counted<S>,
    target: &ApplyTarget<'_>,
    at: u64,
    rises: bool,
    out: &mut Out<W>,
) -> Result<(), RunFault>
    requires { MayWrite src.old target.now at src.old.seen.size }
    ensures once { rises ≡ true →
        src.new.asked ≤ src.old.asked + (walk_all target.now + target.now.size) }
    ensures did { Copies src.old src.new out.old out.new result NotForBudget
        (windows target.now.size * walk_all target.now + target.now.size) target.now.size }
    ensures text { (file : List ℕ) → src.old.seen.file ≡ Some file → OfPatches target.now at
        (λ patches text. (rises ≡ true → OffsetsAscend 0 patches) →
        WritesBytes out.old out.new result text) file }
{
    if rises && target.size > 0 {
        return write_one_pass(src, target, at, out);
    }
    write_by_windows(src, target, at, out)
}

/// Returns the number of passes over the entries that write `size` bytes: one for each window, and
/// at most one if the offsets of the entries never decrease.
fn write_passes(rises: bool, size: u64) -> u64
    ensures { result ≡ write_passes rises size }
{
    let windows = size.div_ceil(64);
    if rises { windows.min(1) } else { windows }
}

/// Returns `true` if what is left of the read budget is enough for what the passes that write may
/// read.
fn has_room<S: Source>(src: &Counted<S>, target: &ApplyTarget<'_>, checked: &Checked) -> bool
    requires { checked.now.entries ≡ entries_from target.now 0 }
    ensures { RoomFor src.now (passes_cost target.now
        (write_passes checked.now.rises target.now.size)) result }
{
    let Some(left) = src.left() else {
        return true;
    };
    let each = 48 + target.layout.names_cost();
    let passes = u128::from(write_passes(checked.rises, target.size));
    let walks = passes.saturating_mul(checked.entries.saturating_mul(each));
    walks.saturating_add(u128::from(target.size)) <= u128::from(left)
}

/// Writes the section, whose entries were checked and whose bytes are at the file offset `at`. If
/// the read budget is too small for it, it is refused before the first byte; otherwise the limit is
/// removed, since the passes read no more than was left.
fn write_checked<S: Source, W: Sink>(
    src: &mut Counted<S>,
    target: &ApplyTarget<'_>,
    at: u64,
    checked: &Checked,
    out: &mut Out<W>,
) -> Result<(), RunFault>
    requires may { HasSection src.old target.now at }
    requires counted { checked.now.entries ≡ entries_from target.now 0 }
    ensures { WritesWithin src.old src.new out.old out.new result target.now at checked.now.rises }
{
    if !has_room(src, target, checked) {
        return Err(RunFault::Refused(Refusal {
            at,
            cause: Cause::Budget,
        }));
    }
    src.limit(None);
    write_section(src, target, at, checked.rises, out)
}

/// Checks all entries, and then writes the section, whose bytes are at the file offset `at`.
fn apply_target<S: Source, W: Sink>(
    src: &mut Counted<S>,
    target: &ApplyTarget<'_>,
    at: u64,
    out: &mut Out<W>,
) -> Result<Applied, RunFault>
    requires { HasSection src.old target.now at }
    ensures { AppliesTarget src.old src.new out.old out.new result target.now at }
{
    let checked = check(src, target)?;
    write_checked(src, target, at, &checked, out)?;
    Ok(Applied {
        size: target.size,
        entries: checked.entries,
    })
}

/// Writes a section of a loaded file with its relocations applied.
fn apply_loaded<S: Source, W: Sink>(
    src: &mut Counted<S>,
    store: &HeaderStore,
    loaded: Loaded,
    section: u16,
    layout: &Addresses<'_>,
    out: &mut Out<W>,
) -> Result<Applied, RunFault>
    requires { MayApply src.old loaded store.now }
    ensures { AppliesLoaded src.old src.new out.old out.new result store.now.slots section
        layout.now }
{
    let file = SectionView { loaded, store };
    let found = held(&file, section)?;
    let target = ApplyTarget {
        file,
        layout,
        section,
        size: found.1,
    };
    apply_target(src, &target, found.0, out)
}

/// Writes the bytes of a section of a relocatable file for x86-64 with its relocations applied:
/// those of all sections of entries with addends whose sh_info is the section, in the order of
/// their index, so that of two entries that overlap the later one wins (gABI 4, Relocation; x86-64
/// psABI, Relocation). A section of the type NOBITS or NULL has no bytes. The store is loaded with
/// the file's section headers. All entries are checked before the first byte is written; then the
/// section is written in one pass if their offsets never decrease, and otherwise window by window,
/// 64 bytes each. If a limit is set on the source no byte past it is read; afterwards no limit is
/// set.
///
/// # Errors
/// Returns the first refusal, with nothing written if the file is known: the header's and the
/// load's; `NotRel` at 0x10 for a file that is not relocatable, at 0x12 for another machine;
/// `BadLink` at 0x3c for section 0 or an index that no section has; at the section's header
/// `Unsupported` if it is compressed, then `TableOutside`; then, section by section of entries, its
/// table's checks, and for each entry, at its offset, `Unsupported`, `PlaceOutside`, `BadLink`,
/// `SymbolIndex`, `Undefined` or `Unsupported` for a symbol whose value or entry is not known,
/// `Unplaced`, `Overflow`; the fault of a name that is compared is at its symbol's offset. Returns
/// a fault of the source or of the output; a prefix of the section was written. Returns `Budget`,
/// with nothing written, only if a limit is set that the cost would exceed: at the offset of the
/// read that exceeds it, or at the section's own offset in the file if what is left of it is less
/// than the passes that write may read. Then more of the limit may be left unused.
pub fn apply<S: Source, W: Sink>(
    src: &mut Counted<S>,
    store: &mut HeaderStore,
    section: u16,
    layout: &Layout,
    out: &mut Out<W>,
) -> Result<Applied, RunFault>
    ensures slots { store.new.slots ≡ store.old.slots }
    ensures says { IfErr result (ApplySays src.old src.new out.new
        (apply_ceiling src.old.seen.size store.old.slots layout.now)) }
    ensures text { (file : List ℕ) → src.old.seen.file ≡ Some file →
        Applies out.old out.new result (length (entries_for file section))
        (applied file store.old.slots section layout.now) }
    // Never with `Budget` if the cost fits.
    ensures enough { (file : List ℕ) → src.old.seen.file ≡ Some file → IfErr result
        (BudgetTooSmall src.old (apply_cost_by_order file store.old.slots section layout.now)) }
    ensures cost { (file : List ℕ) → src.old.seen.file ≡ Some file → src.new.asked
        ≤ src.old.asked + apply_cost_by_order file store.old.slots section layout.now }
    // For every source; never past a limit that was set.
    ensures reads { ReadsWithin src.old src.new
        (apply_ceiling src.old.seen.size store.old.slots layout.now) }
    ensures free { src.new.most ≡ None }
    ensures grows { OutGrows out.old out.new }
    ensures wrote { WroteMost out.old out.new result src.old.seen.size }
{
    apply_with(src, store, section, &Addresses::fixed(layout), out)
}

/// Does the same as [`apply`], with its errors, for addresses that are stored in another way: also
/// those borrowed from the caller. How much it may read depends on how they are stored.
pub fn apply_with<S: Source, W: Sink>(
    src: &mut Counted<S>,
    store: &mut HeaderStore,
    section: u16,
    layout: &Addresses<'_>,
    out: &mut Out<W>,
) -> Result<Applied, RunFault>
    ensures slots { store.new.slots ≡ store.old.slots }
    ensures applies { AppliesFile src.old src.new out.old out.new result store.old.slots section
        layout.now }
    ensures free { src.new.most ≡ None }
{
    let result = apply_within(src, store, section, layout, out);
    src.limit(None);
    result
}

/// Writes the bytes of a section within the limit, if one is set.
fn apply_within<S: Source, W: Sink>(
    src: &mut Counted<S>,
    store: &mut HeaderStore,
    section: u16,
    layout: &Addresses<'_>,
    out: &mut Out<W>,
) -> Result<Applied, RunFault>
    ensures slots { store.new.slots ≡ store.old.slots }
    ensures applies { AppliesFile src.old src.new out.old out.new result store.old.slots section
        layout.now }
{
    let header = header(src)?;
    let loaded = load(src, store, &header)?;
    apply_loaded(src, store, loaded, section, layout, out)
}
