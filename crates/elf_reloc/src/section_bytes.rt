//! The bytes of a section or of a program header, as they are in the file.
ghost use Rattle.std.specs.Prelude.{◌≡◌, ◌+◌, ◌*◌, ◌<◌, ◌≤◌, ◌^◌, ℕ, List, length};
ghost use Rattle.std.specs.Prelude.{None, Some, IfErr, IfOk, IfSome};
ghost use Rattle.elf_model.specs.BytesQuery.{OfName, OfSection, OfSegment, first_section_named};
ghost use Rattle.elf_model.specs.BytesQuery.{range_of_section, range_of_segment};
ghost use Rattle.elf_model.specs.Prelude.{e_shnum, pad64, same, section_at, sh_name, slice};
ghost use Rattle.elf_source.specs.Growth.{OutGrows};
ghost use Rattle.elf_table.specs.Prelude.{CallDid, HoldsProgramHeaders, HoldsSectionHeaders};
ghost use Rattle.elf_table.specs.Prelude.{ComparesName, IsOfCheck, StringsInBounds, fault_of_result};
ghost use Rattle.elf_table.specs.Prelude.{strings_in};
ghost use Rattle.elf_reloc.specs.Applied.{ApplySays, ReadsWithin, RoomFor, WritesOrWants};
ghost use Rattle.elf_reloc.specs.Queried.{EndsWithin, FindsAs, FindsQueried, HoldsAll, LoadsAll};
ghost use Rattle.elf_reloc.specs.Queried.{ShowsRange, WritesQueried, one_range, query_as, range_ceiling};
ghost use Rattle.elf_reloc.specs.Queried.{some_range};
ghost use Rattle.elf_reloc.specs.Windows.{WroteBytes};

use crate::apply_section::{held_range, is_section};
use crate::in_order::copy;
use crate::wanted_bytes::WantedBytes;
use elf_hash::load_by_segments;
use elf_record::{Cause, Refusal};
use elf_source::{Counted, Out, Sink, Source};
use elf_table::{
    ExecutionView, Fault, HeaderStore, Loaded, Names, RunFault, SectionView, header,
    is_out_of_bounds, load, refused,
};

/// Writes the bytes that a section or a program header has in the file, and returns `true`; or
/// writes nothing and returns `false` if no section has the name. Section 0 has no name. The bytes
/// of a compressed section are written as they are; a section of the type NOBITS or NULL has none
/// (gABI 4, Section Header; gABI 5, Program Header). The store is loaded with the section headers,
/// or for a program header with the program headers: then the fields of the file header that locate
/// section headers are ignored. If a limit is set on the source no byte past it is read; afterwards
/// no limit is set.
///
/// # Errors
/// Returns the first refusal, with nothing written: the file header's and the load's; a fault of a
/// name before the section that is found, at that section's header; `BadLink` for section 0 or an
/// index that no section has, at 0x3c, or that no program header has, at 0x38; `TableOutside` at the
/// header if the bytes end past the end of the file. Returns `Budget`, with nothing written, only if
/// a limit is set that the cost would exceed: at the offset of the read that exceeds it, or at that
/// of the bytes if what is left of it is less than their number. Returns a fault of the source or of
/// the output; a prefix of the bytes was written.
pub fn write_bytes<S: Source, W: Sink>(
    src: &mut Counted<S>,
    store: &mut HeaderStore,
    query: &WantedBytes<'_>,
    out: &mut Out<W>,
) -> Result<bool, RunFault>
    ensures slots { store.new.slots ≡ store.old.slots }
    ensures writes { WritesQueried src.old src.new out.old out.new result store.old.slots
        (query_as query.now) }
    ensures free { src.new.most ≡ None }
{
    let result = write_within(src, store, query, out);
    src.limit(None);
    result
}

/// Writes the bytes within the limit, if one is set.
fn write_within<S: Source, W: Sink>(
    src: &mut Counted<S>,
    store: &mut HeaderStore,
    query: &WantedBytes<'_>,
    out: &mut Out<W>,
) -> Result<bool, RunFault>
    ensures slots { store.new.slots ≡ store.old.slots }
    ensures writes { WritesQueried src.old src.new out.old out.new result store.old.slots
        (query_as query.now) }
{
    let Some(range) = find_range(src, store, query)? else {
        return Ok(false);
    };
    write_range(src, range, out)?;
    Ok(true)
}

/// Writes the bytes of a range of the source. If the read budget is too small for them they are
/// refused before the first byte; otherwise the limit is removed.
fn write_range<S: Source, W: Sink>(
    src: &mut Counted<S>,
    range: (u64, u64),
    out: &mut Out<W>,
) -> Result<(), RunFault>
    requires { EndsWithin src.old.seen.size range }
    ensures says { IfErr result (ApplySays src.old src.new out.new range.1) }
    ensures reads { ReadsWithin src.old src.new range.1 }
    ensures grows { OutGrows out.old out.new }
    ensures wrote { WroteBytes out.old out.new result range.1 }
    ensures text { (file : List ℕ) → src.old.seen.file ≡ Some file →
        WritesOrWants out.old out.new result (slice file range.0 range.1) }
{
    if !has_left(src, range.1) {
        return Err(RunFault::Refused(Refusal {
            at: range.0,
            cause: Cause::Budget,
        }));
    }
    src.limit(None);
    copy(src, range.0, range.1, out)
}

/// Returns `true` if what is left of the read budget is enough for a number of bytes.
fn has_left<S: Source>(src: &Counted<S>, size: u64) -> bool
    ensures { RoomFor src.now size result }
{
    match src.left() {
        Some(left) => size <= left,
        None => true,
    }
}

/// Returns the file offset and the number of the bytes that are requested; `None` if no section has
/// the name.
fn find_range<S: Source>(
    src: &mut Counted<S>,
    store: &mut HeaderStore,
    query: &WantedBytes<'_>,
) -> Result<Option<(u64, u64)>, Fault>
    ensures did { CallDid src.old src.new (fault_of_result result)
        (range_ceiling store.old.slots (query_as query.now))
        (λ file. FindsQueried some_range file store.old.slots (query_as query.now)
        src.old src.new result) }
    ensures slots { store.new.slots ≡ store.old.slots }
    ensures within { IfOk result (λ found. IfSome found (EndsWithin src.old.seen.size)) }
{
    match query {
        WantedBytes::Section(section) => Ok(Some(find_section_range(src, store, *section)?)),
        WantedBytes::Name(name) => find_named_range(src, store, name.bytes),
        WantedBytes::Segment(segment) => Ok(Some(find_segment_range(src, store, *segment)?)),
    }
}

/// Returns the range of the section of an index, whose headers it loads.
fn find_section_range<S: Source>(
    src: &mut Counted<S>,
    store: &mut HeaderStore,
    section: u16,
) -> Result<(u64, u64), Fault>
    ensures did { CallDid src.old src.new (fault_of_result result)
        (range_ceiling store.old.slots (OfSection section))
        (λ file. FindsQueried one_range file store.old.slots (OfSection section)
        src.old src.new result) }
    ensures slots { store.new.slots ≡ store.old.slots }
    ensures within { IfOk result (EndsWithin src.old.seen.size) }
{
    let loaded = load_by_sections(src, store)?;
    section_range(&SectionView { loaded, store }, section)
}

/// Returns the range of the first section of a name; `None` if no section has it.
fn find_named_range<S: Source>(
    src: &mut Counted<S>,
    store: &mut HeaderStore,
    wanted: &[u8],
) -> Result<Option<(u64, u64)>, Fault>
    requires most { length wanted.now ≤ 4096 }
    ensures did { CallDid src.old src.new (fault_of_result result)
        (range_ceiling store.old.slots (OfName wanted.now))
        (λ file. FindsQueried some_range file store.old.slots (OfName wanted.now)
        src.old src.new result) }
    ensures slots { store.new.slots ≡ store.old.slots }
    ensures within { IfOk result (λ found. IfSome found (EndsWithin src.old.seen.size)) }
{
    let loaded = load_by_sections(src, store)?;
    let file = SectionView { loaded, store };
    let Some(section) = section_named(src, &file, wanted)? else {
        return Ok(None);
    };
    Ok(Some(section_range(&file, section)?))
}

/// Returns the range of the program header of an index, while the fields of the file header that
/// locate section headers are masked.
fn find_segment_range<S: Source>(
    src: &mut Counted<S>,
    store: &mut HeaderStore,
    segment: u16,
) -> Result<(u64, u64), Fault>
    ensures did { CallDid src.old src.new (fault_of_result result)
        (range_ceiling store.old.slots (OfSegment segment))
        (λ file. FindsQueried one_range file store.old.slots (OfSegment segment)
        src.old src.new result) }
    ensures slots { store.new.slots ≡ store.old.slots }
    ensures within { IfOk result (EndsWithin src.old.seen.size) }
{
    let hides = src.hides();
    src.mask_section_headers(true);
    let found = shown_segment_range(src, store, segment);
    src.mask_section_headers(hides);
    found
}

/// Returns the range of the program header of an index of the file that the source shows, whose
/// header locates no section headers.
fn shown_segment_range<S: Source>(
    src: &mut Counted<S>,
    store: &mut HeaderStore,
    segment: u16,
) -> Result<(u64, u64), Fault>
    ensures did { CallDid src.old src.new (fault_of_result result)
        (64 + store.old.slots * 56)
        (λ file. e_shnum file ≡ 0 → ShowsRange file store.old.slots segment
        src.old src.new result) }
    ensures slots { store.new.slots ≡ store.old.slots }
    ensures within { IfOk result (EndsWithin src.old.seen.size) }
{
    let loaded = load_by_segments(src, store)?;
    segment_range(&ExecutionView { loaded, store }, segment)
}

/// Loads the section headers into the store.
fn load_by_sections<S: Source>(
    src: &mut Counted<S>,
    store: &mut HeaderStore,
) -> Result<Loaded, Fault>
    ensures did { CallDid src.old src.new (fault_of_result result) (64 + store.old.slots * 64)
        (λ file. LoadsAll file store.old.slots store.new src.old src.new result) }
    ensures slots { store.new.slots ≡ store.old.slots }
    ensures holds { IfOk result (HoldsAll src.old.seen.size store.new) }
{
    let header = header(src)?;
    load(src, store, &header)
}

/// Returns the first section of a name, which has an index above 0; `None` if there is no section
/// of the name, or if the file has no section names.
fn section_named<S: Source>(
    src: &mut Counted<S>,
    file: &SectionView<'_>,
    wanted: &[u8],
) -> Result<Option<u16>, Fault>
    requires most { length wanted.now ≤ 4096 }
    requires sized { file.now.loaded.size ≡ src.old.seen.size }
    ensures did { CallDid src.old src.new (fault_of_result result)
        (file.now.store.now.loaded * pad64 (length wanted.now + 1))
        (λ bytes. HoldsSectionHeaders bytes file.now.loaded file.now.store.now →
        FindsAs (λ found. found) result (first_section_named bytes wanted.now)) }
    ensures below { IfOk result (λ found.
        IfSome found (λ section. section < file.now.store.now.loaded)) }
{
    let Some(names) = file.names() else {
        return Ok(None);
    };
    for section in 1..file.sections() {
        if has_name(src, file, &names, section, wanted)? {
            return Ok(Some(section));
        }
    }
    Ok(None)
}

/// Returns `true` if a section has a name, in the string table of the section names.
fn has_name<S: Source>(
    src: &mut Counted<S>,
    file: &SectionView<'_>,
    names: &Names,
    section: u16,
    wanted: &[u8],
) -> Result<bool, Fault>
    requires most { length wanted.now ≤ 4096 }
    requires below { section < file.now.store.now.loaded }
    requires within { StringsInBounds src.old.seen.size names.now }
    ensures did { CallDid src.old src.new (fault_of_result result)
        (pad64 (length wanted.now + 1))
        (λ bytes. HoldsSectionHeaders bytes file.now.loaded file.now.store.now →
        ComparesName (section_at bytes section) result
        (same (strings_in bytes names.now) (sh_name bytes (section_at bytes section))
        wanted.now)) }
{
    let place = file.place(section);
    let header = file.section(section);
    names.equals(src, u64::from(header.sh_name), place, wanted)
}

/// Returns the range of the section of an index of a loaded file.
fn section_range(file: &SectionView<'_>, section: u16) -> Result<(u64, u64), Fault>
    ensures refusal { IfErr result IsOfCheck }
    ensures within { IfOk result (EndsWithin file.now.loaded.size) }
    ensures held { (bytes : List ℕ) → HoldsSectionHeaders bytes file.now.loaded file.now.store.now →
        FindsAs one_range result (range_of_section bytes section) }
{
    if !is_section(section, file.loaded.header().e_shnum) {
        return refused(0x3c, Cause::BadLink);
    }
    held_range(file, section)
}

/// Returns the range of the program header of an index of a loaded file.
fn segment_range(file: &ExecutionView<'_>, segment: u16) -> Result<(u64, u64), Fault>
    ensures refusal { IfErr result IsOfCheck }
    ensures within { IfOk result (EndsWithin file.now.loaded.size) }
    ensures held { (bytes : List ℕ) → HoldsProgramHeaders bytes file.now.loaded file.now.store.now →
        FindsAs one_range result (range_of_segment bytes segment) }
{
    if segment >= file.segments() {
        return refused(0x38, Cause::BadLink);
    }
    let header = file.segment(segment);
    if is_out_of_bounds(file.loaded.size(), header.p_offset, header.p_filesz) {
        return refused(file.place(segment), Cause::TableOutside);
    }
    Ok((header.p_offset, header.p_filesz))
}
