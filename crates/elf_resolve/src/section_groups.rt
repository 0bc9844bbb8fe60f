//! The section groups and the link-once sections of an object.
ghost use Rattle.std.specs.Prelude.{◌≡◌, ◌≢◌, ◌<◌, ◌++◌, ℕ, List, [], Some};
ghost use Rattle.elf_model.specs.Checks.{whole_checks_of};
ghost use Rattle.elf_model.specs.LinkSymbols.{is_link_once};
ghost use Rattle.elf_model.specs.Records.{e_shnum, section_at, sh_type};
ghost use Rattle.elf_model.specs.Tables.{linked_at};
ghost use Rattle.elf_record.specs.Shdr.{IsShdr};
ghost use Rattle.elf_source.specs.Prelude.{KeepsSource};
ghost use Rattle.elf_table.specs.Load.{HoldsSectionHeaders};
ghost use Rattle.elf_table.specs.Views.{ChecksDecide};
ghost use Rattle.elf_resolve.specs.ObjectTables.{HoldsSymbols, HoldsTables};
ghost use Rattle.elf_resolve.specs.SectionGroups.{DropsGroups, FindsGroup, FoundGroup, HoldsDropped};
ghost use Rattle.elf_resolve.specs.SectionGroups.{MakesGroup, ReadsLinked, SignsGroup, TakesSection};
ghost use Rattle.elf_resolve.specs.SectionGroups.{group_word, is_one_kept, sections_of_words};
ghost use Rattle.elf_resolve.specs.SectionMarks.{MarksDropped};
ghost use Rattle.elf_resolve.specs.StringBuffers.{KeptTexts};

use crate::link_faults::{LinkFault, file_refused, full};
use crate::object::{ObjectTables, SymbolRows, read_names, read_rows, symbol_in};
use crate::section_marks::SectionMarks;
use crate::section_names::section_name;
use crate::string_buffer::{HeldText, StringBuffer, part_of};
use crate::table::KeyTable;
use elf_record::numbers::{SHT_GROUP, STT_SECTION};
use elf_record::{Cause, Shdr, word};
use elf_source::{Counted, Source};
use elf_table::{Fault, Names, SectionView, Table, is_out_of_bounds, refused};

/// The flag of a group of which one is kept (gABI 4, Section Groups).
const GRP_COMDAT: u32 = 1;

/// The flag of a section that is in a group (gABI 4, Section Attribute Flags).
const SHF_GROUP: u64 = 0x200;

/// The size of an entry of a group in bytes.
const WORD_SIZE: usize = 4;

/// What the name of a link-once section begins with.
const LINK_ONCE: &[u8] = b".gnu.linkonce.";

/// A section group: its header's file offset, the file offset and the size of its words, the index
/// of its symbol, the section of its symbol table, that table, and the names of that.
#[derive(Clone, Copy)]
struct GroupInFile {
    at: u64,
    start: u64,
    size: u64,
    index: u64,
    link: u32,
    table: Table,
    names: Names,
}

/// What is dropped for a section.
#[derive(Clone, Copy)]
enum Dropped {
    /// Nothing: it is in no group, or one that is kept.
    Nothing,
    /// The section itself, which is a link-once section.
    Section,
    /// The sections in the words of a group.
    Words(HeldText),
}

/// Drops the sections of each group whose signature is known, and each link-once section whose name
/// is known, and makes the others known, in the order of the sections.
///
/// # Errors
/// The first fault of a group or a name; there is no room for a signature.
pub(crate) fn drop_groups<S: Source>(
    src: &mut Counted<S>,
    view: &SectionView<'_>,
    tables: ObjectTables,
    strings: &mut StringBuffer,
    marks: &mut SectionMarks,
    keys: &mut KeyTable<'_>,
) -> Result<(), LinkFault>
    ensures keeps { KeepsSource src.old.seen src.new.seen }
    ensures most { src.new.most ≡ src.old.most }
    ensures stays { KeptTexts strings.old strings.new }
    ensures drops { (file : List ℕ) → src.old.seen.file ≡ Some file →
        HoldsSectionHeaders file view.now.loaded view.now.store.now →
        HoldsTables file strings.old.bytes tables → MarksDropped (e_shnum file) marks.old [] →
        DropsGroups file keys.old keys.new marks.new result }
{
    for section in 0..view.sections() {
        let used = strings.used();
        let dropped = take_section(src, view, tables, section, strings, keys)?;
        mark_dropped(dropped, section, strings, marks);
        strings.forget_after(used);
    }
    Ok(())
}

/// Marks the sections that are dropped for a section.
fn mark_dropped(dropped: Dropped, section: u16, strings: &StringBuffer, marks: &mut SectionMarks)
    ensures { (count : ℕ) (before sections : List ℕ) →
        HoldsDropped strings.now.bytes section dropped sections →
        MarksDropped count marks.old before → MarksDropped count marks.new (before ++ sections) }
{
    match dropped {
        Dropped::Nothing => {}
        Dropped::Section => marks.drop_section(u32::from(section)),
        Dropped::Words(words) => mark_words(strings.bytes(words), marks),
    }
}

/// Marks the sections in the words of a group, after the first.
fn mark_words(words: &[u8], marks: &mut SectionMarks)
    ensures { (count : ℕ) (before : List ℕ) → MarksDropped count marks.old before →
        MarksDropped count marks.new (before ++ sections_of_words words.now) }
{
    let count = words.len() / WORD_SIZE;
    for index in 1..count {
        if let Some(section) = word_in(words, index) {
            marks.drop_section(section);
        }
    }
}

/// Returns what is dropped for a section, if its group or its name is known, and makes that known.
///
/// # Errors
/// Those of its group, or its name; there is no room for a signature.
fn take_section<S: Source>(
    src: &mut Counted<S>,
    view: &SectionView<'_>,
    tables: ObjectTables,
    section: u16,
    strings: &mut StringBuffer,
    keys: &mut KeyTable<'_>,
) -> Result<Dropped, LinkFault>
    requires { section < view.now.store.now.loaded }
    ensures keeps { KeepsSource src.old.seen src.new.seen }
    ensures most { src.new.most ≡ src.old.most }
    ensures stays { KeptTexts strings.old strings.new }
    ensures takes { (file : List ℕ) → src.old.seen.file ≡ Some file →
        HoldsSectionHeaders file view.now.loaded view.now.store.now →
        HoldsTables file strings.old.bytes tables →
        TakesSection file section keys.old keys.new strings.new.bytes result }
{
    if view.section(section).sh_type == SHT_GROUP {
        return take_group(src, view, tables, section, strings, keys);
    }
    take_link_once(view, tables, section, strings, keys)
}

/// Returns the words of a group, if one of its signature is known, and makes that known.
///
/// # Errors
/// Those of its words and its symbol; there is no room for its signature.
fn take_group<S: Source>(
    src: &mut Counted<S>,
    view: &SectionView<'_>,
    tables: ObjectTables,
    section: u16,
    strings: &mut StringBuffer,
    keys: &mut KeyTable<'_>,
) -> Result<Dropped, LinkFault>
    requires { section < view.now.store.now.loaded }
    ensures keeps { KeepsSource src.old.seen src.new.seen }
    ensures most { src.new.most ≡ src.old.most }
    ensures stays { KeptTexts strings.old strings.new }
    ensures takes { (file : List ℕ) → src.old.seen.file ≡ Some file →
        HoldsSectionHeaders file view.now.loaded view.now.store.now →
        HoldsTables file strings.old.bytes tables → sh_type file (section_at file section) ≡ 17 →
        TakesSection file section keys.old keys.new strings.new.bytes result }
{
    let group = group_at(view, section)?;
    let at = group.at;
    let words = strings.read(src, group.start, group.size, at)?;
    if !is_comdat(strings.bytes(words)) {
        return Ok(Dropped::Nothing);
    }
    let name = signature(src, view, tables, &group, strings)?;
    match keys.drop_group(strings.bytes(name), false) {
        Ok(true) => Ok(Dropped::Words(words)),
        Ok(false) => Ok(Dropped::Nothing),
        Err(fault) => Err(full(at, fault)),
    }
}

/// Returns the group of a section.
///
/// # Errors
/// At the section's header: `SizeNotWhole` and `TableOutside` of its words, `BadLink` if it links
/// to no symbol table; those of that table; `SymbolIndex` if that has no symbol of its index.
fn group_at(view: &SectionView<'_>, section: u16) -> Result<GroupInFile, LinkFault>
    requires { section < view.now.store.now.loaded }
    ensures { (file : List ℕ) → HoldsSectionHeaders file view.now.loaded view.now.store.now →
        FindsGroup file (section_at file section) result }
{
    let header = view.section(section);
    let at = view.place(section);
    check_words(&header, view.loaded.size(), at)?;
    let linked = view.linked(section)?;
    let Some(symbols) = linked else {
        return file_refused(at, Cause::BadLink);
    };
    group_of(&header, at, symbols)
}

/// Returns the group with a header at a file offset, by its symbol table.
///
/// # Errors
/// `SymbolIndex` at the header if the table has no symbol of its index.
fn group_of(header: &Shdr, at: u64, symbols: (Table, Names)) -> Result<GroupInFile, LinkFault>
    ensures { MakesGroup header.now at symbols result }
{
    let (table, names) = symbols;
    let index = u64::from(header.sh_info);
    if index >= table.len() {
        return file_refused(at, Cause::SymbolIndex);
    }
    Ok(GroupInFile {
        at,
        start: header.sh_offset,
        size: header.sh_size,
        index,
        link: header.sh_link,
        table,
        names,
    })
}

/// Checks the words of the group with a header in a file of `size` bytes. An empty group is checked
/// too.
///
/// # Errors
/// At the offset `at`: `SizeNotWhole` if they are not whole, `TableOutside` if they end past the
/// end of the file.
fn check_words(header: &Shdr, size: u64, at: u64) -> Result<(), Fault>
    ensures { ChecksDecide
        (whole_checks_of size header.now.sh_offset header.now.sh_size at 4) result }
{
    if header.sh_size % WORD_SIZE as u64 != 0 {
        return refused(at, Cause::SizeNotWhole);
    }
    if is_out_of_bounds(size, header.sh_offset, header.sh_size) {
        return refused(at, Cause::TableOutside);
    }
    Ok(())
}

/// Returns whether the first word of a group says that one of its signature is kept.
fn is_comdat(words: &[u8]) -> bool
    ensures { result ≡ is_one_kept words.now }
{
    match word_in(words, 0) {
        Some(flags) => flags & GRP_COMDAT != 0,
        None => false,
    }
}

/// Returns the word of an index, if there is one.
fn word_in(words: &[u8], index: usize) -> Option<u32>
    ensures { result ≡ group_word words.now index }
{
    let start = index.saturating_mul(WORD_SIZE);
    match part_of(words, start, WORD_SIZE).first_chunk() {
        Some(bytes) => Some(word(bytes)),
        None => None,
    }
}

/// Returns the signature of a group: the name of its symbol, or of the section of that if it is a
/// section's and has no name.
///
/// # Errors
/// Those of the name, at the symbol or at the section's header; there is no room for the tables.
fn signature<S: Source>(
    src: &mut Counted<S>,
    view: &SectionView<'_>,
    tables: ObjectTables,
    group: &GroupInFile,
    strings: &mut StringBuffer,
) -> Result<HeldText, LinkFault>
    ensures keeps { KeepsSource src.old.seen src.new.seen }
    ensures most { src.new.most ≡ src.old.most }
    ensures stays { KeptTexts strings.old strings.new }
    ensures signs { (file : List ℕ) (at : ℕ) → src.old.seen.file ≡ Some file →
        HoldsSectionHeaders file view.now.loaded view.now.store.now →
        HoldsTables file strings.old.bytes tables → FoundGroup file at group.now →
        SignsGroup file strings.new.bytes at result }
{
    let symbols = linked_symbols(src, tables, group, strings)?;
    symbol_name(view, tables, group, symbols, strings)
}

/// Returns the name of the symbol of a group, or of the section of that.
///
/// # Errors
/// Those of the name, at the symbol or at the section's header.
fn symbol_name(
    view: &SectionView<'_>,
    tables: ObjectTables,
    group: &GroupInFile,
    symbols: SymbolRows,
    strings: &StringBuffer,
) -> Result<HeldText, LinkFault>
    ensures { (file : List ℕ) (at : ℕ) →
        HoldsSectionHeaders file view.now.loaded view.now.store.now →
        HoldsTables file strings.now.bytes tables → FoundGroup file at group.now →
        HoldsSymbols file strings.now.bytes (linked_at file at) symbols →
        SignsGroup file strings.now.bytes at result }
{
    let index = group.index;
    let place = symbols.place(index);
    let Some(fields) = symbol_in(strings.bytes(symbols.rows), index) else {
        return file_refused(group.at, Cause::SymbolIndex);
    };
    let name = strings.name(symbols.names, u64::from(fields.st_name), place)?;
    if name.size == 0 && fields.kind() == STT_SECTION && fields.st_shndx < view.sections() {
        return section_name(view, tables, fields.st_shndx, strings);
    }
    Ok(name)
}

/// Returns the symbol table of a group, which is read unless it is the object's first.
///
/// # Errors
/// Those of reading it; there is no room for it.
fn linked_symbols<S: Source>(
    src: &mut Counted<S>,
    tables: ObjectTables,
    group: &GroupInFile,
    strings: &mut StringBuffer,
) -> Result<SymbolRows, LinkFault>
    ensures keeps { KeepsSource src.old.seen src.new.seen }
    ensures most { src.new.most ≡ src.old.most }
    ensures stays { KeptTexts strings.old strings.new }
    ensures reads { (file : List ℕ) (at : ℕ) → src.old.seen.file ≡ Some file →
        HoldsTables file strings.old.bytes tables → FoundGroup file at group.now →
        ReadsLinked file strings.new.bytes at result }
{
    if let Some(symbols) = tables.symbols {
        if u32::from(symbols.section) == group.link {
            return Ok(symbols);
        }
    }
    let (at, table, names) = (group.at, group.table, group.names);
    let rows = read_rows(src, table, strings)?;
    let names = read_names(src, names, at, strings)?;
    Ok(SymbolRows {
        section: 0,
        at: table.at(),
        count: table.len(),
        first: 0,
        rows,
        names,
    })
}

/// Drops a link-once section in no group whose name is known, or makes it known.
///
/// # Errors
/// Those of its name; there is no room for it.
fn take_link_once(
    view: &SectionView<'_>,
    tables: ObjectTables,
    section: u16,
    strings: &StringBuffer,
    keys: &mut KeyTable<'_>,
) -> Result<Dropped, LinkFault>
    requires { section < view.now.store.now.loaded }
    ensures { (file : List ℕ) → HoldsSectionHeaders file view.now.loaded view.now.store.now →
        HoldsTables file strings.now.bytes tables → sh_type file (section_at file section) ≢ 17 →
        TakesSection file section keys.old keys.new strings.now.bytes result }
{
    let name = section_name(view, tables, section, strings)?;
    let text = strings.bytes(name);
    if !is_link_once(&view.section(section), text) {
        return Ok(Dropped::Nothing);
    }
    match keys.drop_group(text, true) {
        Ok(true) => Ok(Dropped::Section),
        Ok(false) => Ok(Dropped::Nothing),
        Err(fault) => Err(full(view.place(section), fault)),
    }
}

/// Returns `true` if a section with a header and a name is a link-once section, in no group.
fn is_link_once(header: &Shdr, name: &[u8]) -> bool
    ensures { (file : List ℕ) (at : ℕ) → IsShdr file at header.now →
        result ≡ is_link_once file at name.now }
{
    header.sh_flags & SHF_GROUP == 0 && name.starts_with(LINK_ONCE)
}
