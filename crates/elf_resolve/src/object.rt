//! An object of a link: its headers, its symbol table and its string tables.
ghost use Rattle.std.specs.Prelude.{◌≡◌, ◌+◌, ◌*◌, ◌<◌, ◌≤◌, ◌^◌, List, ℕ, Some, IfSome, IsOk, IsSome, length};
ghost use Rattle.elf_model.specs.Bytes.{slice};
ghost use Rattle.elf_model.specs.HeaderTables.{file_sections, first_typed};
ghost use Rattle.elf_record.specs.Ehdr.{IsEhdr};
ghost use Rattle.elf_record.specs.Sym.{IsSym};
ghost use Rattle.elf_source.specs.Prelude.{KeepsSource};
ghost use Rattle.elf_resolve.specs.ObjectParts.{ChecksKind, ReadsFound, ReadsLinkHeader, ReadsNamesOfSections, ReadsSymbols, ReadsTables};
ghost use Rattle.elf_resolve.specs.Objects.{TakesLoaded};
ghost use Rattle.elf_resolve.specs.StringBuffers.{KeptTexts, ReadsText};
ghost use Rattle.elf_resolve.specs.Taken.{TakesObject};
ghost use Rattle.elf_table.specs.Load.{HoldsSectionHeaders};

use crate::link_faults::{LinkFault, refused};
use crate::object_symbols::take_symbols;
use crate::room::{LinkRoom, TableRoom, reach_slots, slots_for};
use crate::section_groups::drop_groups;
use crate::section_names::note_sections;
use crate::string_buffer::{HeldText, StringBuffer, part_of};
use crate::table::KeyTable;
use elf_model::LinkCause;
use elf_record::numbers::{EM_X86_64, ET_REL, SHT_SYMTAB};
use elf_record::{Ehdr, Sym};
use elf_source::{Counted, Source};
use elf_table::{HeaderStore, Names, SectionView, Table, header, load};

/// The offset of the type in a file header, in bytes (gABI 4, ELF Header).
const TYPE_AT: u64 = 16;

/// The offset of the machine in a file header, in bytes.
const MACHINE_AT: u64 = 18;

/// The offset of the index of the section of the section names in a file header, in bytes.
const NAMES_AT: u64 = 62;

/// The size of a symbol in bytes.
const SYMBOL_BYTES: usize = 24;

/// The symbol table of a file, with its symbols and their names in a buffer.
#[derive(Clone, Copy)]
pub(crate) struct SymbolRows {
    /// The index of its section.
    pub section: u16,
    /// Its file offset in bytes.
    pub at: u64,
    /// How many symbols it has.
    pub count: u64,
    /// The index of the first symbol that is not local.
    pub first: u64,
    /// The symbols.
    pub rows: HeldText,
    /// The names.
    pub names: HeldText,
}

/// The tables of an object in a buffer: its symbols, if it has some, and the names of its sections.
#[derive(Clone, Copy)]
pub(crate) struct ObjectTables {
    /// Its symbol table.
    pub symbols: Option<SymbolRows>,
    /// The names of its sections.
    pub sections: Option<HeldText>,
}

/// Takes the section groups and the symbols of an object, which has the row `row`.
///
/// # Errors
/// The first fault of its headers, its tables, its groups, the names of its sections or its
/// symbols; or there is no room for a key.
pub(crate) fn take_object<S: Source>(
    src: &mut Counted<S>,
    room: &mut LinkRoom,
    keys: &mut KeyTable<'_>,
    row: u32,
) -> Result<(), LinkFault>
    ensures keeps { KeepsSource src.old.seen src.new.seen }
    ensures most { src.new.most ≡ src.old.most }
    ensures headers { room.new.headers ≡ room.old.headers }
    ensures names { room.new.names ≡ room.old.names }
    ensures takes { (file : List ℕ) → src.old.seen.file ≡ Some file →
        TakesObject file room.old.headers row keys.old keys.new result }
{
    let head = linked_header(src, ET_REL)?;
    let slots = slots_for(room.headers, &head);
    reach_slots(&mut room.header_bytes, slots)?;
    let mut store = HeaderStore::over(&mut room.header_bytes, slots);
    let loaded = load(src, &mut store, &head)?;
    let view = SectionView {
        loaded,
        store: &store,
    };
    take_sections(src, &view, &mut room.tables, keys, row)
}

/// Takes an object whose section headers are loaded.
///
/// # Errors
/// Those of [`take_object`].
fn take_sections<S: Source>(
    src: &mut Counted<S>,
    view: &SectionView<'_>,
    room: &mut TableRoom,
    keys: &mut KeyTable<'_>,
    row: u32,
) -> Result<(), LinkFault>
    ensures keeps { KeepsSource src.old.seen src.new.seen }
    ensures most { src.new.most ≡ src.old.most }
    ensures takes { (file : List ℕ) → src.old.seen.file ≡ Some file →
        HoldsSectionHeaders file view.now.loaded view.now.store.now →
        TakesLoaded file row keys.old keys.new result }
{
    let tables = read_tables(src, view, &mut room.strings)?;
    room.sections.clear(view.sections());
    drop_groups(
        src,
        view,
        tables,
        &mut room.strings,
        &mut room.sections,
        keys,
    )?;
    note_sections(view, tables, &room.strings, &room.sections, keys)?;
    let strings = &mut room.strings;
    take_symbols(tables, strings, &room.sections, keys, &mut room.marks, row)
}

/// Reads the header of a file for x86-64 of a type.
///
/// # Errors
/// Those of the header, `FileType` at 16 and `Machine` at 18.
pub(crate) fn linked_header<S: Source>(src: &mut Counted<S>, wanted: u16) -> Result<Ehdr, LinkFault>
    ensures keeps { KeepsSource src.old.seen src.new.seen }
    ensures most { src.new.most ≡ src.old.most }
    ensures reads { (file : List ℕ) → src.old.seen.file ≡ Some file →
        ReadsLinkHeader file wanted result }
{
    let head = header(src)?;
    check_kind(&head, wanted)?;
    Ok(head)
}

/// Checks the type and the machine in a file header.
///
/// # Errors
/// `FileType` at 16 and `Machine` at 18.
fn check_kind(head: &Ehdr, wanted: u16) -> Result<(), LinkFault>
    ensures { (file : List ℕ) → IsEhdr file 0 head.now → ChecksKind file wanted result }
{
    if head.e_type != wanted {
        return refused(TYPE_AT, LinkCause::FileType);
    }
    if head.e_machine != EM_X86_64 {
        return refused(MACHINE_AT, LinkCause::Machine);
    }
    Ok(())
}

/// Reads the symbols of the first symbol table and their names, and the names of sections.
///
/// # Errors
/// Those of the tables; there is no room for them.
pub(crate) fn read_tables<S: Source>(
    src: &mut Counted<S>,
    view: &SectionView<'_>,
    strings: &mut StringBuffer,
) -> Result<ObjectTables, LinkFault>
    ensures keeps { KeepsSource src.old.seen src.new.seen }
    ensures most { src.new.most ≡ src.old.most }
    ensures reads { (file : List ℕ) → src.old.seen.file ≡ Some file →
        HoldsSectionHeaders file view.now.loaded view.now.store.now →
        ReadsTables file strings.new.bytes result }
{
    strings.forget_after(0);
    let symbols = read_first_symbols(src, view, SHT_SYMTAB, strings)?;
    let sections = read_section_names(src, view, strings)?;
    Ok(ObjectTables { symbols, sections })
}

/// Reads the first symbol table of a type, if there is one.
///
/// # Errors
/// Those of the table; there is no room for it.
pub(crate) fn read_first_symbols<S: Source>(
    src: &mut Counted<S>,
    view: &SectionView<'_>,
    kind: u32,
    strings: &mut StringBuffer,
) -> Result<Option<SymbolRows>, LinkFault>
    ensures keeps { KeepsSource src.old.seen src.new.seen }
    ensures most { src.new.most ≡ src.old.most }
    ensures stays { KeptTexts strings.old strings.new }
    ensures reads { (file : List ℕ) → src.old.seen.file ≡ Some file →
        HoldsSectionHeaders file view.now.loaded view.now.store.now →
        ReadsFound file strings.new.bytes (first_typed (file_sections file) kind) result }
{
    let Some(section) = view.first(kind) else {
        return Ok(None);
    };
    let symbols = read_symbols(src, view, section, strings)?;
    Ok(Some(symbols))
}

/// Reads the names of sections, if there are some.
///
/// # Errors
/// There is no room for them; those of reading them.
fn read_section_names<S: Source>(
    src: &mut Counted<S>,
    view: &SectionView<'_>,
    strings: &mut StringBuffer,
) -> Result<Option<HeldText>, LinkFault>
    ensures keeps { KeepsSource src.old.seen src.new.seen }
    ensures most { src.new.most ≡ src.old.most }
    ensures stays { KeptTexts strings.old strings.new }
    ensures reads { (file : List ℕ) → src.old.seen.file ≡ Some file →
        HoldsSectionHeaders file view.now.loaded view.now.store.now →
        ReadsNamesOfSections file strings.new.bytes result }
{
    let Some(names) = view.names() else {
        return Ok(None);
    };
    let names = read_names(src, names, NAMES_AT, strings)?;
    Ok(Some(names))
}

/// Reads a string table.
///
/// # Errors
/// There is no room for it; those of reading it.
pub(crate) fn read_names<S: Source>(
    src: &mut Counted<S>,
    names: Names,
    place: u64,
    strings: &mut StringBuffer,
) -> Result<HeldText, LinkFault>
    ensures keeps { KeepsSource src.old.seen src.new.seen }
    ensures most { src.new.most ≡ src.old.most }
    ensures stays { KeptTexts strings.old strings.new }
    ensures reads { (file : List ℕ) → src.old.seen.file ≡ Some file →
        ReadsText file names.at names.size strings.old strings.new result }
    ensures empty { names.size ≡ 0 → IsOk result }
{
    strings.read(src, names.at(), names.size(), place)
}

/// Reads a table of rows.
///
/// # Errors
/// There is no room for it; those of reading it.
pub(crate) fn read_rows<S: Source>(
    src: &mut Counted<S>,
    table: Table,
    strings: &mut StringBuffer,
) -> Result<HeldText, LinkFault>
    ensures keeps { KeepsSource src.old.seen src.new.seen }
    ensures most { src.new.most ≡ src.old.most }
    ensures stays { KeptTexts strings.old strings.new }
    ensures reads { (file : List ℕ) → src.old.seen.file ≡ Some file →
        ReadsText file table.at (table.count * table.entry) strings.old strings.new result }
    ensures empty { table.count ≡ 0 → IsOk result }
    ensures fits { table.at + table.count * table.entry < 2 ^ 64 }
{
    let size = table.len().saturating_mul(table.entry());
    strings.read(src, table.at(), size, table.at())
}

/// Reads a symbol table and the names of its symbols.
///
/// # Errors
/// Those of the tables; there is no room for them.
fn read_symbols<S: Source>(
    src: &mut Counted<S>,
    view: &SectionView<'_>,
    section: u16,
    strings: &mut StringBuffer,
) -> Result<SymbolRows, LinkFault>
    requires { section < view.now.store.now.loaded }
    ensures keeps { KeepsSource src.old.seen src.new.seen }
    ensures most { src.new.most ≡ src.old.most }
    ensures stays { KeptTexts strings.old strings.new }
    ensures reads { (file : List ℕ) → src.old.seen.file ≡ Some file →
        HoldsSectionHeaders file view.now.loaded view.now.store.now →
        ReadsSymbols file strings.new.bytes section result }
{
    let (table, names) = view.symbols(section)?;
    let first = u64::from(view.section(section).sh_info);
    let rows = read_rows(src, table, strings)?;
    let names = read_names(src, names, table.at(), strings)?;
    Ok(SymbolRows {
        section,
        at: table.at(),
        count: table.len(),
        first,
        rows,
        names,
    })
}

/// Returns the symbol of an index in the bytes of a table, if there is one.
pub(crate) fn symbol_in(rows: &[u8], index: u64) -> Option<Sym>
    ensures found { 24 * index + 24 ≤ length rows.now → IsSome result }
    ensures is { IfSome result (λ symbol. (file : List ℕ) (at : ℕ) →
        rows.now ≡ slice file at (length rows.now) → IsSym file (at + 24 * index) symbol) }
{
    let start = (index as usize).saturating_mul(SYMBOL_BYTES);
    match part_of(rows, start, SYMBOL_BYTES).first_chunk() {
        Some(row) => Some(Sym::decode(row)),
        None => None,
    }
}

impl SymbolRows {
    /// Returns the file offset of the symbol of an index.
    pub(crate) fn place(&self, index: u64) -> u64
        ensures { self.now.at + 24 * index < 2 ^ 64 → result ≡ self.now.at + 24 * index }
    {
        self.at
            .saturating_add(index.saturating_mul(SYMBOL_BYTES as u64))
    }
}
