//! A shared library of a link: its symbols with their versions, and what its dynamic entries say.
ghost use Rattle.std.specs.Prelude.{◌≡◌, ◌+◌, ◌*◌, ◌<◌, ◌^◌, ◌/◌, ◌==◌, ◌&&◌, IfErr, IfOk, List, ℕ, None, Ok, Option, Some, is_none, is_some};
ghost use Rattle.elf_model.specs.Prelude.{entry_at, section_at};
ghost use Rattle.elf_source.specs.Prelude.{KeepsSource};
ghost use Rattle.elf_resolve.specs.LibraryEntries.{FindsDynamicEntry, FindsOwnName, IsDynamicEntry, own_name, own_step};
ghost use Rattle.elf_resolve.specs.LibraryFiles.{AreBytesOf, HoldsDynamic, ReadsDynamic, ReadsIndexes, ReadsLibrary, ReadsNamedRows, header_of_type};
ghost use Rattle.elf_resolve.specs.LibraryKeys.{version_index_at};
ghost use Rattle.elf_resolve.specs.LibraryTables.{FindsVersionIndex, HoldsIndexes, range_of_symbols};
ghost use Rattle.elf_resolve.specs.ObjectSymbols.{HoldsSome};
ghost use Rattle.elf_resolve.specs.StringBuffers.{KeptTexts};
ghost use Rattle.elf_resolve.specs.Taken.{IsLinkFault};
ghost use Rattle.elf_table.specs.Load.{HoldsSectionHeaders};

use crate::libraries::LibraryList;
use crate::library_versions::read_version_names;
use crate::link_faults::{LinkFault, file_refused};
use crate::object::{SymbolRows, read_first_symbols, read_names, read_rows};
use crate::string_buffer::{HeldText, StringBuffer, part_of};
use crate::version_room::VersionNames;
use elf_record::gnu_numbers::SHT_GNU_VERSYM;
use elf_record::numbers::{DT_NEEDED, DT_NULL, DT_SONAME, SHT_DYNAMIC, SHT_DYNSYM};
use elf_record::{Cause, u16_at, u64_at};
use elf_source::{Counted, Source};
use elf_table::{SectionView, Table};

/// The size of a dynamic entry in bytes.
const DYNAMIC_BYTES: usize = 16;

/// The size of a version index in bytes.
const INDEX_BYTES: usize = 2;

/// The tables of a shared library in a buffer.
#[derive(Clone, Copy)]
pub(crate) struct LibraryTables {
    /// The row of the library.
    pub row: u32,
    /// Its symbols for dynamic linking.
    pub symbols: Option<SymbolRows>,
    /// The versions of its symbols.
    pub versions: Option<VersionRows>,
    /// Its dynamic entries, and their strings.
    pub dynamic: Option<DynamicRows>,
}

/// The version indexes of symbols: their bytes, their file offset and that of the section's header.
#[derive(Clone, Copy)]
pub(crate) struct VersionRows {
    /// The indexes, two bytes each.
    pub rows: HeldText,
    /// Their file offset.
    pub at: u64,
    /// The file offset of the section's header.
    pub header: u64,
}

/// Dynamic entries: their bytes, their file offset, and their strings.
#[derive(Clone, Copy)]
pub(crate) struct DynamicRows {
    /// The entries.
    pub rows: HeldText,
    /// Their file offset.
    pub at: u64,
    /// The strings.
    pub strings: HeldText,
}

/// Reads the tables of a shared library, and the names of its versions.
///
/// # Errors
/// The first fault of its symbol table, its dynamic entries and its versions; there is
/// no room for them.
pub(crate) fn read_library<S: Source>(
    src: &mut Counted<S>,
    view: &SectionView<'_>,
    strings: &mut StringBuffer,
    versions: &mut VersionNames,
    row: u32,
) -> Result<LibraryTables, LinkFault>
    ensures keeps { KeepsSource src.old.seen src.new.seen }
    ensures most { src.new.most ≡ src.old.most }
    ensures reads { (file : List ℕ) → src.old.seen.file ≡ Some file →
        HoldsSectionHeaders file view.now.loaded view.now.store.now →
        ReadsLibrary file strings.new.bytes row versions.new result }
{
    strings.forget_after(0);
    versions.clear();
    let symbols = read_first_symbols(src, view, SHT_DYNSYM, strings)?;
    let dynamic = read_dynamic(src, view, strings)?;
    let indexes = read_indexes(src, view, strings)?;
    let tables = LibraryTables {
        row,
        symbols,
        versions: indexes,
        dynamic,
    };
    if !tables.has_versions() {
        return Ok(tables);
    }
    read_version_names(src, view, strings, versions)?;
    Ok(tables)
}

/// Reads the rows of a section, and the string table that it links to.
///
/// # Errors
/// Those of the string table; there is no room for them.
pub(crate) fn read_named_rows<S: Source>(
    src: &mut Counted<S>,
    view: &SectionView<'_>,
    section: u16,
    table: Table,
    strings: &mut StringBuffer,
) -> Result<(HeldText, HeldText), LinkFault>
    requires { section < view.now.store.now.loaded }
    ensures keeps { KeepsSource src.old.seen src.new.seen }
    ensures most { src.new.most ≡ src.old.most }
    ensures stays { KeptTexts strings.old strings.new }
    ensures reads { (file : List ℕ) → src.old.seen.file ≡ Some file →
        HoldsSectionHeaders file view.now.loaded view.now.store.now →
        AreBytesOf file (section_at file section) table →
        ReadsNamedRows file strings.new.bytes (section_at file section) result }
    ensures fits { IfOk result (λ _. table.at + table.count * table.entry < 2 ^ 64) }
{
    let linked = view.strings(section)?;
    let rows = read_rows(src, table, strings)?;
    let names = read_names(src, linked, table.at(), strings)?;
    Ok((rows, names))
}

/// Reads the first section of dynamic entries and its strings, if it has some.
///
/// # Errors
/// Those of the tables; there is no room for them.
fn read_dynamic<S: Source>(
    src: &mut Counted<S>,
    view: &SectionView<'_>,
    strings: &mut StringBuffer,
) -> Result<Option<DynamicRows>, LinkFault>
    ensures keeps { KeepsSource src.old.seen src.new.seen }
    ensures most { src.new.most ≡ src.old.most }
    ensures stays { KeptTexts strings.old strings.new }
    ensures reads { (file : List ℕ) → src.old.seen.file ≡ Some file →
        HoldsSectionHeaders file view.now.loaded view.now.store.now →
        ReadsDynamic file strings.new.bytes (header_of_type file SHT_DYNAMIC) result }
{
    let Some(section) = view.first(SHT_DYNAMIC) else {
        return Ok(None);
    };
    let table = view.table(section, DYNAMIC_BYTES as u64)?;
    if table.is_empty() {
        return Ok(None);
    }
    let (rows, names) = read_named_rows(src, view, section, table, strings)?;
    Ok(Some(DynamicRows {
        rows,
        at: table.at(),
        strings: names,
    }))
}

/// Reads the first section of version indexes.
///
/// # Errors
/// Those of the table; there is no room for it.
fn read_indexes<S: Source>(
    src: &mut Counted<S>,
    view: &SectionView<'_>,
    strings: &mut StringBuffer,
) -> Result<Option<VersionRows>, LinkFault>
    ensures keeps { KeepsSource src.old.seen src.new.seen }
    ensures most { src.new.most ≡ src.old.most }
    ensures stays { KeptTexts strings.old strings.new }
    ensures reads { (file : List ℕ) → src.old.seen.file ≡ Some file →
        HoldsSectionHeaders file view.now.loaded view.now.store.now →
        ReadsIndexes file strings.new.bytes (header_of_type file SHT_GNU_VERSYM) result }
{
    let Some(section) = view.first(SHT_GNU_VERSYM) else {
        return Ok(None);
    };
    let header = view.place(section);
    let table = view.table(section, INDEX_BYTES as u64)?;
    let rows = read_rows(src, table, strings)?;
    Ok(Some(VersionRows {
        rows,
        at: table.at(),
        header,
    }))
}

impl LibraryTables {
    /// Returns `true` if its symbols have versions.
    fn has_versions(&self) -> bool
        ensures { result ≡ (is_some self.now.versions && is_some self.now.symbols) }
    {
        self.versions.is_some() && self.symbols.is_some()
    }

    /// Returns the index of the first symbol that is not local, and that after the last.
    pub(crate) fn symbol_range(&self) -> (u64, u64)
        ensures { result ≡ range_of_symbols self.now.symbols }
    {
        match self.symbols {
            Some(symbols) => (symbols.first, symbols.count),
            None => (0, 0),
        }
    }
}

/// A dynamic entry (gABI 5, Dynamic Section).
#[derive(Clone, Copy)]
struct DynamicEntry {
    /// Its tag.
    tag: u64,
    /// Its value.
    value: u64,
    /// Its file offset.
    at: u64,
}

impl DynamicRows {
    /// Returns the entry of an index, if there is one that does not mark the end.
    fn entry(&self, strings: &StringBuffer, index: usize) -> Option<DynamicEntry>
        ensures { (file : List ℕ) (at : ℕ) → HoldsDynamic file strings.now.bytes at self.now →
            FindsDynamicEntry file at index result }
    {
        let start = index.saturating_mul(DYNAMIC_BYTES);
        let row = part_of(strings.bytes(self.rows), start, DYNAMIC_BYTES);
        if row.len() < DYNAMIC_BYTES {
            return None;
        }
        let tag = u64_at(row, 0);
        if tag == DT_NULL {
            return None;
        }
        let value = u64_at(row, 8);
        let at = self.at.saturating_add(start as u64);
        Some(DynamicEntry { tag, value, at })
    }

    /// Returns how many entries there can be.
    fn count(&self) -> usize
        ensures { result ≡ self.now.rows.size / 16 }
    {
        self.rows.size / DYNAMIC_BYTES
    }

    /// Returns the library's own name, if it has one.
    ///
    /// # Errors
    /// Those of a name, at its entry.
    pub(crate) fn soname(&self, strings: &StringBuffer) -> Result<Option<HeldText>, LinkFault>
        ensures { (file : List ℕ) (at : ℕ) → HoldsDynamic file strings.now.bytes at self.now →
            FindsOwnName (own_name file at) strings.now.bytes result }
    {
        let mut own = None;
        for index in 0..self.count() {
            let Some(entry) = self.entry(strings, index) else {
                return Ok(own);
            };
            own = self.own_after(strings, entry, own)?;
        }
        Ok(own)
    }

    /// Returns the library's own name after an entry: the first that an entry gives.
    ///
    /// # Errors
    /// Those of a name, at its entry.
    fn own_after(
        &self,
        strings: &StringBuffer,
        entry: DynamicEntry,
        own: Option<HeldText>,
    ) -> Result<Option<HeldText>, LinkFault>
        ensures { (file : List ℕ) (at index : ℕ) (before : Option (List ℕ)) →
            HoldsDynamic file strings.now.bytes at self.now → IsDynamicEntry file at index entry →
            HoldsSome strings.now.bytes own before →
            FindsOwnName (own_step file at (entry_at file at DYNAMIC_BYTES index) before)
            strings.now.bytes result }
    {
        if gives_own(entry, own) {
            let name = strings.name(self.strings, entry.value, entry.at)?;
            return Ok(Some(name));
        }
        if entry.tag != DT_NEEDED {
            return Ok(own);
        }
        strings.name(self.strings, entry.value, entry.at)?;
        Ok(own)
    }

    /// Adds the names that the library needs, which is the last of a list.
    ///
    /// # Errors
    /// There is no room for them; those of the names.
    pub(crate) fn add_needed(
        &self,
        strings: &StringBuffer,
        libraries: &mut LibraryList,
    ) -> Result<(), LinkFault>
        ensures { (file : List ℕ) (at : ℕ) (own : Option (List ℕ)) →
            HoldsDynamic file strings.now.bytes at self.now → own_name file at ≡ Ok own →
            IfErr result (IsLinkFault None) }
    {
        for index in 0..self.count() {
            let Some(entry) = self.entry(strings, index) else {
                return Ok(());
            };
            self.add_name(strings, entry, libraries)?;
        }
        Ok(())
    }

    /// Adds the name of an entry, if it is that of a library that is needed.
    ///
    /// # Errors
    /// There is no room for it; those of the name.
    fn add_name(
        &self,
        strings: &StringBuffer,
        entry: DynamicEntry,
        libraries: &mut LibraryList,
    ) -> Result<(), LinkFault>
        ensures { (file : List ℕ) (at index : ℕ) (before after : Option (List ℕ)) →
            HoldsDynamic file strings.now.bytes at self.now → IsDynamicEntry file at index entry →
            own_step file at (entry_at file at DYNAMIC_BYTES index) before ≡ Ok after →
            IfErr result (IsLinkFault None) }
    {
        if entry.tag != DT_NEEDED {
            return Ok(());
        }
        let name = strings.name(self.strings, entry.value, entry.at)?;
        libraries.add_needed(strings.bytes(name), entry.at)
    }
}

/// Returns `true` if an entry gives the library's own name, and none before it did.
fn gives_own(entry: DynamicEntry, own: Option<HeldText>) -> bool
    ensures { result ≡ (entry.tag == DT_SONAME && is_none own) }
{
    entry.tag == DT_SONAME && own.is_none()
}

impl VersionRows {
    /// Returns the version index of a symbol.
    ///
    /// # Errors
    /// `VersionCut` at the section's header if it has none for it.
    pub(crate) fn index(&self, strings: &StringBuffer, symbol: u64) -> Result<u16, LinkFault>
        ensures { (file : List ℕ) (at : ℕ) → HoldsIndexes file strings.now.bytes at self.now →
            FindsVersionIndex (version_index_at file at symbol) result }
    {
        let start = (symbol as usize).saturating_mul(INDEX_BYTES);
        let bytes = part_of(strings.bytes(self.rows), start, INDEX_BYTES);
        if bytes.len() < INDEX_BYTES {
            return file_refused(self.header, Cause::VersionCut);
        }
        Ok(u16_at(bytes, 0))
    }

    /// Returns the file offset of the version index of a symbol.
    pub(crate) fn place(&self, symbol: u64) -> u64
        ensures { self.now.at + 2 * symbol < 2 ^ 64 → result ≡ self.now.at + 2 * symbol }
    {
        self.at
            .saturating_add(symbol.saturating_mul(INDEX_BYTES as u64))
    }
}
