//! The tables of the sections of a loaded file, with its section headers handed in at each call.
ghost use Rattle.std.specs.Prelude.{◌≡◌, ◌==◌, ◌||◌, not, true, ◌<◌, ◌≤◌, ℕ, List};
ghost use Rattle.std.specs.Prelude.{None, Ok, IfOk, IfErr, IfSome, IsTrue, MatchResult};
ghost use Rattle.elf_model.specs.Prelude.{has_strings, has_symbols, relocation_size, section_at, sh_link, sh_size};
ghost use Rattle.elf_table.specs.Faults.{IsOfCheck};
ghost use Rattle.elf_table.specs.Files.{program_headers};
ghost use Rattle.elf_table.specs.Load.{HoldsSectionHeaders, LoadedFile, section_place};
ghost use Rattle.elf_table.specs.Relocations.{Links, Relocates, RelocatesWith};
ghost use Rattle.elf_table.specs.Sections.{byte_rows, section_names, string_table_at};
ghost use Rattle.elf_table.specs.Sections.{symbols_at, table_at, table_of};
ghost use Rattle.elf_table.specs.Store.{row};
ghost use Rattle.elf_table.specs.Tables.{Spans, StringsInBounds, SymbolTableInBounds};
ghost use Rattle.elf_table.specs.Tables.{TableInBounds, size_of};
ghost use Rattle.elf_table.specs.Versions.{CountsVersions, LinksToSymbols, Versioned};
ghost use Rattle.elf_table.specs.Versions.{has_names, sections_of};

use crate::checks::{checked_bytes, checked_strings, checked_table, holds_symbols};
use crate::fault::{Fault, refused};
use crate::header_rows::{HeaderRows, section_place};
use crate::linked_symbol::LinkedSymbolTable;
use crate::loaded::Loaded;
use crate::names::Names;
use crate::ranges::is_out_of_bounds;
use crate::table::Table;
use elf_record::Cause;
use elf_record::sizes::{
    PROGRAM_HEADER_BYTES, REL_BYTES, RELOCATION_BYTES, SYMBOL_BYTES, SYMBOL_VERSION_BYTES,
};

impl Loaded {
    /// Returns the file offset of the section header of an index below e_shnum, in bytes (gABI 4,
    /// Section Header).
    pub fn place(&self, section: u16) -> u64
        requires { section < self.now.header.e_shnum }
        ensures { result ≡ section_place self.now.header section }
    {
        section_place(&self.header(), section)
    }

    /// Returns the program headers as rows of 56 bytes, none if e_phnum is 0 (gABI 5, Program
    /// Header).
    pub fn segments(&self) -> Table
        ensures value { result ≡ program_headers self.now.header }
        ensures few { result.count ≤ 65279 }
        ensures within { TableInBounds self.now.size result }
    {
        let header = self.header();
        Table::new(
            header.e_phoff,
            u64::from(header.e_phnum),
            PROGRAM_HEADER_BYTES,
        )
    }

    /// Returns `size` bytes of the file from `offset` on as rows of one byte, unchecked if `size`
    /// is 0.
    ///
    /// # Errors
    /// Returns `TableOutside` at `at` if they end past the end of the file.
    pub fn bytes(&self, offset: u64, size: u64, at: u64) -> Result<Table, Fault>
        ensures value { result ≡ byte_rows self.now.size offset size at }
        ensures within { IfOk result (TableInBounds self.now.size) }
    {
        checked_bytes(offset, size, self.size(), at)
    }

    /// Returns the string table of the section names; `None` if e_shnum or e_shstrndx is 0 (gABI 4,
    /// ELF Header). No bytes are read.
    ///
    /// It lies within the file, as `load` checked. With the headers of another file it may not, and
    /// then the result is `None` too.
    pub fn names<R: HeaderRows>(&self, rows: &R) -> Option<Names>
        requires whole { (R.state rows.now).loaded ≡ self.now.header.e_shnum }
        ensures held { (file : List ℕ) → HoldsSectionHeaders file self.now (R.state rows.now) →
            result ≡ section_names file }
        ensures within { IfSome result (StringsInBounds self.now.size) }
        ensures none { self.now.header.e_shnum ≡ 0 → result ≡ None }
        ensures unnamed { self.now.header.e_shstrndx ≡ 0 → result ≡ None }
    {
        if self.header().e_shnum == 0 || self.header().e_shstrndx == 0 {
            return None;
        }
        let section = rows.section_header(self.header().e_shstrndx);
        if is_out_of_bounds(self.size(), section.sh_offset, section.sh_size) {
            return None;
        }
        Some(Names::new(section.sh_offset, section.sh_size))
    }

    /// Returns a section as a table of rows of `entry` bytes, 1 to 4,096. A section of size 0 is
    /// not checked. No bytes are read.
    ///
    /// # Errors
    /// Returns the first check that fails, at the section's header: `EntrySize` if sh_entsize is
    /// another size, `SizeNotWhole` if sh_size is no multiple of it, `TableOutside` if the section
    /// ends past the end of the file.
    pub fn table<R: HeaderRows>(&self, rows: &R, section: u16, entry: u64) -> Result<Table, Fault>
        requires whole { (R.state rows.now).loaded ≡ self.now.header.e_shnum }
        requires below { section < (R.state rows.now).loaded }
        requires entry { (0 < entry) × (entry ≤ 4096) }
        ensures value { result ≡ table_of (row (R.state rows.now) section) 0 self.now.size
            (section_place self.now.header section) entry }
        ensures held { (file : List ℕ) → HoldsSectionHeaders file self.now (R.state rows.now) →
            result ≡ table_at file (section_at file section) entry }
        ensures lies { MatchResult result
            (Spans self.now.size entry (sh_size (row (R.state rows.now) section) 0)) IsOfCheck }
    {
        checked_table(
            &rows.section_header(section),
            self.size(),
            self.place(section),
            entry,
        )
    }

    /// Returns the string table that a section links to by its sh_link. It is checked at every
    /// size. No bytes are read (gABI 4, String Table).
    ///
    /// # Errors
    /// Returns the first check that fails: `BadLink` at the header of `section` if its link is 0 or
    /// names no section; `NotStrings` if the linked section is no string table, and `TableOutside`
    /// if it ends past the end of the file, both at the linked section's header.
    pub fn strings<R: HeaderRows>(&self, rows: &R, section: u16) -> Result<Names, Fault>
        requires whole { (R.state rows.now).loaded ≡ self.now.header.e_shnum }
        requires below { section < (R.state rows.now).loaded }
        ensures held { (file : List ℕ) → HoldsSectionHeaders file self.now (R.state rows.now) →
            result ≡ string_table_at file (section_at file section) }
        ensures within { IfOk result (StringsInBounds self.now.size) }
        ensures found { IfOk result (λ names.
            has_strings (sections_of (R.state rows.now)) section self.now.size ≡ true) }
        ensures refusal { IfErr result IsOfCheck }
    {
        let link = rows.section_header(section).sh_link;
        if link == 0 || link >= u32::from(self.header().e_shnum) {
            return refused(self.place(section), Cause::BadLink);
        }
        let link = link as u16;
        checked_strings(&rows.section_header(link), self.size(), self.place(link))
    }

    /// Returns the symbols of a section, rows of 24 bytes, and the string table of their names; two
    /// empty tables, without a check, if the section is empty. The section's type is ignored. No
    /// bytes are read (gABI 4, Symbol Table).
    ///
    /// # Errors
    /// Returns the first check that fails: those of [`Loaded::table`], then those of
    /// [`Loaded::strings`].
    pub fn symbols<R: HeaderRows>(&self, rows: &R, section: u16) -> Result<(Table, Names), Fault>
        requires whole { (R.state rows.now).loaded ≡ self.now.header.e_shnum }
        requires below { section < (R.state rows.now).loaded }
        ensures held { (file : List ℕ) → HoldsSectionHeaders file self.now (R.state rows.now) →
            result ≡ symbols_at file (section_at file section) }
        ensures table { IfOk result (λ symbols. Ok symbols.0
            ≡ table_of (row (R.state rows.now) section) 0 self.now.size
            (section_place self.now.header section) 24) }
        ensures sized { IfOk result (λ symbols.
            size_of symbols.0 ≡ sh_size (row (R.state rows.now) section) 0) }
        ensures within { IfOk result (SymbolTableInBounds self.now.size) }
        ensures found { IfOk result (λ symbols.
            has_names (sections_of (R.state rows.now)) section self.now.size ≡ true) }
        ensures refusal { IfErr result IsOfCheck }
    {
        let table = self.table(rows, section, SYMBOL_BYTES)?;
        if table.is_empty() {
            let none = Names::new(table.at(), 0);
            return Ok((table, none));
        }
        let names = self.strings(rows, section)?;
        Ok((table, names))
    }

    /// Returns the symbols that a section of relocations links to by its sh_link, with their names;
    /// `None` if that names no section of symbols (gABI 4, Relocation). No bytes are read.
    ///
    /// # Errors
    /// Those of [`Loaded::symbols`] at the linked section.
    pub fn linked<R: HeaderRows>(&self, rows: &R, section: u16) -> Result<LinkedSymbolTable, Fault>
        requires whole { (R.state rows.now).loaded ≡ self.now.header.e_shnum }
        requires below { section < (R.state rows.now).loaded }
        ensures held { (file : List ℕ) → HoldsSectionHeaders file self.now (R.state rows.now) →
            Links file (section_at file section) result }
        ensures within { IfOk result (λ linked.
            IfSome linked (SymbolTableInBounds self.now.size)) }
        ensures refusal { IfErr result IsOfCheck }
    {
        let link = rows.section_header(section).sh_link;
        if link >= u32::from(self.header().e_shnum) {
            return Ok(None);
        }
        let link = link as u16;
        if !holds_symbols(&rows.section_header(link)) {
            return Ok(None);
        }
        let symbols = self.symbols(rows, link)?;
        Ok(Some(symbols))
    }

    /// Returns the relocation entries of a section, rows of 24 bytes, and the symbols that they
    /// refer to, as [`Loaded::entries`] does.
    ///
    /// # Errors
    /// As for [`Loaded::entries`].
    pub fn relocations<R: HeaderRows>(
        &self,
        rows: &R,
        section: u16,
    ) -> Result<(Table, LinkedSymbolTable), Fault>
        requires whole { (R.state rows.now).loaded ≡ self.now.header.e_shnum }
        requires below { section < (R.state rows.now).loaded }
        ensures held { (file : List ℕ) → HoldsSectionHeaders file self.now (R.state rows.now) →
            Relocates file (section_at file section) result }
        ensures table { IfOk result (λ found. Ok found.0
            ≡ table_of (row (R.state rows.now) section) 0 self.now.size
            (section_place self.now.header section) 24) }
        ensures entry { IfOk result (λ found. found.0.entry ≡ 24) }
        ensures within { IfOk result (λ found. TableInBounds self.now.size found.0) }
        ensures linked { IfOk result (λ found.
            IfSome found.1 (SymbolTableInBounds self.now.size)) }
        ensures refusal { IfErr result IsOfCheck }
    {
        self.entries(rows, section, true)
    }

    /// Returns the relocation entries of a section, rows of 24 bytes with `addends` and of 16
    /// without, and the symbols that they refer to, as [`Loaded::linked`] does; no rows and `None`,
    /// without a check, if the section is empty. The section's type is ignored. No bytes are read
    /// (gABI 4, Relocation).
    ///
    /// # Errors
    /// Returns the first check that fails: those of [`Loaded::table`], then those of
    /// [`Loaded::linked`].
    pub fn entries<R: HeaderRows>(
        &self,
        rows: &R,
        section: u16,
        addends: bool,
    ) -> Result<(Table, LinkedSymbolTable), Fault>
        requires whole { (R.state rows.now).loaded ≡ self.now.header.e_shnum }
        requires below { section < (R.state rows.now).loaded }
        ensures held { (file : List ℕ) → HoldsSectionHeaders file self.now (R.state rows.now) →
            RelocatesWith addends file (section_at file section) result }
        ensures table { IfOk result (λ found. Ok found.0
            ≡ table_of (row (R.state rows.now) section) 0 self.now.size
            (section_place self.now.header section) (relocation_size addends)) }
        ensures entry { IfOk result (λ found. found.0.entry ≡ relocation_size addends) }
        ensures within { IfOk result (λ found. TableInBounds self.now.size found.0) }
        ensures linked { IfOk result (λ found.
            IfSome found.1 (SymbolTableInBounds self.now.size)) }
        ensures refusal { IfErr result IsOfCheck }
    {
        let table = self.table(rows, section, relocation_bytes(addends))?;
        if table.is_empty() {
            return Ok((table, None));
        }
        let linked = self.linked(rows, section)?;
        Ok((table, linked))
    }

    /// Returns the symbol versions of a section, rows of 2 bytes, and the number of symbols in the
    /// table that it links to; none, without a check, if the section is empty. The section's type
    /// is ignored. No bytes are read (Linux Standard Base Core, Symbol Versioning).
    ///
    /// # Errors
    /// Returns the first check that fails: those of [`Loaded::table`]; `BadLink` at the section's
    /// header if its link is 0 or names no section of symbols; then those of [`Loaded::symbols`] at
    /// the linked section.
    pub fn symbol_versions<R: HeaderRows>(
        &self,
        rows: &R,
        section: u16,
    ) -> Result<(Table, u64), Fault>
        requires whole { (R.state rows.now).loaded ≡ self.now.header.e_shnum }
        requires below { section < (R.state rows.now).loaded }
        ensures held { (file : List ℕ) → HoldsSectionHeaders file self.now (R.state rows.now) →
            Versioned file (section_at file section) result }
        ensures table { IfOk result (λ found. Ok found.0
            ≡ table_of (row (R.state rows.now) section) 0 self.now.size
            (section_place self.now.header section) 2) }
        ensures within { IfOk result (λ found. TableInBounds self.now.size found.0) }
        ensures counts { IfOk result (λ found.
            CountsVersions (R.state rows.now) self.now.size section found.0 found.1) }
        ensures refusal { IfErr result IsOfCheck }
    {
        let table = self.table(rows, section, SYMBOL_VERSION_BYTES)?;
        if rows.section_header(section).sh_size == 0 {
            return Ok((table, 0));
        }
        if !links_to_symbols(rows, section) {
            return refused(self.place(section), Cause::BadLink);
        }
        let link = rows.section_header(section).sh_link as u16;
        let symbols = self.symbols(rows, link)?;
        Ok((table, symbols.0.len()))
    }
}

/// Returns the size of a relocation entry with or without an addend, in bytes.
fn relocation_bytes(addends: bool) -> u64
    ensures size { result ≡ relocation_size addends }
    ensures few { (0 < result) × (result ≤ 4096) }
{
    if addends { RELOCATION_BYTES } else { REL_BYTES }
}

/// Returns `true` if a section links to a section of symbols, which is not the first.
pub(crate) fn links_to_symbols<R: HeaderRows>(rows: &R, section: u16) -> bool
    requires below { section < (R.state rows.now).loaded }
    ensures linked { IsTrue result → LinksToSymbols (R.state rows.now) section }
    ensures held { (file : List ℕ) (loaded : LoadedFile) →
        HoldsSectionHeaders file loaded (R.state rows.now) → let at = section_at file section in
        result ≡ not (sh_link file at == 0 || not (has_symbols file at)) }
{
    let link = rows.section_header(section).sh_link;
    link != 0
        && link < u32::from(rows.section_count())
        && holds_symbols(&rows.section_header(link as u16))
}
