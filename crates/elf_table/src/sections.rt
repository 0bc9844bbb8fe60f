//! The checks of a loaded file's sections.
ghost use Rattle.std.specs.Prelude.{◌≡◌, ℕ, ◌<◌, ◌≤◌, ◌^◌, ◌==◌, ◌&&◌, ◌||◌, not, List, true, None, Ok, IfOk, IfErr, IfSome, MatchResult};
ghost use Rattle.elf_model.specs.Prelude.{SHT_GNU_VERSYM as VERSYM, file_sections, first_numbers, first_typed, has_strings, relocation_size, section_at, sh_link};
ghost use Rattle.elf_record.specs.Shdr.{IsShdr};
ghost use Rattle.elf_table.specs.Load.{HoldsSectionHeaders, PassesLoadChecks, section_place};
ghost use Rattle.elf_table.specs.Faults.{IsOfCheck};
ghost use Rattle.elf_table.specs.Files.{AnswersSection, program_headers, table_in, size_in};
ghost use Rattle.elf_table.specs.Sections.{byte_rows, table_at, string_table_at, section_names};
ghost use Rattle.elf_table.specs.Sections.{symbols_at};
ghost use Rattle.elf_table.specs.Relocations.{Links, Relocates, RelocatesWith};
ghost use Rattle.elf_table.specs.Versions.{CountsVersions, Versioned, has_names, sections_in};
ghost use Rattle.elf_table.specs.Store.{row};
ghost use Rattle.elf_table.specs.Tables.{TableInBounds, Spans, StringsInBounds, SymbolTableInBounds, size_of};

use crate::fault::Fault;
use crate::file::SectionView;
use crate::linked_symbol::LinkedSymbolTable;
use crate::names::Names;
use crate::table::Table;
use elf_record::Shdr;
use elf_record::gnu_numbers::SHT_GNU_VERSYM;

impl SectionView<'_> {
    /// Returns the number of section headers.
    pub fn sections(&self) -> u16
        ensures { result ≡ self.now.store.now.loaded }
    {
        self.store.loaded()
    }

    /// Returns the section header of an index below [`SectionView::sections`] (gABI 4, Section
    /// Header).
    pub fn section(&self, section: u16) -> Shdr
        requires { section < self.now.store.now.loaded }
        ensures fields { IsShdr (row self.now.store.now section) 0 result }
        ensures is_at { (file : List ℕ) →
            HoldsSectionHeaders file self.now.loaded self.now.store.now →
            IsShdr file (section_at file section) result }
    {
        self.store.section(section)
    }

    /// Returns the table of program headers, rows of 56 bytes, at most 65,279; none if e_phnum is 0
    /// (gABI 5, Program Header).
    pub fn segments(&self) -> Table
        ensures value { result ≡ program_headers self.now.loaded.header }
        ensures few { result.count ≤ 65279 }
        ensures within { TableInBounds self.now.loaded.size result }
    {
        self.loaded.segments()
    }

    /// Returns `size` bytes of the file at `offset`, as rows of one byte; an empty range is not
    /// checked. A refusal points to `at`.
    ///
    /// # Errors
    /// Returns `TableOutside` at `at` if they end past the end of the file.
    pub fn bytes(&self, offset: u64, size: u64, at: u64) -> Result<Table, Fault>
        ensures value { result ≡ byte_rows self.now.loaded.size offset size at }
        ensures within { IfOk result (TableInBounds self.now.loaded.size) }
    {
        self.loaded.bytes(offset, size, at)
    }

    /// Returns the section as a table of rows of `entry` bytes, 1 to 4,096. A section of size 0 is
    /// not checked. No bytes are read.
    ///
    /// # Errors
    /// Returns the first check that fails, at the section's header: `EntrySize` if sh_entsize is
    /// another size, `SizeNotWhole` if sh_size is no multiple of it, `TableOutside` if the section
    /// ends past the end of the file.
    pub fn table(&self, section: u16, entry: u64) -> Result<Table, Fault>
        requires below { section < self.now.store.now.loaded }
        requires entry { (0 < entry) × (entry ≤ 4096) }
        ensures value { result ≡ table_in self.now section entry }
        ensures held { AnswersSection self.now section result (λ file at. table_at file at entry) }
        ensures lies { MatchResult result
            (Spans self.now.loaded.size entry (size_in self.now section)) IsOfCheck }
    {
        self.loaded.table(self.store, section, entry)
    }

    /// Returns the string table that a section links to by its sh_link. It is checked at every
    /// size. No bytes are read (gABI 4, String Table).
    ///
    /// # Errors
    /// Returns the first check that fails: `BadLink` at the header of `section` if its link is 0 or
    /// names no section; `NotStrings` if the linked section is no string table, and `TableOutside`
    /// if it ends past the end of the file, both at the linked section's header.
    pub fn strings(&self, section: u16) -> Result<Names, Fault>
        requires below { section < self.now.store.now.loaded }
        ensures held { AnswersSection self.now section result string_table_at }
        ensures within { IfOk result (StringsInBounds self.now.loaded.size) }
        ensures found { IfOk result (λ names.
            has_strings (sections_in self.now) section self.now.loaded.size ≡ true) }
        ensures refusal { IfErr result IsOfCheck }
    {
        self.loaded.strings(self.store, section)
    }

    /// Returns the string table of the section names; `None` if e_shnum or e_shstrndx is 0 (gABI 4,
    /// ELF Header). No bytes are read.
    ///
    /// It lies within the file, as `load` checked. With the headers of another file in the store it
    /// may not, and then the result is `None` too.
    pub fn names(&self) -> Option<Names>
        ensures held { (file : List ℕ) →
            HoldsSectionHeaders file self.now.loaded self.now.store.now →
            result ≡ section_names file }
        ensures within { IfSome result (StringsInBounds self.now.loaded.size) }
        ensures none { self.now.loaded.header.e_shnum ≡ 0 → result ≡ None }
        ensures unnamed { self.now.loaded.header.e_shstrndx ≡ 0 → result ≡ None }
    {
        self.loaded.names(self.store)
    }

    /// Returns the symbols of a section, rows of 24 bytes, and the string table of their names; two
    /// empty tables, without a check, if the section is empty. The section's type is ignored. No
    /// bytes are read (gABI 4, Symbol Table).
    ///
    /// # Errors
    /// Returns the first check that fails: those of [`SectionView::table`], then those of
    /// [`SectionView::strings`].
    pub fn symbols(&self, section: u16) -> Result<(Table, Names), Fault>
        requires below { section < self.now.store.now.loaded }
        ensures held { AnswersSection self.now section result symbols_at }
        ensures table { IfOk result (λ symbols. Ok symbols.0 ≡ table_in self.now section 24) }
        ensures sized { IfOk result (λ symbols. size_of symbols.0 ≡ size_in self.now section) }
        ensures within { IfOk result (SymbolTableInBounds self.now.loaded.size) }
        ensures found { IfOk result (λ symbols.
            has_names (sections_in self.now) section self.now.loaded.size ≡ true) }
        ensures refusal { IfErr result IsOfCheck }
    {
        self.loaded.symbols(self.store, section)
    }

    /// Returns the symbols that a section of relocations links to by its sh_link, with their names;
    /// `None` if that names no section of symbols (gABI 4, Relocation). No bytes are read.
    ///
    /// # Errors
    /// Those of [`SectionView::symbols`] at the linked section.
    pub fn linked(&self, section: u16) -> Result<LinkedSymbolTable, Fault>
        requires below { section < self.now.store.now.loaded }
        ensures held { (file : List ℕ) →
            HoldsSectionHeaders file self.now.loaded self.now.store.now →
            Links file (section_at file section) result }
        ensures within { IfOk result (λ linked.
            IfSome linked (SymbolTableInBounds self.now.loaded.size)) }
        ensures refusal { IfErr result IsOfCheck }
    {
        self.loaded.linked(self.store, section)
    }

    /// Returns the relocation entries of a section, rows of 24 bytes, and the symbols that they
    /// refer to, as [`SectionView::linked`] does; no rows and `None`, without a check, if the
    /// section is empty. The section's type is ignored. No bytes are read (gABI 4, Relocation).
    ///
    /// # Errors
    /// Returns the first check that fails: those of [`SectionView::table`], then those of
    /// [`SectionView::linked`].
    pub fn relocations(&self, section: u16) -> Result<(Table, LinkedSymbolTable), Fault>
        requires below { section < self.now.store.now.loaded }
        ensures held { (file : List ℕ) →
            HoldsSectionHeaders file self.now.loaded self.now.store.now →
            Relocates file (section_at file section) result }
        ensures table { IfOk result (λ found. Ok found.0 ≡ table_in self.now section 24) }
        ensures entry { IfOk result (λ found. found.0.entry ≡ 24) }
        ensures within { IfOk result (λ found. TableInBounds self.now.loaded.size found.0) }
        ensures linked { IfOk result (λ found.
            IfSome found.1 (SymbolTableInBounds self.now.loaded.size)) }
        ensures refusal { IfErr result IsOfCheck }
    {
        self.loaded.relocations(self.store, section)
    }

    /// Returns the relocation entries of a section, rows of 24 bytes with `addends` and of 16
    /// without, and the symbols that they refer to, as [`SectionView::relocations`] does.
    ///
    /// # Errors
    /// As for [`SectionView::relocations`].
    pub fn entries(&self, section: u16, addends: bool) -> Result<(Table, LinkedSymbolTable), Fault>
        requires below { section < self.now.store.now.loaded }
        ensures held { (file : List ℕ) →
            HoldsSectionHeaders file self.now.loaded self.now.store.now →
            RelocatesWith addends file (section_at file section) result }
        ensures table { IfOk result (λ found.
            Ok found.0 ≡ table_in self.now section (relocation_size addends)) }
        ensures entry { IfOk result (λ found. found.0.entry ≡ relocation_size addends) }
        ensures within { IfOk result (λ found. TableInBounds self.now.loaded.size found.0) }
        ensures linked { IfOk result (λ found.
            IfSome found.1 (SymbolTableInBounds self.now.loaded.size)) }
        ensures refusal { IfErr result IsOfCheck }
    {
        self.loaded.entries(self.store, section, addends)
    }

    /// Returns the first section of a type, if there is one (gABI 4, Section Header).
    pub fn first(&self, sh_type: u32) -> Option<u16>
        ensures below { IfSome result (λ section. section < self.now.store.now.loaded) }
        ensures value { result ≡ first_typed (sections_in self.now) sh_type }
        ensures held { (file : List ℕ) →
            HoldsSectionHeaders file self.now.loaded self.now.store.now →
            result ≡ first_typed (file_sections file) sh_type }
    {
        for section in 0..self.sections() {
            if self.section(section).sh_type == sh_type {
                return Some(section);
            }
        }
        None
    }

    /// Returns the first section of symbol versions (SHT_GNU_versym) that links to a section, if
    /// there is one (Linux Standard Base Core, Symbol Versioning).
    pub fn version_numbers_of(&self, symbols: u32) -> Option<u16>
        ensures below { IfSome result (λ section. section < self.now.store.now.loaded) }
        ensures value { result ≡ first_numbers (sections_in self.now) symbols }
        ensures held { (file : List ℕ) →
            HoldsSectionHeaders file self.now.loaded self.now.store.now →
            result ≡ first_numbers (file_sections file) symbols }
    {
        for section in 0..self.sections() {
            if numbers(&self.section(section), symbols) {
                return Some(section);
            }
        }
        None
    }

    /// Returns the symbol versions of a section, rows of 2 bytes, and the number of symbols in the
    /// table that it links to; none, without a check, if the section is empty. The section's type
    /// is ignored. No bytes are read (Linux Standard Base Core, Symbol Versioning).
    ///
    /// # Errors
    /// Returns the first check that fails: those of [`SectionView::table`]; `BadLink` at the
    /// section's header if its link is 0 or names no section of symbols; then those of
    /// [`SectionView::symbols`] at the linked section.
    pub fn symbol_versions(&self, section: u16) -> Result<(Table, u64), Fault>
        requires below { section < self.now.store.now.loaded }
        ensures held { (file : List ℕ) →
            HoldsSectionHeaders file self.now.loaded self.now.store.now →
            Versioned file (section_at file section) result }
        ensures table { IfOk result (λ found. Ok found.0 ≡ table_in self.now section 2) }
        ensures within { IfOk result (λ found. TableInBounds self.now.loaded.size found.0) }
        ensures counts { IfOk result (λ found.
            CountsVersions self.now.store.now self.now.loaded.size section found.0 found.1) }
        ensures refusal { IfErr result IsOfCheck }
    {
        self.loaded.symbol_versions(self.store, section)
    }

    /// Returns the file offset of the section header of an index below e_shnum, in bytes (gABI 4,
    /// Section Header).
    pub fn place(&self, section: u16) -> u64
        requires { section < self.now.loaded.header.e_shnum }
        ensures value { result ≡ section_place self.now.loaded.header section }
    {
        self.loaded.place(section)
    }
}

/// Returns `true` if a section header is that of symbol versions that link to a section.
fn numbers(header: &Shdr, symbols: u32) -> bool
    ensures { result ≡ (header.now.sh_type == VERSYM && header.now.sh_link == symbols) }
{
    header.sh_type == SHT_GNU_VERSYM && header.sh_link == symbols
}
