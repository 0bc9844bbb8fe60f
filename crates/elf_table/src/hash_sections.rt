//! The sections of one type, and the checks of one that is a hash table.
ghost use Rattle.std.specs.Prelude.{◌≡◌, ◌<◌, ℕ, List};
ghost use Rattle.std.specs.Prelude.{IfOk, IfErr, MatchOption};
ghost use Rattle.elf_model.specs.Prelude.{first_refusal, has_64_bit_words, hash_checks_from, section_at};
ghost use Rattle.elf_record.specs.Shdr.{IsShdr};
ghost use Rattle.elf_table.specs.Faults.{IsOfCheck};
ghost use Rattle.elf_table.specs.Load.{HoldsSectionHeaders};
ghost use Rattle.elf_table.specs.Store.{row};
ghost use Rattle.elf_table.specs.HashSections.{AreHashed, HashFits, PassesFront, ChecksThenValue, front_checks};
ghost use Rattle.elf_table.specs.Tables.{SymbolTableInBounds};

use crate::fault::Fault;
use crate::file::SectionView;
use crate::loaded_tables::links_to_symbols;
use crate::names::Names;
use crate::ranges::is_out_of_bounds;
use crate::table::Table;
use elf_record::numbers::{EM_ALPHA, SHT_HASH};
use elf_record::{Cause, Refusal, Shdr};

/// The size in bytes of a wide word of a hash table, instead of 4.
const WIDE_WORD_BYTES: u64 = 8;

impl SectionView<'_> {
    /// Returns the index of the section of symbols that a hash table links to, the symbols, rows of
    /// 24 bytes, and the string table of their names. The hash table's section has `least` bytes at
    /// least; the caller makes sure that its type is that of a hash table. No bytes are read (gABI
    /// 5, Hash Table).
    ///
    /// # Errors
    /// Returns the first check that fails, at the section's header: `TableOutside` if it ends past
    /// the end of the file, at every size; `HashShape` if it has fewer bytes, or if it is a HASH
    /// section of an Alpha file whose entries have 8 bytes, since then the words of its table do
    /// too; `BadLink` if its link is 0 or names no section of symbols. Then those of
    /// [`SectionView::symbols`] at the linked section.
    pub fn hashed(&self, section: u16, least: u64) -> Result<(u16, (Table, Names)), Fault>
        requires { section < self.now.store.now.loaded }
        ensures held { (bytes : List ℕ) →
            HoldsSectionHeaders bytes self.now.loaded self.now.store.now →
            ChecksThenValue (hash_checks_from least bytes (section_at bytes section))
            (AreHashed bytes (section_at bytes section)) result }
        ensures within { IfOk result (λ found. SymbolTableInBounds self.now.loaded.size found.1) }
        ensures fits { IfOk result (λ found.
            HashFits least self.now.loaded.size (row self.now.store.now section) 0) }
        ensures refusal { IfErr result IsOfCheck }
    {
        let header = self.section(section);
        let place = self.place(section);
        let linked = links_to_symbols(self.store, section);
        let size = self.loaded.size();
        let wide = holds_wide_words(self, &header);
        if let Some(refusal) = refused_front(&header, place, size, linked, least, wide) {
            return Err(Fault::Refused(refusal));
        }
        let link = header.sh_link as u16;
        let symbols = self.symbols(link)?;
        Ok((link, symbols))
    }
}

// Returns the first check of the section's header that fails, for words of 8 bytes or not.
fn refused_front(
    header: &Shdr,
    place: u64,
    size: u64,
    linked: bool,
    least: u64,
    wide: bool,
) -> Option<Refusal>
    ensures refusal { result
        ≡ first_refusal (front_checks least place size header.now linked wide) }
    ensures passes { MatchOption result (PassesFront least size header.now linked)
        (λ _. Unit {0}) }
{
    if is_out_of_bounds(size, header.sh_offset, header.sh_size) {
        return Some(Refusal {
            at: place,
            cause: Cause::TableOutside,
        });
    }
    if header.sh_size < least || wide {
        return Some(Refusal {
            at: place,
            cause: Cause::HashShape,
        });
    }
    if !linked {
        return Some(Refusal {
            at: place,
            cause: Cause::BadLink,
        });
    }
    None
}

// Returns `true` if a section is a hash table whose words have 8 bytes: a HASH section of an Alpha
// file with that entry size.
fn holds_wide_words(file: &SectionView<'_>, header: &Shdr) -> bool
    ensures { (bytes : List ℕ) (at : ℕ) →
        HoldsSectionHeaders bytes file.now.loaded file.now.store.now →
        IsShdr bytes at header.now → result ≡ has_64_bit_words bytes at }
{
    let machine = file.loaded.header().e_machine;
    machine == EM_ALPHA && (header.sh_type == SHT_HASH && header.sh_entsize == WIDE_WORD_BYTES)
}
