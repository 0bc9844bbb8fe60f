//! The section of relocation entries that a refusal points into.
ghost use Rattle.std.specs.Prelude.{◌≡◌, ℕ, ◌<◌, List, IfSome};
ghost use Rattle.elf_model.specs.Records.{section_at};
ghost use Rattle.elf_table.specs.Load.{HoldsSectionHeaders};
ghost use Rattle.elf_reloc.specs.Explained.{EntryWithin, FoundEntries, HasEntry, has_row};

use elf_table::{LinkedSymbolTable, SectionView, Table};

/// Returns the symbols of the first section of relocation entries for a section whose checks pass
/// and which has an entry at the file offset `rela` (gABI 4, Relocation); `None` if there is no
/// such section. No bytes are read.
pub(crate) fn entries_at(
    file: &SectionView<'_>,
    section: u16,
    rela: u64,
) -> Option<LinkedSymbolTable>
    ensures within { IfSome result (EntryWithin file.now.loaded.size rela) }
    ensures found { (bytes : List ℕ) →
        HoldsSectionHeaders bytes file.now.loaded file.now.store.now →
        FoundEntries bytes section rela result }
{
    for index in 0..file.sections() {
        if let Some(linked) = entry_in(file, index, section, rela) {
            return Some(linked);
        }
    }
    None
}

/// Returns the symbols that the section of an index refers to, if it holds relocation entries for
/// another, its checks pass, and one of its entries is at the file offset `rela`.
fn entry_in(
    file: &SectionView<'_>,
    index: u16,
    section: u16,
    rela: u64,
) -> Option<LinkedSymbolTable>
    requires { index < file.now.store.now.loaded }
    ensures within { IfSome result (EntryWithin file.now.loaded.size rela) }
    ensures has { (bytes : List ℕ) → HoldsSectionHeaders bytes file.now.loaded file.now.store.now →
        HasEntry bytes section rela (section_at bytes index) result }
{
    if !file.section(index).applies_to(section) {
        return None;
    }
    match file.relocations(index) {
        Ok(found) => {
            if !has_row(&found.0, rela) {
                return None;
            }
            Some(found.1)
        }
        Err(_) => None,
    }
}

/// Returns `true` if a table of relocation entries has an entry at a file offset.
fn has_row(table: &Table, at: u64) -> bool
    ensures { result ≡ has_row table.now at }
{
    let index = at.saturating_sub(table.at()) / 24;
    index < table.len() && table.place(index) == at
}
