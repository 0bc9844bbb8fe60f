//! A layout of any size, as C has it.
ghost use Rattle.std.specs.Prelude.{◌≡◌, MatchOption};
ghost use Rattle.std.specs.Ordering.{nat_cmp};
ghost use Rattle.elf_layout.specs.Lent.{KeysAscend, MayBorrow, borrowed_index, named, placed};
ghost use Rattle.elf_capi.specs.LentLayouts.{GivesLayout};

use elf_layout::{BorrowedLayout, LentName, LentSection, SortedNames, SortedSections};

/// Addresses of sections, names and the entries of names, as many as a caller provides.
#[repr(C)]
#[derive(Clone, Copy)]
pub struct CallerLayout<'a> {
    /// Sections, sorted by index.
    pub sections: &'a [LentSection],
    /// Symbols that the file does not define, sorted by the bytes of their names.
    pub definitions: &'a [LentName<'a>],
    /// PLT entries of symbols, in the same order.
    pub linkage: &'a [LentName<'a>],
    /// GOT entries of symbols, in the same order.
    pub table: &'a [LentName<'a>],
    /// GOT entries for the offsets of symbols from the thread pointer, in the same order.
    pub thread: &'a [LentName<'a>],
}

impl<'a> CallerLayout<'a> {
    /// Returns the layout, or `None` if an index or a name is not above the one before it, or a
    /// name is not one of 1 to 255 bytes without a NUL.
    pub fn lend(&self) -> Option<BorrowedLayout<'a>>
        ensures { GivesLayout self.now result }
    {
        let sections = sections_of(self.sections)?;
        let definitions = names_of(self.definitions)?;
        let linkage = names_of(self.linkage)?;
        let table = names_of(self.table)?;
        let thread = names_of(self.thread)?;
        Some(BorrowedLayout {
            sections,
            definitions,
            linkage,
            table,
            thread,
        })
    }
}

/// Returns sections whose indices ascend, or `None` for others.
fn sections_of(items: &[LentSection]) -> Option<SortedSections<'_>>
    ensures { MatchOption result (KeysAscend nat_cmp borrowed_index items.now → ⊥)
        (λ sections. (sections ≡ placed items.now) × KeysAscend nat_cmp borrowed_index items.now) }
{
    match SortedSections::new(items) {
        Ok(sections) => Some(sections),
        Err(_) => None,
    }
}

/// Returns names that ascend, or `None` for others.
fn names_of<'a>(items: &'a [LentName<'a>]) -> Option<SortedNames<'a>>
    ensures { MatchOption result (MayBorrow items.now → ⊥)
        (λ names. (names ≡ named items.now) × MayBorrow items.now) }
{
    match SortedNames::new(items) {
        Ok(names) => Some(names),
        Err(_) => None,
    }
}
