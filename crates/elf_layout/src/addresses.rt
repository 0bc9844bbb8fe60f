//! The addresses that are given, however they are stored.
ghost use Rattle.std.specs.Prelude.{◌≡◌, ◌<◌, ◌^◌};
ghost use Rattle.elf_model.specs.Prelude.{address_in, has_base, layout_names_cost};
ghost use Rattle.elf_layout.specs.Kept.{IsAmong, kept_as, borrowed_as};
ghost use Rattle.elf_layout.specs.Layouts.{names_for};

use crate::layout::Layout;
use crate::lent::{SortedNames, SortedSections};
use crate::named::NamedAddress;
use elf_model::RelocationBase;
use std::marker::Model;

/// A borrowed layout, of any size: sections by ascending index, and of each kind the names in
/// ascending byte order.
#[derive(Drop)]
pub struct BorrowedLayout<'a> {
    /// The addresses of sections.
    pub sections: SortedSections<'a>,
    /// The definitions of undefined and common symbols.
    pub definitions: SortedNames<'a>,
    /// The procedure linkage table entries.
    pub linkage: SortedNames<'a>,
    /// The global offset table entries.
    pub table: SortedNames<'a>,
    /// The global offset table entries of offsets from the thread pointer.
    pub thread: SortedNames<'a>,
}

impl<'a> BorrowedLayout<'a> {
    /// Returns the names that are searched for a base.
    #[tactic(auto, unfolding(crate::specs::Layouts::names_for))]
    fn names(&self, base: RelocationBase) -> &SortedNames<'a>
        ensures { result.now ≡ names_for (borrowed_as self.now) base }
    {
        match base {
            RelocationBase::Symbol => &self.definitions,
            RelocationBase::Linkage => &self.linkage,
            RelocationBase::Table => &self.table,
            RelocationBase::Thread => &self.thread,
        }
    }

    /// Returns `true` if a base may have an address: one of an entry only if there is an item of
    /// its kind.
    #[tactic(auto, unfolding(elf_model::specs::Placing::has_base))]
    fn has_base(&self, base: RelocationBase) -> bool
        ensures { result ≡ has_base (borrowed_as self.now) base }
    {
        match base {
            RelocationBase::Symbol | RelocationBase::Linkage => true,
            RelocationBase::Table => !self.table.is_empty(),
            RelocationBase::Thread => !self.thread.is_empty(),
        }
    }

    /// Returns how many bytes one lookup among the names of each kind may read.
    #[tactic(auto, unfolding(elf_model::specs::ApplyCost::layout_names_cost))]
    fn names_cost(&self) -> u128
        ensures value { result ≡ layout_names_cost (borrowed_as self.now) }
        ensures few { result < 2 ^ 75 }
    {
        let names = self.definitions.cost() + self.linkage.cost();
        names + self.table.cost() + self.thread.cost()
    }
}

/// How addresses are stored.
#[derive(Clone, Copy)]
enum AddressStorage<'a> {
    /// In a layout of fixed size.
    Fixed(&'a Layout),
    /// In a borrowed layout.
    Lent(&'a BorrowedLayout<'a>),
}

/// The names that are searched for a base.
#[derive(Clone, Copy)]
pub enum Among<'a> {
    /// Each is compared with a symbol's name.
    Compared(&'a [NamedAddress]),
    /// A symbol's name is read, and searched for.
    Searched(&'a SortedNames<'a>),
}

/// The addresses that relocations are applied with, however they are stored.
#[derive(Drop)]
pub struct Addresses<'a> {
    kept: AddressStorage<'a>,
}

impl<'a> Model for Addresses<'a> {
    ghost use Rattle.elf_model.specs.Placing.{Layout};
    ghost use Rattle.elf_layout.specs.Kept.{kept_as};

    ghost Value = { Layout };

    ghost view = { λ a. kept_as a.kept };
}

impl<'a> Addresses<'a> {
    /// Creates the addresses of a layout.
    pub fn fixed(layout: &'a Layout) -> Addresses<'a>
        ensures { result ≡ layout.now }
    {
        Addresses {
            kept: AddressStorage::Fixed(layout),
        }
    }

    /// Creates the addresses of a borrowed layout.
    pub fn lent(layout: &'a BorrowedLayout<'a>) -> Addresses<'a>
        ensures { result ≡ borrowed_as layout.now }
    {
        Addresses {
            kept: AddressStorage::Lent(layout),
        }
    }

    /// Returns the address that is given for a section index, if there is one.
    pub fn section_address(&self, section: u16) -> Option<u64>
        ensures { result ≡ address_in self.now.sections section }
    {
        match self.kept {
            AddressStorage::Fixed(layout) => layout.section_address(section),
            AddressStorage::Lent(layout) => layout.sections.address(section),
        }
    }

    /// Returns the names that are searched for a base.
    pub fn names(&self, base: RelocationBase) -> Among<'_>
        ensures { IsAmong self.now base result }
    {
        match self.kept {
            AddressStorage::Fixed(layout) => Among::Compared(layout.names(base)),
            AddressStorage::Lent(layout) => Among::Searched(layout.names(base)),
        }
    }

    /// Returns `true` if a base may have an address: one of an entry only if there is an item of
    /// its kind.
    #[tactic(auto, unfolding(elf_model::specs::Placing::has_base))]
    pub fn has_base(&self, base: RelocationBase) -> bool
        ensures { result ≡ has_base self.now base }
    {
        match self.kept {
            AddressStorage::Fixed(layout) => layout.has_base(base),
            AddressStorage::Lent(layout) => layout.has_base(base),
        }
    }

    /// Returns the maximum number of bytes that the lookups of one symbol may read.
    pub fn names_cost(&self) -> u128
        ensures value { result ≡ layout_names_cost self.now }
        ensures few { result < 2 ^ 75 }
    {
        match self.kept {
            AddressStorage::Fixed(layout) => layout.names_cost(),
            AddressStorage::Lent(layout) => layout.names_cost(),
        }
    }
}
