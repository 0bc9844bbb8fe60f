//! The addresses that are given for sections, names and entries of names.
ghost use Rattle.std.specs.Prelude.{◌≡◌, ◌≤◌, ◌<◌, ◌^◌, [], length, MatchBool};
ghost use Rattle.elf_model.specs.Prelude.{Compared, address_in, has_base, layout_names_cost};
ghost use Rattle.elf_layout.specs.Layouts.{Adds, HasKey, HaveNames, IsName, LacksKey, OnName};
ghost use Rattle.elf_layout.specs.Layouts.{Pushes, names_for};

use crate::named::{NamedAddress, has_name, names_cost};
use arrayvec::ArrayVec;
use elf_model::RelocationBase;
use std::marker::Model;
use thiserror::Error;

/// The maximum number of sections that a layout gives addresses for.
const MOST_SECTIONS: usize = 64;
/// The maximum number of names that it defines, and of entries of each kind.
const NAMES: usize = 32;

/// An item of a layout: what an address is given for, and the address.
#[derive(Clone, Copy)]
pub enum Item<'a> {
    /// A section, by its index.
    Section {
        /// The section's index.
        index: u16,
        /// The address of its first byte.
        address: u64,
    },
    /// The definition of an undefined or common symbol, by its name of 1 to 255 bytes without a
    /// NUL.
    Define {
        /// The symbol's name.
        name: &'a [u8],
        /// The symbol's value.
        address: u64,
    },
    /// A symbol's procedure linkage table entry, by the symbol's name of 1 to 255 bytes without a
    /// NUL.
    Entry {
        /// The symbol's name.
        name: &'a [u8],
        /// The address of the entry.
        address: u64,
    },
    /// A symbol's global offset table entry, by the symbol's name of 1 to 255 bytes without a NUL.
    Table {
        /// The symbol's name.
        name: &'a [u8],
        /// The address of the entry.
        address: u64,
    },
    /// The global offset table entry of a symbol's offset from the thread pointer, by the symbol's
    /// name of 1 to 255 bytes without a NUL.
    Thread {
        /// The symbol's name.
        name: &'a [u8],
        /// The address of the entry.
        address: u64,
    },
}

/// Why an item was not added to a layout, which is then unchanged.
#[derive(Clone, Copy, Debug, PartialEq, Eq, Error)]
pub enum LayoutFault {
    /// The layout is full: it has the maximum number of items of this kind.
    #[error("the layout is full")]
    Full,
    /// There is an item of this kind with this index or name.
    #[error("the layout has this item already")]
    Repeat,
}

/// Addresses for at most 64 sections, 32 definitions, 32 procedure linkage table entries, 32 global
/// offset table entries and 32 of offsets from the thread pointer, in the order in which they were
/// given.
///
/// It does not allocate: it is fixed arrays of some 36,000 bytes, and holds copies of the names.
#[derive(Drop)]
pub struct Layout {
    sections: ArrayVec<(u16, u64), MOST_SECTIONS>,
    definitions: ArrayVec<NamedAddress, NAMES>,
    entries: ArrayVec<NamedAddress, NAMES>,
    table: ArrayVec<NamedAddress, NAMES>,
    thread: ArrayVec<NamedAddress, NAMES>,
}

impl Model for Layout {
    ghost use Rattle.elf_model.specs.Placing.{Layout, Compared};
    ghost use Rattle.elf_layout.specs.Layouts.{HaveNames};

    ghost Value = { Layout };

    ghost view = { λ l. record {
      lookup = Compared;
      sections = l.sections.items;
      definitions = l.definitions.items;
      linkage = l.entries.items;
      table = l.table.items;
      thread = l.thread.items;
    } };

    ghost invariant = { λ l. (HaveNames l.definitions.items × HaveNames l.entries.items)
        × (HaveNames l.table.items × HaveNames l.thread.items) };
}

impl Layout {
    /// Creates an empty layout.
    pub fn new() -> Layout
        ensures { result ≡ record {
          lookup = Compared;
          sections = [];
          definitions = [];
          linkage = [];
          table = [];
          thread = [];
        } }
    {
        Layout {
            sections: ArrayVec::new(),
            definitions: ArrayVec::new(),
            entries: ArrayVec::new(),
            table: ArrayVec::new(),
            thread: ArrayVec::new(),
        }
    }

    /// Returns the address that is given for a section index, if there is one.
    pub fn section_address(&self, section: u16) -> Option<u64>
        ensures { result ≡ address_in self.now.sections section }
    {
        address_in(self.sections.as_slice(), section)
    }

    /// Returns the sections, each by its index with its address, in the order in which they were
    /// given.
    pub fn sections(&self) -> &[(u16, u64)]
        ensures { result.now ≡ self.now.sections }
    {
        self.sections.as_slice()
    }

    /// Returns the definitions, in the order in which they were given.
    pub fn definitions(&self) -> &[NamedAddress]
        ensures items { result.now ≡ self.now.definitions }
        ensures names { HaveNames result.now }
    {
        self.definitions.as_slice()
    }

    /// Returns the procedure linkage table entries, in the order in which they were given.
    pub fn plt(&self) -> &[NamedAddress]
        ensures items { result.now ≡ self.now.linkage }
        ensures names { HaveNames result.now }
    {
        self.entries.as_slice()
    }

    /// Returns the global offset table entries, in the order in which they were given.
    pub fn got(&self) -> &[NamedAddress]
        ensures items { result.now ≡ self.now.table }
        ensures names { HaveNames result.now }
    {
        self.table.as_slice()
    }

    /// Returns the global offset table entries of offsets from the thread pointer, in the order in
    /// which they were given.
    pub fn tpoff_got(&self) -> &[NamedAddress]
        ensures items { result.now ≡ self.now.thread }
        ensures names { HaveNames result.now }
    {
        self.thread.as_slice()
    }

    /// Returns the names that are searched for a base, in the order in which they were given.
    #[tactic(auto, unfolding(crate::specs::Layouts::names_for))]
    pub(crate) fn names(&self, base: RelocationBase) -> &[NamedAddress]
        ensures names { result.now ≡ names_for self.now base }
        ensures compared { self.now.lookup ≡ Compared }
    {
        match base {
            RelocationBase::Symbol => self.definitions.as_slice(),
            RelocationBase::Linkage => self.entries.as_slice(),
            RelocationBase::Table => self.table.as_slice(),
            RelocationBase::Thread => self.thread.as_slice(),
        }
    }

    /// Returns `true` if a base may have an address: one of an entry only if there is an item of
    /// its kind.
    #[tactic(auto, unfolding(elf_model::specs::Placing::has_base))]
    pub fn has_base(&self, base: RelocationBase) -> bool
        ensures { result ≡ has_base self.now base }
    {
        match base {
            RelocationBase::Symbol | RelocationBase::Linkage => true,
            RelocationBase::Table => !self.table.is_empty(),
            RelocationBase::Thread => !self.thread.is_empty(),
        }
    }

    /// Returns how many bytes a comparison with each of the names may read: for each its length
    /// with its NUL, rounded up to pieces of 64.
    #[tactic(auto, unfolding(crate::proofs::Words::costs))]
    pub fn names_cost(&self) -> u128
        ensures value { result ≡ layout_names_cost self.now }
        ensures few { result < 2 ^ 75 }
    {
        let names = names_cost(self.names(RelocationBase::Symbol))
            + names_cost(self.names(RelocationBase::Linkage));
        names
            + names_cost(self.names(RelocationBase::Table))
            + names_cost(self.names(RelocationBase::Thread))
    }

    /// Appends an item to those of its kind. A name is copied; it has 1 to 255 bytes, none a NUL.
    ///
    /// # Errors
    /// - `Repeat` if there is an item of this kind with this index or name.
    /// - `Full` if there is none, but 64 sections, 32 definitions or 32 entries of this kind.
    ///
    /// Either leaves the layout unchanged.
    pub fn push(&mut self, item: Item<'_>) -> Result<(), LayoutFault>
        requires { OnName item IsName }
        ensures { Pushes item.entry self.old self.new result }
    {
        match item {
            Item::Section { index, address } => push_section(&mut self.sections, index, address),
            Item::Define { name, address } => push_named(&mut self.definitions, name, address),
            Item::Entry { name, address } => push_named(&mut self.entries, name, address),
            Item::Table { name, address } => push_named(&mut self.table, name, address),
            Item::Thread { name, address } => push_named(&mut self.thread, name, address),
        }
    }
}

/// Appends a section to others.
fn push_section(
    items: &mut ArrayVec<(u16, u64), MOST_SECTIONS>,
    index: u16,
    address: u64,
) -> Result<(), LayoutFault>
    ensures { Adds 64 index address items.old.items items.new.items result }
{
    if has_section(items.as_slice(), index) {
        return Err(LayoutFault::Repeat);
    }
    if items.is_full() {
        return Err(LayoutFault::Full);
    }
    items.push((index, address));
    Ok(())
}

/// Returns the address that is given for a section index, if there is one.
fn address_in(items: &[(u16, u64)], section: u16) -> Option<u64>
    ensures { result ≡ address_in items.now section }
{
    let mut i = 0;
    while i < items.len() {
        if items[i].0 == section {
            return Some(items[i].1);
        }
        i += 1;
    }
    None
}

/// Returns `true` if one of the sections has this index.
fn has_section(items: &[(u16, u64)], index: u16) -> bool
    ensures { MatchBool result (HasKey items.now index) (LacksKey items.now index) }
{
    address_in(items, index).is_some()
}

/// Appends a name to others.
fn push_named(
    items: &mut ArrayVec<NamedAddress, NAMES>,
    name: &[u8],
    address: u64,
) -> Result<(), LayoutFault>
    requires { IsName name.now }
    ensures adds { Adds 32 name.now address items.old.items items.new.items result }
    ensures names { HaveNames items.old.items → HaveNames items.new.items }
{
    if has_name(items.as_slice(), name) {
        return Err(LayoutFault::Repeat);
    }
    if items.is_full() {
        return Err(LayoutFault::Full);
    }
    items.push(NamedAddress::new(name, address));
    Ok(())
}
