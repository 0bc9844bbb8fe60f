//! Items of a layout, as many as memory allows: those of another layout, and one for each line of a
//! text.
ghost use Rattle.std.specs.Prelude.{◌≡◌, ◌++◌, ◌∷◌, [], IfOk, IfErr, MatchBool};
ghost use Rattle.std.specs.List.Sorted.{IsPermutation};
ghost use Rattle.std.specs.Ordering.{nat_cmp};
ghost use Rattle.std.specs.Str.Lines.{lines};
ghost use Rattle.elf_model.specs.Placing.{Searched};
ghost use Rattle.elf_layout.specs.Kept.{borrowed_as};
ghost use Rattle.elf_layout.specs.Layouts.{HaveNames, IsName, OnName};
ghost use Rattle.elf_layout.specs.Lent.{named, name_order, placed};
ghost use Rattle.elf_layout.specs.Listed.{AreAlike, AreReordered, AreSorted, Gathers, GiveItems};
ghost use Rattle.elf_layout.specs.Listed.{HasTwice, IsLastAlike, IsRefused, IsRepeated, LendsLayout};
ghost use Rattle.elf_layout.specs.Listed.{KeysNeverDescend, ParsesSameItem, with_item, with_layout};
ghost use Rattle.elf_layout.specs.declared.texts.TextEnd.TheVariants.{Whole};

use crate::addresses::BorrowedLayout;
use crate::layout::{Item, Layout};
use crate::lent::{LentName, LentSection, SortedNames, SortedSections};
use crate::named::NamedAddress;
use crate::spelled::item;
use crate::texts::TextEnd;
use std::alloc::{AllocError, Global};
use std::marker::Model;

/// Why the items of a file could not be read.
pub enum LayoutFileFault {
    /// It can't be read, or is not text.
    Read,
    /// It has too many bytes.
    TooLarge,
    /// The line of this number is not an item, or has too many bytes.
    BadItem(u64),
    /// The item of the line of this number is of the same kind, and has the same index or name, as
    /// an earlier one.
    Repeats(u64),
    /// Memory is exhausted.
    Memory,
}

/// Items of a layout, as many as memory allows, those of each kind together.
#[derive(Drop)]
pub struct Items<'a> {
    sections: Vec<LentSection>,
    definitions: Vec<LentName<'a>>,
    linkage: Vec<LentName<'a>>,
    table: Vec<LentName<'a>>,
    thread: Vec<LentName<'a>>,
}

impl<'a> Model for Items<'a> {
    ghost use Rattle.elf_layout.specs.Layouts.{HaveNames};
    ghost use Rattle.elf_layout.specs.Lent.{named, placed};
    ghost use Rattle.elf_model.specs.Placing.{Layout, Searched};

    ghost Value = { Layout };

    ghost view = { λ i. record {
      lookup = Searched;
      sections = placed i.sections.items;
      definitions = named i.definitions.items;
      linkage = named i.linkage.items;
      table = named i.table.items;
      thread = named i.thread.items;
    } };

    ghost invariant = { λ i.
        (HaveNames (named i.definitions.items) × HaveNames (named i.linkage.items))
        × (HaveNames (named i.table.items) × HaveNames (named i.thread.items)) };
}

impl<'a> Items<'a> {
    /// Gathers the items of a layout, followed by those of the lines of a text, one for each line.
    /// A text that was cut counts as followed by a line that is not an item.
    ///
    /// # Errors
    /// - `BadItem` with the number of the first line that is not an item, counted from 1.
    /// - `Memory` if there is not enough memory for the items.
    pub fn gather(
        alloc: Global,
        layout: &'a Layout,
        text: &'a str,
        end: TextEnd,
    ) -> Result<Items<'a>, LayoutFileFault>
        ensures { Gathers layout.now text.now end result }
    {
        let mut items = Items::new(alloc);
        if items.push_layout(layout).is_err() {
            return Err(LayoutFileFault::Memory);
        }
        items.push_lines(text, end)?;
        Ok(items)
    }

    /// Creates an empty list of items.
    fn new(alloc: Global) -> Items<'a>
        ensures { result ≡ record {
          lookup = Searched;
          sections = [];
          definitions = [];
          linkage = [];
          table = [];
          thread = [];
        } }
    {
        Items {
            sections: Vec::new(alloc),
            definitions: Vec::new(alloc),
            linkage: Vec::new(alloc),
            table: Vec::new(alloc),
            thread: Vec::new(alloc),
        }
    }

    /// Appends the items of a layout to those that are there.
    fn push_layout(&mut self, layout: &'a Layout) -> Result<(), AllocError>
        ensures { IfOk result (λ _. self.new ≡ with_layout self.old layout.now) }
    {
        push_sections(&mut self.sections, layout.sections())?;
        push_names(&mut self.definitions, layout.definitions())?;
        push_names(&mut self.linkage, layout.plt())?;
        push_names(&mut self.table, layout.got())?;
        push_names(&mut self.thread, layout.tpoff_got())
    }

    /// Appends an item to those of its kind.
    fn push(&mut self, item: Item<'a>) -> Result<(), AllocError>
        requires { OnName item IsName }
        ensures { IfOk result (λ _. self.new ≡ with_item self.old item.entry) }
    {
        match item {
            Item::Section { index, address } => push_section(&mut self.sections, index, address),
            Item::Define { name, address } => push_name(&mut self.definitions, name, address),
            Item::Entry { name, address } => push_name(&mut self.linkage, name, address),
            Item::Table { name, address } => push_name(&mut self.table, name, address),
            Item::Thread { name, address } => push_name(&mut self.thread, name, address),
        }
    }

    /// Appends the items of lines to those that are there, one for each line. A text that was cut
    /// counts as followed by a line that is not an item.
    fn push_lines(&mut self, text: &'a str, end: TextEnd) -> Result<(), LayoutFileFault>
        ensures given { IfOk result (λ _.
            GiveItems (lines text.now) self.old self.new × (end ≡ Whole)) }
        ensures refused { IfErr result (IsRefused (lines text.now) self.old end) }
    {
        let mut number: u64 = 0;
        for line in text.lines() {
            number = number.saturating_add(1);
            let Some(item) = item(line) else {
                return Err(LayoutFileFault::BadItem(number));
            };
            if self.push(item).is_err() {
                return Err(LayoutFileFault::Memory);
            }
        }
        match end {
            TextEnd::Whole => Ok(()),
            TextEnd::Cut => Err(LayoutFileFault::BadItem(number.saturating_add(1))),
        }
    }

    /// Sorts them: sections by ascending index, names in ascending byte order.
    pub fn sort(&mut self)
        ensures same { AreReordered self.old self.new }
        ensures sorted { AreSorted self.new }
    {
        sort_sections(&mut self.sections);
        sort_names(&mut self.definitions);
        sort_names(&mut self.linkage);
        sort_names(&mut self.table);
        sort_names(&mut self.thread);
    }

    /// Returns the sorted items as a layout. `text` is the one that they were read from.
    ///
    /// # Errors
    /// Returns `Repeats` if two items of one kind have the same index or name, with the number of
    /// the last line that has such an item, counted from 1.
    pub fn lend<'s>(&'s self, text: &str) -> Result<BorrowedLayout<'s>, LayoutFileFault>
        requires { AreSorted self.now }
        ensures { LendsLayout text.now self.now result }
    {
        match self.lent() {
            Ok(layout) => Ok(layout),
            Err(item) => Err(LayoutFileFault::Repeats(last_line(text, &item))),
        }
    }

    /// Returns the sorted items as a layout, or one whose index or name occurs twice.
    fn lent<'s>(&'s self) -> Result<BorrowedLayout<'s>, Item<'s>>
        requires { AreSorted self.now }
        ensures lent { IfOk result (λ layout. borrowed_as layout ≡ self.now) }
        ensures refused { IfErr result (IsRepeated self.now) }
    {
        let sections = match SortedSections::new(self.sections.as_slice()) {
            Ok(sections) => sections,
            Err(i) => {
                let LentSection { index, address } = self.sections[i];
                return Err(Item::Section { index, address });
            }
        };
        let definitions = match names(self.definitions.as_slice()) {
            Ok(names) => names,
            Err(LentName { name, address }) => return Err(Item::Define { name, address }),
        };
        let linkage = match names(self.linkage.as_slice()) {
            Ok(names) => names,
            Err(LentName { name, address }) => return Err(Item::Entry { name, address }),
        };
        let table = match names(self.table.as_slice()) {
            Ok(names) => names,
            Err(LentName { name, address }) => return Err(Item::Table { name, address }),
        };
        let thread = match names(self.thread.as_slice()) {
            Ok(names) => names,
            Err(LentName { name, address }) => return Err(Item::Thread { name, address }),
        };
        Ok(BorrowedLayout {
            sections,
            definitions,
            linkage,
            table,
            thread,
        })
    }
}

/// Appends a section to others.
fn push_section(items: &mut Vec<LentSection>, index: u16, address: u64) -> Result<(), AllocError>
    ensures { IfOk result (λ _.
        placed items.new.items ≡ placed items.old.items ++ (index, address) ∷ []) }
{
    match items.push(LentSection { index, address }) {
        Ok(()) => Ok(()),
        Err(_) => Err(AllocError),
    }
}

/// Appends a name to others.
fn push_name<'a>(
    items: &mut Vec<LentName<'a>>,
    name: &'a [u8],
    address: u64,
) -> Result<(), AllocError>
    requires { IsName name.now }
    ensures put { IfOk result (λ _.
        named items.new.items ≡ named items.old.items ++ (name.now, address) ∷ []) }
    ensures names { HaveNames (named items.old.items) → HaveNames (named items.new.items) }
{
    match items.push(LentName { name, address }) {
        Ok(()) => Ok(()),
        Err(_) => Err(AllocError),
    }
}

/// Appends sections to others.
fn push_sections(items: &mut Vec<LentSection>, sections: &[(u16, u64)]) -> Result<(), AllocError>
    ensures { IfOk result (λ _. placed items.new.items ≡ placed items.old.items ++ sections.now) }
{
    for (index, address) in sections {
        push_section(items, *index, *address)?;
    }
    Ok(())
}

/// Appends names to others.
fn push_names<'a>(
    items: &mut Vec<LentName<'a>>,
    names: &'a [NamedAddress],
) -> Result<(), AllocError>
    requires { HaveNames names.now }
    ensures put { IfOk result (λ _. named items.new.items ≡ named items.old.items ++ names.now) }
    ensures names { HaveNames (named items.old.items) → HaveNames (named items.new.items) }
{
    for name in names {
        push_name(items, name.name(), name.address())?;
    }
    Ok(())
}

/// Sorts sections by ascending index.
fn sort_sections(items: &mut Vec<LentSection>)
    ensures same { IsPermutation (placed items.old.items) (placed items.new.items) }
    ensures sorted { KeysNeverDescend nat_cmp (placed items.new.items) }
{
    items.sort_unstable();
}

/// Sorts names in ascending byte order.
fn sort_names(items: &mut Vec<LentName<'_>>)
    ensures same { IsPermutation (named items.old.items) (named items.new.items) }
    ensures sorted { KeysNeverDescend name_order (named items.new.items) }
    ensures names { HaveNames (named items.old.items) → HaveNames (named items.new.items) }
{
    items.sort_unstable();
}

/// Returns the names in ascending order, or one that occurs twice.
fn names<'a>(items: &'a [LentName<'a>]) -> Result<SortedNames<'a>, LentName<'a>>
    requires sorted { KeysNeverDescend name_order (named items.now) }
    requires named { HaveNames (named items.now) }
    ensures names { IfOk result (λ names. names ≡ named items.now) }
    ensures refused { IfErr result (λ item. HasTwice (named items.now) item.name.now) }
{
    match SortedNames::new(items) {
        Ok(names) => Ok(names),
        Err(i) => Err(items[i]),
    }
}

/// Returns `true` if two items are of one kind, and have the same index or name.
fn are_alike(one: &Item<'_>, other: &Item<'_>) -> bool
    ensures { MatchBool result (AreAlike one.now other.now) (AreAlike one.now other.now → ⊥) }
{
    match (one, other) {
        (Item::Section { index, .. }, Item::Section { index: same, .. }) => index == same,
        (Item::Define { name, .. }, Item::Define { name: same, .. }) => name == same,
        (Item::Entry { name, .. }, Item::Entry { name: same, .. }) => name == same,
        (Item::Table { name, .. }, Item::Table { name: same, .. }) => name == same,
        (Item::Thread { name, .. }, Item::Thread { name: same, .. }) => name == same,
        _ => false,
    }
}

/// Returns `true` if a line is an item of this kind and this index or name.
fn spells_alike(line: &str, wanted: &Item<'_>) -> bool
    ensures { MatchBool result (ParsesSameItem wanted.now line.now)
        (ParsesSameItem wanted.now line.now → ⊥) }
{
    match item(line) {
        Some(found) => are_alike(&found, wanted),
        None => false,
    }
}

/// Returns the number of the last line with an item of this kind and this index or name, 0 if there
/// is none.
fn last_line(text: &str, wanted: &Item<'_>) -> u64
    ensures { IsLastAlike (lines text.now) wanted.now result }
{
    let mut number: u64 = 0;
    let mut last = 0;
    for line in text.lines() {
        number = number.saturating_add(1);
        if spells_alike(line, wanted) {
            last = number;
        }
    }
    last
}
