//! The items of a layout, as C has them.
ghost use Rattle.std.specs.Prelude.{MatchBool};
ghost use Rattle.elf_model.specs.Placing.{Layout as Placed};
ghost use Rattle.elf_capi.specs.Items.{GivesItem, LaysOut, LaysItem};

use elf_layout::{Item, Layout, is_name};

/// An address of a section.
const SECTION: u32 = 0;
/// An address of a symbol that the file does not define.
const DEFINE: u32 = 1;
/// An address of a symbol's PLT entry.
const ENTRY: u32 = 2;
/// An address of a symbol's GOT entry.
const TABLE: u32 = 3;
/// An address of the GOT entry for a symbol's offset from the thread pointer.
const THREAD: u32 = 4;

/// The largest index of a section.
const LAST_INDEX: u32 = 65_535;

/// An address that a layout gives, as a caller passes it.
#[repr(C)]
#[derive(Clone, Copy)]
pub struct CallerItem<'a> {
    /// The address.
    pub address: u64,
    /// The name of the symbol, 1 to 255 bytes without a NUL. Ignored for a section.
    pub name: &'a [u8],
    /// What the address is of: 0 a section, 1 a symbol that the file does not define, 2 a symbol's
    /// PLT entry, 3 its GOT entry, 4 the GOT entry for its offset from the thread pointer.
    pub kind: u32,
    /// The index of the section, up to 65,535. Ignored for a symbol.
    pub index: u32,
}

/// A section, and the addresses of it and of what it refers to, as a caller passes them.
#[repr(C)]
#[derive(Clone, Copy)]
pub struct ApplyCall<'a> {
    /// The addresses: of at most 64 sections, 32 definitions and 32 entries of each type, none
    /// twice.
    pub items: &'a [CallerItem<'a>],
    /// The index of the section, up to 65,535.
    pub section: u32,
    /// Ignored.
    pub none: u32,
}

/// Adds items to a layout, from the first to the last, and no other items; returns whether all can
/// be added.
pub fn layout_from(items: &[CallerItem<'_>], layout: &mut Layout) -> bool
    ensures { LaysOut items.now layout.new result }
{
    *layout = Layout::new();
    let mut i = 0;
    while i < items.len() {
        if !put(&items[i], layout) {
            return false;
        }
        i += 1;
    }
    true
}

/// Adds an item to a layout, after those of its type; returns whether it can be added.
fn put(item: &CallerItem<'_>, layout: &mut Layout) -> bool
    ensures { MatchBool result (LaysItem item.now layout.old layout.new)
        ((new : Placed) → LaysItem item.now layout.old new → ⊥) }
{
    match item_of(item) {
        Some(item) => layout.push(item).is_ok(),
        None => false,
    }
}

/// Returns the item as a layout has it, or `None` if its kind, its index or its name is not
/// allowed.
fn item_of<'a>(item: &CallerItem<'a>) -> Option<Item<'a>>
    ensures { GivesItem item.now result }
{
    let address = item.address;
    let name = item.name;
    if item.kind == SECTION && item.index <= LAST_INDEX {
        return Some(Item::Section {
            index: item.index as u16,
            address,
        });
    }
    if !is_name(name) {
        return None;
    }
    match item.kind {
        DEFINE => Some(Item::Define { name, address }),
        ENTRY => Some(Item::Entry { name, address }),
        TABLE => Some(Item::Table { name, address }),
        THREAD => Some(Item::Thread { name, address }),
        _ => None,
    }
}
