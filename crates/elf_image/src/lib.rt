//! The bytes of a LOAD segment as a loader leaves them: the dynamic relocations of an executable
//! or a shared object for x86-64, applied in the order of a loader, by the base and by the items
//! that are given ([`ImageItems`]). [`write_image`] writes the bytes, [`MissingEntries`] goes
//! through the entries that lack an item. Only [`ItemList`] allocates.
#![tactic(auto)]

mod changes;
mod chunks;
mod dynamic_rows;
mod dynamic_types;
mod entries;
mod entry;
mod headers;
mod image_items;
mod item_list;
mod items;
mod marks;
mod missing;
mod passes;
mod place;
mod ranges;
mod rela_rows;
mod relative_rows;
mod segment_image;
mod segment_windows;
mod stored;
mod symbols;
mod tables;
mod values;
mod walk;
mod window;

pub use headers::load_image;
pub use image_items::{CopyBytes, CopyItem, ImageItems, ItemKind, NumberItem};
pub use item_list::{ItemList, ItemListFault};
pub use items::{ImageItem, image_item};
pub use missing::{LackingEntry, MissingEntries};
pub use segment_image::{ImageRequest, write_image};
