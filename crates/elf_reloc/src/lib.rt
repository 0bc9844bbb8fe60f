//! Relocations of x86-64: [`value`] computes what an entry stores, [`apply`] writes a section of a
//! relocatable file with its relocations applied, by the addresses of a [`Layout`]. If the section
//! was refused, [`explain`] finds what the layout is missing, and [`explain_overflow`] the value
//! that does not fit. No call allocates.
#![tactic(auto)]

mod apply_section;
mod entries;
mod entry;
mod explanation;
mod in_order;
mod lookup;
mod missing_item;
mod overflow;
mod passes;
mod patch;
mod relocation_types;
mod section_bytes;
mod symbol_name;
mod values;
mod walk;
mod wanted_bytes;
mod windows;

pub use apply_section::{Applied, apply, apply_with};
pub use elf_layout::{Item, Layout, LayoutFault};
pub use elf_model::{Formula, RelocationBase, RelocationType, ValueRange};
pub use elf_table::RunFault as ApplyFault;
pub use explanation::explain;
pub use overflow::explain_overflow;
pub use patch::Patch;
pub use relocation_types::{relocation_type, takes_place};
pub use section_bytes::write_bytes;
pub use values::{ValueFault, patch_of, value};
pub use wanted_bytes::{SectionName, WantedBytes};
