//! The fixed-size records of an ELF64 file: each is decoded from its bytes and encoded into them,
//! with every byte kept in a field.
#![tactic(auto)]

mod dyn_entry;
mod ehdr;
mod fields;
mod flags;
pub mod gnu_numbers;
mod note_head;
pub mod numbers;
mod parts;
mod phdr;
mod rel;
mod rela;
mod shdr;
pub mod sizes;
mod sym;
mod verdef;
mod vernaux;
mod verneed;
mod version_numbers;
mod words;

pub use dyn_entry::Dyn;
pub use ehdr::{Ehdr, is_linked_type};
pub use elf_model::{Cause, Refusal, VersionKind};
pub use fields::{u16_at, u64_at};
pub use flags::{SectionFlags, SegmentFlags};
pub use note_head::NoteHead;
pub use parts::Parts;
pub use phdr::Phdr;
pub use rel::Rel;
pub use rela::Rela;
pub use shdr::Shdr;
pub use sym::{Sym, SymbolSection};
pub use verdef::Verdef;
pub use vernaux::Vernaux;
pub use verneed::Verneed;
pub use version_numbers::{VERSION_NUMBERS, version_number};
pub use words::word;
