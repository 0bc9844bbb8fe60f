//! Layouts: the addresses that are given for sections, names and their entries in the procedure
//! linkage table and in the global offset table, and how they are parsed from arguments and from
//! the lines of a file.
//!
//! A [`Layout`] has a fixed size, a [`BorrowedLayout`] has any number of the caller's items, and
//! [`Items`] gathers those of a file. Only the items of a file allocate.
#![tactic(auto)]

mod addresses;
mod items;
mod layout;
mod lent;
mod named;
mod spelled;
mod texts;

pub use addresses::{Addresses, Among, BorrowedLayout};
pub use items::{Items, LayoutFileFault};
pub use layout::{Item, Layout, LayoutFault};
pub use lent::{LentName, LentSection, SortedNames, SortedSections, is_name};
pub use named::{ITEM_NAME_BYTES, NamedAddress};
pub use spelled::{address_of, behind, item, number, parted};
pub use texts::{TextEnd, read_text};
