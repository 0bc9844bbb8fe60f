//! Archives of object files, as `ar` writes static libraries: the call that lists their members,
//! the one that finds their first fault, steps over the members of an archive in memory, and calls
//! that read one member's header and its name. No call allocates.
#![tactic(auto)]

mod cursor;
mod fields;
mod first_fault;
mod lines;
mod listing;
mod magic_strings;
mod member;
mod name_fronts;
mod names;
mod parts;
mod rows;

pub use cursor::read_header as read_member_header;
pub use fields::{MEMBER_HEADER_BYTES, is_name_table, padded_end};
pub use first_fault::find_fault;
pub use lines::{DEFERRED_LINE_BYTES, end_listed};
pub use listing::show_archive;
pub use magic_strings::magic as read_archive_magic;
pub use member::FileRange;
pub use names::read_name as read_member_name;
pub use rows::{MemberPosition, MemberRow, next_member, open_members};
