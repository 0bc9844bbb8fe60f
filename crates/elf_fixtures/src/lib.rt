//! The files of worked examples and tests, byte by byte, and the one that the program contains.
//! Each is proved to be the file that the definitions build from its fields.
#![tactic(auto)]

mod carried;
mod dynamic;
mod edits;
mod lookups;
mod notes;
mod relocations;
mod tables;
mod versions;

pub use carried::sample;
pub use dynamic::{library_without_sections, repeated_tags};
pub use edits::with_bytes;
pub use lookups::{hash_with_cycle, hash_with_end};
pub use notes::{aligned_note, build_note};
pub use relocations::{
    falling_relocations, linked_to_zero, one_call, overlapping_in_other_order,
    overlapping_relocations, rising_relocations, third_overflows,
};
pub use tables::{
    bare_header, named_section, needed_library, note_segment, odd_name, one_load, one_symbol_table,
    special_places, tables_over_headers,
};
pub use versions::{hostile_library, versioned_library, versioned_without_sections};
