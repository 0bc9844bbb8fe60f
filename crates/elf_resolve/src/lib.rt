//! How a linker resolves symbols: the [`KeyTable`] of the names that it finds symbols by, what the
//! symbols of objects make of them, and which members of an archive are taken by its index; and the
//! files of a link, which a [`Resolver`] takes in their order and of which [`show_link`] writes the
//! lines.
//!
//! Nothing is linked or run. Memory is allocated once, before the first file.
#![tactic(auto)]

mod archive_index;
mod archive_inputs;
mod archive_searches;
mod archives;
mod asked_libraries;
mod budgeted_files;
mod entry_chains;
mod entry_rows;
mod examples;
mod first_inputs;
mod index_parts;
mod key_chains;
mod key_lines;
mod key_marks;
mod key_states;
mod libraries;
mod library;
mod library_needs;
mod library_symbols;
mod library_versions;
mod lines;
mod link_faults;
mod link_files;
mod link_laws;
mod link_memory;
mod link_steps;
mod linker_names;
mod list_lines;
mod member_files;
mod member_names;
mod members;
mod needed_libraries;
mod object;
mod object_symbols;
mod passes;
mod problem_rows;
mod read_budget;
mod resolver;
mod room;
mod row_lines;
mod rows;
mod section_groups;
mod section_marks;
mod section_names;
mod spare_keys;
mod spare_libraries;
mod steps;
mod string_buffer;
mod symbols;
mod table;
mod version_names;
mod version_records;
mod version_room;
mod whole_archives;

pub use budgeted_files::BudgetedFiles;
pub use examples::{small_files, small_links};
pub use lines::{LinkLines, show_link};
pub use link_faults::{LinkFault, link_cause_word};
pub use link_files::{InputFiles, InputKind, LinkInput, LinkPlan, LinkStep, OpenFault};
pub use linker_names::OutputKind;
pub use passes::{ArchiveInput, ArchiveObjects, Link, pass_index, search_archive, visit_entry};
pub use read_budget::ReadBudget;
pub use resolver::{LinkEnd, Resolver};
pub use room::{LinkCaps, LinkRoom};
pub use rows::RowTable;
pub use symbols::Symbol;
pub use table::{KeyFault, KeyTable, LinkStop};
