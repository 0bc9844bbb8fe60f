//! The file of an object, as GNU's dynamic loader sees it: how it is linked, the versions that it
//! needs and defines, which symbols it references, and which of them it defines
//! ([`LookupObject`]). [`SystemFiles`] opens such files, and reads the path of a library in a
//! loader's cache, as `ldconfig` writes it (glibc, `elf/dl-cache.c`). Nothing is run or loaded.
#![tactic(auto)]

mod cache_entries;
mod cache_names;
mod cache_search;
mod cache_table;
mod candidates;
mod copied_symbols;
mod defined_versions;
mod definition;
mod entries;
mod entry_values;
mod faults;
mod file_identity;
mod file_tables;
mod interpreter;
mod kept_filter;
mod kept_indices;
mod kept_version_names;
mod library_files;
mod link_reader;
mod linked_file;
mod links;
mod loader_cache;
mod missing_version;
mod needed_versions;
mod needs_fault;
mod object;
mod object_file;
mod open_failures;
mod ready;
mod reference;
mod reference_names;
mod system_files;
mod texts;
mod version_tables;
pub mod worked_links;

pub use candidates::{FileSource, SearchEnd, candidate};
pub use copied_symbols::RELA_BYTES;
pub use faults::{is_budget_fault, is_reported_alone};
pub use file_identity::{FileAttributes, FileIdentity, is_file};
pub use interpreter::{is_interpreter, read_interpreter};
pub use kept_filter::filter_hash;
pub use link_reader::{machine_of, read_library_links, read_link_info, without_hash};
pub use linked_file::is_linked;
pub use links::{LinkInfo, LinkInfoStore, NeededLibrary};
pub use loader_cache::{LibraryCache, cache_at};
pub use needed_versions::NeedsWalk;
pub use needs_fault::NeedsFault;
pub use object::LookupObject;
pub use object_file::{ObjectFile, ObjectRole, OpenedObject};
pub use reference::SymbolReference;
pub use reference_names::ReferenceNames;
pub use system_files::{ClosedFiles, SystemFiles};
pub use texts::StringArena;
