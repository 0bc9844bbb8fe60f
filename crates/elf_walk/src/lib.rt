//! Many files, one after another: [`DirWalk`] goes through the names of a directory in order, in
//! memory of a fixed size, and calls a [`FileVisitor`] for each file: [`CheckFiles`] checks it,
//! [`ListFiles`] lists it after the line of its path, and [`TraitReport`] writes the line of its
//! traits. Store and buffers are used again for the next file.
#![tactic(auto)]

mod batch;
mod check_file;
mod checks;
mod dir_entries;
mod dir_laws;
mod dir_names;
mod dir_walk;
mod each_file;
mod file_lists;
mod file_traits;
mod headed;
mod headed_sink;
mod line_prefixes;
mod lists;
mod many;
mod members;
mod open_failure;
mod open_file;
mod options;
mod path;
mod path_lines;
mod paths;
mod required;
mod short;
mod sorted;
mod sorts;
mod stack;
mod statuses;
mod trait_lines;
mod walk;

pub use batch::{DirEntryName, Insertion, NameBatch};
pub use check_file::{check, check_elf};
pub use checks::{CheckFiles, CheckOptions};
pub use dir_entries::{ends_at, entry_end};
pub use dir_laws::{
    all_names, entry_is_found, last_is_found, order_ascends, pass_keeps, reads_join,
};
pub use dir_names::{DirNames, ENTRY_NAME_BYTES, KEPT_BYTES, KEPT_NAMES};
pub use dir_walk::gather;
pub use each_file::FileVisitor;
pub use file_lists::ListFiles;
pub use file_traits::traits_within;
pub use headed::list_with_path_line;
pub use headed_sink::HeadedSink;
pub use line_prefixes::find_file_type;
pub use lists::{ListFault, visit_list};
pub use many::FileRun;
pub use members::check_archive;
pub use open_failure::unopened;
pub use options::ListOptions;
pub use path::{PATH_BYTES, PathText, join};
pub use path_lines::HELD_BYTES;
pub use paths::visit_path;
pub use short::{UNDECIDED, read_short_file_status, refused_state, short_file_status};
pub use sorted::check_sorted;
pub use sorts::list_by_type;
pub use stack::{NameStack, STACK_BYTES, count_fitting};
pub use statuses::status;
pub use trait_lines::{TraitOptions, TraitReport};
pub use walk::{DEPTH, DirWalk};
