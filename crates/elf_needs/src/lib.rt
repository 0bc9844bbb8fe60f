//! What a program needs, as GNU's dynamic loader sees it: [`DependencyWalk`] finds its objects in
//! the order of the loader, along the paths that the loader would try for each library, and writes
//! a line for each; and which object defines each symbol that they reference. Nothing is run or
//! loaded. Memory is allocated once, before the first file, except for pages that are cached.
#![tactic(auto)]

mod bind_name;
mod binding_states;
mod bindings;
mod bound_states;
mod buffers;
mod cache_path;
mod interpreter_search;
mod known_interpreter;
mod known_object;
mod library_search;
mod line_options;
mod needed_names;
mod needers;
mod object_lines;
mod object_reports;
mod open_objects;
mod path_budget;
mod path_elements;
mod paths;
mod problem_rows;
mod providers;
mod root_path;
mod rooted_files;
mod search_dirs;
mod search_path_list;
mod search_scope;
mod system_dirs;
mod tokens;
mod tree_walk;
mod tries;
mod unused;
mod version_lines;
mod walk;
mod walk_needs;
mod walk_program;
pub mod worked_paths;
pub mod worked_trees;

pub use bind_name::{BindFault, BindResult, bind};
pub use binding_states::{is_unbound, unbound_state};
pub use buffers::NeedsBuffers;
pub use cache_path::system_cache;
pub use known_object::MOST_OBJECTS;
pub use library_search::LibrarySearch;
pub use line_options::LineOptions;
pub use needers::{NeedingObject, SearchPaths, gather_dirs};
pub use open_objects::OpenObjects;
pub use paths::{CandidatePath, dir_of_path, named_path};
pub use root_path::{PathEntries, PathEntry, resolve};
pub use rooted_files::RootedFiles;
pub use search_dirs::SearchDirs;
pub use search_path_list::SearchPathList;
pub use system_dirs::default_dirs;
pub use tries::CandidatePaths;
pub use walk::{DependencyWalk, Listed, NeedsOptions, OpenFiles};
