//! What GNU's dynamic loader sees of a file: the lookup of a symbol by its name and version, and
//! how the file is hardened, by its program headers, its dynamic entries, the properties in its
//! notes and its dynamic symbols. No call allocates.
#![tactic(auto)]

mod exported;
mod flags;
mod found;
mod hardening;
mod index_collection;
mod known;
mod loader_lookup;
mod lookup;
mod name_comparison;
mod properties;
mod property;
mod resolved_version_name;
mod section_stack;
mod symbol_names;
mod symbol_traits;
mod trait_notes;
mod trait_segments;
mod trait_symbols;
mod trait_tags;
mod traits;
mod version_index_set;
mod version_match;
mod version_matcher;
mod version_name_record;

pub use exported::is_exported;
pub use found::{FoundVersion, VersionName};
pub use hardening::find_traits;
pub use index_collection::version_indices;
pub use loader_lookup::look_up;
pub use lookup::{FoundSymbol, SymbolLookup};
pub use version_index_set::VersionIndexSet;
pub use version_match::read_half;
pub use version_matcher::VersionMatcher;
pub use version_name_record::{VersionNameRecord, name_of};
