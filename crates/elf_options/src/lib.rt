//! What users ask for: the [`Caps`] of a listing, that is its limits and its [`ListingStyle`]; the
//! [`SymbolQuery`] of a lookup, a name or a name and a version; the names that select rows, from
//! arguments or a list, as a [`RowFilter`]; and the [`RequiredTrait`] of a file. Only the calls
//! that gather names from arguments or a list allocate.
#![tactic(auto)]

mod caps;
mod list_file;
mod list_lines;
mod names;
mod names_fault;
mod required;
mod row_filter;
mod row_names;
mod spelled;
mod styles;
mod symbol_query;
mod versioned_name;

pub use caps::{Caps, Limits, ListingStyle, NameLimit};
pub use list_file::read_names;
pub use names::{SortedStrings, sort_strings};
pub use names_fault::NamesFault;
pub use required::RequiredTrait;
pub use row_filter::{RowFilter, VersionSuffix};
pub use row_names::{gather_names, is_valid_row_name};
pub use spelled::{parsed_trait_word, spells_traits};
pub use styles::style_with_names;
pub use symbol_query::{SymbolQuery, VersionQuery, parse_query};
