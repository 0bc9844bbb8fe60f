//! The definitions of elfsee, in `specs/`: the fields of an ELF64 file, the checks, the lines of a
//! listing and the report.
//!
//! As code there are only the causes of a refusal, the states of a file and of a symbol, how a line
//! is written, which rows are shown, what a relocation type is, and functions with an empty body
//! whose contracts are laws about the definitions.
#![tactic(auto)]

mod apply_laws;
mod archive_laws;
mod causes;
mod choice_laws;
mod cost_laws;
mod dynamic;
mod dynamic_types;
mod fault_rows;
mod formats;
mod gnu_hash_laws;
mod hash_laws;
mod image_laws;
mod link_states;
mod listing_laws;
mod loader_laws;
mod located_laws;
mod missing;
mod names;
mod notes;
mod overlap_laws;
mod place_filters;
mod record_laws;
mod relocation_tables;
mod relocation_types;
mod states;
mod style_laws;
mod suffix_laws;
mod symbol_filter_laws;
mod symbol_filters;
mod sysv_walk_laws;
mod table_laws;
mod traits;
mod value_laws;
mod version_laws;
mod versions;

pub use causes::{Cause, Refusal};
pub use dynamic_types::DynamicType;
pub use fault_rows::FaultRow;
pub use formats::{Format, LinePlace, TableState};
pub use link_states::{
    FurtherDefinition, IndexEntry, KeyEntry, KeyState, LinkCause, LinkRefusal, LinkRow,
    LinkRowKind, RowReason, SharedDefinition, SharedKind, StateChange, SymbolRole, SymbolUse,
};
pub use missing::{LayoutAddress, MissingAddress, OverflowedValue};
pub use place_filters::{PlaceFilter, PlaceRange, RowPlace};
pub use relocation_tables::{RelocationForm, RelocationTable};
pub use relocation_types::{Formula, RelocationBase, RelocationType, ValueRange};
pub use states::{BindingState, FileMagic, FileStatus, VersionState};
pub use symbol_filters::SymbolFilter;
pub use traits::{Hardening, ProgramKind, Relro, SearchPath, SegmentTraits, TraitColumn};
pub use versions::VersionKind;
