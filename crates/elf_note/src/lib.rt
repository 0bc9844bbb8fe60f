//! Rows whose sizes or meanings depend on other rows: [`NoteCursor`] over notes, [`DynCursor`] over
//! dynamic entries, and [`VersionCursor`] over the records of symbol versions (Linux Standard Base
//! Core, Symbol Versioning), with [`VersionNames`] for the names of version indices. [`ReadAhead`]
//! reads the names and symbols that rows refer to before those rows. No call allocates.
#![tactic(auto)]

mod dyn_cursor;
mod name_index;
mod note;
mod note_buffer;
mod note_cursor;
mod note_names;
mod note_row;
mod read_ahead;
mod read_ahead_buffer;
mod read_buffer;
mod record;
mod record_fields;
mod record_position;
mod record_reader;
mod sizes;
mod string_values;
mod table_buffer;
mod tail;
mod version_cursor;
mod version_names;
mod window_bytes;

pub use dyn_cursor::{DynCursor, dynamic_rows, entry_in, is_null};
pub use name_index::NameIndex;
pub use note_buffer::NOTES_BUFFER_BYTES;
pub use note_cursor::NoteCursor;
pub use note_row::NoteRow;
pub use read_ahead::ReadAhead;
pub use read_ahead_buffer::NAMES_BUFFER_BYTES;
pub use record::VersionRecord;
pub use record_position::{RecordPosition, record_bytes};
pub use sizes::{NoteParts, note_align, note_parts};
pub use string_values::{DynamicStrings, dynamic_strings, first_of};
pub use table_buffer::VERSIONS_BUFFER_BYTES;
pub use tail::are_zeros;
pub use version_cursor::VersionCursor;
pub use version_names::{ALL_PLACES, NUMBER_NAMES_BYTES, VersionNameRef, VersionNames};
