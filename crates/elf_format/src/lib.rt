//! The lines of a listing, each built from its record or result, in columns, in a table or as a JSON object:
//! [`LinePrefix`] is what precedes a name of any length, the calls `show_..` write a line to an
//! `Out`, and [`Render`] writes the fields with their keys. No file is read here.
#![tactic(auto)]

mod binding_rows;
mod buffers;
mod check_rows;
mod columns;
mod constant_names;
mod dynamic_flags;
mod dynamic_rows;
mod fields;
mod hexadecimal;
mod interpreter_rows;
mod lack_rows;
mod lacking_rows;
mod location_rows;
mod lookup_rows;
mod member_rows;
mod name_tables;
mod named;
mod needed_object_rows;
mod needed_objects;
mod needed_version_rows;
mod note_contents;
mod note_rows;
mod object_tree_rows;
mod objects;
mod overflow_rows;
mod path_rows;
mod properties;
mod relocation_names;
mod relocation_rows;
mod render;
mod rows;
mod section_rows;
mod segment_rows;
mod short_hexadecimal;
mod symbol_rows;
mod table_writer;
mod told;
mod trait_rows;
mod version_rows;

pub use binding_rows::show_binding;
pub use buffers::LINES_BUFFER_BYTES;
pub use check_rows::{put_fault, show_check, show_unnamed};
pub use columns::{LineBuf, line_of, number_sign, put, put_where};
pub use constant_names::ConstantNames;
pub use dynamic_flags::{Words, flag_words};
pub use dynamic_rows::dynamic_prefix;
pub use fields::{
    LinePrefix, begin, begin_named, put_closing, put_decimal, put_half, put_hex_field,
    put_name_or_decimal, put_name_or_hex, put_name_or_sign, put_signed, put_text,
};
pub use interpreter_rows::show_interpreter;
pub use lack_rows::show_missing;
pub use lacking_rows::show_lacking_entry;
pub use location_rows::{show_member_location, show_path_location};
pub use lookup_rows::show_steps;
pub use member_rows::member_prefix;
pub use named::{SecondName, show_joined, show_named, show_tailed};
pub use needed_object_rows::{show_object, show_too_many, show_too_many_paths};
pub use needed_objects::{FoundBy, ObjectRow, ObjectState};
pub use needed_version_rows::show_needed_version;
pub use note_rows::{note_prefix, show_note};
pub use overflow_rows::show_overflow;
pub use path_rows::show_path;
pub use relocation_rows::{relocation_prefix, relr_prefix};
pub use render::{Columns, Json, Render, Tabular};
pub use rows::{cause_word, header_row, show_refusal, show_refusal_in};
pub use section_rows::section_prefix;
pub use segment_rows::segment_row;
pub use symbol_rows::{show_symbol, symbol_front_in, symbol_prefix};
pub use table_writer::TableWriter;
pub use told::show_escaped_text;
pub use trait_rows::{column_word, show_missing_trait, show_traits};
pub use version_rows::{symbol_version_front_in, symbol_version_prefix, version_prefix};
