//! The headers and tables of an ELF64 file: [`header`] and [`load`] read the headers into a
//! [`HeaderStore`] and check them, [`SectionView`] and [`ExecutionView`] check sections and
//! segments, [`Cursor`] goes through the rows of a [`Table`], and [`Names`] reads names. Errors
//! name their offset. No call allocates except `HeaderBuffer::new`.
#![tactic(auto)]

mod buffers;
mod byte_range;
mod checks;
mod cursor;
mod fault;
mod file;
mod file_header;
mod hash_sections;
mod header_buffer;
mod header_buffer_memory;
mod header_rows;
mod linked_symbol;
mod loaded;
mod loaded_segments;
mod loaded_tables;
mod located_read;
mod name_buf;
mod name_search;
mod names;
mod overlaps;
mod ranges;
mod row;
mod run_fault;
mod section_load;
mod sections;
mod segment_checks;
mod segment_loading;
mod segment_view;
mod segments;
mod slot_memory;
mod store;
mod table;
mod window;

pub use buffers::TABLE_BUFFER_BYTES;
pub use byte_range::{ByteRange, bytes_of, chunk_at};
pub use checks::{
    checked_bytes, checked_rows, checked_strings, checked_table, has_no_bytes, holds_symbols,
};
pub use cursor::Cursor;
pub use elf_options::{Caps, Limits, ListingStyle, NameLimit};
pub use fault::{Fault, refusal_at, refused};
pub use file::SectionView;
pub use file_header::{header, refused_length};
pub use header_buffer::HEADERS_BUFFER_BYTES;
pub use header_buffer_memory::HeaderBuffer;
pub use header_rows::{HeaderRows, section_place, segment_place};
pub use linked_symbol::{LinkedSymbol, LinkedSymbolTable, SymbolEntry};
pub use loaded::Loaded;
pub use located_read::fill;
pub use name_buf::NameBuf;
pub use name_search::{find_nul, search_name};
pub use names::{NameEnd, Names};
pub use ranges::is_out_of_bounds;
pub use row::Row;
pub use run_fault::RunFault;
pub use section_load::{check_before_load, load, refused_names};
pub use segment_checks::{checked_mapped, mapping};
pub use segment_view::ExecutionView;
pub use store::HeaderStore;
pub use table::Table;
pub use window::{WINDOW_BYTES, Window};
