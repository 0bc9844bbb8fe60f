//! Sources that are read at an offset, sinks that are written in order, and counters for both.
//!
//! A [`Source`] is read through a [`Counted`], which counts bytes and may limit them, and by
//! [`Limited::charge`] takes them off a budget; a [`Sink`] is written through an [`Out`]. Sources
//! are [`MemorySource`], [`StreamSource`] over a [`ReadAt`], [`RangeSource`] and [`CachedSource`],
//! which keeps the pages that were read last; sinks are [`SliceSink`], [`WriteSink`], [`NullSink`],
//! [`DeferredSink`] and [`LocatedSink`]. [`FailSource`] and [`TurnSource`] show what a caller does at faults and
//! changes of a file.
#![tactic(auto)]

mod cached_source;
mod counted;
mod fail_source;
mod faults;
mod holding_sink;
mod limited;
mod located_sink;
mod location_buffer;
mod memory_source;
mod null_sink;
mod offset_reader;
mod opened;
mod output;
mod page;
mod page_cache;
mod range_source;
mod reader;
mod row_sink;
mod section_header_mask;
mod seek_reader;
mod sink;
mod slice_sink;
mod source;
mod stream_source;
mod turn_source;
mod write_sink;

pub use cached_source::CachedSource;
pub use counted::{Counted, READ_BYTES};
pub use fail_source::FailSource;
pub use faults::{AskFault, OutFault, ReadAtFault, SinkFault, SourceFault};
pub use holding_sink::{DeferredLine, DeferredSink};
pub use limited::Limited;
pub use located_sink::LocatedSink;
pub use memory_source::MemorySource;
pub use null_sink::NullSink;
pub use offset_reader::FileReader;
pub use opened::opened_path;
pub use output::{Out, give};
pub use page_cache::PageCache;
pub use range_source::RangeSource;
pub use reader::ReadAt;
pub use row_sink::RowSink;
pub use seek_reader::SeekReader;
pub use sink::Sink;
pub use slice_sink::SliceSink;
pub use source::Source;
pub use stream_source::StreamSource;
pub use turn_source::TurnSource;
pub use write_sink::WriteSink;
