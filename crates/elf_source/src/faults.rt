//! Why a read or a write stopped.
use thiserror::Error;

/// The number of interrupted turns of one call that count as a failure.
pub(crate) const INTERRUPTED_TURNS: u8 = 64;

/// Why a read of a source failed. The source may be read again.
#[derive(Clone, Copy, PartialEq, Eq, Debug, Error)]
pub enum SourceFault {
    /// The device below failed. The source's count of failures rose.
    #[error("the device failed")]
    Device,
    /// The source returned fewer bytes than its length promised, or its count of failures is
    /// exhausted, so it isn't honest.
    #[error("the source ended before its length")]
    Ended,
}

/// Why a turn of a reader returned nothing.
#[derive(Clone, Copy, PartialEq, Eq, Debug, Error)]
pub enum ReadAtFault {
    /// The turn was interrupted. It may be repeated.
    #[error("the turn was interrupted")]
    Interrupted,
    /// The device failed.
    #[error("the device failed")]
    Failed,
}

/// Why a counted read failed.
#[derive(Clone, Copy, PartialEq, Eq, Debug, Error)]
pub enum AskFault {
    /// The source failed.
    #[error("the source failed")]
    Source(SourceFault),
    /// The limit has too few bytes left for this read. Nothing was read, and nothing has changed
    /// except the offset that [`crate::Counted::stopped`] returns.
    #[error("the limit has too few bytes left")]
    Budget,
}

/// The fault of a sink that took nothing, and takes nothing from now on.
#[derive(Clone, Copy, PartialEq, Eq, Debug, Error)]
#[error("the sink failed")]
pub struct SinkFault;

/// The fault of an `Out` whose sink has failed.
#[derive(Clone, Copy, PartialEq, Eq, Debug, Error)]
#[error("the sink failed after {written} bytes")]
pub struct OutFault {
    /// The number of bytes the sink took since the `Out` was created. It stays at 2^128 - 1.
    pub written: u128,
}
