//! Why two texts can't be saved together.

use thiserror::Error;

/// The text that a write fault is about.
#[derive(Clone, Copy, Debug, PartialEq, Eq)]
pub enum Which {
    Out,
    Undo,
}

/// Why two texts can't be saved together.
#[derive(Clone, Copy, Debug, Drop, PartialEq, Eq, Error)]
pub enum PairFault {
    /// So many bytes of this text were written, or all of them but it could not be put in place.
    #[error("write fault after {1} bytes")]
    Write(Which, u64),
    /// An allocation failed.
    #[error("out of memory")]
    OutOfMemory,
}
