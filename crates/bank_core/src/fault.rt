//! Why parts are not accepted as a bank.
use thiserror::Error;

/// Why no bank was made from parts.
#[derive(Debug, Drop, Clone, Copy, PartialEq, Eq, Error)]
pub enum PartsFault {
    /// The parts are not valid.
    #[error("the parts are no valid bank")]
    Invalid,
    /// An allocation failed. `from_parts` allocates nothing and never returns this.
    #[error("out of memory")]
    OutOfMemory,
}
