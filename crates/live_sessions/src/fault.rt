//! Why a session ends early.
use bank_format::ReadFault;
use thiserror::Error;

/// Why a session ends early.
#[derive(Debug, Drop, Clone, Copy, PartialEq, Eq, Error)]
pub enum LiveFault {
    /// The file is not a bank. Nothing was read of the input, and nothing was written.
    #[error("{0}")]
    File(ReadFault),
    /// An allocation failed.
    #[error("out of memory")]
    Memory,
    /// A read of the input failed, or 2^64 - 1 lines were read.
    #[error("the input can't be read")]
    Input,
    /// The writer of answers failed after this many bytes of the text that answers a line.
    #[error("write fault after {0} bytes of an answer")]
    Answers(u64),
    /// The writer of frames failed after this many bytes of all frames.
    #[error("write fault after {0} bytes of frames")]
    Pcm(u64),
}
