//! What every crate of sfbank depends on: names, limits, little-endian numbers, parts of slices, borrowed bytes,
//! blank values and `OutOfMemory`.
#![tactic(auto)]

mod blank;
mod borrowed_bytes;
pub mod limits;
mod memory;
mod name;
mod numbers;
mod slices;

pub use base_outputs::{WriteFault, put_all};
pub use blank::Blank;
pub use borrowed_bytes::BorrowedBytes;
pub use memory::{Failure, OutOfMemory};
pub use name::{Name20, NameFault};
pub use numbers::{i16_at, u16_at, u32_at};
pub use slices::{front_of, part_of, rest_from};
