//! Reads SoundFont 2 files (SoundFont 2.04). The reader makes its checks in a fixed order, and the first that fails
//! determines the fault. `bank_format` defines the checks and the content of a file.
#![tactic(auto)]

mod bag;
mod entries;
mod hydra;
mod indexes;
mod lists;
mod owners;
mod reader;
mod records;
mod samples;
mod texts;
mod zones;

pub use bank_format::{Counts, ReadFault};
pub use reader::read;
pub use sf_base::Failure;
