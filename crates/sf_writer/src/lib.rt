//! Writes a bank as its canonical file (SoundFont 2.04, section 4).
//!
//! Chunk sizes come before chunk bodies, so they are computed first, from the bank's totals and texts. Writing
//! allocates nothing: long runs of points are written as slices of the file that they were read from, while records
//! and short runs of points are buffered.
#![tactic(auto)]

mod chunks;
mod file;
mod info;
mod owner_heads;
mod points;
mod records;
mod sample_heads;
mod sizes;
mod terminals;
mod zone_lists;

pub use file::{BankFile, encoded_len, write};
