//! The SoundFont 2 file format: what a file means, its canonical form, the checks of reading with their faults, and
//! the theorem that a canonical file reads back as its bank.
//!
//! It has definitions, the faults and counts of reading, the RIFF chunk of a file, the heads of presets and
//! instruments as records, and theorems.
#![tactic(auto)]

mod fault;
mod form;
mod heads;
mod laws;
mod names;

pub use fault::{Counts, ReadFault};
pub use form::window_of;
pub use heads::RecordedHead;
pub use laws::{
    canonical_files_read_back, indexes_are_sums, read_banks_are_valid, tables_are_flat_lists,
};
pub use names::{before_zero, name_of};
