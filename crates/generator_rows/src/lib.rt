//! The table of the generators that a script can set or that have an edit of their own: the name, unit, range and default
//! of each.
#![tactic(auto)]

pub mod laws;
mod row;
mod rows;

pub use row::{DefaultAmount, GeneratorRow, NAME_LENGTH, RANGE_LENGTH, Unit};
pub use rows::{ROWS, row_of, usable_generators};
