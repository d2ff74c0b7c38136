//! The generators of a zone: their operators, the operators that each level allows, and a map from operators to amounts
//! in the order of a file.
#![tactic(auto)]

mod gen_map;
pub mod laws;
mod level;
pub mod operators;
mod range;
mod rules;

pub use gen_map::{GenMap, are_in_order, search_entries};
pub use level::Level;
pub use range::Range;
pub use rules::{allowed, default_of, is_range_operator};
