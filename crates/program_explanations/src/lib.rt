//! Explains faults and refusals by their numbers or names: what each means, and what to do about it. Lists
//! the generators.
#![tactic(auto)]

mod explanations;
mod generator_table;

pub use explanations::{Explanation, Explanations, FaultCode, explain, explain_name};
pub use generator_rows::{
    DefaultAmount, GeneratorRow, NAME_LENGTH, RANGE_LENGTH, Unit, usable_generators,
};
pub use generator_table::GeneratorTable;
