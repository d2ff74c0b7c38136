//! Proposes edits that make a bank more similar to another: texts, samples, instruments and presets with
//! their zones. Callers try each edit on a copy of the bank and compare the result with the other bank; each
//! call here is only proved not to panic.
#![tactic(auto)]

mod all_changes;
mod chains;
mod copies;
mod groups;
mod heads;
mod keys;
mod list_plan;
mod numbers;
mod owner_pairs;
mod owner_steps;
mod pairing;
mod point_diff;
mod points;
mod pushing;
mod sample_pairs;
mod sample_steps;
mod settings;
mod texts;
mod views;
mod zone_matching;
mod zone_steps;

pub use all_changes::{BankChanges, bank_changes};
pub use groups::StepGroup;
pub use heads::EditableHead;
pub use owner_steps::remove_steps;
pub use sample_steps::{kind_steps, remove_sample_steps};
