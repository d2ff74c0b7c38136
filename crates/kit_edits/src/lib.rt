//! The edits that add a kit to a bank: recordings as samples, an instrument with their zones, and its preset.
#![tactic(auto)]

mod edits;
mod instrument;
mod joining;
mod kit;
mod names;
mod numbers;
mod samples;
mod settings;
mod used_names;

pub use edits::kit_edits;
pub use kit::{KitMembers, KitPreset, KitRecording};
