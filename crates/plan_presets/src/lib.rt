//! The MIDI numbers of presets, and members to be copied.
#![tactic(auto)]

mod fault;
mod numbers;

pub use fault::PresetFault;
pub use numbers::{CopiedMember, PresetNumbers, TakenPreset};
