//! Plans: what finds edits for a bank, and what it promises of them. One tidies a bank, others keep some presets or
//! what some notes play.
#![tactic(auto)]

mod distinct_notes;
mod fault;
mod joins;
mod keep;
mod keep_played;
mod links;
mod listed;
mod neutral_steps;
mod plan;
mod presets;
mod same_voices;
mod selected_zones;
mod tidy;
mod unselected;
mod unused;
mod uses;
mod zone_set;

pub use fault::PlanFault;
pub use keep::Keep;
pub use keep_played::KeepPlayed;
pub use plan::Plan;
pub use plan_presets::PresetNumbers;
pub use presets::check_presets;
pub use tidy::{Tidy, tidy_draft};
