//! Drafts: edits of a bank that are found one by one. Each is applied to a copy, so the next can be found in its result.
#![tactic(auto)]

mod applied_steps;
mod draft;
mod sample_moves;

pub use applied_steps::Stop;
pub use draft::Draft;
