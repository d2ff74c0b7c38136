//! What is probably a mistake in a bank, and the edit that repairs it.
#![tactic(auto)]

mod clicks;
mod equal_samples;
mod finding;
mod findings;
mod gathering;
mod hidden;
mod keys;
mod lines;
mod messages;
mod outside;
mod overridden;
mod points;
mod repairs;
mod samples;
mod texts;
mod uses;
mod zones;

pub use finding::{Finding, Member};
pub use findings::findings_of;
pub use lines::FindingLines;
pub use messages::put_message;

#[cfg(test)]
mod tests;
