//! What the program reports: its faults, by lines, explanations and exit statuses, and its progress on a terminal.
//!
//! A crate of its own, so that it is proved in parallel with the crates that the runs depend on.
#![tactic(auto)]

mod decibels;
mod details;
mod fault;
mod fault_lines;
mod reporting;
mod run_fault;
mod run_remarks;
mod sound_report;
mod terminal;
mod watched;

pub use fault::{Fault, RowPath, STANDARD_OUTPUT};
pub use fault_lines::{exit_status, fault_text};
pub use reporting::report;
pub use run_fault::RunFault;
pub use run_remarks::remark_on_run;
pub use terminal::{ProgressMeter, Prompted};
pub use watched::{KnowsError, Watched};
