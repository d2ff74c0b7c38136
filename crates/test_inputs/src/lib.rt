//! Files that tests read, and a writer that fails.
#![tactic(auto)]

mod failing_writer;
mod files;
mod large;

pub use failing_writer::{FailingWriter, NEVER, WriteFailure};
pub use files::{File, RENAME, RENAME_BACK, empty, renamed_saw, saw, tone, wide};
pub use large::{many_points, with_zero_records};
