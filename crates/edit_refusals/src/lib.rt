//! Why an edit of a bank is refused: `refuse` judges a step.
#![tactic(auto)]

mod causes;
mod instruments;
mod laws;
mod points;
mod presets;
mod refusal;
mod refuse_edit;
mod samples;
mod settings;
mod texts;
mod zones;

pub use edit_forms::Cause;
pub use laws::{lowest_is_reported, numbers_never_fall};
pub use refusal::Refusal;
pub use refuse_edit::refuse;
