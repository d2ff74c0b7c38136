//! Edits that change no sound: which edits these are, applying one, and their laws.
#![tactic(auto)]

mod applying;
mod forms;
mod laws;

pub use applying::apply_neutral;
pub use forms::is_neutral;
pub use laws::{
    inverses_are_neutral, neutral_edits_change_no_frame, neutral_edits_change_no_sound,
};
