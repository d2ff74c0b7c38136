//! Note lists as text.
#![tactic(auto)]

mod laws;
mod text;

pub use laws::notes_read_back;
pub use text::put_note;
