//! Note lists: texts with a note to be played on each line.
//!
//! A line is `START LENGTH BANK NUMBER KEY VELOCITY`, with the lines, blanks and comments of [`script_tokens`].
//! [`parse_notes`] reads the notes of a text.
#![tactic(auto)]

mod fault;
mod limits;
mod note;
mod parsing;

pub use fault::NoteFault;
pub use limits::{HIGHEST_KEY, HIGHEST_VELOCITY, LAST_FRAME, MOST_NOTES};
pub use note::Note;
pub use parsing::parse_notes;
