//! The lines of a live session: their requests and their answers.
//!
//! A line is made of tokens like a line of a script or a note list, with blanks, comments and literals. A line that
//! begins with the word of a [`Command`] is that command, any other is an edit:
//!
//! - `neutral EDIT`: an edit that is refused if it may change the sound;
//! - `undo`, `redo`, `show`, `help`, `quit`;
//! - `note LENGTH BANK NUMBER KEY VELOCITY`: a note that starts now, its length in frames;
//! - `press BANK NUMBER KEY VELOCITY`: a note that lasts until it is released;
//! - `release BANK NUMBER KEY`, and `pedal on BANK NUMBER` or `pedal off BANK NUMBER`, which holds releases back;
//! - `silence`, which releases all, and `stop`, which ends all voices at once;
//! - `frames N`: the next `N` frames, up to 100,000,000;
//! - `record NOTES`: the path of a note list;
//! - `voices`, `meter`: what sounds;
//! - `save OUT UNDO`: two paths, each a word, or a literal if it has blanks.
//!
//! [`read_line`] reads a line with a pool of the bytes of its literals, which [`pool_of_line`] makes, and
//! [`put_answer`] puts the line that answers it.
#![tactic(auto)]

mod answer;
mod command;
mod comment;
mod fault;
mod faulty_tokens;
mod help;
mod paths;
mod pedal;
mod reading;
mod request;

pub use answer::{Answer, put_answer};
pub use command::Command;
pub use comment::Comment;
pub use fault::RequestFault;
pub use faulty_tokens::faulty_token;
pub use help::HELP;
pub use paths::{FilePath, Paths};
pub use pedal::{Pedal, PedalMove, PedalPosition};
pub use reading::{pool_of_line, read_line};
pub use request::{Key, MOST_FRAMES, Request};
