//! The script of a bank with a comment at the end of each line, which names what the numbers of the line mean.
//!
//! [`listed_edits`] lists a bank as edits, and [`CommentedScript`] is their script with the comments. It is read as the
//! script without them ([`commented_text_lists_edits`]).
#![tactic(auto)]

mod copies;
mod laws;
mod listing;
mod owners;
mod script;
#[cfg(test)]
mod tests;

pub use laws::{
    commented_text_determines_bank, commented_text_gives_bank, commented_text_lists_edits,
};
pub use listing::listed_edits;
pub use script::CommentedScript;
