//! Comments at the ends of the lines of scripts, which name what the numbers of the lines mean.
//!
//! [`put_comment`] puts the comment of an edit, with the names of the bank before it. [`comments_along`] makes those of
//! edits that follow each other, and [`CommentedLines`] are the lines of edits with them. A script is read as the same
//! edits with and without comments ([`comments_are_skipped`]).
#![tactic(auto)]

mod along;
mod comment;
mod laws;
mod lead;
mod lines;
mod members;
mod names;
mod owners;
#[cfg(test)]
mod tests;
mod zones;

pub use along::{CommentedLines, EditComment, EditComments, comments_along};
pub use comment::put_comment;
pub use laws::{
    comments_are_comments, comments_are_skipped, comments_follow_the_bank, empty_comments_are_none,
};
pub use lines::{put_commented, put_named_edit};
pub use names::Member;
pub use owners::put_zones_comment;
