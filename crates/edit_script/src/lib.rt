//! Edit scripts: texts with one edit on each line.
//!
//! [`pool_of`] collects the bytes of all literals of a text, and [`parse`] reads the text's edits, which
//! borrow them. [`EditLines`] are the lines of edits, and [`RefusalText`] is why one of them is refused.
//!
//! [`parse_notes`] reads note lists.
//!
//! An edit is a step, in one of the forms of [`script_steps`], or a group of steps, `group { STEP } { STEP }
//! ..`. A group may be empty, and contains no groups.
#![tactic(auto)]

mod edits;
mod laws;
mod parsing;
mod refusal_text;

pub use edits::{EditLines, edit, print, put_edit};
pub use laws::{one_reading, printed_lines_spell, spelled_edits_fit, spelled_is_read};
pub use parsing::{Line, parse};
pub use refusal_text::RefusalText;
pub use script_notes::{Note, NoteFault, parse_notes};
pub use script_tokens::{ScriptFault, pool_of};
