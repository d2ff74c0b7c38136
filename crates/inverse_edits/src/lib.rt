//! Sessions of edits with undo and redo, the law that an edit's inverse undoes it, and neutral edits.
#![tactic(auto)]

mod session;
mod undo_redo;

pub use bank_edits::{undo_restores, undo_restores_all};
pub use session::Session;
pub use sound_neutral_edits::{apply_neutral, is_neutral};
