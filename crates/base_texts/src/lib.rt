//! What can be written: a text, its bytes, and the one call that writes it.
#![tactic(auto)]

mod text;

pub use text::{Text, write_text};
