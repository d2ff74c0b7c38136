//! The lines of a text and their tokens, as edit scripts, note lists and listings have them.
//!
//! A text is bytes. Its lines end at a line feed, which the last may lack, and are numbered from 1. Blanks
//! are space, tab and carriage return. A token that begins with `"` runs to the next `"` of the line, every
//! other token to the next blank; one that begins with `#` begins a comment that runs to the line's end. A
//! line without tokens is ignored.
//!
//! Tokens that begin with `"` or `x` are literals: bytes from 0x20 to 0x7e between quotes, or an even number
//! of hex digits after `x`. [`pool_of`] collects the bytes of all literals of a text. A [`Cursor`] reads a
//! line from left to right and borrows its literals from the pool; [`put_line`] writes a line.
#![tactic(auto)]

mod cursor;
mod fault;
mod joined;
mod lines;
mod numbers;
mod pool;
mod printing;
mod scanning;
mod tokens;

pub use cursor::Cursor;
pub use fault::{LineFault, ScriptFault};
pub use joined::Joined;
pub use lines::Lines;
pub use pool::pool_of;
pub use printing::{Piece, put_line, put_pieces};
pub use tokens::{Token, split_token};
