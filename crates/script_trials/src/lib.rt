//! Which token of a faulty line is wrong, found by trying the line's tokens on a parser. Nothing here is specified; each
//! call is only proved not to panic.
#![tactic(auto)]

mod faulty_token;
mod spans;
mod trial;

pub use faulty_token::{Wrong, malformed_literal, wrong_in};
pub use spans::{Span, end_of_tokens, span_at};
pub use trial::{
    Trial, accepts_after, followed, is_edit, stops_at, token_count, tokens_left, try_line,
};
