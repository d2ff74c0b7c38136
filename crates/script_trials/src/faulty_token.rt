//! Which token of a faulty line is wrong.

use crate::spans::{Span, end_of_tokens, span_at, span_from};
use crate::trial::{Trial, stops_at, token_count, try_line};
use script_tokens::pool_of;
use sf_base::Failure;
use std::alloc::Global;

/// What is wrong in a faulty line.
#[derive(Clone, Copy)]
pub enum Wrong {
    /// This token, which the parser doesn't accept.
    Token(Span),
    /// This literal, which is malformed.
    Literal(Span),
    /// A token is missing at the end of the line, which is at this position.
    Missing(usize),
}

/// What is wrong in a line that has no edit.
pub fn wrong_in(alloc: Global, line: &[u8]) -> Option<Wrong> {
    match pool_of(alloc, line) {
        Ok(_pool) => wrong_token(alloc, line),
        Err(Failure::Fault(_)) => Some(Wrong::Literal(malformed_literal(alloc, line)?)),
        Err(Failure::OutOfMemory) => None,
    }
}

// The token at which the parser stops, or the missing one.
fn wrong_token(alloc: Global, line: &[u8]) -> Option<Wrong> {
    let Trial::Stopped(remaining) = try_line(alloc, line)? else {
        return None;
    };
    let index = token_count(line).checked_sub(remaining)?.checked_sub(1)?;
    let span = span_at(line, index)?;
    if remaining > 0 || stops_at(alloc, line, span) {
        Some(Wrong::Token(span))
    } else {
        Some(Wrong::Missing(end_of_tokens(line)))
    }
}

/// The first malformed literal.
pub fn malformed_literal(alloc: Global, line: &[u8]) -> Option<Span> {
    let mut end = 0;
    for _token in 0..line.len() {
        let span = span_from(line, end)?;
        if pool_of(alloc, span.of(line)).is_err() {
            return Some(span);
        }
        end = span.end;
    }
    None
}
