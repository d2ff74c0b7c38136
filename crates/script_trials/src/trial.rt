//! Lines that are tried on the parser of edits.

use crate::spans::{Span, end_of_tokens};
use arrayvec::ArrayVec;
use edit_script::edit;
use script_tokens::{Cursor, pool_of};
use sf_base::Failure;
use std::alloc::Global;

/// The longest line that is tried, in bytes. Hints are for lines that are written by hand.
const LONGEST: usize = 400;

/// A token that no form accepts as a word, after a line that is tried.
const NEXT: &[u8] = b" ?";

/// How far the parser of edits comes in a line.
#[derive(Clone, Copy)]
pub enum Trial {
    /// It accepts the line.
    Accepted,
    /// It stops with a fault after it has read all but this many tokens.
    Stopped(usize),
}

impl Trial {
    /// Whether all tokens were read.
    pub fn has_read_all(self) -> bool {
        match self {
            Trial::Accepted => true,
            Trial::Stopped(remaining) => remaining == 0,
        }
    }
}

/// Tries a line, unless a literal of it is malformed or memory is short.
pub fn try_line(alloc: Global, line: &[u8]) -> Option<Trial> {
    let Ok(pool) = pool_of(alloc, line) else {
        return None;
    };
    let mut cursor = Cursor::of(line, pool.as_slice());
    match edit(alloc, &mut cursor) {
        Ok(_edit) => Some(Trial::Accepted),
        Err(Failure::Fault(_)) => Some(Trial::Stopped(tokens_left(cursor, line.len()))),
        Err(Failure::OutOfMemory) => None,
    }
}

/// How many tokens a line has.
pub fn token_count(line: &[u8]) -> usize {
    tokens_left(Cursor::of(line, &[]), line.len())
}

/// How many tokens a cursor has not read, at most as many as its line has bytes.
pub fn tokens_left(mut cursor: Cursor<'_, '_>, most: usize) -> usize {
    for count in 0..most {
        if cursor.is_empty() {
            return count;
        }
        let _ = cursor.word();
    }
    most
}

/// Whether the parser reads a line's first tokens, up to a position, and another token after them. It is asked with a
/// further token, since a missing one is a fault too.
pub fn accepts_after(alloc: Global, line: &[u8], end: usize, token: &[u8]) -> bool {
    let Some(front) = line.get(..end) else {
        return false;
    };
    match joined(&[front, b" ", token, NEXT]) {
        Some(tried) => reads_all(alloc, tried.as_slice()),
        None => false,
    }
}

/// A line's tokens and one more, which no form accepts, unless memory is short.
pub fn followed(alloc: Global, line: &[u8]) -> Option<Vec<u8>> {
    let tokens = line.get(..end_of_tokens(line))?;
    let mut tried = Vec::new(alloc);
    tried.extend_from_slice(tokens).ok()?;
    tried.extend_from_slice(NEXT).ok()?;
    Some(tried)
}

/// Whether the parser accepts a line's bytes up to a position as an edit.
pub fn is_edit(alloc: Global, line: &[u8], end: usize) -> bool {
    let Some(front) = line.get(..end) else {
        return false;
    };
    match try_line(alloc, front) {
        Some(Trial::Accepted) => true,
        _ => false,
    }
}

/// Whether the token of a span is what stops the parser, and not that one is missing after it.
pub fn stops_at(alloc: Global, line: &[u8], span: Span) -> bool {
    !accepts_after(alloc, line, span.start, span.of(line))
}

fn reads_all(alloc: Global, line: &[u8]) -> bool {
    match try_line(alloc, line) {
        Some(trial) => trial.has_read_all(),
        None => false,
    }
}

// The pieces one after the other, unless they are too long.
fn joined(pieces: &[&[u8]]) -> Option<ArrayVec<u8, LONGEST>> {
    let mut line = ArrayVec::new();
    for piece in pieces {
        if line.try_extend_from_slice(piece).is_err() {
            return None;
        }
    }
    Some(line)
}
