//! Which token of a faulty line is wrong.
ghost use Rattle.std.specs.Prelude.{◌≡◌, ◌++◌, IfSome};
ghost use Rattle.live_lines.specs.Comments.{ShowsPart};

use crate::command::Command;
use crate::comment::Comment;
use crate::paths::FilePath;
use crate::reading::request_on;
use script_grammar::next_named;
use script_tokens::{Cursor, pool_of};
use script_trials::{Span, followed, malformed_literal, span_at, token_count, tokens_left};
use sf_base::{Failure, part_of};
use std::alloc::Global;

/// How many tokens a line has that starts a note.
const NOTE_TOKENS: usize = 6;

/// Shows the token at which a line's first fault is; none where a token is missing at the end, or memory is short.
pub fn faulty_token(alloc: Global, line: &[u8]) -> Option<Comment>
    ensures { IfSome result (ShowsPart line.now) }
{
    let span = faulty_span(alloc, line)?;
    let size = span.end.saturating_sub(span.start);
    Some(Comment::of(part_of(line, span.start, size)))
}

fn faulty_span(alloc: Global, line: &[u8]) -> Option<Span> {
    if let Some(span) = malformed_literal(alloc, line) {
        return Some(span);
    }
    match command_of(alloc, line) {
        Some(Command::Record) => wrong_path(line, 1),
        Some(Command::Save) => wrong_path(line, 2),
        Some(Command::Note) => wrong_token(alloc, line).or_else(|| length_of_note(line)),
        _ => wrong_token(alloc, line),
    }
}

// The length of a note all of whose numbers are in their ranges: it is too long.
fn length_of_note(line: &[u8]) -> Option<Span> {
    if token_count(line) == NOTE_TOKENS {
        span_at(line, 1)
    } else {
        None
    }
}

// The command of a line.
fn command_of(alloc: Global, line: &[u8]) -> Option<Command> {
    let pool = pool_of(alloc, line).ok()?;
    next_named(&mut Cursor::of(line, pool.as_slice())).ok()
}

// The first token after a command and its paths, or else the first of these paths that is none.
fn wrong_path(line: &[u8], paths: usize) -> Option<Span> {
    if let Some(span) = span_at(line, paths.saturating_add(1)) {
        return Some(span);
    }
    for index in 1..=paths {
        let span = span_at(line, index)?;
        if FilePath::of(span.of(line)).is_none() {
            return Some(span);
        }
    }
    None
}

// The token at which the reader of a request stops. With one token more it comes further only if one was missing.
fn wrong_token(alloc: Global, line: &[u8]) -> Option<Span> {
    let read = tokens_read(alloc, line)?;
    let longer = followed(alloc, line)?;
    match tokens_read(alloc, longer.as_slice()) {
        Some(further) if further > read => None,
        _ => span_at(line, read.checked_sub(1)?),
    }
}

// How many tokens of a faulty line are read, up to the one at which the reader stops.
fn tokens_read(alloc: Global, line: &[u8]) -> Option<usize> {
    let pool = pool_of(alloc, line).ok()?;
    tokens_read_over(alloc, line, pool.as_slice())
}

fn tokens_read_over<'t, 'p: 't>(alloc: Global, line: &'t [u8], pool: &'p [u8]) -> Option<usize> {
    let mut rest = Cursor::of(line, pool);
    match request_on(alloc, &mut rest, line, pool) {
        Err(Failure::Fault(_)) => token_count(line).checked_sub(tokens_left(rest, line.len())),
        _ => None,
    }
}
