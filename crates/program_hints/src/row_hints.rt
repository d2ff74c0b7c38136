//! What helps with a faulty line of a table of a kit.

use crate::note_hints::{key_of, put_key};
use crate::remarks::Remarks;
use crate::source_line::{put_caret, put_missing};
use crate::word_hints::{has_printed_quote, remark_on_hyphen};
use script_tokens::Cursor;
use script_trials::{Span, end_of_tokens, span_at};

/// The highest key and the highest velocity.
const HIGHEST: u8 = 127;

/// The index of the keys among the tokens of a line, after FILE.
const KEYS: usize = 1;

/// A part of a line after its ranges: a word, and a number within these bounds.
#[derive(Clone, Copy)]
struct Part {
    word: &'static [u8],
    lowest: i32,
    highest: u16,
    expected: &'static [u8],
}

/// These parts, in their order. Each is optional.
static PARTS: [Part; 3] = [
    Part {
        word: b"root",
        lowest: 0,
        highest: 127,
        expected: b"Expected: the key of the recorded pitch, from 0 to 127, as in: root 60",
    },
    Part {
        word: b"pan",
        lowest: -500,
        highest: 500,
        expected: b"Expected: a whole number from -500, left, to 500, right, as in: pan -250",
    },
    Part {
        word: b"class",
        lowest: 1,
        highest: 127,
        expected: b"Expected: an exclusive class, from 1 to 127, as in: class 1",
    },
];

/// Says what is wrong in a line of a table, which is shown already.
pub(crate) fn remark_on_zone(line: &[u8], remarks: &mut Remarks) {
    let Some(file) = span_at(line, 0) else {
        return;
    };
    let Some(keys) = span_at(line, KEYS) else {
        put_missing(line, end_of_tokens(line), remarks);
        remark_on_quotes(file.of(line), remarks);
        return remarks.line(&[b"Expected: a key from 0 to 127, or several, as in 36 or 60..72."]);
    };
    if !is_file(file.of(line)) {
        put_caret(line, file, remarks);
        remark_on_quotes(file.of(line), remarks);
    } else if !is_keys(keys.of(line)) {
        put_caret(line, keys, remarks);
        remark_on_keys(keys.of(line), remarks);
    } else {
        remark_on_velocities(line, remarks);
    }
}

// Whether a token can be a FILE. One that begins with a quote ends with another.
fn is_file(token: &[u8]) -> bool {
    match token {
        [b'"', inside @ .., b'"'] => !inside.is_empty(),
        [b'"', ..] => false,
        _ => !has_printed_quote(token),
    }
}

fn remark_on_quotes(token: &[u8], remarks: &mut Remarks) {
    if !is_file(token) {
        remarks.line(&[b"A path with blanks is between straight quotes, as in: \"Snare 1.wav\""]);
    }
}

// Whether a token is a key or a range of keys.
fn is_keys(token: &[u8]) -> bool {
    Cursor::of(token, &[]).number(u32::from(HIGHEST)).is_ok() || is_range(token)
}

// Whether a token is a range of keys or velocities.
fn is_range(token: &[u8]) -> bool {
    match Cursor::of(token, &[]).range() {
        Ok((low, high)) => low <= high && high <= HIGHEST,
        Err(_) => false,
    }
}

fn remark_on_keys(token: &[u8], remarks: &mut Remarks) {
    if remark_on_hyphen(token, remarks) {
        return;
    }
    if let Some(key) = key_of(token) {
        put_key(token, key, remarks);
    }
    remarks.line(&[b"Expected: a key from 0 to 127, or several, as in 36 or 60..72."]);
    remarks.line(&[b"A path with blanks is between straight quotes, as in: \"Snare 1.wav\""]);
}

// Says what is wrong after the keys.
fn remark_on_velocities(line: &[u8], remarks: &mut Remarks) {
    let Some(span) = span_at(line, 2) else {
        return;
    };
    let token = span.of(line);
    if is_range(token) {
        remark_on_parts(line, 3, remarks);
    } else if token.first().is_some_and(|byte| byte.is_ascii_digit()) {
        put_caret(line, span, remarks);
        if !remark_on_hyphen(token, remarks) {
            remarks.line(&[b"Expected: velocities from 0 to 127, as in: 1..63"]);
        }
    } else {
        remark_on_parts(line, 2, remarks);
    }
}

// Says what is wrong from this token on, after the ranges.
fn remark_on_parts(line: &[u8], first: usize, remarks: &mut Remarks) {
    let mut index = first;
    for part in &PARTS {
        if is_token(line, index, part.word) {
            let value = index.saturating_add(1);
            if !has_number(line, value, *part) {
                return remark_on_part(line, value, *part, remarks);
            }
            index = index.saturating_add(2);
        }
    }
    if let Some(span) = span_at(line, index) {
        put_caret(line, span, remarks);
        remarks.line(&[
            b"After the keys a line can have, in this order: LOW..HIGH, root KEY, pan P, class N.",
        ]);
    }
}

fn is_token(line: &[u8], index: usize, word: &[u8]) -> bool {
    span_at(line, index).is_some_and(|span: Span| span.of(line) == word)
}

// Whether this token is a number of the part.
fn has_number(line: &[u8], index: usize, part: Part) -> bool {
    let Some(span) = span_at(line, index) else {
        return false;
    };
    match Cursor::of(span.of(line), &[]).signed(part.highest) {
        Ok(number) => part.lowest <= number,
        Err(_) => false,
    }
}

fn remark_on_part(line: &[u8], index: usize, part: Part, remarks: &mut Remarks) {
    match span_at(line, index) {
        Some(span) => put_caret(line, span, remarks),
        None => put_missing(line, end_of_tokens(line), remarks),
    }
    remarks.line(&[part.expected]);
}
