//! What helps with a faulty line of a script.

use crate::expected::{TokenPlace, remark_on_expected};
use crate::forms::{Form, form_of, nearest_form};
use crate::remarks::Remarks;
use crate::source_line::{put_caret, put_missing};
use crate::word_hints::{
    has_other_letters, has_printed_quote, is_digits, remark_on_amounts, remark_on_word,
};
use script_trials::{Span, Wrong, span_at, wrong_in};
use std::alloc::Global;

/// The most bytes of a name.
const NAME_LENGTH: usize = 20;

/// The index of the amount among the tokens of `set-gen`.
const AMOUNT: usize = 5;

/// Says what is wrong in a line without an edit, which is shown already.
pub(crate) fn remark_on_edit(alloc: Global, line: &[u8], remarks: &mut Remarks) {
    let Some(wrong) = wrong_in(alloc, line) else {
        return;
    };
    match wrong {
        Wrong::Token(span) => {
            put_caret(line, span, remarks);
            remark_on_token(alloc, line, span, remarks);
        }
        Wrong::Literal(span) => {
            put_caret(line, span, remarks);
            remark_on_literal(span.of(line), remarks);
        }
        Wrong::Missing(end) => {
            put_missing(line, end, remarks);
            remark_on_expected(place_at(alloc, line, end), remarks);
        }
    }
    remark_on_form(line, remarks);
}

fn place_at<'t>(alloc: Global, line: &'t [u8], start: usize) -> TokenPlace<'t> {
    TokenPlace { alloc, line, start }
}

// Says what is wrong with a token, or what is expected in its place.
fn remark_on_token(alloc: Global, line: &[u8], span: Span, remarks: &mut Remarks) {
    let token = span.of(line);
    let place = place_at(alloc, line, span.start);
    if is_form_word(line, span) {
        remark_on_first(token, remarks);
    } else if has_printed_quote(token) {
        remarks.line(&[b"Names are in straight quotes, as in: \"Church\""]);
    } else if has_joined_brace(token) {
        remarks.line(&[b"Braces have blanks around them, as in: { 0 g 48 100 }"]);
    } else if is_odd_literal(token) && place.accepts(b"x0000") {
        remarks.line(&[b"A point has four hex digits."]);
    } else if is_long_name(token) {
        remarks.line(&[b"A name has 20 characters at most."]);
    } else if token == b"{".as_slice() && place.accepts(b"0") {
        remark_on_brace(line, remarks);
    } else if !remark_on_word(token, remarks) {
        remark_on_expected(place, remarks);
        remark_on_amount(line, span, remarks);
    }
}

// Whether a token is hex digits of an odd number of bytes.
fn is_odd_literal(token: &[u8]) -> bool {
    match token.split_first() {
        Some((b'x', digits)) => digits.len() % 4 == 2,
        _ => false,
    }
}

// Says what is missing before the first brace of a line.
fn remark_on_brace(line: &[u8], remarks: &mut Remarks) {
    match form_of_line(line) {
        Some(form) if form.word == b"add-preset".as_slice() => remarks.line(&[
            b"Numbers are missing before the brace. The last three are mostly zeros: NUMBER BANK 0 0 0",
        ]),
        _ => remarks.line(&[b"A number is missing before the brace."]),
    }
}

// Says of an amount that `set-gen` can't have which amounts its generator can have.
fn remark_on_amount(line: &[u8], amount: Span, remarks: &mut Remarks) {
    match (form_of_line(line), span_at(line, AMOUNT)) {
        (Some(form), Some(place))
            if form.word == b"set-gen".as_slice() && place.start == amount.start => {
            if let Some(operator) = span_at(line, AMOUNT - 1) {
                remark_on_amounts(operator.of(line), remarks);
            }
        }
        _ => {}
    }
}

// Whether a token is where the word of a form belongs: at the start of a line, or after a brace of a group.
fn is_form_word(line: &[u8], span: Span) -> bool {
    let Some(first) = span_at(line, 0) else {
        return false;
    };
    if first.start == span.start {
        return true;
    }
    first.of(line) == b"group".as_slice() && follows_brace(line, span.start)
}

fn follows_brace(line: &[u8], position: usize) -> bool {
    let before = match line.get(..position) {
        Some(before) => before,
        None => &[],
    };
    before.trim_ascii_end().ends_with(b"{")
}

// Says which form is meant by the first word of a line.
fn remark_on_first(word: &[u8], remarks: &mut Remarks) {
    if is_digits(word) {
        remarks.line(&[b"This looks like a note: sfbank play reads note lists."]);
    } else if let Some(near) = nearest_form(word) {
        remarks.line(&[
            b"No edit has this name. Perhaps: ",
            near.form.word,
            b" ",
            near.form.operands,
        ]);
    } else {
        remarks.line(&[
            b"A line begins with the name of an edit, such as set-gen: SCRIPT.md lists them.",
        ]);
    }
}

// Says what is wrong with a malformed literal.
fn remark_on_literal(token: &[u8], remarks: &mut Remarks) {
    if has_other_letters(token) {
        put_hex(token, remarks);
    } else if token.starts_with(b"\"") {
        remarks.line(&[
            b"A text in quotes ends with a quote and a blank, and has no quote within.",
        ]);
    } else {
        remarks.line(&[
            b"After x there are two hex digits for each byte; a word can't begin with x.",
        ]);
    }
}

// Gives a text in quotes that isn't ASCII in hex digits.
fn put_hex(token: &[u8], remarks: &mut Remarks) {
    remarks.put(b"  Letters such as these are written in hex: x");
    for byte in token {
        if *byte != b'"' {
            remarks.put(&[hex_digit(*byte >> 4), hex_digit(*byte & 15)]);
        }
    }
    remarks.put(b"\n");
}

fn hex_digit(value: u8) -> u8 {
    match b"0123456789abcdef".get(usize::from(value)) {
        Some(digit) => *digit,
        None => b'?',
    }
}

// Whether a brace is joined to something else.
fn has_joined_brace(token: &[u8]) -> bool {
    token.len() > 1 && !token.starts_with(b"\"") && (token.contains(&b'{') || token.contains(&b'}'))
}

fn is_long_name(token: &[u8]) -> bool {
    token.starts_with(b"\"") && token.len().saturating_sub(2) > NAME_LENGTH
}

// Repeats the form of the line.
fn remark_on_form(line: &[u8], remarks: &mut Remarks) {
    if let Some(form) = form_of_line(line) {
        remarks.line(&[b"The form: ", form.word, b" ", form.operands]);
    }
}

fn form_of_line(line: &[u8]) -> Option<&'static Form> {
    form_of(span_at(line, 0)?.of(line))
}
