//! What is usually meant by a token that isn't accepted.

use crate::remarks::Remarks;
use itoa::Buffer;
use program_explanations::{GeneratorRow, usable_generators};

/// The left and right quotes of word processors, and the low one, in UTF-8.
static PRINTED_QUOTES: [&[u8]; 4] = [
    b"\xe2\x80\x9c",
    b"\xe2\x80\x9d",
    b"\xe2\x80\x9e",
    b"\xc2\xab",
];

/// Whether a token begins with a quote of a word processor.
pub(crate) fn has_printed_quote(token: &[u8]) -> bool {
    PRINTED_QUOTES.iter().any(|quote| token.starts_with(quote))
}

/// Whether a token has a byte that is not ASCII.
pub(crate) fn has_other_letters(token: &[u8]) -> bool {
    token.iter().any(|byte| *byte >= 0x80)
}

/// Says what is usually meant by a token in the place of a number. Returns whether something was said.
pub(crate) fn remark_on_word(token: &[u8], remarks: &mut Remarks) -> bool {
    if let Some(number) = generator_named(token) {
        remarks.put(b"  A generator is a number: ");
        remarks.put(token);
        remarks.put(b" is ");
        remarks.put_number(number);
        remarks.put(b"\n");
        return true;
    }
    remark_on_hyphen(token, remarks) || remark_on_sign(token, remarks)
}

/// Says how a range is written that has a hyphen. Returns whether the token is one.
pub(crate) fn remark_on_hyphen(token: &[u8], remarks: &mut Remarks) -> bool {
    let Some((low, high)) = ends_of_hyphen(token) else {
        return false;
    };
    remarks.line(&[
        b"The ends of a range have two dots between them: ",
        low,
        b"..",
        high,
    ]);
    true
}

// The number of the generator with this name, in letters of any case.
fn generator_named(name: &[u8]) -> Option<u16> {
    for row in usable_generators() {
        if is_named(row, name) {
            return Some(row.number);
        }
    }
    None
}

// Whether a generator has this name. The table has blanks after it.
fn is_named(row: &GeneratorRow, name: &[u8]) -> bool {
    row.name.trim_ascii_end().eq_ignore_ascii_case(name)
}

/// Says which amounts the generator of this number can have.
pub(crate) fn remark_on_amounts(number: &[u8], remarks: &mut Remarks) {
    let mut digits = Buffer::new();
    for row in usable_generators() {
        if digits.format(row.number).as_bytes() == number {
            remarks.line(&[
                row.name.trim_ascii_end(),
                b" (",
                row.unit.name().as_bytes(),
                b"): ",
                row.range.trim_ascii_end(),
            ]);
            return;
        }
    }
}

// Says what is wrong with a number that has another sign in it.
fn remark_on_sign(token: &[u8], remarks: &mut Remarks) -> bool {
    match token.split_last() {
        Some((b';', number)) if is_number(number) => {
            remarks.line(&[
                b"Each edit has its own line, and nothing after it: ",
                number,
            ]);
            true
        }
        Some((b',', number)) if is_number(number) => {
            remarks.line(&[b"Numbers have blanks between them, and no commas: ", number]);
            true
        }
        Some((b'%', number)) if is_number(number) => {
            remarks.line(&[
                b"A number has no sign after it. In tenths of a percent, as for pan, it is ",
                number,
                b"0",
            ]);
            true
        }
        _ if is_decimal(token) => {
            remarks.line(&[b"Numbers are whole: decibels, for example, are given in tenths."]);
            true
        }
        _ => false,
    }
}

// The two numbers of a range with a hyphen.
fn ends_of_hyphen(token: &[u8]) -> Option<(&[u8], &[u8])> {
    let length = token
        .iter()
        .take_while(|byte| byte.is_ascii_digit())
        .count();
    let low = token.get(..length)?;
    let (hyphen, high) = token.get(length..)?.split_first()?;
    if *hyphen == b'-' && is_digits(low) && is_digits(high) {
        Some((low, high))
    } else {
        None
    }
}

/// Whether a token is one or more digits.
pub(crate) fn is_digits(token: &[u8]) -> bool {
    !token.is_empty() && token.iter().all(|byte| byte.is_ascii_digit())
}

// Whether a token is a whole number, which may be negative.
fn is_number(token: &[u8]) -> bool {
    match token.split_first() {
        Some((b'-', digits)) => is_digits(digits),
        _ => is_digits(token),
    }
}

// Whether a token is a number with a fraction.
fn is_decimal(token: &[u8]) -> bool {
    let length = token.iter().take_while(|byte| **byte != b'.').count();
    match (token.get(..length), token.get(length..)) {
        (Some(whole), Some([b'.', fraction @ ..])) => is_number(whole) && is_digits(fraction),
        _ => false,
    }
}
