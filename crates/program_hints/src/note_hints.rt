//! What helps with a faulty line of a note list, or a note of a live session.

use crate::forms::form_of;
use crate::remarks::Remarks;
use crate::source_line::{put_caret, put_missing};
use crate::word_hints::is_digits;
use script_notes::{HIGHEST_KEY, HIGHEST_VELOCITY};
use script_tokens::Cursor;
use script_trials::{end_of_tokens, span_at};

/// A number of a note, and how high it may be.
#[derive(Clone, Copy)]
pub(crate) struct Field {
    name: &'static [u8],
    highest: u32,
}

/// The most frames that a field can have.
const FRAMES: u32 = u32::MAX;

/// The highest bank and preset number of a note.
const NUMBERS: u32 = u16::MAX as u32;

/// The numbers of a note in a list.
pub(crate) static LIST_FIELDS: [Field; 6] = [
    Field {
        name: b"start in frames",
        highest: FRAMES,
    },
    LENGTH,
    BANK,
    PRESET,
    KEY,
    VELOCITY,
];

/// The numbers of a note in a live session.
pub(crate) static LIVE_FIELDS: [Field; 5] = [LENGTH, BANK, PRESET, KEY, VELOCITY];

/// The numbers of a note that is pressed in a live session.
pub(crate) static PRESSED_FIELDS: [Field; 4] = [BANK, PRESET, KEY, VELOCITY];

/// The numbers of the release of a key.
pub(crate) static RELEASED_FIELDS: [Field; 3] = [BANK, PRESET, KEY];

const LENGTH: Field = Field {
    name: b"length in frames",
    highest: FRAMES,
};

const BANK: Field = Field {
    name: b"bank",
    highest: NUMBERS,
};

const PRESET: Field = Field {
    name: b"preset",
    highest: NUMBERS,
};

const KEY: Field = Field {
    name: b"key",
    highest: HIGHEST_KEY as u32,
};

const VELOCITY: Field = Field {
    name: b"velocity",
    highest: HIGHEST_VELOCITY as u32,
};

/// Says what is wrong in a line that should have these numbers. The line is shown already.
pub(crate) fn remark_on_note(line: &[u8], fields: &[Field], remarks: &mut Remarks) {
    remark_on_fields(line, fields, 0, remarks);
}

/// Like `remark_on_note`, for numbers that follow some tokens.
pub(crate) fn remark_on_fields(
    line: &[u8],
    fields: &[Field],
    skipped: usize,
    remarks: &mut Remarks,
) {
    let mut cursor = Cursor::of(line, &[]);
    for _word in 0..skipped {
        let _ = cursor.word();
    }
    let mut index = skipped;
    for field in fields {
        if cursor.is_empty() {
            return remark_on_missing(line, fields, remarks);
        }
        if cursor.number(field.highest).is_err() {
            return remark_on_field(line, index, *field, remarks);
        }
        index = index.saturating_add(1);
    }
    if let Some(span) = span_at(line, index) {
        put_caret(line, span, remarks);
        remarks.line(&[b"The line is complete before this."]);
    }
}

fn remark_on_missing(line: &[u8], fields: &[Field], remarks: &mut Remarks) {
    put_missing(line, end_of_tokens(line), remarks);
    let mut before: &[u8] = b"  Expected: ";
    for field in fields {
        remarks.put(before);
        remarks.put(field.name);
        before = b"; ";
    }
    remarks.put(b".\n");
}

// Says what is wrong with the number of a field.
fn remark_on_field(line: &[u8], index: usize, field: Field, remarks: &mut Remarks) {
    let Some(span) = span_at(line, index) else {
        return;
    };
    put_caret(line, span, remarks);
    let token = span.of(line);
    if token.ends_with(b",") {
        remarks.line(&[b"The numbers have blanks between them, and no commas."]);
    } else if let Some(key) = key_of(token) {
        put_key(token, key, remarks);
    } else if let Some(frames) = frames_of(token) {
        put_frames(token, frames, remarks);
    } else if form_of(token).is_some() {
        remarks.line(&[b"This looks like an edit: sfbank apply reads scripts of edits."]);
    }
    put_expected(field, remarks);
}

fn put_expected(field: Field, remarks: &mut Remarks) {
    remarks.put(b"  Expected: ");
    remarks.put(field.name);
    remarks.put(b", a whole number from 0 to ");
    remarks.put_number(field.highest);
    remarks.put(b".\n");
}

pub(crate) fn put_key(token: &[u8], key: u32, remarks: &mut Remarks) {
    remarks.put(b"  Keys are numbers: ");
    remarks.put(token);
    remarks.put(b" is ");
    remarks.put_number(key);
    remarks.put(b" if c4 is the middle C.\n");
}

fn put_frames(token: &[u8], frames: u64, remarks: &mut Remarks) {
    remarks.put(b"  Times are in frames, 44100 a second: ");
    remarks.put(token);
    remarks.put(b" seconds are ");
    remarks.put_number(frames);
    remarks.put(b".\n");
}

/// The key of a note name, such as c4, F#3 or eb5.
pub(crate) fn key_of(token: &[u8]) -> Option<u32> {
    let (letter, rest) = token.split_first()?;
    let semitone = semitone_of(*letter)?;
    let (raised, octave) = match rest.split_first()? {
        (b'#', octave) => (semitone.saturating_add(1), octave),
        (b'b', octave) => (semitone.saturating_sub(1), octave),
        _ => (semitone, rest),
    };
    match octave {
        [digit] if digit.is_ascii_digit() => {
            let octaves = u32::from(*digit)
                .saturating_sub(u32::from(b'0'))
                .saturating_add(1);
            Some(octaves.saturating_mul(12).saturating_add(raised))
        }
        _ => None,
    }
}

fn semitone_of(letter: u8) -> Option<u32> {
    match letter {
        b'c' | b'C' => Some(0),
        b'd' | b'D' => Some(2),
        b'e' | b'E' => Some(4),
        b'f' | b'F' => Some(5),
        b'g' | b'G' => Some(7),
        b'a' | b'A' => Some(9),
        b'b' | b'B' => Some(11),
        _ => None,
    }
}

// The frames of a time in seconds with a fraction, such as 0.5.
fn frames_of(token: &[u8]) -> Option<u64> {
    let length = token.iter().take_while(|byte| **byte != b'.').count();
    let whole = token.get(..length)?;
    let fraction = match token.get(length..)? {
        [b'.', fraction @ ..] => fraction,
        _ => return None,
    };
    if !is_digits(whole) || !is_digits(fraction) || token.len() > 10 {
        return None;
    }
    let seconds = digits_value(whole).saturating_mul(44_100);
    let parts = digits_value(fraction)
        .saturating_mul(44_100)
        .checked_div(power_of_ten(fraction.len()))?;
    Some(seconds.saturating_add(parts))
}

fn digits_value(digits: &[u8]) -> u64 {
    let mut value = 0u64;
    for digit in digits {
        value = value
            .saturating_mul(10)
            .saturating_add(u64::from(digit.saturating_sub(b'0')));
    }
    value
}

fn power_of_ten(exponent: usize) -> u64 {
    let mut power = 1u64;
    for _digit in 0..exponent {
        power = power.saturating_mul(10);
    }
    power
}
