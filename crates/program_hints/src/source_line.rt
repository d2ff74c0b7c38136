//! The line of a script, a note list or a table that a fault is about.

use crate::note_hints::{LIST_FIELDS, remark_on_note};
use crate::remarks::Remarks;
use crate::row_hints::remark_on_zone;
use crate::script_hints::remark_on_edit;
use script_tokens::Lines;
use script_trials::Span;
use std::alloc::Global;

/// The longest part of a line that is shown, in bytes.
const LONGEST: usize = 160;

/// The byte order mark of UTF-8.
const BYTE_ORDER_MARK: &[u8] = b"\xef\xbb\xbf";

/// Shows a line of a script, counted from 1, and says what is wrong in it if it `is_faulty`.
pub fn remark_on_script(
    alloc: Global,
    script: &[u8],
    number: u64,
    is_faulty: bool,
    remarks: &mut Remarks,
) {
    let Some(line) = line_of(script, number) else {
        return;
    };
    show(line, remarks);
    if is_faulty && !remark_on_file(line, b"script", remarks) {
        remark_on_edit(alloc, line, remarks);
    }
}

/// Shows a line of a note list, counted from 1, and says what is wrong in it if it `is_faulty`.
pub fn remark_on_notes(notes: &[u8], number: u64, is_faulty: bool, remarks: &mut Remarks) {
    let Some(line) = line_of(notes, number) else {
        return;
    };
    show(line, remarks);
    if is_faulty && !remark_on_file(line, b"note list", remarks) {
        remark_on_note(line, &LIST_FIELDS, remarks);
    }
}

/// Shows a line of the table of a kit, counted from 1, and says what is wrong in it if it `is_faulty`. It isn't where
/// only the recording that it names can't be read or imported.
pub fn remark_on_row(table: &[u8], number: u64, is_faulty: bool, remarks: &mut Remarks) {
    let Some(line) = line_of(table, number) else {
        return;
    };
    show(line, remarks);
    if is_faulty && !remark_on_file(line, b"table", remarks) {
        remark_on_zone(line, remarks);
    }
}

// The line without the carriage return of a line end.
fn line_of(text: &[u8], number: u64) -> Option<&[u8]> {
    let index = usize::try_from(number.checked_sub(1)?).ok()?;
    let line = Lines::of(text).nth(index)?;
    match line.split_last() {
        Some((&b'\r', rest)) => Some(rest),
        _ => Some(line),
    }
}

// Says of a line by which a file of another kind begins what it is. Returns whether it is one.
fn remark_on_file(line: &[u8], expected: &[u8], remarks: &mut Remarks) -> bool {
    if line.starts_with(BYTE_ORDER_MARK) {
        remarks.line(&[
            b"The text begins with a byte order mark: save it as plain text, or as UTF-8 without BOM.",
        ]);
    } else if line.starts_with(b"RIFF") {
        remarks.line(&[b"This is a bank or a WAVE file, not a ", expected, b"."]);
    } else if line.starts_with(b"MThd") {
        remarks.line(&[
            b"This is a MIDI file. First run: sfbank-notes-of-midi FILE.mid > notes.txt",
        ]);
    } else {
        return false;
    }
    true
}

/// Shows a line: its first 160 bytes, with a blank in the place of each tab, and `?` in that of each other character
/// that is not a printable ASCII character.
pub(crate) fn show(line: &[u8], remarks: &mut Remarks) {
    remarks.put(b"    ");
    for byte in line.iter().take(LONGEST) {
        if is_shown(*byte) {
            remarks.put(&[printable(*byte)]);
        }
    }
    remarks.put(b"\n");
}

/// Puts a caret under each character of a token.
pub(crate) fn put_caret(line: &[u8], span: Span, remarks: &mut Remarks) {
    if span.end > LONGEST {
        return;
    }
    put_margin(line, span.start, remarks);
    for byte in span.of(line) {
        if is_shown(*byte) {
            remarks.put(b"^");
        }
    }
    remarks.put(b"\n");
}

/// Puts a caret where something is missing, after a position of the line.
pub(crate) fn put_missing(line: &[u8], end: usize, remarks: &mut Remarks) {
    if end >= LONGEST {
        return;
    }
    put_margin(line, end, remarks);
    remarks.put(b" ^ something is missing here\n");
}

// Puts blanks under the characters before a position.
fn put_margin(line: &[u8], end: usize, remarks: &mut Remarks) {
    remarks.put(b"    ");
    for byte in line.iter().take(end) {
        if is_shown(*byte) {
            remarks.put(b" ");
        }
    }
}

/// Puts a name, with `?` in the place of each byte that is not a printable ASCII character.
pub(crate) fn put_printable(name: &[u8], remarks: &mut Remarks) {
    for byte in name {
        remarks.put(&[printable(*byte)]);
    }
}

// Whether a byte begins a character, in UTF-8.
fn is_shown(byte: u8) -> bool {
    byte & 0xc0 != 0x80
}

fn printable(byte: u8) -> u8 {
    match byte {
        b' '..=b'~' => byte,
        b'\t' => b' ',
        _ => b'?',
    }
}
