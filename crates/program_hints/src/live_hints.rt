//! What helps with a faulty line of a live session.

use crate::forms::{Form, Near, nearest_form};
use crate::live_forms::{command_of, nearest_command};
use crate::note_hints::{LIVE_FIELDS, PRESSED_FIELDS, RELEASED_FIELDS, remark_on_fields};
use crate::remarks::Remarks;
use crate::script_hints::remark_on_edit;
use crate::source_line::{put_caret, show};
use crate::word_hints::is_digits;
use script_trials::{Span, malformed_literal, span_at};
use std::alloc::Global;

/// Shows a faulty line of a live session, and says what is wrong in it.
pub fn remark_on_live_line(alloc: Global, line: &[u8], remarks: &mut Remarks) {
    let Some(first) = span_at(line, 0) else {
        return;
    };
    show(line, remarks);
    match first.of(line) {
        b"note" => remark_on_fields(line, &LIVE_FIELDS, 1, remarks),
        b"press" => remark_on_fields(line, &PRESSED_FIELDS, 1, remarks),
        b"release" => remark_on_fields(line, &RELEASED_FIELDS, 1, remarks),
        word => match command_of(word) {
            Some(command) => remark_on_command(alloc, line, command, remarks),
            None => remark_on_other(alloc, line, first, remarks),
        },
    }
}

// Says what follows the word of a command.
fn remark_on_command(alloc: Global, line: &[u8], command: &Form, remarks: &mut Remarks) {
    if !command.operands.is_empty() {
        remark_on_quotes(alloc, line, remarks);
        remarks.line(&[b"The form: ", command.word, b" ", command.operands, b"."]);
        return;
    }
    if let Some(second) = span_at(line, 1) {
        put_caret(line, second, remarks);
    }
    remarks.line(&[b"Nothing follows this word."]);
}

// Says what is wrong with a malformed literal in the place of a path.
fn remark_on_quotes(alloc: Global, line: &[u8], remarks: &mut Remarks) {
    let Some(span) = malformed_literal(alloc, line) else {
        return;
    };
    let token = span.of(line);
    put_caret(line, span, remarks);
    if token.starts_with(b"x") {
        remarks.line(&[
            b"After x there are hex digits. A path that begins with x is in quotes: \"",
            token,
            b"\"",
        ]);
    } else {
        remarks.line(&[
            b"A text in quotes ends with a quote and a blank, and has no quote within.",
        ]);
    }
}

// Says what is wrong in a line that begins with the word of no command: a command that is nearer than any edit is meant.
fn remark_on_other(alloc: Global, line: &[u8], first: Span, remarks: &mut Remarks) {
    let word = first.of(line);
    match (nearest_command(word), nearest_form(word)) {
        (Some(command), Some(form)) if form.changes <= command.changes => {
            remark_on_edit(alloc, line, remarks);
        }
        (Some(command), _) => {
            put_caret(line, first, remarks);
            remark_on_misspelt(command, remarks);
        }
        (None, None) if !is_digits(word) => {
            put_caret(line, first, remarks);
            remarks.line(&[
                b"No command and no edit has this name: help lists the commands, SCRIPT.md the edits.",
            ]);
        }
        (None, _) => remark_on_edit(alloc, line, remarks),
    }
}

fn remark_on_misspelt(command: Near, remarks: &mut Remarks) {
    remarks.line(&[
        b"No command has this name. Perhaps: ",
        command.form.word,
        b" ",
        command.form.operands,
    ]);
}
