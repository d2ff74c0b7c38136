//! Reads the notes of a text.
ghost use Rattle.std.specs.Prelude.{◌≡◌, ◌≤◌, nat_le, length, IfOk};
ghost use Rattle.script_tokens.specs.Parsers.{Reads};
ghost use Rattle.script_tokens.specs.TokenValue.{values_in};
ghost use Rattle.script_tokens.specs.Pool.{Answers};
ghost use Rattle.script_notes.specs.declared.limits.TheConstants.{MOST_NOTES};
ghost use Rattle.script_notes.specs.Notes.{note, with_note, notes_of};

use crate::fault::NoteFault;
use crate::limits::{HIGHEST_KEY, HIGHEST_VELOCITY, MOST_NOTES};
use crate::note::Note;
use script_tokens::{Cursor, LineFault, Lines};
use sf_base::Failure;
use std::alloc::Global;

/// The notes of a text in order, at most 65,535. The error is the first fault, from left to right, or
/// `OutOfMemory`. If a line has several faults, `BadNote` precedes `TooLong`, and `TooLong` precedes
/// `TooManyNotes`.
pub fn parse_notes(alloc: Global, text: &[u8]) -> Result<Vec<Note>, Failure<NoteFault>>
    ensures parsed { Answers (λ notes. notes.items) result (notes_of text.now) }
    ensures few { IfOk result (λ notes. length notes.items ≤ MOST_NOTES) }
{
    let mut notes = Vec::new(alloc);
    let mut number: u64 = 0;
    for line in Lines::of(text) {
        number += 1;
        add_note(&mut notes, number, line)?;
    }
    Ok(notes)
}

// Appends the note of a line, if the line has tokens.
fn add_note(notes: &mut Vec<Note>, number: u64, line: &[u8]) -> Result<(), Failure<NoteFault>>
    requires { length notes.old.items ≤ MOST_NOTES }
    ensures added { Answers (λ _. notes.new.items) result (with_note number (values_in line.now) notes.old.items) }
    ensures few { IfOk result (λ _. length notes.new.items ≤ MOST_NOTES) }
{
    // A note has no literals, so no line needs a pool.
    let mut cursor = Cursor::of(line, &[]);
    if cursor.is_empty() {
        return Ok(());
    }
    match note(&mut cursor) {
        Err(_) => Err(NoteFault::BadNote(number).into()),
        Ok(None) => Err(NoteFault::TooLong(number).into()),
        Ok(Some(note)) => {
            if is_full(notes) {
                return Err(NoteFault::TooManyNotes(number).into());
            }
            notes.push(note)?;
            Ok(())
        }
    }
}

// Reads the note of a line, to its end; `None` if the note ends too late.
#[tactic(auto, unfolding(crate::specs::Notes::note))]
fn note(cursor: &mut Cursor<'_, '_>) -> Result<Option<Note>, LineFault>
    ensures { Reads (λ n. n) note cursor.old cursor.new result }
{
    let start = cursor.number(u32::MAX)?;
    let length = cursor.number(u32::MAX)?;
    let bank = cursor.number(u32::from(u16::MAX))?;
    let number = cursor.number(u32::from(u16::MAX))?;
    let key = cursor.number(u32::from(HIGHEST_KEY))?;
    let velocity = cursor.number(u32::from(HIGHEST_VELOCITY))?;
    cursor.end()?;
    Ok(Note::new(
        start,
        length,
        bank as u16,
        number as u16,
        key as u8,
        velocity as u8,
    ))
}

// Whether the list has the maximum number of notes.
fn is_full(notes: &Vec<Note>) -> bool
    ensures { result ≡ nat_le MOST_NOTES (length notes.now.items) }
{
    notes.len() >= MOST_NOTES
}
