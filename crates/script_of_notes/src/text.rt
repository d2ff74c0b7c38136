//! The line of a note.
ghost use Rattle.std.specs.Prelude.{◌≡◌};
ghost use Rattle.base_outputs.specs.Output.{Puts};
ghost use Rattle.script_of_notes.specs.NoteTexts.{note_text};

use base_outputs::Output;
use itoa::Buffer;
use script_notes::Note;
use script_tokens::{Piece, put_line};
use std::io::Write;

/// Puts the line of a note: its start and length in frames, the bank number and number of its preset, its key and its
/// velocity. Allocates nothing.
pub fn put_note<W: Write>(note: &Note, output: &mut Output<'_, W>)
    ensures { Puts W.contents output.old output.new (note_text note.now) }
{
    let mut digits = Buffer::new();
    let start = digits.format(note.start()).as_bytes();
    put_line(
        start,
        &[
            Piece::Number(u64::from(note.length())),
            Piece::Number(u64::from(note.bank())),
            Piece::Number(u64::from(note.number())),
            Piece::Number(u64::from(note.key())),
            Piece::Number(u64::from(note.velocity())),
        ],
        output,
    );
}
