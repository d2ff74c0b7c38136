//! The request of a line.
use crate::paths::{FilePath, Paths};
use crate::pedal::PedalMove;
use edit_forms::Edit;
use script_notes::Note;

/// The most frames of one request.
pub const MOST_FRAMES: u32 = 100_000_000;

/// A key of a preset, by which a pressed note is released.
#[derive(Debug, Clone, Copy, PartialEq, Eq)]
pub struct Key {
    /// The bank number of the preset.
    pub bank: u16,
    /// The number of the preset.
    pub number: u16,
    /// The key, from 0 to 127.
    pub key: u8,
}

/// The request of a line of a live session. An edit borrows the bytes of its literals from the pool; paths also borrow
/// from the line.
#[derive(Drop)]
pub enum Request<'t, 'p> {
    /// An edit of the bank.
    Edit(Edit<'p>),
    /// An edit that is refused if it may change the sound.
    Neutral(Edit<'p>),
    Undo,
    Redo,
    /// A note that starts now: its start is 0.
    Note(Note),
    /// A note that starts now and lasts until its release, at most 100,000,000 frames: its start is 0.
    Press(Note),
    /// Releases the note of this key that was pressed first.
    Release(Key),
    /// Presses or releases the pedal of a preset.
    Pedal(PedalMove),
    /// Releases all notes and pedals.
    Silence,
    /// Ends all voices at once.
    Stop,
    /// The next frames, up to 100,000,000.
    Frames(u32),
    /// Writes the notes so far to a note list.
    Record(FilePath<'t>),
    /// Saves the bank and its undo script to two files.
    Save(Paths<'t>),
    /// How many voices sound, and how many notes are held.
    Voices,
    /// The peak and the clipped frames since the last time.
    Meter,
    /// The listing of the bank.
    Show,
    Help,
    Quit,
}
