//! One note.
ghost use Rattle.std.specs.Prelude.{◌≡◌, ◌+◌, ◌≤◌};
ghost use Rattle.script_notes.specs.declared.limits.TheConstants.{LAST_FRAME, HIGHEST_KEY, HIGHEST_VELOCITY};
ghost use Rattle.script_notes.specs.Notes.{note_of};

use crate::limits::{HIGHEST_KEY, HIGHEST_VELOCITY, LAST_FRAME};
use std::marker::Model;

/// A note to be played. It ends at frame 100,000,000 at the latest, and its key and velocity are at most 127.
#[derive(Debug, Clone, Copy, PartialEq, Eq)]
pub struct Note {
    start: u32,
    length: u32,
    bank: u16,
    number: u16,
    key: u8,
    velocity: u8,
}

impl Model for Note {
    ghost use Rattle.script_notes.specs.Notes.{Numbers, IsNote};

    ghost Value = { Numbers };

    ghost view = { λ n. record { start = n.start; length = n.length; bank = n.bank; number = n.number; key = n.key; velocity = n.velocity } };

    ghost invariant = { λ n. IsNote (record { start = n.start; length = n.length; bank = n.bank; number = n.number; key = n.key; velocity = n.velocity }) };

    ghost inverse = { λ n. record { start = n.start; length = n.length; bank = n.bank; number = n.number; key = n.key; velocity = n.velocity } };
}

impl Note {
    /// The note with these numbers, or `None` if it would end after frame 100,000,000, or its key or velocity
    /// is above 127.
    #[tactic(auto, unfolding(crate::specs::Notes::note_of))]
    pub fn new(
        start: u32,
        length: u32,
        bank: u16,
        number: u16,
        key: u8,
        velocity: u8,
    ) -> Option<Note>
        ensures { result ≡ note_of (record { start = start; length = length; bank = bank; number = number; key = key; velocity = velocity }) }
    {
        let end = u64::from(start) + u64::from(length);
        if end > LAST_FRAME || key > HIGHEST_KEY || velocity > HIGHEST_VELOCITY {
            return None;
        }
        Some(Note {
            start,
            length,
            bank,
            number,
            key,
            velocity,
        })
    }

    /// The frame at which the note starts.
    pub fn start(&self) -> u32
        ensures value { result ≡ self.now.start }
        ensures ends { self.now.start + self.now.length ≤ LAST_FRAME }
    {
        self.start
    }

    /// The number of frames for which the note is held.
    pub fn length(&self) -> u32
        ensures value { result ≡ self.now.length }
        ensures ends { self.now.start + self.now.length ≤ LAST_FRAME }
    {
        self.length
    }

    /// The bank number of the note's preset.
    pub fn bank(&self) -> u16
        ensures { result ≡ self.now.bank }
    {
        self.bank
    }

    /// The number of the note's preset.
    pub fn number(&self) -> u16
        ensures { result ≡ self.now.number }
    {
        self.number
    }

    /// The key, from 0 to 127; 60 is middle C.
    pub fn key(&self) -> u8
        ensures value { result ≡ self.now.key }
        ensures within { result ≤ HIGHEST_KEY }
    {
        self.key
    }

    /// The velocity, from 0 to 127.
    pub fn velocity(&self) -> u8
        ensures value { result ≡ self.now.velocity }
        ensures within { result ≤ HIGHEST_VELOCITY }
    {
        self.velocity
    }
}
