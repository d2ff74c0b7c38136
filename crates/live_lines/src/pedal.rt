//! The sustain pedal of a preset.
ghost use Rattle.live_lines.specs.Requests.{positions, position_word};

use script_grammar::HasWord;

/// The preset whose notes a pedal holds.
#[derive(Debug, Clone, Copy, PartialEq, Eq)]
pub struct Pedal {
    /// The bank number of the preset.
    pub bank: u16,
    /// The number of the preset.
    pub number: u16,
}

/// Where a pedal is moved to.
#[derive(Debug, Clone, Copy, PartialEq, Eq)]
pub enum PedalPosition {
    /// Pressed: releases of the preset's notes are held back.
    On,
    Off,
}

/// A pedal that is pressed or released.
#[derive(Debug, Clone, Copy, PartialEq, Eq)]
pub struct PedalMove {
    pub position: PedalPosition,
    pub pedal: Pedal,
}

static POSITIONS: [PedalPosition; 2] = [PedalPosition::On, PedalPosition::Off];

impl HasWord for PedalPosition {
    ghost all = { positions };

    ghost word_of = { position_word };

    fn all() -> &'static [PedalPosition] {
        &POSITIONS
    }

    fn word(self) -> &'static [u8] {
        match self {
            PedalPosition::On => b"on",
            PedalPosition::Off => b"off",
        }
    }
}
