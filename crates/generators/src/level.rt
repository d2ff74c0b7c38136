//! The two levels of zones.
ghost use Rattle.std.specs.Prelude.{◌≡◌};

use crate::operators;

/// Preset level or instrument level.
#[derive(Debug, Clone, Copy, PartialEq, Eq)]
pub enum Level {
    Preset,
    Inst,
}

impl Level {
    ghost use Rattle.generators.specs.Levels.{target_operator};

    /// The operator whose amount is a zone's target: the number of an instrument or of a sample.
    pub fn target_operator(self) -> u16
        ensures { result ≡ target_operator self }
    {
        match self {
            Level::Preset => operators::INSTRUMENT,
            Level::Inst => operators::SAMPLE_ID,
        }
    }
}
